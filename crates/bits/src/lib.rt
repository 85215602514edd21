// Words of bits: an exchange of bits, and a function that is held as a table over the nibbles.
#![tactic(auto)]

ghost use Rattle.std.specs.Prelude.{◌≡◌, ◌*◌, ◌/◌, ◌%◌, ◌^◌, ◌<◌, ◌≤◌, length};
ghost use Rattle.bits.specs.Exchange.{exchanged};
ghost use Rattle.bits.specs.Nibbled.{looked};

// Each bit of the mask changes places with the one n places to its left.
pub fn exchange(w: u64, n: u64, mask: u64) -> u64
    requires { n < 64 }
    ensures { result ≡ exchanged n mask w }
{
    let apart = (w ^ (w >> n)) & mask;
    w ^ apart ^ (apart << n)
}

// The nibble n places from the right, to index with.
fn nibble_at(w: u64, n: usize) -> usize
    requires { n < 16 }
    ensures { (result ≡ w / 2 ^ (4 * n) % 16) × (result < 16) }
{
    ((w >> (4 * n)) % 16) as usize
}

// What a table has for a word: sixteen numbers for each of its nibbles, from the lowest.
pub fn look_up(table: &[u64], w: u64) -> u64
    requires { length table.now ≤ 256 }
    ensures { result ≡ looked table.now (length table.now / 16) w }
{
    let mut sum: u64 = 0;
    for i in 0..table.len() / 16 {
        sum ^= table[i * 16 + nibble_at(w, i)];
    }
    sum
}

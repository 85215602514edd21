// Nibbles by shift and mask, and rows of nibbles held in words: the first nibble is the lowest.
#![tactic(auto)]

ghost use Rattle.std.specs.Prelude.{◌≡◌, ◌++◌, ◌+◌, ◌-◌, ◌*◌, ◌/◌, ◌^◌, ◌<◌, ◌≤◌, length, get_or, drop, bit_and};
ghost use Rattle.std.proofs.Math.Seq.{slice};
ghost use Rattle.nibbles.specs.Nibbles.{nibs, packs, word, row, within, leading};

// The low nibble of each byte of a word.
const LOW: u64 = 0x0f0f_0f0f_0f0f_0f0f;

// The nibble at place i of a row.
pub fn nibble(w: u64, i: usize) -> u64
    requires { i < 16 }
    ensures { result ≡ get_or (row 16 w) i 0 }
{
    (w >> (4 * i)) & 15
}

// The n nibbles from place `from` on, as a row of their own.
pub fn part(w: u64, from: usize, n: usize) -> u64
    requires { (from < 16) × (n < 16) × (from + n ≤ 16) }
    ensures { result ≡ word (slice from (from + n) (row 16 w)) }
{
    (w >> (4 * from)) % (1 << (4 * n))
}

// A row of n nibbles with another behind it.
pub fn join(head: u64, n: usize, tail: u64) -> u64
    requires { (n < 16) × (head < 16 ^ n) × (tail < 16 ^ (16 - n)) }
    ensures { result ≡ tail * 16 ^ n + head }
{
    (tail << (4 * n)) + head
}

// The two nibbles of each byte of a word change places: the high one is written first, and a row's first is the lowest.
fn exchanged(w: u64) -> u64
    ensures { result ≡ bit_and w LOW * 16 + bit_and (w / 16) LOW }
{
    (w & LOW) * 16 + ((w >> 4) & LOW)
}

// The row of at most eight bytes. They are gathered as they stand, which the compiler does at one stroke.
pub fn row_of(bytes: &[u8]) -> u64
    requires { length bytes.now ≤ 8 }
    ensures { result ≡ word (nibs bytes.now) }
{
    let mut w: u64 = 0;
    for (i, b) in bytes.iter().enumerate() {
        w += (*b as u64) << (8 * i);
    }
    exchanged(w)
}

// Packs a row of sixteen nibbles into the first eight bytes of `out`.
pub fn put_bytes(w: u64, out: &mut [u8])
    requires { 8 ≤ length out.old }
    ensures { out.new ≡ packs (row 16 w) ++ drop 8 out.old }
{
    out[..8].copy_from_slice(&exchanged(w).to_le_bytes());
}

// Writes the first n nibbles of a row to `out`, one to a byte.
#[tactic(auto, using(crate::proofs::Rows::row_at_lt))]
pub fn put_nibbles(w: u64, n: usize, out: &mut [u8])
    requires { (n ≤ 16) × (n ≤ length out.old) }
    ensures { out.new ≡ row n w ++ drop n out.old }
{
    for i in 0..n {
        out[i] = nibble(w, i) as u8;
    }
}

// The place of the first nibble from `from` on that is not from low to high, or `to` where all before `to` are.
pub fn run_end(w: u64, from: usize, to: usize, low: u64, high: u64) -> usize
    requires { (from ≤ to) × (to ≤ 16) }
    ensures { result ≡ from + length (leading (within low high) (slice from to (row 16 w))) }
{
    for i in from..to {
        let n = nibble(w, i);
        if n < low || high < n {
            return i;
        }
    }
    to
}

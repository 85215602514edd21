// Odd parity of a key.
#![tactic(auto)]

ghost use Rattle.std.specs.Prelude.{◌≡◌};
ghost use Rattle.parity.specs.Parity.{is_odd, odd_parity, folded};

// A byte folded upon itself three times: its last bit is then the exclusive or of all eight.
#[tactic(auto, unfolding(crate::specs::Parity::folded))]
fn fold(b: u8) -> u8
    ensures { result ≡ folded b }
{
    let halves = b ^ (b >> 4);
    let quarters = halves ^ (halves >> 2);
    (quarters ^ (quarters >> 1)) % 2
}

fn is_odd(b: u8) -> bool
    ensures { result ≡ is_odd b }
{
    fold(b) == 1
}

// Whether every byte of a key has an odd number of ones.
pub fn odd_parity(key: &[u8]) -> bool
    ensures { result ≡ odd_parity key.now }
{
    key.iter().all(|b| is_odd(*b))
}

// Digits as characters: the values of a run of characters as a row of nibbles in a word, and a row written as characters.
#![tactic(auto)]

ghost use Rattle.std.specs.Prelude.{ℕ, ◌≡◌, ◌++◌, map, true, ◌<◌, ◌≤◌, length, get_or, drop};
ghost use Rattle.nibbles.specs.Nibbles.{word, row, leading};
ghost use Rattle.alphabet.specs.Alphabet.{admits, all_of, value_of, characters};

use alphabet::Class;

// The row of at most sixteen characters, each read by `value`.
fn row_by<F: Fn(u8) -> u8>(s: &[u8], value: F) -> u64
    requires few { length s.now ≤ 16 }
    requires takes { (i : ℕ) → i < length s.now → F.pre value (get_or s.now i 0) }
    requires reads { (i r : ℕ) → i < length s.now → F.post value (get_or s.now i 0) r → r ≡ value_of (get_or s.now i 0) }
    ensures { result ≡ word (map value_of s.now) }
{
    let mut w = 0;
    for i in (0..s.len()).rev() {
        w = w * 16 + value(s[i]) as u64;
    }
    w
}

// The values of at most sixteen characters, as a row.
pub fn values(s: &[u8]) -> u64
    requires { length s.now ≤ 16 }
    ensures { result ≡ word (map value_of s.now) }
{
    row_by(s, alphabet::value)
}

// The values of at most sixteen digits, as a row: no letter need be thought of, so that each is one mask.
pub fn digits(s: &[u8]) -> u64
    requires { (length s.now ≤ 16) × (all_of Class.Digit s.now ≡ true) }
    ensures { result ≡ word (map value_of s.now) }
{
    row_by(s, alphabet::digit)
}

// Where the characters of a class at the beginning end.
pub fn class_end(class: Class, s: &[u8]) -> usize
    ensures { result ≡ length (leading (admits class) s.now) }
{
    s.iter().position(|c| !class.admits(*c)).unwrap_or(s.len())
}

// Writes n digits to `out` as characters. That is `nibbles::put_nibbles` with another byte: one of both would take a closure and be longer.
#[tactic(auto, using(nibbles::proofs::Rows::row_at_lt))]
pub fn put_characters(digits: u64, n: usize, out: &mut [u8])
    requires { (n ≤ 16) × (n ≤ length out.old) }
    ensures { out.new ≡ characters (row n digits) ++ drop n out.old }
{
    for i in 0..n {
        out[i] = 0x30 + nibbles::nibble(digits, i) as u8;
    }
}

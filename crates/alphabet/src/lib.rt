// Which characters a field is made of, and what a character stands for.
#![tactic(auto)]

ghost use Rattle.std.specs.Prelude.{◌≡◌, true, ◌-◌, ◌≤◌, length, drop};
ghost use Rattle.std.proofs.Math.Seq.{slice};
ghost use Rattle.alphabet.specs.Alphabet.{admits, all_of, begins, value_of};

#[derive(Clone, Copy)]
pub enum Class {
    Digit,
    CapitalHex,
    Printable,
}

impl Class {
    // A pattern for each range of a hex character: of one for both the compiler makes branches, and takes no sixteen at a time.
    pub fn admits(self, c: u8) -> bool
        ensures { result ≡ admits self c }
    {
        match self {
            Class::Digit => matches!(c, b'0'..=b'9'),
            Class::CapitalHex => matches!(c, b'0'..=b'9') || matches!(c, b'A'..=b'F'),
            Class::Printable => matches!(c, 0x20..=0x7e),
        }
    }
}

// Whether every character from `from` to before `to` is of the class. It goes on behind a wrong one: the compiler takes
// turns that do not hang on one another sixteen at a time.
pub fn all_of(class: Class, s: &[u8], from: usize, to: usize) -> bool
    requires { (from ≤ to) × (to ≤ length s.now) }
    ensures { result ≡ all_of class (slice from to s.now) }
{
    let mut good = true;
    for c in &s[from..to] {
        good &= class.admits(*c);
    }
    good
}

// How many characters there are from a place on.
pub fn ahead(s: &[u8], from: usize) -> usize
    ensures { result ≡ length s.now - from }
{
    s.len().saturating_sub(from)
}

// Whether a fixed text stands at a place. Most do not: `==` looks at the first bytes before it calls anything, `starts_with` does not.
pub fn has_at(s: &[u8], from: usize, text: &[u8]) -> bool
    ensures { result ≡ begins text.now (drop from s.now) }
{
    let rest = &s[from.min(s.len())..];
    text.len() <= rest.len() && text == &rest[..text.len()]
}

// What a digit or a hex letter stands for.
#[tactic(auto, unfolding(crate::specs::Alphabet::value_of))]
pub fn value(c: u8) -> u8
    ensures { result ≡ value_of c }
{
    if 0x41 <= c {
        (c - 0x37) % 16
    } else if 0x30 <= c {
        (c - 0x30) % 16
    } else {
        0
    }
}

// What a digit stands for.
pub fn digit(c: u8) -> u8
    requires { admits Class.Digit c ≡ true }
    ensures { result ≡ value_of c }
{
    c & 15
}

// An offset as characters: written, and presented.
#![tactic(auto)]

ghost use Rattle.std.specs.Prelude.{◌≡◌, ◌++◌, ◌≤◌, length, drop};
ghost use Rattle.nibbles.specs.Nibbles.{row, within, every};
ghost use Rattle.pins.specs.Answers.{reading_of};
ghost use Rattle.offsettexts.specs.OffsetTexts.{offset_text, offset_presented};

use alphabet::Class;
use numbers::Refusal;
use pins::Pin;

// Writes an offset of m digits as 12 characters, the digits and then F.
pub fn put_offset(m: usize, digits: u64, out: &mut [u8])
    requires { (m ≤ 12) × (12 ≤ length out.old) }
    ensures { out.new ≡ offset_text (row m digits) ++ drop 12 out.old }
{
    spelling::put_characters(digits, m, out);
    out[m..12].fill(b'F');
}

// Whether every character is F.
fn only_f(s: &[u8]) -> bool
    ensures { result ≡ every (within 0x46 0x46) s.now }
{
    s.iter().all(|c| *c == b'F')
}

// An offset that is presented: 4 to 12 digits, then only F.
#[tactic(auto, using(nibbles::proofs::Runs::leading_le))]
pub fn presented(characters: &[u8]) -> Result<Pin, Refusal>
    ensures { result ≡ reading_of (offset_presented characters.now) }
{
    if characters.len() != 12 {
        return Err(Refusal::Field15);
    }
    let n = spelling::class_end(Class::Digit, characters);
    if n < 4 {
        return Err(Refusal::Field15);
    }
    let (digits, fill) = characters.split_at(n);
    if !only_f(fill) {
        return Err(Refusal::Field15);
    }
    Ok(Pin {
        length: n,
        digits: spelling::values(digits),
    })
}

// The natural PIN, through the decimalisation table.
#![tactic(auto)]

ghost use Rattle.std.specs.Prelude.{◌≡◌, map, ◌≤◌};
ghost use lib.ListN.{length};
ghost use Rattle.nibbles.specs.Nibbles.{row};
ghost use Rattle.numbers.specs.Promise.{Does, quietly};
ghost use Rattle.alphabet.specs.Alphabet.{value_of};
ghost use Rattle.pins.specs.Answers.{pin_of, reading_of};
ghost use Rattle.naturals.specs.Naturals.{natural_of, natural_pin};
ghost use Rattle.naturals.specs.Answers.{Decimal};

use alphabet::Class;
use numbers::{Refusal, Reply};
use pins::Pin;

// The natural PIN of n digits: the first of the enciphered block, through the table. At most n of its sixteen characters are looked up.
pub fn natural(n: usize, table: &[u8], enciphered: u64) -> Pin
    requires { (n ≤ 16) × Decimal table.now }
    ensures { result ≡ pin_of (natural_of n (map value_of table.now) (row 16 enciphered)) }
{
    let mut w: u64 = 0;
    for i in (0..n).rev() {
        let nibble = nibbles::nibble(enciphered, i) as usize;
        w = w * 16 + u64::from(alphabet::digit(table[nibble]));
    }
    Pin {
        length: n,
        digits: w,
    }
}

// Judges the call that makes a natural PIN: 901, 15 for table and enciphered block, 25, 24.
#[tactic(auto, using(crate::proofs::Laws::table_judged), unfolding(crate::specs::Naturals::natural_pin))]
fn judged_natural(length: u32, table: &[u8], enciphered: &[u8], room: usize) -> Result<Pin, Refusal>
    ensures { result ≡ reading_of (natural_pin length table.now enciphered.now room) }
{
    if room < 12 {
        return Err(Refusal::Room901);
    }
    if table.len() != 16 {
        return Err(Refusal::Field15);
    }
    let cipher = pins::sized_row(enciphered, 8)?;
    if !alphabet::all_of(Class::Digit, table, 0, 16) {
        return Err(Refusal::Table25);
    }
    let n = pins::pin_length(length as usize)?;
    Ok(natural(n, table, cipher))
}

// Makes a natural PIN and writes its digits as values.
pub fn natural_pin(length: u32, table: &[u8], enciphered: &[u8], out: &mut [u8]) -> Reply
    ensures { Does (quietly (natural_pin length table.now enciphered.now (lib.ListN.length out.old))) out.old result out.new }
{
    answers::answer_digits(judged_natural(length, table, enciphered, out.len()), out)
}

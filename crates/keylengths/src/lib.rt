// The version and the length of a key block.
#![tactic(auto)]

ghost use Rattle.std.specs.Prelude.{◌≡◌, ◌+◌, ◌≤◌, length, drop};
ghost use Rattle.fields.specs.Answers.{found_at};
ghost use Rattle.keylengths.specs.KeyLengths.{said_length, block_length};

use alphabet::Class;
use fields::Cursor;
use numbers::Refusal;

// The length that a key block says it has.
#[tactic(auto, using(alphabet::proofs::Laws::value_below, crate::proofs::Laws::said_ahead))]
fn said_length(command: &[u8], at: usize) -> usize
    requires { at + 5 ≤ length command.now }
    ensures { result ≡ said_length (drop at command.now) }
{
    let hundreds = fields::two_digits(command[at + 1], command[at + 2]);
    hundreds * 100 + fields::two_digits(command[at + 3], command[at + 4])
}

// The version and the length of a key block.
#[tactic(auto, using(crate::proofs::Laws::length_parts), unfolding(crate::specs::KeyLengths::block_length))]
pub fn block_length(cursor: Cursor, command: &[u8]) -> Result<(usize, Cursor), Refusal>
    ensures { result ≡ found_at cursor.at (block_length (drop cursor.at command.now)) }
{
    let (_, next) = cursor.run(command, 5, Class::Digit, Refusal::Field15, Refusal::Key26)?;
    let at = cursor.at;
    if 1 < alphabet::value(command[at]) {
        return Err(Refusal::Key26);
    }
    let length = said_length(command, at);
    if !(16..=512).contains(&length) {
        return Err(Refusal::Key26);
    }
    Ok((length, next))
}

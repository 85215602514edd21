// The offset of a command that presents one: its field.
#![tactic(auto)]

ghost use Rattle.std.specs.Prelude.{◌≡◌, drop};
ghost use Rattle.fields.specs.Answers.{found_at};
ghost use Rattle.offsetfield.specs.OffsetField.{offset_field};

use fields::Cursor;
use numbers::Refusal;

// How many digits the offset has, in its twelve characters.
#[tactic(auto, using(crate::proofs::Reading::offset_short, crate::proofs::Reading::offset_wrong, crate::proofs::Reading::offset_whole))]
pub fn offset_field(cursor: Cursor, command: &[u8]) -> Result<(usize, Cursor), Refusal>
    ensures { result ≡ found_at cursor.at (offset_field (drop cursor.at command.now)) }
{
    let from = cursor.at;
    if alphabet::ahead(command, from) < 12 {
        return Err(Refusal::Field15);
    }
    let to = from + 12;
    let offset = offsettexts::presented(&command[from..to])?;
    Ok((offset.length, Cursor { at: to }))
}

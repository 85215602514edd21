// The format of a command: its field, and which formats are allowed in it.
#![tactic(auto)]

ghost use Rattle.std.specs.Prelude.{◌≡◌, drop};
ghost use Rattle.fields.specs.Answers.{found_at};
ghost use Rattle.formatfield.specs.FormatField.{allows, format_field};

use fields::Cursor;
use formats::Format;
use numbers::Refusal;

fn allowed(restricted: bool, format: Format) -> bool
    ensures { result ≡ allows restricted format }
{
    !restricted || format.is_01_or_47()
}

// The format: 15, then 23, then 69.
#[tactic(auto, using(fields::proofs::Laws::number_read), unfolding(crate::specs::FormatField::format_field))]
pub fn format_field(
    cursor: Cursor,
    command: &[u8],
    restricted: bool,
) -> Result<(Format, Cursor), Refusal>
    ensures { result ≡ found_at cursor.at (format_field restricted (drop cursor.at command.now)) }
{
    let (code, next) = cursor.number(command, 0, 99, Refusal::Field15)?;
    let format = codes::chosen(code as u32)?;
    if !allowed(restricted, format) {
        return Err(Refusal::NotHere69);
    }
    Ok((format, next))
}

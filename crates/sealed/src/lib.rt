// A stage of commands: PIN block and format.
#![tactic(auto)]

ghost use Rattle.std.specs.Prelude.{◌≡◌};
ghost use Rattle.fields.specs.Answers.{stage_of};
ghost use Rattle.sealed.specs.Sealed.{sealed};

use alphabet::Class;
use fields::{Cursor, Fault};
use formats::Format;
use numbers::Refusal;

// Where the PIN block stands, and its format.
#[derive(Clone, Copy)]
pub struct Sealed {
    pub block: usize,
    pub format: Format,
}

// PIN block and format.
#[tactic(auto, unfolding(crate::specs::Sealed::sealed))]
pub fn read_sealed(
    command: &[u8],
    block: Cursor,
    field: u8,
    restricted: bool,
) -> Result<(Sealed, Cursor), Fault>
    ensures { result ≡ stage_of (sealed field restricted command.now block.at) }
{
    let one = usize::from(field);
    let other = one + 1;
    let missing = Refusal::Field15;
    let digits = block.run(command, 16, Class::CapitalHex, missing, missing);
    let (_, at_format) = digits.map_err(|q| fields::fault_at(q, one, block))?;
    let chosen = formatfield::format_field(at_format, command, restricted);
    let (format, next) = chosen.map_err(|q| fields::fault_at(q, other, at_format))?;
    let sealed = Sealed {
        block: block.at,
        format,
    };
    Ok((sealed, next))
}

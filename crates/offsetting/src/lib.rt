// A stage of commands: check length, account, decimalisation table and validation data.
#![tactic(auto)]

ghost use Rattle.std.specs.Prelude.{◌≡◌};
ghost use Rattle.fields.specs.Answers.{stage_of};
ghost use Rattle.offsetting.specs.Offsetting.{offsetting};

use alphabet::Class;
use fields::{Cursor, Fault};
use numbers::Refusal;
use validation::Shape;

// The check length, and where account, table and validation data stand; the validation data have a shape.
#[derive(Clone, Copy)]
pub struct Offsetting {
    pub check: usize,
    pub account: usize,
    pub table: usize,
    pub validation: usize,
    pub shape: Shape,
}

// Check length, account, decimalisation table and validation data.
#[tactic(auto, using(crate::proofs::Laws::fields_found), unfolding(crate::specs::Offsetting::offsetting))]
pub fn read_offsetting(
    command: &[u8],
    start: Cursor,
    field: u8,
) -> Result<(Offsetting, Cursor), Fault>
    ensures { result ≡ stage_of (offsetting field command.now start.at) }
{
    let short = Refusal::Field15;
    let first = usize::from(field);
    let (check, account) = start
        .number(command, 4, 12, short)
        .map_err(|q| fields::fault_at(q, first, start))?;
    let (_, table) = account
        .run(command, 12, Class::Digit, short, short)
        .map_err(|q| fields::fault_at(q, first + 1, account))?;
    let (_, validation) = table
        .run(command, 16, Class::Digit, short, Refusal::Table25)
        .map_err(|q| fields::fault_at(q, first + 2, table))?;
    let (shape, next) = validationfield::validation_field(validation, command).map_err(
        |q| fields::fault_at(q, first + 3, validation),
    )?;
    let offsetting = Offsetting {
        check,
        account: account.at,
        table: table.at,
        validation: validation.at,
        shape,
    };
    Ok((offsetting, next))
}

// The validation data of a command: their field.
#![tactic(auto)]

ghost use Rattle.std.specs.Prelude.{◌≡◌, drop};
ghost use Rattle.fields.specs.Answers.{found_at};
ghost use Rattle.validation.specs.Validation.{width_of};
ghost use Rattle.validationfield.specs.ValidationField.{validation_field};

use fields::Cursor;
use numbers::Refusal;
use validation::Shape;

// How many characters they must have.
fn validation_width(cursor: Cursor, command: &[u8]) -> usize
    ensures { result ≡ width_of (drop cursor.at command.now) }
{
    match cursor.mark(command, b'P') {
        Some(_) => Shape::WHOLE_WIDTH,
        None => Shape::TEMPLATE_WIDTH,
    }
}

// The validation data; what is read of them is their shape.
#[tactic(auto, using(crate::proofs::Reading::field_read))]
pub fn validation_field(cursor: Cursor, command: &[u8]) -> Result<(Shape, Cursor), Refusal>
    ensures { result ≡ found_at cursor.at (validation_field (drop cursor.at command.now)) }
{
    let at = cursor.at;
    let width = validation_width(cursor, command);
    if alphabet::ahead(command, at) < width {
        return Err(Refusal::Field15);
    }
    let to = at + width;
    let shape = Shape::of(&command[at..to]);
    match shape {
        Shape::Template(_) => Ok((shape, Cursor { at: to })),
        Shape::Whole => Ok((shape, Cursor { at: to })),
        Shape::Neither => Err(Refusal::Field15),
    }
}

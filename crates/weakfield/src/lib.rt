// The field of the weak PINs.
#![tactic(auto)]

ghost use Rattle.std.specs.Prelude.{◌≡◌, ◌≤◌, drop};
ghost use Rattle.weakfield.specs.WeakField.{none_at, listed, weak_field};
ghost use Rattle.fields.specs.Answers.{found_at};

use alphabet::Class;
use fields::Cursor;
use numbers::Refusal;
use weak::Weak;

fn none_at(start: usize) -> Weak
    ensures { result ≡ none_at start }
{
    Weak {
        count: 0,
        length: 0,
        list: start,
    }
}

// The length and the list behind a count.
fn list_behind(count: usize, cursor: Cursor, command: &[u8]) -> Result<(Weak, Cursor), Refusal>
    requires { count ≤ 99 }
    ensures { result ≡ found_at cursor.at (listed cursor.at count (drop cursor.at command.now)) }
{
    if count == 0 {
        return Ok((none_at(cursor.at), cursor));
    }
    let short = Refusal::WeakList03;
    let (length, list) = cursor.number(command, 4, 12, Refusal::Field15)?;
    let (_, next) = list.run(command, count * length, Class::Digit, short, short)?;
    let weak = Weak {
        count,
        length,
        list: list.at,
    };
    Ok((weak, next))
}

// The optional weak list, behind its mark.
pub fn weak_field(cursor: Cursor, command: &[u8], mark: u8) -> Result<(Weak, Cursor), Refusal>
    ensures { result ≡ found_at cursor.at (weak_field mark cursor.at (drop cursor.at command.now)) }
{
    let Some(digits) = cursor.mark(command, mark) else {
        return Ok((none_at(cursor.at), cursor));
    };
    let (count, next) = digits.number(command, 0, 99, Refusal::WeakList03)?;
    list_behind(count, next, command)
}

// Stages of commands: two keys; key type and two keys.
#![tactic(auto)]

ghost use Rattle.std.specs.Prelude.{◌≡◌};
ghost use Rattle.fields.specs.Answers.{stage_of};
ghost use Rattle.keyfields.specs.KeyFields.{key_pair, keys};

use fields::{Cursor, Fault};
use keys::Letters;
use uses::Use;

// The LMK ids of two keys, and the number and the place of the second key's field.
#[derive(Clone, Copy)]
pub struct Keys {
    pub first: Option<usize>,
    pub second: Option<usize>,
    pub field: usize,
    pub place: usize,
}

// Two keys, each with letters of its own. The field's number may be one more than that of a key type.
// Letters and use are no one value: a key type gives the letters, and the command the use.
#[tactic(auto, unfolding(crate::specs::KeyFields::key_pair))]
pub fn read_pair(
    command: &[u8],
    start: Cursor,
    field: u16,
    pinletters: Letters,
    pinkey: Use,
    pvkletters: Letters,
    pvk: Use,
) -> Result<(Keys, Cursor), Fault>
    ensures { result ≡ stage_of (key_pair field pinletters pinkey pvkletters pvk command.now start.at) }
{
    let one = usize::from(field);
    let other = one + 1;
    let pinkey = keys::key_field(start, command, pinletters, pinkey);
    let (first, at_second) = pinkey.map_err(|q| fields::fault_at(q, one, start))?;
    let pvk = keys::key_field(at_second, command, pvkletters, pvk);
    let (second, next) = pvk.map_err(|q| fields::fault_at(q, other, at_second))?;
    let keys = Keys {
        first,
        second,
        field: other,
        place: at_second.at,
    };
    Ok((keys, next))
}

// Key type and two keys.
#[tactic(auto, unfolding(crate::specs::KeyFields::keys))]
pub fn read_keys(
    command: &[u8],
    start: Cursor,
    field: u8,
    first: Use,
    second: Use,
) -> Result<(Keys, Cursor), Fault>
    ensures { result ≡ stage_of (keys field first second command.now start.at) }
{
    let typed = keys::key_type(start, command);
    let (letters, at_first) = typed.map_err(|q| fields::fault_at(q, usize::from(field), start))?;
    read_pair(
        command,
        at_first,
        u16::from(field) + 1,
        letters,
        first,
        letters,
        second,
    )
}

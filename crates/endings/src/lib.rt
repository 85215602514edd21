// The end of a command: LMK id and trailer, then nothing is left over, and the LMK ids agree.
#![tactic(auto)]

ghost use Rattle.std.specs.Prelude.{◌≡◌};
ghost use Rattle.endings.specs.Endings.{all_agree, last_id, end};
ghost use Rattle.endings.specs.Answers.{end_of};

use fields::{Cursor, Fault};
use keyfields::Keys;
use numbers::Refusal;

// Whether the LMK ids that are present all agree.
fn all_agree(keys: Keys, own: Option<usize>) -> bool
    ensures { result ≡ all_agree keys own }
{
    let first = keys.first;
    let second = keys.second;
    lmk::agree(first, second) && lmk::agree(first, own) && lmk::agree(second, own)
}

// The fault of ids that disagree: it stands at the last one that is present.
fn last_id(keys: Keys, own: Option<usize>, field: usize, start: Cursor) -> Fault
    ensures { result ≡ last_id keys own field start.at }
{
    if own.is_some() {
        return fields::fault_at(Refusal::Field15, field, start);
    }
    fields::fault_at(Refusal::Field15, keys.field, Cursor { at: keys.place })
}

// LMK id and trailer; then nothing is left over, and the ids agree. The answer is where the trailer's mark stands, or the
// command's end where there is none.
#[tactic(auto, unfolding(crate::specs::Endings::end))]
pub fn read_end(command: &[u8], start: Cursor, field: u8, keys: Keys) -> Result<usize, Fault>
    ensures { result ≡ end_of (end field keys command.now start.at) }
{
    let one = usize::from(field);
    let other = one + 1;
    let named = lmk::lmk_field(start, command);
    let (own, mark) = named.map_err(|q| fields::fault_at(q, one, start))?;
    let trailing = mark.trailer(command);
    let (_, past) = trailing.map_err(|q| fields::fault_at(q, other, mark))?;
    if past.at < command.len() {
        return Err(fields::fault_at(Refusal::Field15, 0, past));
    }
    if !all_agree(keys, own) {
        return Err(last_id(keys, own, one, start));
    }
    Ok(mark.at)
}

// A stage of commands: the weak list.
#![tactic(auto)]

ghost use Rattle.std.specs.Prelude.{◌≡◌};
ghost use Rattle.weaklist.specs.WeakList.{weak};
ghost use Rattle.fields.specs.Answers.{stage_of};

use fields::{Cursor, Fault};
use weak::Weak;

// The weak list; its mark is the command's.
#[tactic(auto, using(fields::proofs::Laws::field_pointed), unfolding(crate::specs::WeakList::weak))]
pub fn read_weak(
    command: &[u8],
    start: Cursor,
    field: usize,
    mark: u8,
) -> Result<(Weak, Cursor), Fault>
    ensures { result ≡ stage_of (weak field mark command.now start.at) }
{
    weakfield::weak_field(start, command, mark).map_err(|q| fields::fault_at(q, field, start))
}

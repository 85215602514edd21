// The fields of a BK command: its stages joined.
#![tactic(auto)]

ghost use Rattle.std.specs.Prelude.{◌≡◌};
ghost use Rattle.bkfields.specs.BkFields.{bk_fields};
ghost use Rattle.bkfields.specs.Answers.{bk_read};

use fields::{Cursor, Fault};
use offsetting::Offsetting;
use sealed::Sealed;
use uses::Use;
use weak::Weak;

// "ours is the semicolon"
const WEAK_MARK: u8 = b';';

// The fields of a BK: places, and the few values that its finish needs.
#[derive(Clone, Copy)]
pub struct Bk {
    pub sealed: Sealed,
    pub offsetting: Offsetting,
    pub weak: Weak,
    pub trailer: usize,
}

// The fields behind the command code, from the left.
#[tactic(auto, using(fields::proofs::Laws::stage_ok, fields::proofs::Laws::stage_err), unfolding(crate::specs::BkFields::bk_fields))]
pub fn read(restricted: bool, command: &[u8], start: Cursor) -> Result<Bk, Fault>
    ensures { result ≡ bk_read (bk_fields restricted command.now start.at) }
{
    let (keys, at_block) = keyfields::read_keys(command, start, 1, Use::PIN_KEY, Use::PVK)?;
    let (sealed, at_check) = sealed::read_sealed(command, at_block, 4, restricted)?;
    let (offsetting, at_weak) = offsetting::read_offsetting(command, at_check, 6)?;
    let (weak, at_end) = weaklist::read_weak(command, at_weak, 10, WEAK_MARK)?;
    let trailer = endings::read_end(command, at_end, 11, keys)?;
    Ok(Bk {
        sealed,
        offsetting,
        weak,
        trailer,
    })
}

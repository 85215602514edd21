// The fields of DA and EA, which verify a PIN: their stages joined. They differ in the PIN key's use.
#![tactic(auto)]

ghost use Rattle.std.specs.Prelude.{◌≡◌};
ghost use Rattle.fields.specs.Answers.{stage_of};
ghost use Rattle.verifyfields.specs.VerifyFields.{front, verify_fields};
ghost use Rattle.verifyfields.specs.Answers.{verification_read};

use fields::{Cursor, Fault};
use keyfields::Keys;
use keys::Letters;
use numbers::Refusal;
use offsetting::Offsetting;
use sealed::Sealed;
use uses::Use;

const MAXIMUM: usize = 12;

// The setting of restricted formats does not touch DA and EA.
const RESTRICTED: bool = false;

// The fields of a DA or an EA: places, and the few values that its finish needs. The offset has so many digits at its place.
#[derive(Clone, Copy)]
pub struct Verification {
    pub sealed: Sealed,
    pub offsetting: Offsetting,
    pub offset: usize,
    pub digits: usize,
    pub trailer: usize,
}

// What stands before the PIN block: two keys, and the maximum PIN length.
#[tactic(auto, using(crate::proofs::Reading::stages_read), unfolding(crate::specs::VerifyFields::front))]
fn read_front(pinkey: Use, command: &[u8], start: Cursor) -> Result<(Keys, Cursor), Fault>
    ensures { result ≡ stage_of (front pinkey command.now start.at) }
{
    let letters = Letters::U_T_OR_S;
    let (keys, at_maximum) = keyfields::read_pair(
        command,
        start,
        1,
        letters,
        pinkey,
        letters,
        Use::VERIFYING_PVK,
    )?;
    let (_, at_block) = at_maximum
        .number(command, MAXIMUM, MAXIMUM, Refusal::Field15)
        .map_err(|q| fields::fault_at(q, 3, at_maximum))?;
    Ok((keys, at_block))
}

// The fields behind the command code, from the left.
#[tactic(auto, using(crate::proofs::Reading::stages_read), unfolding(crate::specs::VerifyFields::verify_fields))]
pub fn read(pinkey: Use, command: &[u8], start: Cursor) -> Result<Verification, Fault>
    ensures { result ≡ verification_read (verify_fields pinkey command.now start.at) }
{
    let (keys, at_block) = read_front(pinkey, command, start)?;
    let (sealed, at_check) = sealed::read_sealed(command, at_block, 4, RESTRICTED)?;
    let (offsetting, at_offset) = offsetting::read_offsetting(command, at_check, 6)?;
    let (digits, at_end) = offsetfield::offset_field(at_offset, command).map_err(
        |q| fields::fault_at(q, 10, at_offset),
    )?;
    let trailer = endings::read_end(command, at_end, 11, keys)?;
    Ok(Verification {
        sealed,
        offsetting,
        offset: at_offset.at,
        digits,
        trailer,
    })
}

// The DA and EA commands: their asking call, their PIN block's and their answering call, over the PIN key's use. Each is BK's in shape,
// over other fields and another parameter: one of both would be longer than the two lines that it is.
#![tactic(auto)]

ghost use Rattle.std.specs.Prelude.{◌≡◌};
ghost use Rattle.responses.specs.Answers.{asked_of, answered_of};
ghost use Rattle.verify.specs.Verify.{verify_ask, verify_extract, verify_answer};

use fields::{Cursor, Fault};
use keybox::BoxAnswers;
use responses::Payload;
use uses::Use;

// Judges the asking call behind the command code, and makes the validation block.
pub fn ask(pinkey: Use, command: &[u8], start: Cursor) -> Result<u64, Fault>
    ensures { result ≡ asked_of (verify_ask pinkey command.now start.at) }
{
    let verification = verifyfields::read(pinkey, command, start)?;
    Ok(pairing::asked(command, verification.offsetting)?)
}

// Judges the PIN block's call behind the command code, and takes the block out.
pub fn extract(pinkey: Use, command: &[u8], start: Cursor) -> Result<u64, Fault>
    ensures { result ≡ asked_of (verify_extract pinkey command.now start.at) }
{
    let verification = verifyfields::read(pinkey, command, start)?;
    Ok(pairing::block_row(command, verification.sealed))
}

// Judges the answering call behind the command code: the fields, the key box's answers, the finish. 00 brings nothing but the trailer.
pub fn answer(
    pinkey: Use,
    variable: bool,
    answers: BoxAnswers<'_>,
    command: &[u8],
    start: Cursor,
) -> Result<(Payload, usize), Fault>
    ensures { let a = answers.entry in
        result ≡ answered_of (verify_answer pinkey variable a.pinparity a.pvkparity command.now start.at a.block.now a.enciphered.now) }
{
    // The server hands the command in again, so nothing of the asking call is relied on.
    let verification = verifyfields::read(pinkey, command, start)?;
    let boxed = keybox::key_box(command.len(), answers)?;
    verifyfinish::finish(variable, command, verification, boxed)?;
    Ok((Payload::Nothing, verification.trailer))
}

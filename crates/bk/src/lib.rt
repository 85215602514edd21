// The BK command: its asking call, its PIN block's and its answering call.
#![tactic(auto)]

ghost use Rattle.std.specs.Prelude.{◌≡◌};
ghost use Rattle.responses.specs.Answers.{asked_of, answered_of};
ghost use Rattle.bk.specs.Bk.{bk_ask, bk_extract, bk_answer};

use fields::{Cursor, Fault};
use keybox::BoxAnswers;
use responses::Payload;
use settings::Settings;

// Judges the asking call behind the command code, and makes the validation block.
pub fn ask(settings: Settings, command: &[u8], start: Cursor) -> Result<u64, Fault>
    ensures { result ≡ asked_of (bk_ask settings command.now start.at) }
{
    let bk = bkfields::read(settings.restricted, command, start)?;
    Ok(pairing::asked(command, bk.offsetting)?)
}

// Judges the PIN block's call behind the command code, and takes the block out.
pub fn extract(settings: Settings, command: &[u8], start: Cursor) -> Result<u64, Fault>
    ensures { result ≡ asked_of (bk_extract settings command.now start.at) }
{
    let bk = bkfields::read(settings.restricted, command, start)?;
    Ok(pairing::block_row(command, bk.sealed))
}

// Judges the answering call behind the command code: the fields, the key box's answers, the finish. With the payload stands the place of
// the trailer's mark.
pub fn answer(
    settings: Settings,
    answers: BoxAnswers<'_>,
    command: &[u8],
    start: Cursor,
) -> Result<(Payload, usize), Fault>
    ensures { let a = answers.entry in
        result ≡ answered_of (bk_answer settings a.pinparity a.pvkparity command.now start.at a.block.now a.enciphered.now) }
{
    // The server hands the command in again, so nothing of the asking call is relied on.
    let bk = bkfields::read(settings.restricted, command, start)?;
    let boxed = keybox::key_box(command.len(), answers)?;
    let offset = bkfinish::finish(settings.variable, command, bk, boxed)?;
    Ok((Payload::Offset(offset), bk.trailer))
}

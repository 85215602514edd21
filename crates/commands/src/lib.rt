// The calls of a host command, whatever its code: the asking call, the PIN block's and the answering call.
#![tactic(auto)]

ghost use Rattle.std.specs.Prelude.{◌≡◌, ◌+◌, ◌≤◌, length, drop};
ghost use Rattle.numbers.specs.Promise.{Does, quietly};
ghost use Rattle.frame.specs.Frame.{code_of};
ghost use Rattle.fields.specs.Fields.{shown};
ghost use Rattle.pins.specs.Answers.{count_of};
ghost use Rattle.responses.specs.Answers.{asked_of, answered_of};
ghost use Rattle.commands.specs.Commands.{ask_by, extract_by, answer_by, opened, asking, asked, extracting, extracted, answered, replying};

use fields::{Cursor, Fault};
use frame::Code;
use keybox::BoxAnswers;
use numbers::Refusal;
use responses::{Payload, Told};
use settings::Settings;
use uses::Use;

const ROOM_TO_ANSWER: usize = 65;

const ROOM_TO_ASK: usize = 8;

const ROOM_TO_EXTRACT: usize = 16;

// 901, 902: where the command's code stands.
fn opened(least: usize, room: usize, header: usize, command: &[u8]) -> Result<usize, Refusal>
    ensures { result ≡ count_of (opened least room header command.now) }
{
    if room < least {
        return Err(Refusal::Room901);
    }
    if !frame::is_framed(header, command) {
        return Err(Refusal::Frame902);
    }
    Ok(header)
}

// The asking call by the command's code, whose place is given.
fn ask_by(settings: Settings, command: &[u8], code: usize) -> Result<u64, Fault>
    requires { code + 2 ≤ length command.now }
    ensures { result ≡ asked_of (ask_by (code_of (drop code command.now)) settings command.now (code + 2)) }
{
    let start = Cursor { at: code + 2 };
    match Code::at(command, code) {
        Code::Bk => bk::ask(settings, command, start),
        Code::Da => verify::ask(Use::TERMINAL_KEY, command, start),
        Code::Ea => verify::ask(Use::ZONE_KEY, command, start),
        Code::Other => Err(Fault::from(Refusal::Code68)),
    }
}

// 901, 902, and what the command asks for.
fn asking(settings: Settings, command: &[u8], room: usize) -> Result<u64, Fault>
    ensures { result ≡ asked_of (asking settings command.now room) }
{
    let code = opened(ROOM_TO_ASK, room, settings.header, command)?;
    ask_by(settings, command, code)
}

// Reads a command and writes the block that the key box must encipher.
pub fn ask(settings: Settings, command: &[u8], out: &mut [u8]) -> Told
    ensures { Does (quietly (asked settings command.now (length out.old))) out.old result.reply out.new × (result.pointer ≡ shown (asking settings command.now (length out.old))) }
{
    let asked = asking(settings, command, out.len());
    responses::ask(asked, out)
}

// The PIN block's call by the command's code, whose place is given. One function of both would take each command's call as a parameter, and
// be longer.
fn extract_by(settings: Settings, command: &[u8], code: usize) -> Result<u64, Fault>
    requires { code + 2 ≤ length command.now }
    ensures { result ≡ asked_of (extract_by (code_of (drop code command.now)) settings command.now (code + 2)) }
{
    let start = Cursor { at: code + 2 };
    match Code::at(command, code) {
        Code::Bk => bk::extract(settings, command, start),
        Code::Da => verify::extract(Use::TERMINAL_KEY, command, start),
        Code::Ea => verify::extract(Use::ZONE_KEY, command, start),
        Code::Other => Err(Fault::from(Refusal::Code68)),
    }
}

// 901, 902, and the command's PIN block.
fn extracting(settings: Settings, command: &[u8], room: usize) -> Result<u64, Fault>
    ensures { result ≡ asked_of (extracting settings command.now room) }
{
    let code = opened(ROOM_TO_EXTRACT, room, settings.header, command)?;
    extract_by(settings, command, code)
}

// Reads a command and writes its PIN block.
pub fn pin_block(settings: Settings, command: &[u8], out: &mut [u8]) -> Told
    ensures { Does (quietly (extracted settings command.now (length out.old))) out.old result.reply out.new × (result.pointer ≡ shown (extracting settings command.now (length out.old))) }
{
    let extracted = extracting(settings, command, out.len());
    responses::ask(extracted, out)
}

// The answering call by the command's code, whose place is given.
fn answer_by(
    settings: Settings,
    answers: BoxAnswers<'_>,
    command: &[u8],
    code: usize,
) -> Result<(Payload, usize), Fault>
    requires { code + 2 ≤ length command.now }
    ensures { let a = answers.entry in
        let by = answer_by (code_of (drop code command.now)) in
        result ≡ answered_of (by settings a.pinparity a.pvkparity command.now (code + 2) a.block.now a.enciphered.now) }
{
    let start = Cursor { at: code + 2 };
    let variable = settings.variable;
    match Code::at(command, code) {
        Code::Bk => bk::answer(settings, answers, command, start),
        Code::Da => verify::answer(Use::TERMINAL_KEY, variable, answers, command, start),
        Code::Ea => verify::answer(Use::ZONE_KEY, variable, answers, command, start),
        Code::Other => Err(Fault::from(Refusal::Code68)),
    }
}

// From the frame on every number is answered with a response.
pub fn answer(settings: Settings, answers: BoxAnswers<'_>, command: &[u8], out: &mut [u8]) -> Told
    ensures { let a = answers.entry in
        let room = length out.old in
        Does (answered settings a.pinparity a.pvkparity command.now a.block.now a.enciphered.now room) out.old result.reply out.new
        × (result.pointer ≡ shown (replying settings a.pinparity a.pvkparity command.now a.block.now a.enciphered.now room)) }
{
    match opened(ROOM_TO_ANSWER, out.len(), settings.header, command) {
        Ok(code) => {
            let answered = answer_by(settings, answers, command, code);
            responses::respond(code, command, answered, out)
        }
        Err(refusal) => Told::refused(Fault::from(refusal)),
    }
}

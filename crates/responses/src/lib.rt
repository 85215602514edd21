// What the two calls of a command come to, and how it is written: one writer for any payload, trailer and refusal.
#![tactic(auto)]

ghost use Rattle.std.specs.Prelude.{◌≡◌, ◌++◌, ◌≤◌, length, drop};
ghost use Rattle.numbers.specs.Promise.{Does, quietly};
ghost use Rattle.numbers.specs.Numbers.{done, number_of};
ghost use Rattle.fields.specs.Fields.{heard, nowhere, pointer_of, shown};
ghost use Rattle.responses.specs.Responses.{responding};
ghost use Rattle.responses.specs.Answers.{asked_bytes, RoomToAsk, carried, answered_text, Short, Brief, Writable, Responding};

use fields::{Fault, Pointer};
use numbers::Reply;
use pins::Pin;

// What a command brings behind 00; an offset's digits are held as a PIN's are. These are kinds of payload, not a value that may be missing:
// `Some(pin)` would not say that the digits are an offset's.
#[derive(Clone, Copy)]
pub enum Payload {
    Offset(Pin),
    Nothing,
}

// What a call of a command answers: the reply, and what the server is shown of a fault.
#[derive(Clone, Copy)]
pub struct Told {
    pub reply: Reply,
    pub pointer: Pointer,
}

impl Told {
    // 00, with a count of what was written.
    pub fn done(written: u32) -> Told
        ensures { (result.reply.number ≡ 0) × (result.reply.written ≡ written) × (result.pointer ≡ nowhere) }
    {
        Told {
            reply: Reply::done(written),
            pointer: Pointer::NOWHERE,
        }
    }

    // A fault that writes nothing.
    pub fn refused(fault: Fault) -> Told
        ensures { (result.reply.number ≡ number_of fault.refusal) × (result.reply.written ≡ 0) × (result.pointer ≡ pointer_of fault) }
    {
        Told {
            reply: Reply::refused(fault.refusal),
            pointer: fault.pointer(),
        }
    }
}

// Writes the block that the key box must encipher, or nothing.
pub fn ask(asked: Result<u64, Fault>, out: &mut [u8]) -> Told
    requires { RoomToAsk asked (length out.old) }
    ensures { Does (quietly (heard (asked_bytes asked))) out.old result.reply out.new × (result.pointer ≡ shown (asked_bytes asked)) }
{
    match asked {
        Ok(row) => {
            nibbles::put_bytes(row, out);
            Told::done(8)
        }
        Err(fault) => Told::refused(fault),
    }
}

// Writes a payload over the beginning of the output, and tells how many bytes it has: at most twelve.
fn put_payload(payload: Payload, out: &mut [u8]) -> usize
    requires { Short payload × (12 ≤ length out.old) }
    ensures { (result ≡ length (carried payload)) × (result ≤ 12) × (out.new ≡ carried payload ++ drop (length (carried payload)) out.old) }
{
    match payload {
        Payload::Offset(offset) => {
            offsettexts::put_offset(offset.length, offset.digits, out);
            12
        }
        Payload::Nothing => 0,
    }
}

// Writes 00 with the payload and the trailer.
fn respond_with(
    header: usize,
    command: &[u8],
    payload: Payload,
    mark: usize,
    out: &mut [u8],
) -> Reply
    requires { Responding header command.now (length out.old) × Brief payload mark command.now }
    ensures { Does (responding header command.now (done (carried payload ++ drop mark command.now))) out.old result out.new }
{
    let to_payload = header + 4;
    frame::open(header, command, 0, out);
    let to_trailer = to_payload + put_payload(payload, &mut out[to_payload..]);
    frame::put_run(&command[mark..], &mut out[to_trailer..]);
    Reply::done((to_trailer + (command.len() - mark)) as u32)
}

// Writes the response of a command that has a frame: of its payload with the place of the trailer's mark, or of its fault.
pub fn respond(
    header: usize,
    command: &[u8],
    answered: Result<(Payload, usize), Fault>,
    out: &mut [u8],
) -> Told
    requires { Responding header command.now (length out.old) × Writable command.now answered }
    ensures { Does (responding header command.now (heard (answered_text command.now answered))) out.old result.reply out.new × (result.pointer ≡ shown (answered_text command.now answered)) }
{
    match answered {
        Ok((payload, mark)) => Told {
            reply: respond_with(header, command, payload, mark, out),
            pointer: Pointer::NOWHERE,
        },
        Err(fault) => {
            frame::put_run(&command[..header], out);
            let number = fault.refusal.number();
            frame::put_code(header, command, number, &mut out[header..]);
            Told {
                reply: Reply {
                    number,
                    written: header as u32 + 4,
                },
                pointer: fault.pointer(),
            }
        }
    }
}

// What a call answers with: a block, a PIN's digits, or the refusal that stands in their place.
#![tactic(auto)]

ghost use Rattle.std.specs.Prelude.{length};
ghost use Rattle.nibbles.specs.Nibbles.{row};
ghost use Rattle.numbers.specs.Promise.{Does, quietly};
ghost use Rattle.answers.specs.Answers.{bytes_of, Roomy, digits_in, RoomyDigits};

use numbers::{Refusal, Reply};
use pins::Pin;

// Answers with a block, or with the refusal that stands in its place.
pub fn answer(judged: Result<u64, Refusal>, out: &mut [u8]) -> Reply
    requires { Roomy judged (length out.old) }
    ensures { Does (quietly (bytes_of judged)) out.old result out.new }
{
    match judged {
        Ok(row) => {
            nibbles::put_bytes(row, out);
            Reply::done(8)
        }
        Err(q) => Reply::refused(q),
    }
}

// Answers with a PIN's digits as values, or with the refusal that stands in their place.
pub fn answer_digits(judged: Result<Pin, Refusal>, out: &mut [u8]) -> Reply
    requires { RoomyDigits judged (length out.old) }
    ensures { Does (quietly (digits_in judged)) out.old result out.new }
{
    match judged {
        Ok(pin) => {
            nibbles::put_nibbles(pin.digits, pin.length, out);
            Reply::done(pin.length as u32)
        }
        Err(q) => Reply::refused(q),
    }
}

// The finish of DA and EA: the verdict on the offset that is presented.
#![tactic(auto)]

ghost use Rattle.std.specs.Prelude.{◌≡◌};
ghost use Rattle.numbers.specs.Answers.{verdict_of};
ghost use Rattle.pins.specs.Answers.{pin_of};
ghost use Rattle.pairing.specs.Answers.{box_rows};
ghost use Rattle.verifyfields.specs.VerifyFields.{offset_in};
ghost use Rattle.verifyfields.specs.Answers.{Placed};
ghost use Rattle.verifyfinish.specs.VerifyFinish.{verify_finish};

use keybox::Boxed;
use numbers::Refusal;
use pins::Pin;
use verifyfields::Verification;

// The digits of the offset, at its place.
fn offset_at(command: &[u8], verification: Verification) -> Pin
    requires { Placed command.now verification }
    ensures { result ≡ pin_of (offset_in command.now verification) }
{
    let from = verification.offset;
    let n = verification.digits;
    let to = from + n;
    Pin {
        length: n,
        digits: spelling::digits(&command[from..to]),
    }
}

// The block, 81, then the verdict.
pub fn finish(
    variable: bool,
    command: &[u8],
    verification: Verification,
    boxed: Boxed,
) -> Result<(), Refusal>
    requires { Placed command.now verification }
    ensures { result ≡ verdict_of (verify_finish variable command.now verification (box_rows boxed)) }
{
    let data = verification.offsetting;
    let pair = pairing::pair(command, verification.sealed, data, boxed)?;
    let presented = offset_at(command, verification);
    verdicts::verdict_on(variable, data.check as u32, presented, pair)
}

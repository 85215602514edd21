// The finish of a BK command: the offset, unless the PIN is weak.
#![tactic(auto)]

ghost use Rattle.std.specs.Prelude.{◌≡◌};
ghost use Rattle.pins.specs.Answers.{reading_of};
ghost use Rattle.pairing.specs.Answers.{box_rows};
ghost use Rattle.bkfinish.specs.BkFinish.{bk_finish};
ghost use Rattle.bkfields.specs.Answers.{Placed};

use bkfields::Bk;
use keybox::Boxed;
use numbers::Refusal;
use pins::Pin;

// The block, 81, 86: the offset's digits.
pub fn finish(variable: bool, command: &[u8], bk: Bk, boxed: Boxed) -> Result<Pin, Refusal>
    requires { Placed command.now bk }
    ensures { result ≡ reading_of (bk_finish variable command.now bk (box_rows boxed)) }
{
    let data = bk.offsetting;
    let pair = pairing::pair(command, bk.sealed, data, boxed)?;
    let offset = offsets::offset_for(variable, data.check as u32, pair)?;
    if weak::is_weak(bk.weak, command, pair.length, pair.pin) {
        return Err(Refusal::Weak86);
    }
    Ok(offset)
}

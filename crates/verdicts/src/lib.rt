// The verdict on an offset that is presented.
#![tactic(auto)]

ghost use Rattle.std.specs.Prelude.{◌≡◌, [], ◌^◌, ◌<◌};
ghost use Rattle.numbers.specs.Promise.{Does, quietly};
ghost use Rattle.numbers.specs.Answers.{verdict_of};
ghost use Rattle.answers.specs.Answers.{digits_of};
ghost use Rattle.offsets.specs.Answers.{pair_in, Fit};
ghost use Rattle.verdicts.specs.Verdicts.{verdict_on, offset_verdict};

use numbers::{Refusal, Reply};
use offsets::{Compared, Inputs};
use pins::Pin;
use settings::Settings;

// 81 for the offset's length, then the verdict.
pub fn verdict_on(variable: bool, check: u32, presented: Pin, p: Compared) -> Result<(), Refusal>
    requires { Fit p × (presented.digits < 16 ^ presented.length) }
    ensures { result ≡ verdict_of (verdict_on variable check (digits_of presented) (pair_in p)) }
{
    let offset = offsets::offset_for(variable, check, p)?;
    if presented.length != offset.length {
        return Err(Refusal::Check81);
    }
    if presented.digits != offset.digits {
        return Err(Refusal::Unverified01);
    }
    Ok(())
}

// Judges the verdict: 15, the presented offset among them, 23, 69, 25, the block, 81.
#[tactic(auto, unfolding(crate::specs::Verdicts::offset_verdict, offsets::specs::Offsets::given))]
fn judged_verdict(variable: bool, inputs: Inputs, offset: &[u8]) -> Result<(), Refusal>
    ensures { let i = inputs.entry in
        let judged = offset_verdict variable i.format i.check i.block.now i.account.now i.table.now i.enciphered.now offset.now in
        result ≡ verdict_of judged }
{
    let rows = offsets::taken(inputs)?;
    let presented = offsettexts::presented(offset)?;
    let p = offsets::paired(inputs.format, inputs.table, rows)?;
    verdict_on(variable, inputs.check, presented, p)
}

// Gives the verdict on an offset that is presented.
pub fn offset_verdict(settings: Settings, inputs: Inputs, offset: &[u8]) -> Reply
    ensures { let i = inputs.entry in
        let judged = offset_verdict settings.variable i.format i.check i.block.now i.account.now i.table.now i.enciphered.now offset.now in
        Does (quietly judged) [] result [] }
{
    Reply::verdict(judged_verdict(settings.variable, inputs, offset))
}

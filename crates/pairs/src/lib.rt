// The pair of formats that a translation goes between, judged.
#![tactic(auto)]

ghost use Rattle.std.specs.Prelude.{◌≡◌};
ghost use Rattle.pairs.specs.Pairs.{pair_of};
ghost use Rattle.pairs.specs.Answers.{pair_from};

use codes::Code;
use formats::Format;
use numbers::Refusal;

// The format that is read and the one that is written: 23 for either code, then 69 for either, then for the pair.
#[tactic(auto, using(codes::proofs::Laws::not_here), unfolding(crate::specs::Pairs::pair_of))]
pub fn pair(restricted: bool, from: u32, to: u32) -> Result<(Format, Format), Refusal>
    ensures { result ≡ pair_from (pair_of restricted from to) }
{
    if !Code::from(from).is_known() {
        return Err(Refusal::Format23);
    }
    if !Code::from(to).is_known() {
        return Err(Refusal::Format23);
    }
    let read = codes::chosen(from)?;
    let written = codes::chosen(to)?;
    if !restriction::may(restricted, read, written) {
        return Err(Refusal::NotHere69);
    }
    Ok((read, written))
}

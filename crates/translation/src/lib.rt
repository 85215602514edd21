// Translation between the six formats: one is read, another is written, under the same account.
#![tactic(auto)]

ghost use Rattle.std.specs.Prelude.{◌≡◌, length};
ghost use Rattle.nibbles.specs.Nibbles.{row};
ghost use Rattle.numbers.specs.Numbers.{done};
ghost use Rattle.numbers.specs.Promise.{Does, quietly};
ghost use Rattle.pins.specs.Pins.{account_field};
ghost use Rattle.answers.specs.Answers.{block_of};
ghost use Rattle.translation.specs.Translation.{carried_block, translate_block};

use formats::Format;
use numbers::{Refusal, Reply};
use settings::Settings;

// Reads in the one format and writes in the other, under the account.
fn carried(from: Format, to: Format, account: u64, block: u64, fill: u64) -> Result<u64, Refusal>
    ensures { result ≡ block_of (carried_block (done (from, to)) (account_field (row 12 account)) (row 16 block) (row 16 fill)) }
{
    let field = pins::field(account);
    let pin = blocks::read(from, field, block)?;
    Ok(blocks::write(to, field, pin, fill))
}

// Judges the call: 901, 15 for block, account and fill, 23, 69, the block.
#[tactic(auto, unfolding(crate::specs::Translation::translate_block))]
fn judged(
    settings: Settings,
    from: u32,
    to: u32,
    block: &[u8],
    account: &[u8],
    fill: &[u8],
    room: usize,
) -> Result<u64, Refusal>
    ensures { result ≡ block_of (translate_block settings.restricted from to block.now account.now fill.now room) }
{
    if room < codes::block_width(to) {
        return Err(Refusal::Room901);
    }
    let row = pins::sized_row(block, codes::block_width(from))?;
    let digits = pins::account(account)?;
    let filler = pins::sized_row(fill, 8)?;
    let (read, written) = pairs::pair(settings.restricted, from, to)?;
    carried(read, written, digits, row, filler)
}

// Translates a block.
pub fn translate(
    settings: Settings,
    from: u32,
    to: u32,
    block: &[u8],
    account: &[u8],
    fill: &[u8],
    out: &mut [u8],
) -> Reply
    ensures { Does (quietly (translate_block settings.restricted from to block.now account.now fill.now (length out.old))) out.old result out.new }
{
    answers::answer(
        judged(settings, from, to, block, account, fill, out.len()),
        out,
    )
}

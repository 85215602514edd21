// The two calls of blocks by themselves: one reads a block, one writes it.
#![tactic(auto)]

ghost use Rattle.std.specs.Prelude.{◌≡◌, ◌<◌, length};
ghost use Rattle.nibbles.specs.Nibbles.{row};
ghost use Rattle.numbers.specs.Promise.{Does, quietly};
ghost use Rattle.pins.specs.Answers.{reading_of};
ghost use Rattle.answers.specs.Answers.{block_of};
ghost use Rattle.blockcalls.specs.BlockCalls.{read_block, write_block};

use numbers::{Refusal, Reply};
use pins::Pin;

// Judges the call that reads a block: 901, 15 for block and account, 23, 69, the block.
#[tactic(auto, unfolding(crate::specs::BlockCalls::read_block))]
fn judged_reading(format: u32, block: &[u8], account: &[u8], room: usize) -> Result<Pin, Refusal>
    ensures { result ≡ reading_of (read_block format block.now account.now room) }
{
    if room < 12 {
        return Err(Refusal::Room901);
    }
    let row = pins::sized_row(block, codes::block_width(format))?;
    let digits = pins::account(account)?;
    let f = codes::chosen(format)?;
    blocks::read(f, pins::field(digits), row)
}

// Reads a block and writes the PIN's digits as values.
pub fn read_block(format: u32, block: &[u8], account: &[u8], out: &mut [u8]) -> Reply
    ensures { Does (quietly (read_block format block.now account.now (length out.old))) out.old result out.new }
{
    answers::answer_digits(judged_reading(format, block, account, out.len()), out)
}

// Judges the call that writes a block: 901, 15 for account and fill, 23, 69, 24, 20.
#[tactic(auto, unfolding(crate::specs::BlockCalls::write_block))]
fn judged_writing(
    format: u32,
    pin: &[u8],
    account: &[u8],
    fill: &[u8],
    room: usize,
) -> Result<u64, Refusal>
    ensures { result ≡ block_of (write_block format pin.now account.now fill.now room) }
{
    if room < codes::block_width(format) {
        return Err(Refusal::Room901);
    }
    let digits = pins::account(account)?;
    let row = pins::sized_row(fill, 8)?;
    let f = codes::chosen(format)?;
    let pin = pins::handed(pin)?;
    Ok(blocks::write(f, pins::field(digits), pin, row))
}

// Writes the block of a PIN that is handed in as digits.
pub fn write_block(format: u32, pin: &[u8], account: &[u8], fill: &[u8], out: &mut [u8]) -> Reply
    ensures { Does (quietly (write_block format pin.now account.now fill.now (length out.old))) out.old result out.new }
{
    answers::answer(judged_writing(format, pin, account, fill, out.len()), out)
}

// The calls of the ABA PVV: the input that is enciphered, the PVV of the enciphered input, and the verdict on a PVV that is presented.
#![tactic(auto)]

ghost use Rattle.std.specs.Prelude.{◌≡◌, [], length};
ghost use Rattle.nibbles.specs.Nibbles.{row};
ghost use Rattle.numbers.specs.Promise.{Does, quietly};
ghost use Rattle.numbers.specs.Answers.{verdict_of};
ghost use Rattle.pins.specs.Answers.{reading_of, row_of};
ghost use Rattle.answers.specs.Answers.{block_of};
ghost use Rattle.pvv.specs.Pvv.{presented, pvv_given, pin_read, pvv_input, pvv_made, pvv_verdict};
ghost use Rattle.pvv.specs.Answers.{given_of, rows_in};

use alphabet::Class;
use numbers::{Refusal, Reply};
use pins::Pin;

// The rows that a call was given, and its key index.
#[derive(Clone, Copy)]
pub struct Rows {
    pub block: u64,
    pub account: u64,
    pub index: u32,
}

// 15, field by field: block, account and key index.
#[tactic(auto, unfolding(crate::specs::Pvv::pvv_given))]
fn judged_fields(format: u32, index: u32, block: &[u8], account: &[u8]) -> Result<Rows, Refusal>
    ensures { result ≡ given_of (pvv_given format index block.now account.now) }
{
    let row = pins::sized_row(block, codes::block_width(format))?;
    let digits = pins::account(account)?;
    if !pvvinput::key_index(index) {
        return Err(Refusal::Field15);
    }
    Ok(Rows {
        block: row,
        account: digits,
        index,
    })
}

// 23, 69, the block: the PIN.
fn read_by(format: u32, rows: Rows) -> Result<Pin, Refusal>
    ensures { result ≡ reading_of (pin_read format (rows_in rows)) }
{
    let f = codes::chosen(format)?;
    blocks::read(f, pins::field(rows.account), rows.block)
}

// Judges the call that makes the input: 901, 15 for block, account and index, 23, 69, the block.
#[tactic(auto, unfolding(crate::specs::Pvv::pvv_input, crate::specs::Pvv::pvv_given))]
fn judged_input(
    format: u32,
    index: u32,
    block: &[u8],
    account: &[u8],
    room: usize,
) -> Result<u64, Refusal>
    ensures { result ≡ block_of (pvv_input format index block.now account.now room) }
{
    if room < 8 {
        return Err(Refusal::Room901);
    }
    let rows = judged_fields(format, index, block, account)?;
    let pin = read_by(format, rows)?;
    Ok(pvvinput::input_row(rows.account, rows.index, pin.digits))
}

// Makes the input that is enciphered under the key of the index.
pub fn pvv_input(format: u32, index: u32, block: &[u8], account: &[u8], out: &mut [u8]) -> Reply
    ensures { Does (quietly (pvv_input format index block.now account.now (length out.old))) out.old result out.new }
{
    answers::answer(judged_input(format, index, block, account, out.len()), out)
}

// Makes the PVV of an enciphered input: four characters.
#[tactic(auto, unfolding(crate::specs::Pvv::pvv_made))]
pub fn pvv(enciphered: &[u8], out: &mut [u8]) -> Reply
    ensures { Does (quietly (pvv_made enciphered.now (length out.old))) out.old result out.new }
{
    if out.len() < 4 {
        return Reply::refused(Refusal::Room901);
    }
    let row = match pins::sized_row(enciphered, 8) {
        Ok(row) => row,
        Err(q) => return Reply::refused(q),
    };
    spelling::put_characters(pvvdigits::digits_of(row), 4, out);
    Reply::done(4)
}

// A PVV that is presented: four digits, as a row.
fn presented_row(pvv: &[u8]) -> Result<u64, Refusal>
    ensures { result ≡ row_of (presented pvv.now) }
{
    if pvv.len() != 4 {
        return Err(Refusal::Field15);
    }
    if !alphabet::all_of(Class::Digit, pvv, 0, 4) {
        return Err(Refusal::Field15);
    }
    Ok(spelling::values(pvv))
}

// Judges the call that gives the verdict: 15 for block, account, index, enciphered input and PVV, 23, 69, the block, 01.
#[tactic(auto, unfolding(crate::specs::Pvv::pvv_verdict, crate::specs::Pvv::pvv_given))]
fn judged_verdict(
    format: u32,
    index: u32,
    block: &[u8],
    account: &[u8],
    enciphered: &[u8],
    pvv: &[u8],
) -> Result<(), Refusal>
    ensures { result ≡ verdict_of (pvv_verdict format index block.now account.now enciphered.now pvv.now) }
{
    let rows = judged_fields(format, index, block, account)?;
    let made = pins::sized_row(enciphered, 8)?;
    let shown = presented_row(pvv)?;
    read_by(format, rows)?;
    pvvdigits::compared(made, shown)
}

// The verdict on a PVV that is presented: 00 exactly for the digits that the enciphered input makes.
pub fn pvv_verdict(
    format: u32,
    index: u32,
    block: &[u8],
    account: &[u8],
    enciphered: &[u8],
    pvv: &[u8],
) -> Reply
    ensures { Does (quietly (pvv_verdict format index block.now account.now enciphered.now pvv.now)) [] result [] }
{
    Reply::verdict(judged_verdict(format, index, block, account, enciphered, pvv))
}

// The IBM 3624 calls over a block or over digits: offset and differences.
#![tactic(auto)]

ghost use Rattle.std.specs.Prelude.{◌≡◌, ◌+◌, ◌≤◌, map, length, IfOk};
ghost use Rattle.nibbles.specs.Nibbles.{row, every};
ghost use Rattle.alphabet.specs.Alphabet.{value_of};
ghost use Rattle.numbers.specs.Promise.{Does, quietly};
ghost use Rattle.numbers.specs.Numbers.{done};
ghost use Rattle.pins.specs.Pins.{digit, sized};
ghost use Rattle.pins.specs.Answers.{count_of, reading_of, row_of};
ghost use Rattle.ibm3624.specs.Ibm3624.{check_length};
ghost use Rattle.naturals.specs.Answers.{Decimal};
ghost use Rattle.offsets.specs.Offsets.{given, pin_with_natural, pin_and_natural, digits_given, offset_for, offset_judged, digits_judged, offset_made, offset_of_digits, differences_of};
ghost use Rattle.offsets.specs.Answers.{given_of, comparison_of, rows_in, pair_in, Fit, text_of, Roomy};

use alphabet::Class;
use formats::Format;
use numbers::{Refusal, Reply};
use pins::Pin;
use settings::Settings;

// What a call is given: the format's code and the check length, then the block, the account, the table and the enciphered block.
#[derive(Clone, Copy)]
pub struct Inputs<'a> {
    pub format: u32,
    pub check: u32,
    pub block: &'a [u8],
    pub account: &'a [u8],
    pub table: &'a [u8],
    pub enciphered: &'a [u8],
}

// The rows that a call was given.
#[derive(Clone, Copy)]
pub struct Rows {
    pub block: u64,
    pub account: u64,
    pub enciphered: u64,
}

// A PIN and its natural PIN, of one length.
#[derive(Clone, Copy)]
pub struct Compared {
    pub length: usize,
    pub pin: u64,
    pub natural: u64,
}

// 15 for the check length.
fn check_length(check: u32) -> Result<u32, Refusal>
    ensures { result ≡ count_of (check_length check) }
{
    if check < 4 {
        return Err(Refusal::Field15);
    }
    if 12 < check {
        return Err(Refusal::Field15);
    }
    Ok(check)
}

// A run of bytes that has to have a width, and its nibbles: a row that was taken holds them.
fn nibbles_of(bytes: &[u8], width: usize) -> Result<u64, Refusal>
    requires { width ≤ 8 }
    ensures judged { result ≡ row_of (sized width bytes.now) }
    ensures held { IfOk result (λ w. sized width bytes.now ≡ done (row (width + width) w)) }
{
    pins::sized_row(bytes, width)
}

// 15, field by field: check length, block, account, table and enciphered block.
#[tactic(auto, unfolding(crate::specs::Offsets::given))]
pub fn taken(inputs: Inputs) -> Result<Rows, Refusal>
    ensures judged { let i = inputs.entry in
        result ≡ given_of (given i.format i.check i.block.now i.account.now i.table.now i.enciphered.now) }
    ensures held { let i = inputs.entry in
        IfOk result (λ rows. given i.format i.check i.block.now i.account.now i.table.now i.enciphered.now ≡ done (rows_in rows)) }
{
    check_length(inputs.check)?;
    let row = nibbles_of(inputs.block, codes::block_width(inputs.format))?;
    let digits = pins::account(inputs.account)?;
    if inputs.table.len() != 16 {
        return Err(Refusal::Field15);
    }
    let cipher = nibbles_of(inputs.enciphered, 8)?;
    Ok(Rows {
        block: row,
        account: digits,
        enciphered: cipher,
    })
}

// The block: the PIN with its natural PIN.
pub fn with_natural(format: Format, table: &[u8], rows: Rows) -> Result<Compared, Refusal>
    requires { Decimal table.now }
    ensures { result ≡ comparison_of (pin_with_natural format (map value_of table.now) (rows_in rows)) }
{
    let pin = blocks::read(format, pins::field(rows.account), rows.block)?;
    let natural = naturals::natural(pin.length, table, rows.enciphered);
    Ok(Compared {
        length: pin.length,
        pin: pin.digits,
        natural: natural.digits,
    })
}

// 23, 69, 25, the block: the PIN with its natural PIN.
#[tactic(auto, using(naturals::proofs::Laws::table_judged), unfolding(crate::specs::Offsets::pin_and_natural))]
pub fn paired(format: u32, table: &[u8], rows: Rows) -> Result<Compared, Refusal>
    requires { length table.now ≡ 16 }
    ensures { result ≡ comparison_of (pin_and_natural format table.now (rows_in rows)) }
{
    let f = codes::chosen(format)?;
    if !alphabet::all_of(Class::Digit, table, 0, 16) {
        return Err(Refusal::Table25);
    }
    with_natural(f, table, rows)
}

// Whether each is 0 to 9.
fn all_digits(digits: &[u8]) -> bool
    ensures { result ≡ every digit digits.now }
{
    digits.iter().all(|d| *d <= 9)
}

// 15 for the check length, then the PIN, then the natural PIN: its digits before its length.
#[tactic(auto, unfolding(crate::specs::Offsets::digits_given))]
fn handed(check: u32, pin: &[u8], natural: &[u8]) -> Result<Compared, Refusal>
    ensures { result ≡ comparison_of (digits_given check pin.now natural.now) }
{
    check_length(check)?;
    let digits = pins::handed(pin)?;
    if !all_digits(natural) {
        return Err(Refusal::Block20);
    }
    if natural.len() != digits.length {
        return Err(Refusal::Length24);
    }
    let naturals = pins::packed(natural)?;
    Ok(Compared {
        length: digits.length,
        pin: digits.digits,
        natural: naturals.digits,
    })
}

// 81, and the offset's digits.
pub fn offset_for(variable: bool, check: u32, p: Compared) -> Result<Pin, Refusal>
    requires { Fit p }
    ensures { result ≡ reading_of (offset_for variable check (pair_in p)) }
{
    let m = ibm3624::covering(variable, check as usize, p.length)?;
    Ok(Pin {
        length: m,
        digits: ibm3624::offset(m, p.length, p.pin, p.natural),
    })
}

// Answers with an offset, or with the refusal that stands in its place.
pub fn answer(judged: Result<Pin, Refusal>, out: &mut [u8]) -> Reply
    requires { Roomy judged (length out.old) }
    ensures { Does (quietly (text_of judged)) out.old result out.new }
{
    match judged {
        Ok(offset) => {
            offsettexts::put_offset(offset.length, offset.digits, out);
            Reply::done(12)
        }
        Err(q) => Reply::refused(q),
    }
}

// Judges the call that makes an offset from a block.
#[tactic(auto, unfolding(crate::specs::Offsets::offset_judged, crate::specs::Offsets::given))]
fn judged_offset(variable: bool, inputs: Inputs, room: usize) -> Result<Pin, Refusal>
    ensures { let i = inputs.entry in
        result ≡ reading_of (offset_judged variable i.format i.check i.block.now i.account.now i.table.now i.enciphered.now room) }
{
    if room < 12 {
        return Err(Refusal::Room901);
    }
    let rows = taken(inputs)?;
    let p = paired(inputs.format, inputs.table, rows)?;
    offset_for(variable, inputs.check, p)
}

// Makes an offset from a block.
pub fn offset(settings: Settings, inputs: Inputs, out: &mut [u8]) -> Reply
    ensures { let i = inputs.entry in
        let made = offset_made settings.variable i.format i.check i.block.now i.account.now i.table.now i.enciphered.now (length out.old) in
        Does (quietly made) out.old result out.new }
{
    answer(judged_offset(settings.variable, inputs, out.len()), out)
}

// Judges the call that makes an offset from digits.
#[tactic(auto, unfolding(crate::specs::Offsets::digits_judged, crate::specs::Offsets::digits_given))]
fn judged_digits(
    variable: bool,
    check: u32,
    pin: &[u8],
    natural: &[u8],
    room: usize,
) -> Result<Pin, Refusal>
    ensures { result ≡ reading_of (digits_judged variable check pin.now natural.now room) }
{
    if room < 12 {
        return Err(Refusal::Room901);
    }
    let p = handed(check, pin, natural)?;
    offset_for(variable, check, p)
}

// Makes an offset from digits.
pub fn offset_of_digits(
    settings: Settings,
    check: u32,
    pin: &[u8],
    natural: &[u8],
    out: &mut [u8],
) -> Reply
    ensures { Does (quietly (offset_of_digits settings.variable check pin.now natural.now (length out.old))) out.old result out.new }
{
    answer(
        judged_digits(settings.variable, check, pin, natural, out.len()),
        out,
    )
}

// Gives the differences of digits: 901, 15, the PIN and the natural PIN, 81.
#[tactic(auto, unfolding(crate::specs::Offsets::differences_of, crate::specs::Offsets::digits_given))]
pub fn differences(
    settings: Settings,
    check: u32,
    pin: &[u8],
    natural: &[u8],
    out: &mut [i8],
) -> Reply
    ensures { Does (quietly (differences_of settings.variable check pin.now natural.now (length out.old))) out.old result out.new }
{
    if out.len() < 12 {
        return Reply::refused(Refusal::Room901);
    }
    let p = match handed(check, pin, natural) {
        Ok(p) => p,
        Err(q) => return Reply::refused(q),
    };
    let m = match ibm3624::covering(settings.variable, check as usize, p.length) {
        Ok(m) => m,
        Err(q) => return Reply::refused(q),
    };
    ibm3624::put_differences(m, p.length, p.pin, p.natural, out);
    Reply::done(m as u32)
}

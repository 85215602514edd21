// Validation data, and the block that the key box enciphers to make a natural PIN.
#![tactic(auto)]

ghost use Rattle.std.specs.Prelude.{◌≡◌, cond, ◌<◌, length};
ghost use Rattle.nibbles.specs.Nibbles.{word, row};
ghost use Rattle.numbers.specs.Promise.{Does, quietly};
ghost use Rattle.pins.specs.Answers.{row_of};
ghost use Rattle.answers.specs.Answers.{block_of};
ghost use Rattle.validation.specs.Validation.{hex_end, is_template, is_whole, shape_of, shape_width, replaced, validation_row, validation_block};

use alphabet::Class;
use numbers::{Refusal, Reply};

// What validation data are: characters with an N, and the N's place among them, or P and a whole row.
// Neither stands among them and is no None: `width` and `row` promise what they answer for it too.
#[derive(Clone, Copy)]
pub enum Shape {
    Template(usize),
    Whole,
    Neither,
}

// The values of twelve characters, with the last five account digits for the one at a place.
fn with_account(account: u64, s: &[u8], at: usize) -> u64
    requires { (length s.now ≡ 12) × (at < 12) }
    ensures { result ≡ word (replaced (row 12 account) at s.now) }
{
    let behind = at + 1;
    let front = spelling::values(&s[..at]);
    let back = spelling::values(&s[behind..]);
    let last_five = nibbles::part(account, 7, 5);
    nibbles::join(front, at, nibbles::join(last_five, 5, back))
}

// Twelve characters, eleven hex and exactly one N.
fn template(s: &[u8]) -> Shape
    ensures { result ≡ cond (is_template s.now) (Shape.Template (hex_end s.now)) Shape.Neither }
{
    if s.len() != Shape::TEMPLATE_WIDTH {
        return Shape::Neither;
    }
    let at = spelling::class_end(Class::CapitalHex, s);
    if 12 <= at {
        return Shape::Neither;
    }
    if s[at] != b'N' {
        return Shape::Neither;
    }
    if !alphabet::all_of(Class::CapitalHex, s, at + 1, 12) {
        return Shape::Neither;
    }
    Shape::Template(at)
}

// P and sixteen hex characters.
fn whole(s: &[u8]) -> Shape
    ensures { result ≡ cond (is_whole s.now) Shape.Whole Shape.Neither }
{
    if s.len() != Shape::WHOLE_WIDTH {
        return Shape::Neither;
    }
    if !alphabet::all_of(Class::CapitalHex, s, 1, s.len()) {
        return Shape::Neither;
    }
    Shape::Whole
}

impl Shape {
    // "12 characters, eleven hex and exactly one N"
    pub const TEMPLATE_WIDTH: usize = 12;

    // "P + 16 hex"
    pub const WHOLE_WIDTH: usize = 17;

    // The one place where validation data are judged.
    pub fn of(characters: &[u8]) -> Shape
        ensures { result ≡ shape_of characters.now }
    {
        if characters.len() == 0 {
            return Shape::Neither;
        }
        if characters[0] == b'P' {
            return whole(characters);
        }
        template(characters)
    }

    // How many characters data of this shape have.
    pub fn width(self) -> usize
        ensures { result ≡ shape_width self }
    {
        match self {
            Shape::Template(_) => Shape::TEMPLATE_WIDTH,
            Shape::Whole => Shape::WHOLE_WIDTH,
            Shape::Neither => 0,
        }
    }

    // The sixteen nibbles that data of this shape stand for, or 15. The account's twelve digits are a row in a word.
    pub fn row(self, account: u64, validation: &[u8]) -> Result<u64, Refusal>
        requires { self ≡ shape_of validation.now }
        ensures { result ≡ row_of (validation_row (row 12 account) validation.now) }
    {
        match self {
            Shape::Template(at) => Ok(with_account(account, validation, at)),
            Shape::Whole => Ok(spelling::values(&validation[1..])),
            Shape::Neither => Err(Refusal::Field15),
        }
    }
}

// Judges the call that makes the validation block: 901, 15 for account and validation data.
fn judged(validation: &[u8], account: &[u8], room: usize) -> Result<u64, Refusal>
    ensures { result ≡ block_of (validation_block validation.now account.now room) }
{
    if room < 8 {
        return Err(Refusal::Room901);
    }
    let digits = pins::account(account)?;
    Shape::of(validation).row(digits, validation)
}

// Makes the validation block of validation data and an account.
pub fn validation_block(validation: &[u8], account: &[u8], out: &mut [u8]) -> Reply
    ensures { Does (quietly (validation_block validation.now account.now (length out.old))) out.old result out.new }
{
    answers::answer(judged(validation, account, out.len()), out)
}

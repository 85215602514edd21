// PINs, accounts and blocks as values: rows of nibbles in words. Each is judged by one routine.
#![tactic(auto)]

ghost use Rattle.std.specs.Prelude.{◌≡◌, ◌≤◌, length};
ghost use Rattle.nibbles.specs.Nibbles.{word, row};
ghost use Rattle.pins.specs.Pins.{pin_length, pin_handed, digits_handed, account_of, account_field, sized};
ghost use Rattle.pins.specs.Answers.{count_of, reading_of, row_of};

use alphabet::Class;
use numbers::Refusal;

// A PIN as a value: its digits are a row in a word, the first lowest.
#[derive(Clone, Copy)]
pub struct Pin {
    pub length: usize,
    pub digits: u64,
}

// A run of bytes that has to have a width, as a row of nibbles.
pub fn sized_row(bytes: &[u8], width: usize) -> Result<u64, Refusal>
    requires { width ≤ 8 }
    ensures { result ≡ row_of (sized width bytes.now) }
{
    if bytes.len() != width {
        return Err(Refusal::Field15);
    }
    Ok(nibbles::row_of(bytes))
}

// The account's digits.
pub fn account(characters: &[u8]) -> Result<u64, Refusal>
    ensures { result ≡ row_of (account_of characters.now) }
{
    if characters.len() != 12 {
        return Err(Refusal::Field15);
    }
    if !alphabet::all_of(Class::Digit, characters, 0, 12) {
        return Err(Refusal::Field15);
    }
    Ok(spelling::digits(characters))
}

// The account field, a row of sixteen.
pub fn field(digits: u64) -> u64
    ensures { result ≡ word (account_field (row 12 digits)) }
{
    digits << 16
}

// The one place where a PIN's length is judged.
pub fn pin_length(n: usize) -> Result<usize, Refusal>
    ensures { result ≡ count_of (pin_length n) }
{
    if n < 4 {
        return Err(Refusal::Length24);
    }
    if 12 < n {
        return Err(Refusal::Length24);
    }
    Ok(n)
}

// A PIN handed in as digits: "24 before 20".
pub fn handed(digits: &[u8]) -> Result<Pin, Refusal>
    ensures { result ≡ reading_of (pin_handed digits.now) }
{
    pin_length(digits.len())?;
    packed(digits)
}

// The digits of a PIN or natural PIN handed in, at most 12.
pub fn packed(digits: &[u8]) -> Result<Pin, Refusal>
    requires { length digits.now ≤ 12 }
    ensures { result ≡ reading_of (digits_handed digits.now) }
{
    let mut w: u64 = 0;
    for i in (0..digits.len()).rev() {
        let digit = digits[i];
        if 9 < digit {
            return Err(Refusal::Block20);
        }
        w = w * 16 + u64::from(digit);
    }
    Ok(Pin {
        length: digits.len(),
        digits: w,
    })
}

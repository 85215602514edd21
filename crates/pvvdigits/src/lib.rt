// The PVV that an enciphered input makes: its four digits, and the verdict on digits that are presented.
#![tactic(auto)]

ghost use Rattle.std.specs.Prelude.{◌≡◌, [], ◌∷◌, ◌++◌, map, ◌-◌, ◌^◌, ◌<◌, ◌≤◌, length, take};
ghost use Rattle.nibbles.specs.Nibbles.{word, row, within, same};
ghost use Rattle.pins.specs.Pins.{verdict};
ghost use Rattle.numbers.specs.Answers.{verdict_of};
ghost use Rattle.pins.specs.Answers.{pin_of};
ghost use Rattle.answers.specs.Answers.{digits_of};
ghost use Rattle.pvvdigits.specs.PvvDigits.{those, pvv_of};
ghost use Rattle.pvvdigits.specs.Answers.{Taken};

use numbers::Refusal;
use pins::Pin;

// One nibble more: it goes behind what was taken, less `less`, where it is from low to high and there are not four yet.
fn step(taken: Pin, n: u64, low: u64, high: u64, less: u64) -> Pin
    requires { Taken taken × (n < 16) × (less ≤ low) }
    ensures { result ≡ pin_of (take 4 (digits_of taken ++ map (λ m. m - less) (those (within low high) (n ∷ [])))) }
{
    if n < low {
        return taken;
    }
    if high < n {
        return taken;
    }
    if 4 <= taken.length {
        return taken;
    }
    Pin {
        length: taken.length + 1,
        digits: nibbles::join(taken.digits, taken.length, n - less),
    }
}

// The nibbles from low to high, less `less`, from the left, behind what was taken before, until there are four.
fn scan(enciphered: u64, low: u64, high: u64, less: u64, before: Pin) -> Pin
    requires { Taken before × (less ≤ low) }
    ensures { result ≡ pin_of (take 4 (digits_of before ++ map (λ m. m - less) (those (within low high) (row 16 enciphered)))) }
{
    let mut taken = before;
    for i in 0..16 {
        taken = step(taken, nibbles::nibble(enciphered, i), low, high, less);
    }
    taken
}

// The PVV's four digits, as a row.
pub fn digits_of(enciphered: u64) -> u64
    ensures { result ≡ word (pvv_of (row 16 enciphered)) }
{
    let none = Pin {
        length: 0,
        digits: 0,
    };
    let decimal = scan(enciphered, 0, 9, 0, none);
    let whole = scan(enciphered, 10, 15, 10, decimal);
    whole.digits
}

// The verdict on four digits that are presented.
pub fn compared(enciphered: u64, shown: u64) -> Result<(), Refusal>
    requires { shown < 16 ^ 4 }
    ensures { result ≡ verdict_of (verdict (same (pvv_of (row 16 enciphered)) (row 4 shown))) }
{
    if digits_of(enciphered) != shown {
        return Err(Refusal::Unverified01);
    }
    Ok(())
}

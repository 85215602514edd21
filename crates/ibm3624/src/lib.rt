// The IBM 3624 method over values: signed differences and offset.
#![tactic(auto)]

ghost use Rattle.std.specs.Prelude.{◌≡◌, ◌++◌, ◌≤◌, length, drop};
ghost use Rattle.nibbles.specs.Nibbles.{word, row};
ghost use Rattle.pins.specs.Answers.{count_of};
ghost use Rattle.ibm3624.specs.Ibm3624.{covers, difference, modulo_ten, covered, offset_of};
ghost use Rattle.ibm3624.specs.Answers.{Matched};

use numbers::Refusal;

// PIN digit less natural digit.
fn less(pin: u64, natural: u64) -> i32
    requires { (pin ≤ 9) × (natural ≤ 9) }
    ensures { result ≡ difference pin natural }
{
    (pin as i32) - (natural as i32)
}

// A difference modulo ten.
fn reduced(pin: u64, natural: u64) -> u64
    requires { (pin ≤ 9) × (natural ≤ 9) }
    ensures { result ≡ modulo_ten (difference pin natural) }
{
    let d = less(pin, natural);
    if d < 0 { (d + 10) as u64 } else { d as u64 }
}

// How many digits an offset covers.
pub fn covering(variable: bool, check: usize, n: usize) -> Result<usize, Refusal>
    ensures { result ≡ count_of (covers variable check n) }
{
    if variable {
        return Ok(n);
    }
    if n < check {
        return Err(Refusal::Check81);
    }
    Ok(check)
}

// The offset over the last m of n digits, as a row.
pub fn offset(m: usize, n: usize, pin: u64, natural: u64) -> u64
    requires { Matched m n pin natural }
    ensures { result ≡ word (offset_of m (row n pin) (row n natural)) }
{
    let skipped = n - m;
    let mut w: u64 = 0;
    for i in (0..m).rev() {
        w = w * 16
            + reduced(
                nibbles::nibble(pin, skipped + i),
                nibbles::nibble(natural, skipped + i),
            );
    }
    w
}

// Writes the differences over the last m of n digits.
pub fn put_differences(m: usize, n: usize, pin: u64, natural: u64, out: &mut [i8])
    requires { Matched m n pin natural × (m ≤ length out.old) }
    ensures { out.new ≡ covered m (row n pin) (row n natural) ++ drop m out.old }
{
    let uncovered = n - m;
    for (i, d) in out[..m].iter_mut().enumerate() {
        *d = less(
            nibbles::nibble(pin, uncovered + i),
            nibbles::nibble(natural, uncovered + i),
        ) as i8;
    }
}

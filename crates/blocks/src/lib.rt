// Reading and writing PIN blocks of the six formats: one pair of functions over the table of formats.
#![tactic(auto)]

ghost use Rattle.std.specs.Prelude.{◌≡◌, ◌++◌, map, ◌+◌, ◌^◌, ◌<◌, ◌≤◌, length, drop};
ghost use Rattle.std.proofs.Math.Seq.{slice};
ghost use Rattle.nibbles.specs.Nibbles.{word, row, within, leading};
ghost use Rattle.formats.specs.Formats.{leads, filled, veiled};
ghost use Rattle.pins.specs.Answers.{count_of, reading_of};
ghost use Rattle.answers.specs.Answers.{digits_of};
ghost use Rattle.blocks.specs.Blocks.{veil, counted, contents, read_row, write_row};
ghost use Rattle.blocks.specs.Answers.{Proper};

use formats::{Fill, Format, Lead};
use numbers::Refusal;
use pins::Pin;

// A row of sixteen F.
const ALL_F: u64 = 0xffff_ffff_ffff_ffff;

// With the veil on, or taken off again.
fn under_veil(f: Format, with: u64, block: u64) -> u64
    ensures { result ≡ word (veil (veiled f) (row 16 with) (row 16 block)) }
{
    if f.veiled() { block ^ with } else { block }
}

// Where nothing leads the digits they end at the first F.
fn counted_bare(clear: u64) -> Result<usize, Refusal>
    ensures { result ≡ count_of (counted Lead.Bare (row 16 clear)) }
{
    let n = nibbles::run_end(clear, 0, 16, 0, 14);
    if nibbles::run_end(clear, 0, n, 0, 9) < n {
        return Err(Refusal::Block20);
    }
    Ok(n)
}

// C is judged, and N says the count.
fn counted_led(control: u8, clear: u64) -> Result<usize, Refusal>
    ensures { result ≡ count_of (counted (Lead.Control control) (row 16 clear)) }
{
    if nibbles::nibble(clear, 0) != control as u64 {
        return Err(Refusal::Block20);
    }
    Ok(nibbles::nibble(clear, 1) as usize)
}

fn counted_by(lead: Lead, clear: u64) -> Result<usize, Refusal>
    ensures { result ≡ count_of (counted lead (row 16 clear)) }
{
    match lead {
        Lead::Bare => counted_bare(clear),
        Lead::Control(control) => counted_led(control, clear),
    }
}

// Where the fill from a place on ends: at 16 if it is right to the end. Nothing but F is right whatever is read, and is seen at one
// stroke.
fn fill_end(clear: u64, from: usize, least: u64) -> usize
    requires { (from ≤ 14) × (least ≤ 15) }
    ensures { result ≡ from + length (leading (within least 15) (slice from 16 (row 16 clear))) }
{
    let places = 4 * from;
    if clear >> places == ALL_F >> places {
        return 16;
    }
    nibbles::run_end(clear, from, 16, least, 15)
}

// The digits behind the lead, where they and the fill are right.
fn digits(f: Format, clear: u64, n: usize) -> Result<Pin, Refusal>
    requires { n ≤ 12 }
    ensures { result ≡ reading_of (contents f (row 16 clear) n) }
{
    let from = f.lead().width();
    let to = from + n;
    if nibbles::run_end(clear, from, to, 0, 9) < to {
        return Err(Refusal::Block20);
    }
    if fill_end(clear, to, f.fill().least()) < 16 {
        return Err(Refusal::Block20);
    }
    Ok(Pin {
        length: n,
        digits: nibbles::part(clear, from, n),
    })
}

// Reads a block under any veil: "C (20), N (24), then digits and fill (20)".
pub fn read(f: Format, with: u64, block: u64) -> Result<Pin, Refusal>
    ensures { result ≡ reading_of (read_row f (row 16 with) (row 16 block)) }
{
    let clear = under_veil(f, with, block);
    let said = counted_by(f.lead(), clear)?;
    let n = pins::pin_length(said)?;
    digits(f, clear, n)
}

// C and N and the digits, or the digits alone.
#[tactic(auto, using(crate::proofs::Laws::proper_small))]
fn head(lead: Lead, pin: Pin) -> u64
    requires { Proper pin }
    ensures { result ≡ word (leads lead pin.length ++ digits_of pin) }
{
    match lead {
        Lead::Bare => pin.digits,
        Lead::Control(control) => (pin.digits * 16 + pin.length as u64) * 16 + control as u64,
    }
}

// The fill from a place on.
fn fill_from(kind: Fill, fill: u64, from: usize) -> u64
    requires { from ≤ 16 }
    ensures { result ≡ word (map (filled kind) (drop from (row 16 fill))) }
{
    let mut w: u64 = 0;
    for i in (from..16).rev() {
        w = w * 16 + kind.filled(nibbles::nibble(fill, i));
    }
    w
}

// Writes a PIN under any veil.
pub fn write(f: Format, with: u64, pin: Pin, fill: u64) -> u64
    requires { Proper pin }
    ensures { result ≡ word (write_row f (row 16 with) (digits_of pin) (row 16 fill)) }
{
    let lead = f.lead();
    let from = lead.width() + pin.length;
    let clear = nibbles::join(head(lead, pin), from, fill_from(f.fill(), fill, from));
    under_veil(f, with, clear)
}

// What the key box answered, judged.
#![tactic(auto)]

ghost use Rattle.std.specs.Prelude.{◌≡◌, IfOk};
ghost use Rattle.numbers.specs.Numbers.{done};
ghost use Rattle.keybox.specs.KeyBox.{slices, parities, boxed};
ghost use Rattle.keybox.specs.Answers.{rows_held, sliced_of, parity_of, box_read};

use fields::{Cursor, Fault};
use numbers::Refusal;

// What the key box answered: whether the parities of PIN key and PVK are good, and the two slices, the deciphered PIN block and the
// enciphered validation block.
#[derive(Clone, Copy)]
pub struct BoxAnswers<'a> {
    pub pinparity: bool,
    pub pvkparity: bool,
    pub block: &'a [u8],
    pub enciphered: &'a [u8],
}

// The two slices as rows.
#[derive(Clone, Copy)]
pub struct Boxed {
    pub block: u64,
    pub enciphered: u64,
}

// The two slices as rows, where each has eight bytes.
#[tactic(auto, unfolding(crate::specs::KeyBox::slices))]
fn slices(block: &[u8], enciphered: &[u8]) -> Result<Boxed, Refusal>
    ensures answered { result ≡ sliced_of (slices block.now enciphered.now) }
    ensures held { IfOk result (λ rows. slices block.now enciphered.now ≡ done (rows_held rows)) }
{
    let clear = pins::sized_row(block, 8)?;
    let cipher = pins::sized_row(enciphered, 8)?;
    Ok(Boxed {
        block: clear,
        enciphered: cipher,
    })
}

// 10, then 11.
#[tactic(auto, unfolding(crate::specs::KeyBox::parities))]
fn parities(pinparity: bool, pvkparity: bool) -> Result<(), Refusal>
    ensures { result ≡ parity_of (parities pinparity pvkparity) }
{
    if !pinparity {
        return Err(Refusal::PinKeyParity10);
    }
    if !pvkparity {
        return Err(Refusal::PvkParity11);
    }
    Ok(())
}

// The key box's answers to a command that ends at a place: the slices, then the parities.
#[tactic(auto, using(crate::proofs::Laws::answers_judged))]
pub fn key_box(end: usize, answers: BoxAnswers<'_>) -> Result<Boxed, Fault>
    ensures answered { let a = answers.entry in
        result ≡ box_read (boxed end a.pinparity a.pvkparity a.block.now a.enciphered.now) }
    ensures held { let a = answers.entry in
        IfOk result (λ rows. boxed end a.pinparity a.pvkparity a.block.now a.enciphered.now ≡ done (rows_held rows)) }
{
    let past = Cursor { at: end };
    let sliced = slices(answers.block, answers.enciphered);
    let rows = sliced.map_err(|q| fields::fault_at(q, 0, past))?;
    parities(answers.pinparity, answers.pvkparity)?;
    Ok(rows)
}

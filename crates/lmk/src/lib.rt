// LMK ids: the one that a key or its own field names, and whether two agree.
#![tactic(auto)]

ghost use Rattle.std.specs.Prelude.{◌≡◌, drop};
ghost use Rattle.fields.specs.Answers.{found_at};
ghost use Rattle.lmk.specs.Lmk.{lmk_field, agree};

use fields::Cursor;
use numbers::Refusal;

// Whether two LMK ids agree, where both are there.
pub fn agree(one: Option<usize>, other: Option<usize>) -> bool
    ensures { result ≡ agree one other }
{
    match (one, other) {
        (Some(m), Some(n)) => m == n,
        _ => true,
    }
}

// The LMK id in its own optional field.
#[tactic(auto, using(fields::proofs::Laws::mark_absent), unfolding(crate::specs::Lmk::lmk_field))]
pub fn lmk_field(cursor: Cursor, command: &[u8]) -> Result<(Option<usize>, Cursor), Refusal>
    ensures { result ≡ found_at cursor.at (lmk_field (drop cursor.at command.now)) }
{
    let Some(digits) = cursor.mark(command, b'%') else {
        return Ok((None, cursor));
    };
    let (id, next) = digits.number(command, 0, 9, Refusal::Field15)?;
    Ok((Some(id), next))
}

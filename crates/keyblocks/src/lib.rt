// Key blocks, from the version byte on.
#![tactic(auto)]

ghost use Rattle.std.specs.Prelude.{◌≡◌, drop};
ghost use Rattle.fields.specs.Answers.{found_at};
ghost use Rattle.keyblocks.specs.KeyBlocks.{key_block};

use alphabet::Class;
use fields::Cursor;
use numbers::Refusal;
use uses::Use;

// A key block, from its version byte.
#[tactic(auto, using(crate::proofs::Laws::block_parts), unfolding(crate::specs::KeyBlocks::key_block))]
pub fn key_block(
    cursor: Cursor,
    command: &[u8],
    permitted: Use,
) -> Result<(Option<usize>, Cursor), Refusal>
    ensures { result ≡ found_at cursor.at (key_block permitted (drop cursor.at command.now)) }
{
    let at = cursor.at;
    let missing = Refusal::Field15;
    let (length, rest) = keylengths::block_length(cursor, command)?;
    let (_, next) = rest.run(command, length - 5, Class::Printable, missing, missing)?;
    if !permitted.permits(command, at) {
        return Err(Refusal::Use29);
    }
    let (id, _) = Cursor { at: at + 14 }.number(command, 0, 9, missing)?;
    Ok((Some(id), next))
}

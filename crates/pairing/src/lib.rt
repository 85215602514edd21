// PIN and natural PIN of a command, from the places of its fields: what the key box is asked for, and what its answers come to.
#![tactic(auto)]

ghost use Rattle.std.specs.Prelude.{◌≡◌, ◌+◌, ◌≤◌, length};
ghost use Rattle.nibbles.specs.Nibbles.{word, nibs};
ghost use Rattle.answers.specs.Answers.{block_of};
ghost use Rattle.offsets.specs.Answers.{comparison_of};
ghost use Rattle.sealed.specs.Sealed.{block_in};
ghost use Rattle.offsetting.specs.Offsetting.{account_in};
ghost use Rattle.pairing.specs.Pairing.{asked_at, pair_at};
ghost use Rattle.pairing.specs.Answers.{Placed, box_rows};

use keybox::Boxed;
use numbers::Refusal;
use offsets::{Compared, Rows};
use offsetting::Offsetting;
use sealed::Sealed;

// The account's digits at their place. `Placed` stays a clause of these three: it speaks of the command and the places together, and a type
// of both would carry the command about.
fn account_at(command: &[u8], inputs: Offsetting) -> u64
    requires { Placed command.now inputs }
    ensures { result ≡ word (account_in command.now inputs) }
{
    let from = inputs.account;
    let to = from + 12;
    spelling::digits(&command[from..to])
}

// The block that the key box must encipher, of account and validation data.
pub fn asked(command: &[u8], inputs: Offsetting) -> Result<u64, Refusal>
    requires { Placed command.now inputs }
    ensures { result ≡ block_of (asked_at command.now inputs) }
{
    let account = account_at(command, inputs);
    let from = inputs.validation;
    let shape = inputs.shape;
    let to = from + shape.width();
    shape.row(account, &command[from..to])
}

// The PIN block at its place, as a row in a word.
pub fn block_row(command: &[u8], sealed: Sealed) -> u64
    requires { sealed.block + 16 ≤ length command.now }
    ensures { result ≡ word (nibs (block_in command.now sealed)) }
{
    let from = sealed.block;
    let to = from + 16;
    spelling::values(&command[from..to])
}

// The PIN in the block with its natural PIN, through account and table.
pub fn pair(
    command: &[u8],
    sealed: Sealed,
    inputs: Offsetting,
    boxed: Boxed,
) -> Result<Compared, Refusal>
    requires { Placed command.now inputs }
    ensures { result ≡ comparison_of (pair_at command.now sealed inputs (box_rows boxed)) }
{
    let format = sealed.format;
    let rows = Rows {
        block: boxed.block,
        account: account_at(command, inputs),
        enciphered: boxed.enciphered,
    };
    let from = inputs.table;
    let to = from + 16;
    offsets::with_natural(format, &command[from..to], rows)
}

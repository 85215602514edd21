// The PVV input as a row: the account's last eleven digits, the key index and the PIN's first four.
#![tactic(auto)]

ghost use Rattle.std.specs.Prelude.{◌≡◌, ◌≤◌, take, leb};
ghost use Rattle.nibbles.specs.Nibbles.{word, row};
ghost use Rattle.pvvinput.specs.PvvInput.{input_row};

// "the key index (0 to 6, else 15)"
pub fn key_index(index: u32) -> bool
    ensures { result ≡ leb index 6 }
{
    index <= 6
}

// The first four digits of a PIN, as a row.
fn first_four(pin: u64) -> u64
    ensures { result ≡ word (take 4 (row 16 pin)) }
{
    nibbles::part(pin, 0, 4)
}

// The last eleven account digits, the key index and the first four digits of the PIN, as a row.
pub fn input_row(account: u64, index: u32, pin: u64) -> u64
    requires { index ≤ 6 }
    ensures { result ≡ word (input_row (row 12 account) index (row 16 pin)) }
{
    let behind = nibbles::join(index as u64, 1, first_four(pin));
    nibbles::join(nibbles::part(account, 1, 11), 11, behind)
}

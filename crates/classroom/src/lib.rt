// What the programs share: the paper's exchange, and a block as text. Nothing here writes: no contract can say what reaches a
// terminal, so a function that writes promises nothing and is a program's own.
#![tactic(auto)]

ghost use Rattle.std.specs.Prelude.{◌≡◌, ◌<◌};
ghost use Rattle.classroom.specs.Text.{character_of, spelled};

// Header, code, key type, two keys, PIN block, format and check length, account, table, validation data.
pub const COMMAND: [u8; 135] =
    *b"HDR1BK001U00000000000000000000000000000000U000000000000000000000000000000000000000000000000010440000012345601234567890123450123456789AN";

// What the key box makes of the validation block that the command asks for.
pub const ENCIPHERED: [u8; 8] = [0x9f, 0x3c, 0x0a, 0x71, 0x00, 0x00, 0x00, 0x00];

// A nibble as a capital hex character.
#[tactic(auto, unfolding(crate::specs::Text::character_of))]
fn character(nibble: u64) -> u8
    requires { nibble < 16 }
    ensures { result ≡ character_of nibble }
{
    if nibble < 10 {
        return 0x30 + nibble as u8;
    }
    0x37 + nibble as u8
}

// A block as the host writes it in a command: 16 hex.
#[tactic(auto, using(nibbles::proofs::Rows::row_at_lt))]
pub fn hex(block: [u8; 8]) -> [u8; 16]
    ensures { result ≡ spelled block }
{
    let row = nibbles::row_of(&block);
    let mut text = [0u8; 16];
    for i in 0..16 {
        text[i] = character(nibbles::nibble(row, i));
    }
    text
}

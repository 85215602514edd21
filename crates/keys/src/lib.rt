// Key types and keys: which letters a key field admits and what a key block must permit are parameters.
#![tactic(auto)]

ghost use Rattle.std.specs.Prelude.{◌≡◌, ◌&&◌, drop};
ghost use Rattle.alphabet.specs.Alphabet.{admits};
ghost use Rattle.alphabet.specs.declared.Class.TheVariants.{CapitalHex};
ghost use Rattle.fields.specs.Answers.{found_at};
ghost use Rattle.keyblocks.specs.KeyBlocks.{key_block};
ghost use Rattle.keys.specs.Keys.{key_type, hex_key, admitted, key};

use alphabet::Class;
use fields::Cursor;
use numbers::Refusal;
use uses::Use;

const TYPE_001: [u8; 3] = *b"001";

const TYPE_002: [u8; 3] = *b"002";

const TYPE_FFF: [u8; 3] = *b"FFF";

// The keys that a field admits: S and a key block, 32 hex characters without a letter, U and 32, T and 48.
#[derive(Clone, Copy)]
pub struct Letters {
    pub block: bool,
    pub bare: bool,
    pub double: bool,
    pub triple: bool,
}

impl Letters {
    // "Types 001 and 002 want U + 32 or T + 48 hex characters in both"
    pub const U_OR_T: Letters = Letters {
        block: false,
        bare: false,
        double: true,
        triple: true,
    };

    // "FFF wants S in both"
    pub const S: Letters = Letters {
        block: true,
        bare: false,
        double: false,
        triple: false,
    };

    // Each field goes by its own letter, where no key type stands before the keys.
    pub const U_T_OR_S: Letters = Letters {
        block: true,
        bare: false,
        double: true,
        triple: true,
    };

    // Whether a character begins a key without a letter that the field admits.
    fn admits_bare(self, first: u8) -> bool
        ensures { result ≡ (self.bare && admits CapitalHex first) }
    {
        self.bare && Class::CapitalHex.admits(first)
    }
}

// The key type, and with it the letters that both keys want.
#[tactic(auto, using(crate::proofs::Texts::begins_room), unfolding(crate::specs::Keys::key_type))]
pub fn key_type(cursor: Cursor, command: &[u8]) -> Result<(Letters, Cursor), Refusal>
    ensures { result ≡ found_at cursor.at (key_type (drop cursor.at command.now)) }
{
    let at = cursor.at;
    if alphabet::has_at(command, at, &TYPE_001) || alphabet::has_at(command, at, &TYPE_002) {
        return Ok((Letters::U_OR_T, Cursor { at: at + 3 }));
    }
    if alphabet::has_at(command, at, &TYPE_FFF) {
        return Ok((Letters::S, Cursor { at: at + 3 }));
    }
    Err(Refusal::Field15)
}

// The hex characters of a key, where the field admits such a key.
#[tactic(auto, unfolding(crate::specs::Keys::hex_key))]
fn hex_key(
    cursor: Cursor,
    command: &[u8],
    n: usize,
    admits: bool,
) -> Result<(Option<usize>, Cursor), Refusal>
    ensures { result ≡ found_at cursor.at (admitted admits (hex_key n (drop cursor.at command.now))) }
{
    if !admits {
        return Err(Refusal::Key26);
    }
    let missing = Refusal::Field15;
    let (_, next) = cursor.run(command, n, Class::CapitalHex, missing, missing)?;
    Ok((None, next))
}

// A key block behind its letter, where the field admits one.
fn block_key(
    cursor: Cursor,
    command: &[u8],
    permitted: Use,
    admits: bool,
) -> Result<(Option<usize>, Cursor), Refusal>
    ensures { result ≡ found_at cursor.at (admitted admits (key_block permitted (drop cursor.at command.now))) }
{
    if !admits {
        return Err(Refusal::Key26);
    }
    keyblocks::key_block(cursor, command, permitted)
}

// A key: its letter first, then what the letter wants.
#[tactic(auto, using(crate::proofs::Laws::letters_there))]
pub fn key_field(
    cursor: Cursor,
    command: &[u8],
    letters: Letters,
    permitted: Use,
) -> Result<(Option<usize>, Cursor), Refusal>
    ensures { result ≡ found_at cursor.at (key letters permitted (drop cursor.at command.now)) }
{
    let at = cursor.at;
    if command.len() <= at {
        return Err(Refusal::Field15);
    }
    let letter = command[at];
    let behind = Cursor { at: at + 1 };
    match letter {
        b'U' => hex_key(behind, command, 32, letters.double),
        b'T' => hex_key(behind, command, 48, letters.triple),
        b'S' => block_key(behind, command, permitted, letters.block),
        _ => hex_key(cursor, command, 32, letters.admits_bare(letter)),
    }
}

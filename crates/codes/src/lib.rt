// The codes that name the formats, and the width of a block.
#![tactic(auto)]

ghost use Rattle.std.specs.Prelude.{◌≡◌};
ghost use Rattle.codes.specs.Codes.{code_of, is_known, format_of, block_width};
ghost use Rattle.codes.specs.Answers.{chosen_of};

use formats::Format;
use numbers::Refusal;

// What a format code names.
#[derive(Clone, Copy)]
pub enum Code {
    Built(Format),
    Known,
    Unknown,
}

impl From<u32> for Code {
    ghost from_gives = { λ code named. named ≡ code_of code };

    #[tactic(auto, unfolding(crate::specs::Codes::code_of))]
    fn from(code: u32) -> Code {
        match code {
            1 => Code::Built(Format::F01),
            3 => Code::Built(Format::F03),
            5 => Code::Built(Format::F05),
            34 => Code::Built(Format::F34),
            35 => Code::Built(Format::F35),
            47 => Code::Built(Format::F47),
            41 => Code::Known,
            42 => Code::Known,
            48 => Code::Known,
            _ => Code::Unknown,
        }
    }
}

impl Code {
    pub fn is_known(self) -> bool
        ensures { result ≡ is_known self }
    {
        !matches!(self, Code::Unknown)
    }
}

// The format that a code names: 23, then 69.
pub fn chosen(code: u32) -> Result<Format, Refusal>
    ensures { result ≡ chosen_of (format_of (code_of code)) }
{
    match Code::from(code) {
        Code::Built(f) => Ok(f),
        Code::Known => Err(Refusal::NotHere69),
        Code::Unknown => Err(Refusal::Format23),
    }
}

// The bytes of a block; every format that is built has eight.
pub fn block_width(code: u32) -> usize
    ensures { result ≡ block_width code }
{
    8
}

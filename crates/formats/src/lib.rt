// The table of PIN block formats.
#![tactic(auto)]

ghost use Rattle.std.specs.Prelude.{◌≡◌};
ghost use Rattle.formats.specs.Formats.{lead_of, fill_of, veiled, lead_width, least_fill, filled, is01or47};

#[derive(Clone, Copy)]
pub enum Format {
    F01,
    F03,
    F05,
    F34,
    F35,
    F47,
}

// What leads the digits: nothing, or C and the PIN's length. It is no Option: these are two ways to write a block, and `Some(2)` would not
// say that a length follows.
#[derive(Clone, Copy)]
pub enum Lead {
    Bare,
    Control(u8),
}

// The nibbles behind the digits.
#[derive(Clone, Copy)]
pub enum Fill {
    F,
    AToF,
    Any,
}

impl Format {
    pub fn lead(self) -> Lead
        ensures { result ≡ lead_of self }
    {
        match self {
            Format::F01 => Lead::Control(0),
            Format::F03 => Lead::Bare,
            Format::F05 => Lead::Control(1),
            Format::F34 => Lead::Control(2),
            Format::F35 => Lead::Control(2),
            Format::F47 => Lead::Control(3),
        }
    }

    pub fn fill(self) -> Fill
        ensures { result ≡ fill_of self }
    {
        match self {
            Format::F01 => Fill::F,
            Format::F03 => Fill::F,
            Format::F05 => Fill::Any,
            Format::F34 => Fill::F,
            Format::F35 => Fill::F,
            Format::F47 => Fill::AToF,
        }
    }

    pub fn veiled(self) -> bool
        ensures { result ≡ veiled self }
    {
        matches!(self, Format::F01 | Format::F35 | Format::F47)
    }

    pub fn is_01_or_47(self) -> bool
        ensures { result ≡ is01or47 self }
    {
        matches!(self, Format::F01 | Format::F47)
    }
}

impl Lead {
    pub fn width(self) -> usize
        ensures { result ≡ lead_width self }
    {
        match self {
            Lead::Bare => 0,
            Lead::Control(_) => 2,
        }
    }
}

impl Fill {
    pub fn least(self) -> u64
        ensures { result ≡ least_fill self }
    {
        match self {
            Fill::F => 15,
            Fill::AToF => 10,
            Fill::Any => 0,
        }
    }

    pub fn filled(self, n: u64) -> u64
        ensures { result ≡ filled self n }
    {
        match self {
            Fill::F => 15,
            Fill::AToF => 10 + n % 6,
            Fill::Any => n,
        }
    }
}

// What a key block must permit: algorithm T, and a usage and a mode of what the key is for.
#![tactic(auto)]

ghost use Rattle.std.specs.Prelude.{◌≡◌, ◌+◌, ◌≤◌, length, drop};
ghost use Rattle.uses.specs.Uses.{usages_in, begins_one, modes_in, is_one, permits};

// The usages that a key may have.
#[derive(Clone, Copy)]
pub enum Usages {
    P0Or71Or72,
    P0Or71,
    P0Or72,
    V1,
}

// The modes that a key may have.
#[derive(Clone, Copy)]
pub enum Modes {
    BOrDOrN,
    COrGOrN,
    COrVOrN,
}

// What a key is for, as what its key block may say.
#[derive(Clone, Copy)]
pub struct Use {
    pub usages: Usages,
    pub modes: Modes,
}

impl Usages {
    // Whether one of these usages stands at a place.
    #[tactic(auto, unfolding(crate::specs::Uses::begins_one))]
    fn stand_at(self, command: &[u8], at: usize) -> bool
        ensures { result ≡ begins_one (usages_in self) (drop at command.now) }
    {
        let stands = |usage: &[u8]| alphabet::has_at(command, at, usage);
        match self {
            Usages::P0Or71Or72 => stands(b"P0") || stands(b"71") || stands(b"72"),
            Usages::P0Or71 => stands(b"P0") || stands(b"71"),
            Usages::P0Or72 => stands(b"P0") || stands(b"72"),
            Usages::V1 => stands(b"V1"),
        }
    }
}

impl Modes {
    // Whether a mode is one of these.
    #[tactic(auto, unfolding(crate::specs::Uses::is_one))]
    fn has(self, mode: u8) -> bool
        ensures { result ≡ is_one (modes_in self) mode }
    {
        match self {
            Modes::BOrDOrN => matches!(mode, b'B' | b'D' | b'N'),
            Modes::COrGOrN => matches!(mode, b'C' | b'G' | b'N'),
            Modes::COrVOrN => matches!(mode, b'C' | b'V' | b'N'),
        }
    }
}

impl Use {
    // "PIN key: P0, 71 or 72; T; B, D or N"
    pub const PIN_KEY: Use = Use {
        usages: Usages::P0Or71Or72,
        modes: Modes::BOrDOrN,
    };

    // "PVK: V1; T; C, G or N"
    pub const PVK: Use = Use {
        usages: Usages::V1,
        modes: Modes::COrGOrN,
    };

    // The PIN key of DA is a terminal's: P0 or 71; T; B, D or N. That of EA is a zone's: P0 or 72; T; B, D or N.
    pub const TERMINAL_KEY: Use = Use {
        usages: Usages::P0Or71,
        modes: Modes::BOrDOrN,
    };

    pub const ZONE_KEY: Use = Use {
        usages: Usages::P0Or72,
        modes: Modes::BOrDOrN,
    };

    // The PVK of DA and EA verifies: V1; T; C, V or N.
    pub const VERIFYING_PVK: Use = Use {
        usages: Usages::V1,
        modes: Modes::COrVOrN,
    };

    // Whether the key block that begins at a place permits this use.
    pub fn permits(self, command: &[u8], at: usize) -> bool
        requires { at + 9 ≤ length command.now }
        ensures { result ≡ permits self (drop at command.now) }
    {
        self.usages.stand_at(command, at + 5)
            && command[at + 7] == b'T'
            && self.modes.has(command[at + 8])
    }
}

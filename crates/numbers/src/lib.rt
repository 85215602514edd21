// The numbers that the host and the server meet.
#![tactic(auto)]

ghost use Rattle.std.specs.Prelude.{◌≡◌, []};
ghost use Rattle.numbers.specs.Numbers.{number_of};
ghost use Rattle.numbers.specs.Promise.{Does, quietly};
ghost use Rattle.numbers.specs.Answers.{verdict_says};

// Each refusal, and the verdict 01, by what it means, under the paper's number.
#[derive(Clone, Copy)]
pub enum Refusal {
    Unverified01 = 1,
    WeakList03 = 3,
    PinKeyParity10 = 10,
    PvkParity11 = 11,
    Field15 = 15,
    Block20 = 20,
    Format23 = 23,
    Length24 = 24,
    Table25 = 25,
    Key26 = 26,
    Use29 = 29,
    Code68 = 68,
    NotHere69 = 69,
    Check81 = 81,
    Weak86 = 86,
    Room901 = 901,
    Frame902 = 902,
}

// What every call answers: the number, and how many bytes, digits or differences it wrote. It is no Result: C reads the number, and an
// answering call writes where it refuses too, so that every promise (`Does`) speaks of both.
#[repr(C)]
#[derive(Clone, Copy)]
pub struct Reply {
    pub number: u32,
    pub written: u32,
}

impl Reply {
    // A refusal, or a verdict 01, that writes nothing.
    pub fn refused(q: Refusal) -> Reply
        ensures { (result.number ≡ number_of q) × (result.written ≡ 0) }
    {
        Reply {
            number: q.number(),
            written: 0,
        }
    }

    // 00, with a count of what was written.
    pub fn done(written: u32) -> Reply
        ensures { (result.number ≡ 0) × (result.written ≡ written) }
    {
        Reply { number: 0, written }
    }

    // What a call for a verdict answers: 00, or why there is none, 01 too. It writes nothing.
    pub fn verdict(judged: Result<(), Refusal>) -> Reply
        ensures { Does (quietly (verdict_says judged)) [] result [] }
    {
        match judged {
            Ok(()) => Reply::done(0),
            Err(q) => Reply::refused(q),
        }
    }
}

impl Refusal {
    pub fn number(self) -> u32
        ensures { result ≡ number_of self }
    {
        self as u32
    }
}

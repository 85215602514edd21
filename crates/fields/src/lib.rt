// The command cursor, and a reader for each kind of field.
#![tactic(auto)]

ghost use Rattle.std.specs.Prelude.{◌≡◌, ◌+◌, ◌-◌, ◌*◌, ◌≤◌, length, take, drop};
ghost use Rattle.alphabet.specs.Alphabet.{all_of, value_of};
ghost use Rattle.fields.specs.Fields.{run, number, marked, trailer, pointer_of};
ghost use Rattle.fields.specs.Answers.{found_at, mark_from};

use alphabet::Class;
use numbers::Refusal;

const TRAILER_MARK: u8 = 0x19;

const LONGEST_TRAILER: usize = 32;

// Where the next field begins. The command does not travel with it: positions do, contents do not, and each reader is lent the command.
#[derive(Clone, Copy)]
pub struct Cursor {
    pub at: usize,
}

// Why a command is refused: the refusal, the number of its field and the place where that field begins.
#[derive(Clone, Copy)]
pub struct Fault {
    pub refusal: Refusal,
    pub field: usize,
    pub place: usize,
}

// What the server is shown of a fault beside its number.
#[derive(Clone, Copy)]
pub struct Pointer {
    pub place: usize,
    pub field: usize,
}

impl Pointer {
    pub const NOWHERE: Pointer = Pointer { place: 0, field: 0 };
}

impl Fault {
    pub fn pointer(self) -> Pointer
        ensures { result ≡ pointer_of self }
    {
        Pointer {
            place: self.place,
            field: self.field,
        }
    }
}

// The fault of a field that begins at the cursor.
pub fn fault_at(refusal: Refusal, field: usize, cursor: Cursor) -> Fault
    ensures { result ≡ record { refusal = refusal; field = field; place = cursor.at } }
{
    Fault {
        refusal,
        field,
        place: cursor.at,
    }
}

// What is not a field's is pointed at nothing.
impl From<Refusal> for Fault {
    ghost from_gives = { λ q f. f ≡ record { refusal = q; field = 0; place = 0 } };

    fn from(refusal: Refusal) -> Fault {
        fault_at(refusal, 0, Cursor { at: 0 })
    }
}

// Whether the n characters from a place on are of a class.
#[tactic(auto, using(crate::proofs::Laws::slice_ahead), unfolding(alphabet::specs::Alphabet::all_of))]
fn all_ahead(class: Class, command: &[u8], from: usize, n: usize) -> bool
    requires { n ≤ length command.now - from }
    ensures { result ≡ all_of class (take n (drop from command.now)) }
{
    if n == 0 {
        return true;
    }
    alphabet::all_of(class, command, from, from + n)
}

// The number that two digits make.
pub fn two_digits(tens: u8, ones: u8) -> usize
    ensures { result ≡ value_of tens * 10 + value_of ones }
{
    alphabet::value(tens) as usize * 10 + alphabet::value(ones) as usize
}

// The lesser of a number and a limit.
fn at_most(high: usize, n: usize) -> usize
    ensures { result ≡ Rattle.fields.specs.Fields.at_most high n }
{
    high.min(n)
}

impl Cursor {
    // "Inside a field a missing character is judged before a wrong one": each has its own number, which the field gives.
    #[tactic(auto, unfolding(crate::specs::Fields::run))]
    pub fn run(
        self,
        command: &[u8],
        n: usize,
        class: Class,
        missing: Refusal,
        wrong: Refusal,
    ) -> Result<(usize, Cursor), Refusal>
        ensures { result ≡ found_at self.at (run class missing wrong n (drop self.at command.now)) }
    {
        let from = self.at;
        if alphabet::ahead(command, from) < n {
            return Err(missing);
        }
        if !all_ahead(class, command, from, n) {
            return Err(wrong);
        }
        Ok((n, Cursor { at: from + n }))
    }

    // A number of two digits, from low to high.
    #[tactic(auto, using(crate::proofs::Laws::numbers_found), unfolding(crate::specs::Fields::number))]
    pub fn number(
        self,
        command: &[u8],
        low: usize,
        high: usize,
        wrong: Refusal,
    ) -> Result<(usize, Cursor), Refusal>
        ensures { result ≡ found_at self.at (number low high wrong (drop self.at command.now)) }
    {
        let (_, next) = self.run(command, 2, Class::Digit, wrong, wrong)?;
        let at = self.at;
        let n = two_digits(command[at], command[at + 1]);
        if n < low {
            return Err(wrong);
        }
        if high < n {
            return Err(wrong);
        }
        Ok((n, next))
    }

    // The mark of an optional field.
    #[tactic(auto, using(crate::proofs::Laws::marks_found))]
    pub fn mark(self, command: &[u8], mark: u8) -> Option<Cursor>
        ensures { result ≡ mark_from self.at (marked mark (drop self.at command.now)) }
    {
        let at = self.at;
        if command.len() <= at {
            return None;
        }
        if command[at] != mark {
            return None;
        }
        Some(Cursor { at: at + 1 })
    }

    // The optional trailer: at most 32 printable characters behind its mark.
    #[tactic(auto, using(crate::proofs::Laws::trailer_absent))]
    pub fn trailer(self, command: &[u8]) -> Result<(usize, Cursor), Refusal>
        ensures { result ≡ found_at self.at (trailer (drop self.at command.now)) }
    {
        let Some(text) = self.mark(command, TRAILER_MARK) else {
            return Ok((0, self));
        };
        let left = alphabet::ahead(command, text.at);
        text.run(
            command,
            at_most(LONGEST_TRAILER, left),
            Class::Printable,
            Refusal::Field15,
            Refusal::Field15,
        )
    }
}

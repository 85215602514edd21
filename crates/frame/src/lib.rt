// The frame of a command, and the bytes that a response opens with.
#![tactic(auto)]

ghost use Rattle.std.specs.Prelude.{◌≡◌, ◌∷◌, ◌++◌, ◌+◌, ◌≤◌, length, get_or, drop};
ghost use Rattle.frame.specs.Frame.{is_framed, code_of, raised, in_two_digits, opening};

use alphabet::Class;
use settings::Settings;

const LONGEST_COMMAND: usize = 4096;

// The commands that there are, by their codes.
#[derive(Clone, Copy)]
pub enum Code {
    Bk,
    Da,
    Ea,
    Other,
}

impl Code {
    // The command whose code stands at a place.
    pub fn at(command: &[u8], at: usize) -> Code
        ensures { result ≡ code_of (drop at command.now) }
    {
        if alphabet::has_at(command, at, b"BK") {
            return Code::Bk;
        }
        if alphabet::has_at(command, at, b"DA") {
            return Code::Da;
        }
        if alphabet::has_at(command, at, b"EA") {
            return Code::Ea;
        }
        Code::Other
    }
}

// Whether a command has a frame under a header setting; what has none is 902.
pub fn is_framed(header: usize, command: &[u8]) -> bool
    ensures { result ≡ is_framed header command.now }
{
    header <= Settings::LONGEST_HEADER
        && command.len() <= LONGEST_COMMAND
        && header + 2 <= command.len()
        && alphabet::all_of(Class::Printable, command, 0, header)
}

// Writes a run over the beginning of the output. Not by `copy_from_slice`, which asks the C library for memmove where only the run tells the
// length.
pub fn put_run(run: &[u8], out: &mut [u8])
    requires { length run.now ≤ length out.old }
    ensures { out.new ≡ run.now ++ drop (length run.now) out.old }
{
    for i in 0..run.len() {
        out[i] = run[i];
    }
}

// Writes response code and two-digit number over the beginning of the output.
pub fn put_code(header: usize, command: &[u8], number: u32, out: &mut [u8])
    requires { (header + 2 ≤ length command.now) × (4 ≤ length out.old) }
    ensures { out.new ≡ (get_or command.now header 0 ∷ raised (get_or command.now (header + 1) 0) ∷ in_two_digits number) ++ drop 4 out.old }
{
    let tens = number / 10 % 10;
    let ones = number % 10;
    let code = [
        command[header],
        ((command[header + 1] as u32 + 1) % 256) as u8,
        (0x30 + tens) as u8,
        (0x30 + ones) as u8,
    ];
    put_run(&code, out);
}

// Opens a response: header, response code and two-digit number.
pub fn open(header: usize, command: &[u8], number: u32, out: &mut [u8])
    requires { (header + 2 ≤ length command.now) × (header + 4 ≤ length out.old) }
    ensures { out.new ≡ opening header command.now number ++ drop (header + 4) out.old }
{
    put_run(&command[..header], out);
    put_code(header, command, number, &mut out[header..]);
}

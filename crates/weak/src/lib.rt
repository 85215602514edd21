// The weak PINs of a command: whether a PIN is one of them.
#![tactic(auto)]

ghost use Rattle.std.specs.Prelude.{◌≡◌, drop};
ghost use Rattle.nibbles.specs.Nibbles.{row};
ghost use Rattle.weak.specs.Weak.{is_on, weak_pins};
ghost use Rattle.weak.specs.Answers.{Lies, lists};

// How many weak PINs there are, the length of each and where their list begins.
#[derive(Clone, Copy)]
pub struct Weak {
    pub count: usize,
    pub length: usize,
    pub list: usize,
}

// Whether a text stands at the place of one of the weak PINs.
fn lists(weak: Weak, command: &[u8], text: &[u8]) -> bool
    requires { Lies weak command.now }
    ensures { result ≡ lists text.now weak.count weak.length (drop weak.list command.now) }
{
    for i in 0..weak.count {
        if alphabet::has_at(command, weak.list + i * weak.length, text) {
            return true;
        }
    }
    false
}

// Whether a PIN of n digits is on the weak list.
pub fn is_weak(weak: Weak, command: &[u8], n: usize, digits: u64) -> bool
    requires { Lies weak command.now }
    ensures { result ≡ is_on (row n digits) (weak_pins weak command.now) }
{
    if weak.length != n {
        return false;
    }
    // as characters, once: the list is then compared as it stands
    let mut pin = [0u8; 12];
    spelling::put_characters(digits, weak.length, &mut pin);
    lists(weak, command, &pin[..weak.length])
}

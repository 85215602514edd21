// The calls of the ciphers: DES and triple DES of a block, either way, and the check value of a key.
#![tactic(auto)]

ghost use Rattle.std.specs.Prelude.{◌≡◌, ℕ, true, ◌≤◌, length};
ghost use Rattle.numbers.specs.Promise.{Does, quietly};
ghost use Rattle.ciphercalls.specs.CipherCalls.{first_bytes, des_call, triple_call, key_check};

use ciphers::Way;
use numbers::{Refusal, Reply};

// Writes the first n bytes of what a cipher makes: 901 where they have no room, then 15 for a key or a block that is none.
fn write_first<C: FnOnce() -> u64>(n: usize, fit: bool, out: &mut [u8], cipher: C) -> Reply
    requires few { n ≤ 8 }
    requires callable { fit ≡ true → C.pre cipher }
    ensures { (w : ℕ) × (fit ≡ true → n ≤ length out.old → C.post cipher w)
        × Does (quietly (first_bytes n fit w (length out.old))) out.old result out.new }
{
    if out.len() < n {
        return Reply::refused(Refusal::Room901);
    }
    if !fit {
        return Reply::refused(Refusal::Field15);
    }
    words::put_bytes(cipher(), n, out);
    Reply::done(n as u32)
}

// DES of a block, under a key of eight bytes.
pub fn des(way: Way, key: &[u8], block: &[u8], out: &mut [u8]) -> Reply
    ensures { Does (quietly (des_call way key.now block.now (length out.old))) out.old result out.new }
{
    let fit = key.len() == 8 && block.len() == 8;
    write_first(8, fit, out, || ciphers::des_word(way, key, block))
}

// Triple DES of a block, under a lab key.
pub fn triple(way: Way, key: &[u8], block: &[u8], out: &mut [u8]) -> Reply
    ensures { Does (quietly (triple_call way key.now block.now (length out.old))) out.old result out.new }
{
    let fit = ciphers::is_lab_key(key) && block.len() == 8;
    write_first(8, fit, out, || ciphers::triple_word(way, key, block))
}

// The check value of a lab key.
pub fn key_check(key: &[u8], out: &mut [u8]) -> Reply
    ensures { Does (quietly (key_check key.now (length out.old))) out.old result out.new }
{
    let fit = ciphers::is_lab_key(key);
    write_first(
        3,
        fit,
        out,
        || ciphers::triple_word(Way::Encipher, key, &[0; 8]),
    )
}

// The product above the core that has the keys itself: it answers a whole command, and knows the core by its three calls alone.
#![tactic(auto)]

ghost use Rattle.std.specs.Prelude.{◌≡◌, length};
ghost use Rattle.numbers.specs.Promise.{Does};
ghost use Rattle.fields.specs.Fields.{shown};
ghost use Rattle.lab.specs.Lab.{bytes_of, made_of, clear_block, validation_cipher, lab_answered, lab_replying};

use ciphers::Way;
use keybox::BoxAnswers;
use responses::Told;
use settings::Settings;

// What triple DES makes of a block under a lab key: nothing, where the key is no lab key.
fn make(way: Way, key: &[u8], block: &[u8]) -> Option<[u8; 8]>
    requires { length block.now ≡ 8 }
    ensures { bytes_of result ≡ made_of way key.now block.now }
{
    if !ciphers::is_lab_key(key) {
        return None;
    }
    let mut bytes = [0u8; 8];
    words::put_bytes(ciphers::triple_word(way, key, block), 8, &mut bytes);
    Some(bytes)
}

// The command's PIN block, deciphered under the PIN key.
fn clear_block(settings: Settings, command: &[u8], pinkey: &[u8]) -> Option<[u8; 8]>
    ensures { bytes_of result ≡ clear_block settings command.now pinkey.now }
{
    let mut sealed = [0u8; 16];
    let told = commands::pin_block(settings, command, &mut sealed);
    if told.reply.written == 0 {
        return None;
    }
    make(Way::Decipher, pinkey, &sealed[..8])
}

// The validation block, enciphered under the PVK.
fn validation_cipher(settings: Settings, command: &[u8], pvk: &[u8]) -> Option<[u8; 8]>
    ensures { bytes_of result ≡ validation_cipher settings command.now pvk.now }
{
    let mut asked = [0u8; 8];
    let told = commands::ask(settings, command, &mut asked);
    if told.reply.written == 0 {
        return None;
    }
    make(Way::Encipher, pvk, &asked)
}

// What was made, as a run of bytes: where it is nothing, none.
fn run(made: &Option<[u8; 8]>) -> &[u8]
    ensures { result.now ≡ bytes_of made.now }
{
    match made {
        Some(bytes) => bytes,
        None => &[],
    }
}

// Answers a command with two lab keys: what the key box would have made of it is made here.
pub fn answer(settings: Settings, command: &[u8], pinkey: &[u8], pvk: &[u8], out: &mut [u8]) -> Told
    ensures { Does (lab_answered settings command.now pinkey.now pvk.now (length out.old)) out.old result.reply out.new
        × (result.pointer ≡ shown (lab_replying settings command.now pinkey.now pvk.now (length out.old))) }
{
    let clear = clear_block(settings, command, pinkey);
    let cipher = validation_cipher(settings, command, pvk);
    let answers = BoxAnswers {
        pinparity: parity::odd_parity(pinkey),
        pvkparity: parity::odd_parity(pvk),
        block: run(&clear),
        enciphered: run(&cipher),
    };
    commands::answer(settings, answers, command, out)
}

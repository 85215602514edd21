// The paper's exchange, "Run, not proved": a BK command, what it asks of the key box, and its response.
#![tactic(auto)]

use keybox::BoxAnswers;
use settings::Settings;
use std::io;

// The PIN block that the key box deciphered: format 01, PIN 34567.
const PIN_BLOCK: [u8; 8] = [0x05, 0x34, 0x16, 0x7f, 0xff, 0xed, 0xcb, 0xa9];

fn show_line(rt: &impl Print, text: &[u8]) -> io::Result<()> {
    rt.write_all(text)?;
    rt.write_all(b"\n")
}

fn main(rt: HostRuntime) -> io::Result<()> {
    // Format 01 would do without; a class that sends another format here meets what it always met.
    let settings = Settings::usual().with_restricted(false);
    let command = classroom::COMMAND;
    let block = PIN_BLOCK;
    let enciphered = classroom::ENCIPHERED;
    show_line(&rt, &command)?;

    let mut asked = [0u8; 8];
    commands::ask(settings, &command, &mut asked);
    show_line(&rt, &classroom::hex(asked))?;

    let mut response = [0u8; 65];
    let answers = BoxAnswers {
        pinparity: true,
        pvkparity: true,
        block: &block,
        enciphered: &enciphered,
    };
    let told = commands::answer(settings, answers, &command, &mut response);
    let n = response.len().min(told.reply.written as usize);
    show_line(&rt, &response[..n])
}

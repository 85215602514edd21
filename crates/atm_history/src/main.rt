// The ATM history course: one PIN in format 03, which old ATMs wrote, and in 34 and 35, which are for changing a PIN on a card. Each
// block holds the same PIN, becomes the same block of format 01, and gives BK the same offset.
#![tactic(auto)]

use keybox::BoxAnswers;
use settings::Settings;
use std::io;

const PIN: [u8; 5] = [3, 4, 5, 6, 7];

const ACCOUNT: [u8; 12] = *b"400000123456";

// "the rest ignore it": no format of the course takes a nibble from the fill bytes.
const FILL: [u8; 8] = [0; 8];

// Where a command with a header of four characters names its format.
const FORMAT_AT: usize = 91;

fn show(rt: &impl Print, label: &[u8], text: &[u8]) -> io::Result<()> {
    rt.write_all(label)?;
    rt.write_all(text)?;
    rt.write_all(b"\n")
}

fn show_refusal(rt: &impl Print, label: &[u8], number: u32) -> io::Result<()> {
    rt.write_all(label)?;
    println!(rt; "refused, {number}")
}

fn show_digits(rt: &impl Print, label: &[u8], digits: &[u8]) -> io::Result<()> {
    rt.write_all(label)?;
    for digit in digits {
        print!(rt; "{digit}")?;
    }
    rt.write_all(b"\n")
}

// The block that an ATM of the format wrote for the PIN and the account.
fn written(format: u32) -> [u8; 8] {
    let pin = PIN;
    let account = ACCOUNT;
    let fill = FILL;
    let mut block = [0u8; 8];
    blockcalls::write_block(format, &pin, &account, &fill, &mut block);
    block
}

fn show_reading(rt: &impl Print, label: &[u8], format: u32, block: [u8; 8]) -> io::Result<()> {
    let account = ACCOUNT;
    let mut digits = [0u8; 12];
    let reply = blockcalls::read_block(format, &block, &account, &mut digits);
    if reply.number != 0 {
        return show_refusal(rt, label, reply.number);
    }
    let n = digits.len().min(reply.written as usize);
    show_digits(rt, label, &digits[..n])
}

fn show_translation(
    rt: &impl Print,
    settings: Settings,
    format: u32,
    block: [u8; 8],
) -> io::Result<()> {
    let account = ACCOUNT;
    let fill = FILL;
    let mut modern = [0u8; 8];
    let reply = translation::translate(settings, format, 1, &block, &account, &fill, &mut modern);
    if reply.number != 0 {
        return show_refusal(rt, b"  in format 01  ", reply.number);
    }
    show(rt, b"  in format 01  ", &classroom::hex(modern))
}

// The paper's command, with another format in its field of two digits.
fn command_in(format: u32) -> [u8; 135] {
    let mut command = classroom::COMMAND;
    command[FORMAT_AT] = b'0' + (format / 10 % 10) as u8;
    command[FORMAT_AT + 1] = b'0' + (format % 10) as u8;
    command
}

fn show_response(
    rt: &impl Print,
    settings: Settings,
    format: u32,
    block: [u8; 8],
) -> io::Result<()> {
    let command = command_in(format);
    let enciphered = classroom::ENCIPHERED;
    let mut response = [0u8; 65];
    let answers = BoxAnswers {
        pinparity: true,
        pvkparity: true,
        block: &block,
        enciphered: &enciphered,
    };
    let told = commands::answer(settings, answers, &command, &mut response);
    let n = response.len().min(told.reply.written as usize);
    show(rt, b"  BK's response ", &response[..n])
}

fn tell(rt: &impl Print, settings: Settings, format: u32) -> io::Result<()> {
    let block = written(format);
    show(rt, b"  written       ", &classroom::hex(block))?;
    show_reading(rt, b"  read back     ", format, block)?;
    show_translation(rt, settings, format, block)?;
    show_response(rt, settings, format, block)
}

// What comes of a block that is read in a format it was not written in. 34 and 35 have one control and tell each other by the
// fill; 03 has no control to look at, and takes another format's control and length for digits.
fn tell_mistakes(rt: &impl Print) -> io::Result<()> {
    show(
        rt,
        b"mistaken        ",
        b"read in another format than written in",
    )?;
    show_reading(rt, b"  34 read as 35 ", 35, written(34))?;
    show_reading(rt, b"  35 read as 34 ", 34, written(35))?;
    show_reading(rt, b"  34 read as 03 ", 3, written(34))
}

fn main(rt: HostRuntime) -> io::Result<()> {
    // Formats 03, 34 and 35 are for a box whose formats are not restricted: the course asks for that by name.
    let settings = Settings::usual().with_restricted(false);
    let pin = PIN;
    let account = ACCOUNT;
    show_digits(&rt, b"PIN             ", &pin)?;
    show(&rt, b"account         ", &account)?;
    show(&rt, b"format 03       ", b"digits, then F")?;
    tell(&rt, settings, 3)?;
    show(
        &rt,
        b"format 34       ",
        b"control 2, length, digits, then F",
    )?;
    tell(&rt, settings, 34)?;
    show(
        &rt,
        b"format 35       ",
        b"as 34, XOR with the account field",
    )?;
    tell(&rt, settings, 35)?;
    tell_mistakes(&rt)
}

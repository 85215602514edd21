// The archive: what the classroom server links. Each export is the call of its name in quillgimlet, under the same promise, and does
// nothing but call it.
#![tactic(auto)]

ghost use Rattle.std.specs.Prelude.{◌≡◌, []};
ghost use lib.ListN.{length};
ghost use Rattle.numbers.specs.Promise.{Does, quietly};
ghost use Rattle.blockcalls.specs.BlockCalls.{read_block, write_block};
ghost use Rattle.translation.specs.Translation.{translate_block};
ghost use Rattle.validation.specs.Validation.{validation_block};
ghost use Rattle.naturals.specs.Naturals.{natural_pin};
ghost use Rattle.offsets.specs.Offsets.{offset_made, offset_of_digits, differences_of};
ghost use Rattle.verdicts.specs.Verdicts.{offset_verdict};
ghost use Rattle.pvv.specs.Pvv.{pvv_input, pvv_made, pvv_verdict};
ghost use Rattle.settings.specs.Settings.{usually};
ghost use Rattle.fields.specs.Fields.{nowhere, shown};
ghost use Rattle.commands.specs.Commands.{asked, asking, extracted, extracting, answered, replying};
ghost use Rattle.parity.specs.Parity.{odd_parity};
ghost use Rattle.ciphercalls.specs.CipherCalls.{des_call, triple_call, key_check};
ghost use Rattle.lab.specs.Lab.{lab_answered, lab_replying};
ghost use Rattle.face.specs.Face.{yes?, settings_of, face_of, flag_of, reply_in, pointer_in};

use ciphers::Way;
use face::{FaceReply, FaceSettings};

#[unsafe(no_mangle)]
pub extern "C" fn qg_usual() -> FaceSettings
    ensures { result ≡ face_of usually }
{
    quillgimlet::qg_usual()
}

#[unsafe(no_mangle)]
pub extern "C" fn qg_ask(settings: FaceSettings, command: &[u8], out: &mut [u8]) -> FaceReply
    ensures { Does (quietly (asked (settings_of settings) command.now (length out.old))) out.old (reply_in result) out.new × (pointer_in result ≡ shown (asking (settings_of settings) command.now (length out.old))) }
{
    quillgimlet::qg_ask(settings, command, out)
}

#[unsafe(no_mangle)]
pub extern "C" fn qg_pin_block(settings: FaceSettings, command: &[u8], out: &mut [u8]) -> FaceReply
    ensures { Does (quietly (extracted (settings_of settings) command.now (length out.old))) out.old (reply_in result) out.new × (pointer_in result ≡ shown (extracting (settings_of settings) command.now (length out.old))) }
{
    quillgimlet::qg_pin_block(settings, command, out)
}

#[unsafe(no_mangle)]
pub extern "C" fn qg_answer(
    settings: FaceSettings,
    pinparity: u8,
    pvkparity: u8,
    command: &[u8],
    block: &[u8],
    enciphered: &[u8],
    out: &mut [u8],
) -> FaceReply
    ensures { Does (answered (settings_of settings) (yes? pinparity) (yes? pvkparity) command.now block.now enciphered.now (length out.old)) out.old (reply_in result) out.new × (pointer_in result ≡ shown (replying (settings_of settings) (yes? pinparity) (yes? pvkparity) command.now block.now enciphered.now (length out.old))) }
{
    quillgimlet::qg_answer(
        settings, pinparity, pvkparity, command, block, enciphered, out,
    )
}

#[unsafe(no_mangle)]
pub extern "C" fn qg_read_block(
    format: u32,
    block: &[u8],
    account: &[u8],
    out: &mut [u8],
) -> FaceReply
    ensures { Does (quietly (read_block format block.now account.now (length out.old))) out.old (reply_in result) out.new × (pointer_in result ≡ nowhere) }
{
    quillgimlet::qg_read_block(format, block, account, out)
}

#[unsafe(no_mangle)]
pub extern "C" fn qg_write_block(
    format: u32,
    pin: &[u8],
    account: &[u8],
    fill: &[u8],
    out: &mut [u8],
) -> FaceReply
    ensures { Does (quietly (write_block format pin.now account.now fill.now (length out.old))) out.old (reply_in result) out.new × (pointer_in result ≡ nowhere) }
{
    quillgimlet::qg_write_block(format, pin, account, fill, out)
}

#[unsafe(no_mangle)]
pub extern "C" fn qg_translate(
    settings: FaceSettings,
    from: u32,
    to: u32,
    block: &[u8],
    account: &[u8],
    fill: &[u8],
    out: &mut [u8],
) -> FaceReply
    ensures { Does (quietly (translate_block (yes? settings.restricted) from to block.now account.now fill.now (length out.old))) out.old (reply_in result) out.new × (pointer_in result ≡ nowhere) }
{
    quillgimlet::qg_translate(settings, from, to, block, account, fill, out)
}

#[unsafe(no_mangle)]
pub extern "C" fn qg_validation_block(
    validation: &[u8],
    account: &[u8],
    out: &mut [u8],
) -> FaceReply
    ensures { Does (quietly (validation_block validation.now account.now (lib.ListN.length out.old))) out.old (reply_in result) out.new × (pointer_in result ≡ nowhere) }
{
    quillgimlet::qg_validation_block(validation, account, out)
}

#[unsafe(no_mangle)]
pub extern "C" fn qg_natural_pin(
    length: u32,
    table: &[u8],
    enciphered: &[u8],
    out: &mut [u8],
) -> FaceReply
    ensures { Does (quietly (natural_pin length table.now enciphered.now (lib.ListN.length out.old))) out.old (reply_in result) out.new × (pointer_in result ≡ nowhere) }
{
    quillgimlet::qg_natural_pin(length, table, enciphered, out)
}

#[unsafe(no_mangle)]
pub extern "C" fn qg_offset(
    settings: FaceSettings,
    format: u32,
    check: u32,
    block: &[u8],
    account: &[u8],
    table: &[u8],
    enciphered: &[u8],
    out: &mut [u8],
) -> FaceReply
    ensures { Does (quietly (offset_made (yes? settings.variable) format check block.now account.now table.now enciphered.now (lib.ListN.length out.old))) out.old (reply_in result) out.new × (pointer_in result ≡ nowhere) }
{
    quillgimlet::qg_offset(
        settings, format, check, block, account, table, enciphered, out,
    )
}

#[unsafe(no_mangle)]
pub extern "C" fn qg_offset_of_digits(
    settings: FaceSettings,
    check: u32,
    pin: &[u8],
    natural: &[u8],
    out: &mut [u8],
) -> FaceReply
    ensures { Does (quietly (offset_of_digits (yes? settings.variable) check pin.now natural.now (lib.ListN.length out.old))) out.old (reply_in result) out.new × (pointer_in result ≡ nowhere) }
{
    quillgimlet::qg_offset_of_digits(settings, check, pin, natural, out)
}

#[unsafe(no_mangle)]
pub extern "C" fn qg_differences(
    settings: FaceSettings,
    check: u32,
    pin: &[u8],
    natural: &[u8],
    out: &mut [i8],
) -> FaceReply
    ensures { Does (quietly (differences_of (yes? settings.variable) check pin.now natural.now (lib.ListN.length out.old))) out.old (reply_in result) out.new × (pointer_in result ≡ nowhere) }
{
    quillgimlet::qg_differences(settings, check, pin, natural, out)
}

#[unsafe(no_mangle)]
pub extern "C" fn qg_offset_verdict(
    settings: FaceSettings,
    format: u32,
    check: u32,
    block: &[u8],
    account: &[u8],
    table: &[u8],
    enciphered: &[u8],
    offset: &[u8],
) -> FaceReply
    ensures { Does (quietly (offset_verdict (yes? settings.variable) format check block.now account.now table.now enciphered.now offset.now)) [] (reply_in result) [] × (pointer_in result ≡ nowhere) }
{
    quillgimlet::qg_offset_verdict(
        settings, format, check, block, account, table, enciphered, offset,
    )
}

#[unsafe(no_mangle)]
pub extern "C" fn qg_pvv_input(
    format: u32,
    index: u32,
    block: &[u8],
    account: &[u8],
    out: &mut [u8],
) -> FaceReply
    ensures { Does (quietly (pvv_input format index block.now account.now (lib.ListN.length out.old))) out.old (reply_in result) out.new × (pointer_in result ≡ nowhere) }
{
    quillgimlet::qg_pvv_input(format, index, block, account, out)
}

#[unsafe(no_mangle)]
pub extern "C" fn qg_pvv(enciphered: &[u8], out: &mut [u8]) -> FaceReply
    ensures { Does (quietly (pvv_made enciphered.now (lib.ListN.length out.old))) out.old (reply_in result) out.new × (pointer_in result ≡ nowhere) }
{
    quillgimlet::qg_pvv(enciphered, out)
}

#[unsafe(no_mangle)]
pub extern "C" fn qg_pvv_verdict(
    format: u32,
    index: u32,
    block: &[u8],
    account: &[u8],
    enciphered: &[u8],
    pvv: &[u8],
) -> FaceReply
    ensures { Does (quietly (pvv_verdict format index block.now account.now enciphered.now pvv.now)) [] (reply_in result) [] × (pointer_in result ≡ nowhere) }
{
    quillgimlet::qg_pvv_verdict(format, index, block, account, enciphered, pvv)
}

// ---- the lab: clear keys, and no key box

#[unsafe(no_mangle)]
pub extern "C" fn qg_des_encipher(key: &[u8], block: &[u8], out: &mut [u8]) -> FaceReply
    ensures { Does (quietly (des_call Way.Encipher key.now block.now (length out.old))) out.old (reply_in result) out.new × (pointer_in result ≡ nowhere) }
{
    quillgimlet::qg_des_encipher(key, block, out)
}

#[unsafe(no_mangle)]
pub extern "C" fn qg_des_decipher(key: &[u8], block: &[u8], out: &mut [u8]) -> FaceReply
    ensures { Does (quietly (des_call Way.Decipher key.now block.now (length out.old))) out.old (reply_in result) out.new × (pointer_in result ≡ nowhere) }
{
    quillgimlet::qg_des_decipher(key, block, out)
}

#[unsafe(no_mangle)]
pub extern "C" fn qg_tdes_encipher(key: &[u8], block: &[u8], out: &mut [u8]) -> FaceReply
    ensures { Does (quietly (triple_call Way.Encipher key.now block.now (length out.old))) out.old (reply_in result) out.new × (pointer_in result ≡ nowhere) }
{
    quillgimlet::qg_tdes_encipher(key, block, out)
}

#[unsafe(no_mangle)]
pub extern "C" fn qg_tdes_decipher(key: &[u8], block: &[u8], out: &mut [u8]) -> FaceReply
    ensures { Does (quietly (triple_call Way.Decipher key.now block.now (length out.old))) out.old (reply_in result) out.new × (pointer_in result ≡ nowhere) }
{
    quillgimlet::qg_tdes_decipher(key, block, out)
}

#[unsafe(no_mangle)]
pub extern "C" fn qg_key_check(key: &[u8], out: &mut [u8]) -> FaceReply
    ensures { Does (quietly (key_check key.now (length out.old))) out.old (reply_in result) out.new × (pointer_in result ≡ nowhere) }
{
    quillgimlet::qg_key_check(key, out)
}

#[unsafe(no_mangle)]
pub extern "C" fn qg_odd_parity(key: &[u8]) -> u8
    ensures { result ≡ flag_of (odd_parity key.now) }
{
    quillgimlet::qg_odd_parity(key)
}

#[unsafe(no_mangle)]
pub extern "C" fn qg_lab_answer(
    settings: FaceSettings,
    command: &[u8],
    pinkey: &[u8],
    pvk: &[u8],
    out: &mut [u8],
) -> FaceReply
    ensures { Does (lab_answered (settings_of settings) command.now pinkey.now pvk.now (length out.old)) out.old (reply_in result) out.new × (pointer_in result ≡ shown (lab_replying (settings_of settings) command.now pinkey.now pvk.now (length out.old))) }
{
    quillgimlet::qg_lab_answer(settings, command, pinkey, pvk, out)
}

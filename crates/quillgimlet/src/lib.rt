// The C face: what the classroom server links. Each call hands its numbers and byte runs on, and keeps its callee's promise; beside it
// stands what its reply points at.
#![tactic(auto, using(face::proofs::Laws::faced))]

ghost use Rattle.std.specs.Prelude.{◌≡◌, []};
ghost use lib.ListN.{length};
ghost use Rattle.numbers.specs.Promise.{Does, quietly};
ghost use Rattle.blockcalls.specs.BlockCalls.{read_block, write_block};
ghost use Rattle.translation.specs.Translation.{translate_block};
ghost use Rattle.validation.specs.Validation.{validation_block};
ghost use Rattle.naturals.specs.Naturals.{natural_pin};
ghost use Rattle.offsets.specs.Offsets.{offset_made, offset_of_digits, differences_of};
ghost use Rattle.verdicts.specs.Verdicts.{offset_verdict};
ghost use Rattle.pvv.specs.Pvv.{pvv_input, pvv_made, pvv_verdict};
ghost use Rattle.settings.specs.Settings.{usually};
ghost use Rattle.fields.specs.Fields.{nowhere, shown};
ghost use Rattle.commands.specs.Commands.{asked, asking, extracted, extracting, answered, replying};
ghost use Rattle.parity.specs.Parity.{odd_parity};
ghost use Rattle.ciphercalls.specs.CipherCalls.{des_call, triple_call, key_check};
ghost use Rattle.lab.specs.Lab.{lab_answered, lab_replying};
ghost use Rattle.face.specs.Face.{yes?, settings_of, face_of, flag_of, reply_in, pointer_in};

use ciphers::Way;
use face::{FaceReply, FaceSettings};
use keybox::BoxAnswers;
use offsets::Inputs;
use settings::Settings;

pub fn qg_usual() -> FaceSettings
    ensures { result ≡ face_of usually }
{
    FaceSettings::from(Settings::usual())
}

pub fn qg_ask(settings: FaceSettings, command: &[u8], out: &mut [u8]) -> FaceReply
    ensures { Does (quietly (asked (settings_of settings) command.now (length out.old))) out.old (reply_in result) out.new × (pointer_in result ≡ shown (asking (settings_of settings) command.now (length out.old))) }
{
    let told = commands::ask(Settings::from(settings), command, out);
    face::wide(told.reply, told.pointer)
}

pub fn qg_pin_block(settings: FaceSettings, command: &[u8], out: &mut [u8]) -> FaceReply
    ensures { Does (quietly (extracted (settings_of settings) command.now (length out.old))) out.old (reply_in result) out.new × (pointer_in result ≡ shown (extracting (settings_of settings) command.now (length out.old))) }
{
    let told = commands::pin_block(Settings::from(settings), command, out);
    face::wide(told.reply, told.pointer)
}

pub fn qg_answer(
    settings: FaceSettings,
    pinparity: u8,
    pvkparity: u8,
    command: &[u8],
    block: &[u8],
    enciphered: &[u8],
    out: &mut [u8],
) -> FaceReply
    ensures { Does (answered (settings_of settings) (yes? pinparity) (yes? pvkparity) command.now block.now enciphered.now (length out.old)) out.old (reply_in result) out.new × (pointer_in result ≡ shown (replying (settings_of settings) (yes? pinparity) (yes? pvkparity) command.now block.now enciphered.now (length out.old))) }
{
    let answers = BoxAnswers {
        pinparity: pinparity != 0,
        pvkparity: pvkparity != 0,
        block,
        enciphered,
    };
    let told = commands::answer(Settings::from(settings), answers, command, out);
    face::wide(told.reply, told.pointer)
}

pub fn qg_read_block(format: u32, block: &[u8], account: &[u8], out: &mut [u8]) -> FaceReply
    ensures { Does (quietly (read_block format block.now account.now (length out.old))) out.old (reply_in result) out.new × (pointer_in result ≡ nowhere) }
{
    FaceReply::from(blockcalls::read_block(format, block, account, out))
}

pub fn qg_write_block(
    format: u32,
    pin: &[u8],
    account: &[u8],
    fill: &[u8],
    out: &mut [u8],
) -> FaceReply
    ensures { Does (quietly (write_block format pin.now account.now fill.now (length out.old))) out.old (reply_in result) out.new × (pointer_in result ≡ nowhere) }
{
    FaceReply::from(blockcalls::write_block(format, pin, account, fill, out))
}

pub fn qg_translate(
    settings: FaceSettings,
    from: u32,
    to: u32,
    block: &[u8],
    account: &[u8],
    fill: &[u8],
    out: &mut [u8],
) -> FaceReply
    ensures { Does (quietly (translate_block (yes? settings.restricted) from to block.now account.now fill.now (length out.old))) out.old (reply_in result) out.new × (pointer_in result ≡ nowhere) }
{
    FaceReply::from(translation::translate(
        Settings::from(settings),
        from,
        to,
        block,
        account,
        fill,
        out,
    ))
}

pub fn qg_validation_block(validation: &[u8], account: &[u8], out: &mut [u8]) -> FaceReply
    ensures { Does (quietly (validation_block validation.now account.now (lib.ListN.length out.old))) out.old (reply_in result) out.new × (pointer_in result ≡ nowhere) }
{
    FaceReply::from(validation::validation_block(validation, account, out))
}

pub fn qg_natural_pin(length: u32, table: &[u8], enciphered: &[u8], out: &mut [u8]) -> FaceReply
    ensures { Does (quietly (natural_pin length table.now enciphered.now (lib.ListN.length out.old))) out.old (reply_in result) out.new × (pointer_in result ≡ nowhere) }
{
    FaceReply::from(naturals::natural_pin(length, table, enciphered, out))
}

pub fn qg_offset(
    settings: FaceSettings,
    format: u32,
    check: u32,
    block: &[u8],
    account: &[u8],
    table: &[u8],
    enciphered: &[u8],
    out: &mut [u8],
) -> FaceReply
    ensures { Does (quietly (offset_made (yes? settings.variable) format check block.now account.now table.now enciphered.now (lib.ListN.length out.old))) out.old (reply_in result) out.new × (pointer_in result ≡ nowhere) }
{
    let inputs = Inputs {
        format,
        check,
        block,
        account,
        table,
        enciphered,
    };
    FaceReply::from(offsets::offset(Settings::from(settings), inputs, out))
}

pub fn qg_offset_of_digits(
    settings: FaceSettings,
    check: u32,
    pin: &[u8],
    natural: &[u8],
    out: &mut [u8],
) -> FaceReply
    ensures { Does (quietly (offset_of_digits (yes? settings.variable) check pin.now natural.now (lib.ListN.length out.old))) out.old (reply_in result) out.new × (pointer_in result ≡ nowhere) }
{
    FaceReply::from(offsets::offset_of_digits(Settings::from(settings), check, pin, natural, out))
}

pub fn qg_differences(
    settings: FaceSettings,
    check: u32,
    pin: &[u8],
    natural: &[u8],
    out: &mut [i8],
) -> FaceReply
    ensures { Does (quietly (differences_of (yes? settings.variable) check pin.now natural.now (lib.ListN.length out.old))) out.old (reply_in result) out.new × (pointer_in result ≡ nowhere) }
{
    FaceReply::from(offsets::differences(Settings::from(settings), check, pin, natural, out))
}

pub fn qg_offset_verdict(
    settings: FaceSettings,
    format: u32,
    check: u32,
    block: &[u8],
    account: &[u8],
    table: &[u8],
    enciphered: &[u8],
    offset: &[u8],
) -> FaceReply
    ensures { Does (quietly (offset_verdict (yes? settings.variable) format check block.now account.now table.now enciphered.now offset.now)) [] (reply_in result) [] × (pointer_in result ≡ nowhere) }
{
    let inputs = Inputs {
        format,
        check,
        block,
        account,
        table,
        enciphered,
    };
    FaceReply::from(verdicts::offset_verdict(Settings::from(settings), inputs, offset))
}

pub fn qg_pvv_input(
    format: u32,
    index: u32,
    block: &[u8],
    account: &[u8],
    out: &mut [u8],
) -> FaceReply
    ensures { Does (quietly (pvv_input format index block.now account.now (lib.ListN.length out.old))) out.old (reply_in result) out.new × (pointer_in result ≡ nowhere) }
{
    FaceReply::from(pvv::pvv_input(format, index, block, account, out))
}

pub fn qg_pvv(enciphered: &[u8], out: &mut [u8]) -> FaceReply
    ensures { Does (quietly (pvv_made enciphered.now (lib.ListN.length out.old))) out.old (reply_in result) out.new × (pointer_in result ≡ nowhere) }
{
    FaceReply::from(pvv::pvv(enciphered, out))
}

pub fn qg_pvv_verdict(
    format: u32,
    index: u32,
    block: &[u8],
    account: &[u8],
    enciphered: &[u8],
    pvv: &[u8],
) -> FaceReply
    ensures { Does (quietly (pvv_verdict format index block.now account.now enciphered.now pvv.now)) [] (reply_in result) [] × (pointer_in result ≡ nowhere) }
{
    FaceReply::from(pvv::pvv_verdict(format, index, block, account, enciphered, pvv))
}

// ---- the lab: clear keys, and no key box. C has a name for each way, and so two calls of one function.

pub fn qg_des_encipher(key: &[u8], block: &[u8], out: &mut [u8]) -> FaceReply
    ensures { Does (quietly (des_call Way.Encipher key.now block.now (length out.old))) out.old (reply_in result) out.new × (pointer_in result ≡ nowhere) }
{
    FaceReply::from(ciphercalls::des(Way::Encipher, key, block, out))
}

pub fn qg_des_decipher(key: &[u8], block: &[u8], out: &mut [u8]) -> FaceReply
    ensures { Does (quietly (des_call Way.Decipher key.now block.now (length out.old))) out.old (reply_in result) out.new × (pointer_in result ≡ nowhere) }
{
    FaceReply::from(ciphercalls::des(Way::Decipher, key, block, out))
}

pub fn qg_tdes_encipher(key: &[u8], block: &[u8], out: &mut [u8]) -> FaceReply
    ensures { Does (quietly (triple_call Way.Encipher key.now block.now (length out.old))) out.old (reply_in result) out.new × (pointer_in result ≡ nowhere) }
{
    FaceReply::from(ciphercalls::triple(Way::Encipher, key, block, out))
}

pub fn qg_tdes_decipher(key: &[u8], block: &[u8], out: &mut [u8]) -> FaceReply
    ensures { Does (quietly (triple_call Way.Decipher key.now block.now (length out.old))) out.old (reply_in result) out.new × (pointer_in result ≡ nowhere) }
{
    FaceReply::from(ciphercalls::triple(Way::Decipher, key, block, out))
}

pub fn qg_key_check(key: &[u8], out: &mut [u8]) -> FaceReply
    ensures { Does (quietly (key_check key.now (length out.old))) out.old (reply_in result) out.new × (pointer_in result ≡ nowhere) }
{
    FaceReply::from(ciphercalls::key_check(key, out))
}

pub fn qg_odd_parity(key: &[u8]) -> u8
    ensures { result ≡ flag_of (odd_parity key.now) }
{
    u8::from(parity::odd_parity(key))
}

pub fn qg_lab_answer(
    settings: FaceSettings,
    command: &[u8],
    pinkey: &[u8],
    pvk: &[u8],
    out: &mut [u8],
) -> FaceReply
    ensures { Does (lab_answered (settings_of settings) command.now pinkey.now pvk.now (length out.old)) out.old (reply_in result) out.new × (pointer_in result ≡ shown (lab_replying (settings_of settings) command.now pinkey.now pvk.now (length out.old))) }
{
    let told = lab::answer(Settings::from(settings), command, pinkey, pvk, out);
    face::wide(told.reply, told.pointer)
}

// What crosses the C face: settings, in and out, and replies.
#![tactic(auto)]

ghost use Rattle.std.specs.Prelude.{◌≡◌, ◌≤◌};
ghost use Rattle.fields.specs.Fields.{nowhere};
ghost use Rattle.face.specs.Face.{settings_of, face_of, reply_in, pointer_in};

use fields::Pointer;
use numbers::Reply;
use settings::Settings;

// The settings as they cross the boundary: a foreign bool may hold anything, so a flag is a byte.
#[repr(C)]
#[derive(Clone, Copy)]
pub struct FaceSettings {
    pub header: usize,
    pub restricted: u8,
    pub variable: u8,
}

impl From<FaceSettings> for Settings {
    ghost from_gives = { λ s inner. inner ≡ settings_of s };

    fn from(s: FaceSettings) -> Settings {
        Settings {
            header: s.header,
            restricted: s.restricted != 0,
            variable: s.variable != 0,
        }
    }
}

impl From<Settings> for FaceSettings {
    ghost from_gives = { λ inner s. s ≡ face_of inner };

    fn from(inner: Settings) -> FaceSettings {
        FaceSettings {
            header: inner.header,
            restricted: u8::from(inner.restricted),
            variable: u8::from(inner.variable),
        }
    }
}

// A reply as it crosses the boundary: what every call answers, and what a command's call points at.
#[repr(C)]
#[derive(Clone, Copy)]
pub struct FaceReply {
    pub number: u32,
    pub written: u32,
    pub place: u32,
    pub field: u32,
}

// The reply of a command's call. A command has at most 4,096 bytes, and far fewer fields.
pub fn wide(reply: Reply, pointer: Pointer) -> FaceReply
    requires { (pointer.place ≤ 4096) × (pointer.field ≤ 4096) }
    ensures { (reply_in result ≡ reply) × (pointer_in result ≡ pointer) }
{
    FaceReply {
        number: reply.number,
        written: reply.written,
        place: pointer.place as u32,
        field: pointer.field as u32,
    }
}

// That of a call below the command level points at nothing.
impl From<Reply> for FaceReply {
    ghost from_gives = { λ reply wide. (reply_in wide ≡ reply) × (pointer_in wide ≡ nowhere) };

    fn from(reply: Reply) -> FaceReply {
        wide(reply, Pointer::NOWHERE)
    }
}

//! Kinds of lines.
ghost use Rattle.frames.specs.Kinds.{Decodes};

use crate::words::LineFault;

/// The kind of a frame.
#[derive(Clone, Copy)]
pub enum Kind {
    Header,
    OpenTask,
    OpenFinish,
    Close,
    Access,
    End,
}

impl TryFrom<u8> for Kind {
    type Error = LineFault;

    ghost try_from_gives = { Decodes };

    fn try_from(number: u8) -> Result<Kind, LineFault> {
        match number {
            0x00 => Ok(Kind::Header),
            0x01 => Ok(Kind::OpenTask),
            0x02 => Ok(Kind::OpenFinish),
            0x03 => Ok(Kind::Close),
            0x04 => Ok(Kind::Access),
            0x0F => Ok(Kind::End),
            _ => Err(LineFault::UnknownKind),
        }
    }
}

/// The kind of a line written.
#[derive(Clone, Copy)]
pub enum Report {
    Clash = 0xC1,
    Verdict = 0xCF,
    Refusal = 0xEE,
}

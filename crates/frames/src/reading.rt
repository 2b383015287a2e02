//! Reading a line.
ghost use Rattle.std.specs.Prelude.{◌≡◌, ◌<◌, ◌≤◌, length, IfSome};
ghost use Rattle.frames.specs.Reading.{run, line_length, framed, reading, Within};
ghost use Rattle.frames.specs.Lines.{Judged};

use crate::digits::{is_digit, number};
use crate::kind::Kind;
use crate::words::{Frame, LineFault};

/// Reads the line that the bytes begin with: its frame, and how many bytes it takes, its byte 10 counted.
pub fn read_line(bytes: &[u8]) -> Result<(Frame, usize), LineFault>
    ensures answer { result ≡ reading bytes.now }
    ensures within { Within (length bytes.now) result }
    ensures judged { Judged bytes.now result }
{
    let Some(count) = line_length(bytes) else {
        return Err(LineFault::NoLine);
    };
    let frame = frame_of(&bytes[..count])?;
    Ok((frame, count + 1))
}

// How many digits the line has that the bytes begin with: none if they begin with no line.
fn line_length(bytes: &[u8]) -> Option<usize>
    ensures answer { result ≡ line_length bytes.now }
    ensures long { IfSome result (λ n. (2 ≤ n) × (n < length bytes.now)) }
{
    let count = leading_digits(bytes);
    if count > 0 && count % 2 == 0 && bytes.get(count) == Some(&b'\n') {
        Some(count)
    } else {
        None
    }
}

// How many digits the bytes begin with.
fn leading_digits(bytes: &[u8]) -> usize
    ensures { result ≡ run bytes.now }
{
    bytes.iter().take_while(|&&byte| is_digit(byte)).count()
}

// What the digits of a line say.
// Always inlined: else the frame is packed into a word here, and taken apart again by a caller that matches on it.
#[inline(always)]
fn frame_of(digits: &[u8]) -> Result<Frame, LineFault>
    requires { 2 ≤ length digits.now }
    ensures { result ≡ framed digits.now }
{
    let kind = Kind::try_from(number(&digits[..2]) as u8)?;
    match (kind, digits.len()) {
        (Kind::Header, 8) => Ok(Frame::Header {
            rule: number(&digits[2..4]) as u8,
            records: number(&digits[4..8]) as u16,
        }),
        (Kind::OpenTask, 2) => Ok(Frame::OpenTask),
        (Kind::OpenFinish, 2) => Ok(Frame::OpenFinish),
        (Kind::Close, 2) => Ok(Frame::Close),
        (Kind::Access, 8) => Ok(Frame::Access {
            class: number(&digits[2..4]) as u8,
            record: number(&digits[4..8]) as u16,
        }),
        (Kind::End, 10) => Ok(Frame::End {
            events: number(&digits[2..10]),
        }),
        _ => Err(LineFault::WrongLength),
    }
}

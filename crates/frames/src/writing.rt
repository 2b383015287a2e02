//! The lines of a clash, a verdict and a refusal, each put into a buffer of the caller's.
//! A buffer under `LINE_ROOM` bytes is refused, and nothing is written. The bytes behind the line stay.
ghost use Rattle.std.specs.Prelude.{◌≤◌, length};
ghost use Rattle.frames.specs.Layout.{Fit, line_of, clash_line, verdict_line, refusal_line};
ghost use Rattle.frames.specs.Putting.{line_room, LinePut};

use crate::digits::put_digits;
use crate::kind::Report;
use crate::words::ShortBuffer;

/// The bytes that a buffer for a line must have: the longest line, that of a clash, takes them all.
pub const LINE_ROOM: usize = 23;

/// Writes the line of a clash, and tells how many bytes it takes.
pub fn put_clash(
    buffer: &mut [u8],
    later: u32,
    earlier: u32,
    record: u16,
) -> Result<usize, ShortBuffer>
    ensures { LinePut (clash_line later earlier «record») buffer.old buffer.new result }
{
    put_line(
        buffer,
        &[
            (2, Report::Clash as u32),
            (8, later),
            (8, earlier),
            (4, record as u32),
        ],
    )
}

/// Writes the line of a verdict, and tells how many bytes it takes.
pub fn put_verdict(buffer: &mut [u8], accesses: u32, clashes: u32) -> Result<usize, ShortBuffer>
    ensures { LinePut (verdict_line accesses clashes) buffer.old buffer.new result }
{
    put_line(
        buffer,
        &[(2, Report::Verdict as u32), (8, accesses), (8, clashes)],
    )
}

/// Writes the line of a refusal, and tells how many bytes it takes. `line` is the line refused, counted from 1.
// No `Code`: the line takes any number as its layer, and a `Layer` is one of four.
pub fn put_refusal(
    buffer: &mut [u8],
    number: u8,
    layer: u8,
    line: u32,
) -> Result<usize, ShortBuffer>
    ensures { LinePut (refusal_line number layer line) buffer.old buffer.new result }
{
    let (number, layer) = (number as u32, layer as u32);
    put_line(
        buffer,
        &[
            (2, Report::Refusal as u32),
            (2, number),
            (2, layer),
            (8, line),
        ],
    )
}

// Writes a line of fields, each with the number of its digits.
#[tactic(auto, using(crate::proofs::Fields::field_within, crate::proofs::Fields::fit_at))]
fn put_line(buffer: &mut [u8], fields: &[(usize, u32)]) -> Result<usize, ShortBuffer>
    requires fit { Fit fields.now }
    requires room { length (line_of fields.now) ≤ line_room }
    ensures { LinePut (line_of fields.now) buffer.old buffer.new result }
{
    if buffer.len() < LINE_ROOM {
        return Err(ShortBuffer);
    }
    // Where the next field goes and, in the end, how many bytes are written: slices split off would not tell the second.
    let mut at = 0;
    for &(width, number) in fields {
        put_digits(&mut buffer[at..at + width], number);
        at += width;
    }
    buffer[at] = b'\n';
    Ok(at + 1)
}

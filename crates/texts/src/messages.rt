// The message of a fault: the line's number, the reason, what stood there and what was expected (definition, section 14.4).
ghost use Rattle.std.specs.Prelude.{◌≡◌, ◌+◌, ◌≤◌, length, map};
ghost use Rattle.lines.specs.Lines.{Put};
ghost use Rattle.texts.specs.Messages.{reason_text, shown, quoted_text, stood_text, expected_for, message_text};

use crate::{LineFault, Place};
use lines::fitting;

// The bytes that a message is given, and how many of a line are shown.
pub const ROOM: usize = 1024;

const SEEN: usize = 60;

const SPACE: u8 = b' ';

const QUESTION: u8 = b'?';

const DELETE: u8 = 127;

// The number and the words of a reason.
fn put_reason(fault: LineFault, buffer: &mut [u8], at: usize) -> usize
    requires { at + 40 ≤ length buffer.old }
    ensures { Put buffer.old at (reason_text fault) buffer.new result × (result ≤ at + 40) }
{
    match fault {
        LineFault::NoSheet => fitting::put(b": T1 stands in no sheet: ", buffer, at),
        LineFault::Missing => fitting::put(b": T2 a row is missing: ", buffer, at),
        LineFault::NoName => fitting::put(b": T3 no such name: ", buffer, at),
        LineFault::Twice => fitting::put(b": T4 stands twice: ", buffer, at),
        LineFault::Misplaced => fitting::put(b": T5 misplaced: ", buffer, at),
        LineFault::NoFigure => fitting::put(b": T6 no such figure: ", buffer, at),
        LineFault::NoUnit => fitting::put(b": T7 no such unit: ", buffer, at),
        LineFault::OutOfRange => fitting::put(b": T8 outside its range: ", buffer, at),
        LineFault::Disagrees => fitting::put(b": T9 turn and radius disagree: ", buffer, at),
    }
}

// A byte as it is shown: `?` for one that would move the cursor of a terminal.
fn shown_byte(byte: u8) -> u8
    ensures { result ≡ shown byte }
{
    if byte < SPACE {
        return QUESTION;
    }
    if byte == DELETE {
        return QUESTION;
    }
    byte
}

// Bytes as they are shown.
pub fn put_seen(bytes: &[u8], buffer: &mut [u8], at: usize) -> usize
    requires { at + length bytes.now ≤ length buffer.old }
    ensures { Put buffer.old at (map shown bytes.now) buffer.new result × (result ≤ at + length bytes.now) }
{
    for (j, byte) in bytes.iter().enumerate() {
        buffer[at + j] = shown_byte(*byte);
    }
    at + bytes.len()
}

// A line between quotes, cut where it is long.
fn put_quoted(line: &[u8], buffer: &mut [u8], at: usize) -> usize
    requires { at + 64 ≤ length buffer.old }
    ensures { Put buffer.old at (quoted_text line.now) buffer.new result × (result ≤ at + 64) }
{
    let first = fitting::put(b"\"", buffer, at);
    let last = put_seen(&line[..SEEN.min(line.len())], buffer, first);
    let end = fitting::put(b"\"", buffer, last);
    if line.len() <= SEEN {
        return end;
    }
    fitting::put(b"..", buffer, end)
}

// What stood at a place of a text.
fn put_stood(text: &[u8], place: Place, buffer: &mut [u8], at: usize) -> usize
    requires { at + 64 ≤ length buffer.old }
    ensures { Put buffer.old at (stood_text text.now place) buffer.new result × (result ≤ at + 64) }
{
    if place.ended {
        return fitting::put(b"the text ends", buffer, at);
    }
    let end = place.end.min(text.len());
    let start = place.start.min(end);
    put_quoted(&text[start..end], buffer, at)
}

// What was expected there.
fn put_expected(fault: LineFault, row: usize, buffer: &mut [u8], at: usize) -> usize
    requires { at + 512 ≤ length buffer.old }
    ensures { Put buffer.old at (expected_for fault row) buffer.new result × (result ≤ at + 512) }
{
    if let LineFault::NoSheet = fault {
        return fitting::put(b"sheet", buffer, at);
    }
    typed::put_expected(row, buffer, at)
}

// The whole message, with its newline.
pub fn put_whole(
    text: &[u8],
    fault: LineFault,
    row: usize,
    place: Place,
    buffer: &mut [u8],
    at: usize,
) -> usize
    requires { at + 1024 ≤ length buffer.old }
    ensures { Put buffer.old at (message_text text.now fault row place) buffer.new result }
{
    let number = fitting::put(b"line ", buffer, at);
    let reason = fitting::put_count(place.line as u64, buffer, number);
    let stood = put_reason(fault, buffer, reason);
    let then = put_stood(text, place, buffer, stood);
    let expected = fitting::put(b"; expected: ", buffer, then);
    let end = put_expected(fault, row, buffer, expected);
    fitting::put(b"\n", buffer, end)
}

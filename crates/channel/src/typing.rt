// A typed text, as the bytes of its sheets (definition, section 14.3).
ghost use Rattle.std.specs.Prelude.{◌≡◌, ◌≤◌, length};
ghost use Rattle.texts.specs.Texts.{all_of};
ghost use Rattle.texts.specs.Shown.{sheet_bytes, sheet_text};
ghost use Rattle.channel.specs.Output.{with_line};
ghost use Rattle.channel.specs.Typing.{is_fault, any_fault, lines_at, FoundPut, SheetsPut, TypedOut};

use crate::output;
use crate::output::Out;
use texts::{Event, Found, LineFault, Place};

// The bytes of a message.
const MESSAGE: usize = 1024;

// Writes the message of a fault to standard error.
fn tell(rt: HostRuntime, text: &[u8], fault: LineFault, row: usize, place: Place) {
    let mut message = [0u8; MESSAGE];
    let end = texts::put_message(text, fault, row, place, &mut message, 0);
    let _ = output::write_first(&rt.stderr(), &message, end);
}

// Tells what was found, where it is a fault; whether it is one.
fn tell_found(rt: HostRuntime, text: &[u8], found: Found) -> bool
    ensures { result ≡ is_fault found.event }
{
    let Some(Event::Fault(fault, row)) = found.event else {
        return false;
    };
    tell(rt, text, fault, row, found.place);
    true
}

// Tells every fault of a text; whether it has one.
pub fn tell_faults(rt: HostRuntime, text: &[u8]) -> bool
    ensures { result ≡ any_fault (all_of text.now) }
{
    let mut now = texts::begin();
    let mut told = false;
    loop {
        let found = texts::next(text, now);
        if found.event.is_none() {
            return told;
        }
        told |= tell_found(rt, text, found);
        now = found.cursor;
    }
}

// Puts the bytes of a sheet's figures behind those that wait in the buffer.
#[tactic(auto, unfolding(crate::specs::Output::with_line))]
fn put_figures(rt: HostRuntime, figures: [u32; sheet::COUNT], buffer: &mut [u8], out: Out) -> Out
    ensures { lines_at result buffer.new ≡ with_line sheet_bytes (sheet_text figures) (lines_at out buffer.old) }
{
    let ready = output::made_ready(rt, buffer, out, texts::SHEET_BYTES);
    let at = texts::put_sheet(figures, buffer, ready.at);
    Out { at, ..ready }
}

// Puts the bytes of a sheet that was found behind those that wait in the buffer.
#[tactic(auto, unfolding(crate::specs::Output::with_lines))]
fn put_found(rt: HostRuntime, found: Found, buffer: &mut [u8], out: Out) -> Out
    ensures { FoundPut found buffer.old out buffer.new result }
{
    match found.event {
        Some(Event::Sheet) => put_figures(rt, found.cursor.figures, buffer, out),
        Some(Event::Fault(_, _)) | None => out,
    }
}

// Puts the bytes of every sheet of a text, from the beginning of the buffer; they are written as it fills.
fn put_sheets(rt: HostRuntime, text: &[u8], buffer: &mut [u8]) -> Out
    ensures { SheetsPut (all_of text.now) buffer.old result buffer.new }
{
    let mut now = texts::begin();
    let mut out = Out { at: 0, open: true };
    loop {
        let found = texts::next(text, now);
        if found.event.is_none() {
            return out;
        }
        out = put_found(rt, found, buffer, out);
        now = found.cursor;
    }
}

// The bytes of a text without a fault, the last of them still in the buffer; nothing is written of any other text.
pub fn type_text(rt: HostRuntime, text: &[u8], buffer: &mut [u8]) -> Option<usize>
    requires { sheet_bytes ≤ length buffer.old }
    ensures { TypedOut text.now buffer.old result buffer.new }
{
    if tell_faults(rt, text) {
        return None;
    }
    put_sheets(rt, text, buffer).rest()
}

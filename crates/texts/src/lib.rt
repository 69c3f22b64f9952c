// Typed texts: the sheets and the faults of a text, bytes shown as text, and the empty form (definition, section 14).
#![tactic(auto)]

ghost use Rattle.std.specs.Prelude.{◌≡◌, map, ◌≤◌, length};
ghost use Rattle.lines.specs.Lines.{place_within, buffer_within};
ghost use Rattle.texts.specs.Steps.{fault_number, fault_number_some};
ghost use Rattle.texts.specs.Texts.{beginning, next_of};
ghost use Rattle.texts.specs.Names.{name_after};
ghost use Rattle.texts.specs.Messages.{message_bytes, message_text, shown};
ghost use Rattle.texts.specs.Shown.{row_figure, shown_bytes, shown_text, form_bytes, form_text, sheet_bytes, sheet_text};

mod cutting;
mod messages;
mod showing;
mod steps;

use laws::Refusal;

// The bytes of a sheet, and those that a shown one is given.
pub const SHEET_BYTES: usize = 28;

pub const SHOWN_BYTES: usize = 4096;

// The bytes in front of a name: `sheet` and a space.
const FRONT_BYTES: usize = 6;

// Where a reader stands in a sheet: in none, before the row after the first so many, or behind a fault.
#[derive(Clone, Copy)]
pub enum Stage {
    Between,
    InRow(usize),
    Skipping,
}

// Why a line is turned away.
#[derive(Clone, Copy)]
pub enum LineFault {
    NoSheet,
    Missing,
    NoName,
    Twice,
    Misplaced,
    NoFigure,
    NoUnit,
    OutOfRange,
    Disagrees,
}

// What a line brings, where it brings something: the last row of a sheet, or a fault in the place of a row.
#[derive(Clone, Copy)]
pub enum Event {
    Sheet,
    Fault(LineFault, usize),
}

// How far a text is read: the place, the lines before it, the stage, and the figures of the sheet.
#[derive(Clone, Copy)]
pub struct Cursor {
    pub at: usize,
    pub lines: u32,
    pub stage: Stage,
    pub figures: [u32; sheet::COUNT],
}

// A part of a text: its first byte and the place after its last.
#[derive(Clone, Copy)]
pub struct Span {
    pub start: usize,
    pub end: usize,
}

// Where something was found: the line's number, its first byte and the place after its last; or that the text ends. `next` promises
// the place behind the last line too, so `ended` stands beside it.
#[derive(Clone, Copy)]
pub struct Place {
    pub line: u32,
    pub start: usize,
    pub end: usize,
    pub ended: bool,
}

// The next thing that is found in a text; nothing happened where it ends. Its place and its cursor are told there too.
#[derive(Clone, Copy)]
pub struct Found {
    pub event: Option<Event>,
    pub place: Place,
    pub cursor: Cursor,
}

impl Refusal for LineFault {
    // The number without its T.
    ghost number_is = { fault_number };

    // A line is turned away in the place of a row, and no field is named.
    ghost field_is = { λ _. 0 };

    fn number(self) -> u8 {
        match self {
            LineFault::NoSheet => 1,
            LineFault::Missing => 2,
            LineFault::NoName => 3,
            LineFault::Twice => 4,
            LineFault::Misplaced => 5,
            LineFault::NoFigure => 6,
            LineFault::NoUnit => 7,
            LineFault::OutOfRange => 8,
            LineFault::Disagrees => 9,
        }
    }

    fn field(self) -> u8 {
        0
    }

    ghost some = { fault_number_some };
}

// Before the first line.
pub fn begin() -> Cursor
    ensures { result ≡ beginning }
{
    Cursor {
        at: 0,
        lines: 0,
        stage: Stage::Between,
        figures: [0; sheet::COUNT],
    }
}

// The next sheet or fault from a cursor on.
pub fn next(text: &[u8], cursor: Cursor) -> Found
    ensures { result ≡ next_of text.now cursor }
{
    let mut now = cursor;
    while now.at < text.len() {
        let found = steps::turn(text, now);
        if found.event.is_some() {
            return found;
        }
        now = found.cursor;
    }
    steps::ended(now)
}

// Where the name of the first line from a place on that begins a sheet stands, a carriage return at its end aside; an empty part
// where that line is `sheet` alone, or where no line begins a sheet.
pub fn name_after(text: &[u8], from: usize) -> Span
    ensures { (result ≡ name_after text.now from) × ((result.start ≤ result.end) × (result.end ≤ length text.now)) }
{
    let mut at = from.min(text.len());
    while at < text.len() {
        let end = cutting::line_end(text, at);
        let bare = cutting::bare_length(&text[at..end]);
        if cutting::begins_sheet(&text[at..at + bare]) {
            return Span {
                start: at + FRONT_BYTES.min(bare),
                end: at + bare,
            };
        }
        at = cutting::line_after(end, text.len());
    }
    Span { start: at, end: at }
}

// The figure of the row after the first i. The level's is 0 off the record, or one more than its field 28.
pub fn row_figure(figures: [u32; sheet::COUNT], i: usize) -> u32
    ensures { result ≡ row_figure figures i }
{
    if i < typed::LEVEL {
        return figures[i];
    }
    if i == typed::LEVEL {
        if figures[26] == 0 {
            return 0;
        }
        return figures[27] % 65536 + 1;
    }
    figures[28]
}

// Puts the message of a fault, with its newline, and answers the place after it; the same place, and nothing put, where 1,024
// bytes do not fit.
pub fn put_message(
    text: &[u8],
    fault: LineFault,
    row: usize,
    place: Place,
    buffer: &mut [u8],
    at: usize,
) -> usize
    ensures { (result ≡ place_within message_bytes (message_text text.now fault row place) at buffer.old) × (buffer.new ≡ buffer_within message_bytes (message_text text.now fault row place) at buffer.old) }
{
    if !lines::fits(buffer.len(), at, messages::ROOM) {
        return at;
    }
    messages::put_whole(text, fault, row, place, buffer, at)
}

// Puts bytes as a message shows them, likewise where so many fit.
pub fn put_visible(bytes: &[u8], buffer: &mut [u8], at: usize) -> usize
    ensures { (result ≡ place_within (length bytes.now) (map shown bytes.now) at buffer.old) × (buffer.new ≡ buffer_within (length bytes.now) (map shown bytes.now) at buffer.old) }
{
    if !lines::fits(buffer.len(), at, bytes.len()) {
        return at;
    }
    messages::put_seen(bytes, buffer, at)
}

// Puts the text of bytes that are shown as the sheet of an index, likewise where 4,096 bytes fit.
pub fn put_shown(index: u64, bytes: &[u8], buffer: &mut [u8], at: usize) -> usize
    ensures { (result ≡ place_within shown_bytes (shown_text index bytes.now) at buffer.old) × (buffer.new ≡ buffer_within shown_bytes (shown_text index bytes.now) at buffer.old) }
{
    if !lines::fits(buffer.len(), at, SHOWN_BYTES) {
        return at;
    }
    showing::put_sheet(index, bytes, buffer, at)
}

// Puts the empty form, likewise where 20,000 bytes fit.
pub fn put_form(buffer: &mut [u8], at: usize) -> usize
    ensures { (result ≡ place_within form_bytes form_text at buffer.old) × (buffer.new ≡ buffer_within form_bytes form_text at buffer.old) }
{
    if !lines::fits(buffer.len(), at, showing::FORM_ROOM) {
        return at;
    }
    showing::put_form_rows(buffer, at)
}

// Puts the bytes of a sheet's figures; the same place, and nothing put, where they are no sheet's or 28 bytes do not fit.
pub fn put_sheet(figures: [u32; sheet::COUNT], buffer: &mut [u8], at: usize) -> usize
    ensures { (result ≡ place_within sheet_bytes (sheet_text figures) at buffer.old) × (buffer.new ≡ buffer_within sheet_bytes (sheet_text figures) at buffer.old) }
{
    if !lines::fits(buffer.len(), at, SHEET_BYTES) {
        return at;
    }
    showing::put_figures(figures, buffer, at)
}

// The typed sheet, line by line: a row for each field, its name, its figure and its unit (definition, section 14.2).
#![tactic(auto)]

ghost use Rattle.std.specs.Prelude.{◌≡◌};
ghost use Rattle.lines.specs.Lines.{place_within, buffer_within};
ghost use Rattle.typed.specs.Lines.{line_bytes, line_text, blank_text, expected_bytes, expected_text};
ghost use Rattle.typed.specs.Reading.{stands, entry_of, row_named};

mod printing;
mod reading;
mod table;

// How many rows a typed sheet has.
pub const COUNT: usize = 28;

// The row of the level, which stands for two fields, by how many stand before it.
pub const LEVEL: usize = 26;

// The bytes that a line is given, and what is expected of a row.
pub const LINE_BYTES: usize = 80;

pub const EXPECTED_BYTES: usize = 512;

// How a row's figure is typed.
#[derive(Clone, Copy)]
pub enum Kind {
    Whole,
    Tenths,
    Hundredths,
    Words,
    Level,
}

// What a line says in the place of a row: its figure, or why it has none.
#[derive(Clone, Copy)]
pub enum EntryFault {
    NoName,
    NoFigure,
    NoUnit,
}

// Puts the line of a figure in the row after the first i, without its newline, and answers the place after it; the same place,
// and nothing put, where 80 bytes do not fit. Past the rows the line is empty but for a space.
pub fn put_line(i: usize, figure: u32, buffer: &mut [u8], at: usize) -> usize
    ensures { (result ≡ place_within line_bytes (line_text i figure) at buffer.old) × (buffer.new ≡ buffer_within line_bytes (line_text i figure) at buffer.old) }
{
    if !lines::fits(buffer.len(), at, LINE_BYTES) {
        return at;
    }
    printing::put_row(table::row_at(i), figure, buffer, at)
}

// The same with `_` for the figure.
pub fn put_blank(i: usize, buffer: &mut [u8], at: usize) -> usize
    ensures { (result ≡ place_within line_bytes (blank_text i) at buffer.old) × (buffer.new ≡ buffer_within line_bytes (blank_text i) at buffer.old) }
{
    if !lines::fits(buffer.len(), at, LINE_BYTES) {
        return at;
    }
    printing::put_blank_row(table::row_at(i), buffer, at)
}

// Puts what is expected in a row, likewise where 512 bytes fit.
pub fn put_expected(i: usize, buffer: &mut [u8], at: usize) -> usize
    ensures { (result ≡ place_within expected_bytes (expected_text i) at buffer.old) × (buffer.new ≡ buffer_within expected_bytes (expected_text i) at buffer.old) }
{
    if !lines::fits(buffer.len(), at, EXPECTED_BYTES) {
        return at;
    }
    printing::put_lines(table::row_at(i), table::values_of(i), buffer, at)
}

// What a line says in the place of the row after the first i.
pub fn read_line(i: usize, line: &[u8]) -> Result<u32, EntryFault>
    ensures { result ≡ entry_of i line.now }
{
    reading::read_row(table::row_at(i), line)
}

// The first row whose name a line has, by how many stand before it; none where it has no row's.
pub fn row_named(line: &[u8]) -> Option<usize>
    ensures { result ≡ row_named line.now }
{
    for i in 0..COUNT {
        if reading::has_name(table::row_at(i), line) {
            return Some(i);
        }
    }
    None
}

// Whether bytes begin with a text.
pub fn begins_with(bytes: &[u8], text: &[u8]) -> bool
    ensures { result ≡ stands text.now bytes.now }
{
    bytes.starts_with(text)
}

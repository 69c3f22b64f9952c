// The text of a row: name, figure and unit, put into a buffer (definition, section 14.2).
ghost use Rattle.std.specs.Prelude.{◌≡◌, ◌+◌, ◌*◌, ◌-◌, ◌≤◌, ◌<◌, length};
ghost use Rattle.lines.specs.Lines.{Put};
ghost use Rattle.typed.specs.Lines.{token, tenths_text, hundredths_text, level_text, word_text, figure_text, behind, unit_text, name_text, row_text, blank_row, words_from, span_text, lines_text};

use crate::Kind;
use crate::table::Row;
use lines::fitting;
use sheet::Range;

const SPACE: u8 = b' ';

const MINUS: u8 = b'-';

const POINT: u8 = b'.';

const BLANK: u8 = b'_';

// How many words a row has at most, and the bytes of each.
pub const WORDS: usize = 6;

pub const SLOT: usize = 16;

// The figure of the level 0: the record's figure and the 500 cm below it stand before.
pub const LEVEL_ZERO: u32 = 501;

// What stands before the first space of a place of the table.
pub fn token(slot: &[u8]) -> &[u8]
    ensures { (result.now ≡ token slot.now) × (length result.now ≤ length slot.now) }
{
    for (j, byte) in slot.iter().enumerate() {
        if *byte == SPACE {
            return &slot[..j];
        }
    }
    slot
}

// Puts it.
fn put_token(slot: &[u8], buffer: &mut [u8], at: usize) -> usize
    requires { at + length slot.now ≤ length buffer.old }
    ensures { Put buffer.old at (token slot.now) buffer.new result × (result ≤ at + length slot.now) }
{
    fitting::put(token(slot), buffer, at)
}

// Tenths: a point and one digit behind it.
fn put_tenths(figure: u32, buffer: &mut [u8], at: usize) -> usize
    requires { at + 24 ≤ length buffer.old }
    ensures { Put buffer.old at (tenths_text figure) buffer.new result × (result ≤ at + 24) }
{
    let point = fitting::put_count((figure / 10) as u64, buffer, at);
    buffer[point] = POINT;
    buffer[point + 1] = b'0' + (figure % 10) as u8;
    point + 2
}

// Hundredths: a point and two digits behind it.
fn put_hundredths(figure: u32, buffer: &mut [u8], at: usize) -> usize
    requires { at + 24 ≤ length buffer.old }
    ensures { Put buffer.old at (hundredths_text figure) buffer.new result × (result ≤ at + 24) }
{
    let point = fitting::put_count((figure / 100) as u64, buffer, at);
    buffer[point] = POINT;
    buffer[point + 1] = b'0' + (figure / 10 % 10) as u8;
    buffer[point + 2] = b'0' + (figure % 10) as u8;
    point + 3
}

// A level off the record, or given.
fn put_level(figure: u32, buffer: &mut [u8], at: usize) -> usize
    requires { at + 28 ≤ length buffer.old }
    ensures { Put buffer.old at (level_text figure) buffer.new result × (result ≤ at + 28) }
{
    if figure == 0 {
        return fitting::put(b"record", buffer, at);
    }
    let sign = fitting::put(b"given ", buffer, at);
    if figure < LEVEL_ZERO {
        buffer[sign] = MINUS;
        return fitting::put_count((LEVEL_ZERO - figure) as u64, buffer, sign + 1);
    }
    fitting::put_count((figure - LEVEL_ZERO) as u64, buffer, sign)
}

// The word of a code; nothing past the words.
fn put_word(words: [u8; 96], figure: u32, buffer: &mut [u8], at: usize) -> usize
    requires { at + 28 ≤ length buffer.old }
    ensures { Put buffer.old at (word_text words figure) buffer.new result × (result ≤ at + 28) }
{
    if WORDS <= figure as usize {
        return at;
    }
    let start = SLOT * figure as usize;
    put_token(&words[start..start + SLOT], buffer, at)
}

// A figure as its row has it.
pub fn put_figure(row: Row, figure: u32, buffer: &mut [u8], at: usize) -> usize
    requires { at + 28 ≤ length buffer.old }
    ensures { Put buffer.old at (figure_text row figure) buffer.new result × (result ≤ at + 28) }
{
    match row.kind {
        Kind::Whole => fitting::put_count(figure as u64, buffer, at),
        Kind::Tenths => put_tenths(figure, buffer, at),
        Kind::Hundredths => put_hundredths(figure, buffer, at),
        Kind::Words => put_word(row.words, figure, buffer, at),
        Kind::Level => put_level(figure, buffer, at),
    }
}

// A space and a unit, nothing where there is none.
fn put_behind(unit: [u8; 16], buffer: &mut [u8], at: usize) -> usize
    requires { at + 17 ≤ length buffer.old }
    ensures { Put buffer.old at (behind unit) buffer.new result × (result ≤ at + 17) }
{
    if unit[0] == SPACE {
        return at;
    }
    buffer[at] = SPACE;
    put_token(&unit, buffer, at + 1)
}

// The unit behind a figure; a level off the record has none.
pub fn put_unit(row: Row, figure: u32, buffer: &mut [u8], at: usize) -> usize
    requires { at + 17 ≤ length buffer.old }
    ensures { Put buffer.old at (unit_text row figure) buffer.new result × (result ≤ at + 17) }
{
    match row.kind {
        Kind::Level if figure == 0 => at,
        _ => put_behind(row.unit, buffer, at),
    }
}

// A row's name and a space.
pub fn put_name(row: Row, buffer: &mut [u8], at: usize) -> usize
    requires { at + 17 ≤ length buffer.old }
    ensures { Put buffer.old at (name_text row) buffer.new result × (result ≤ at + 17) }
{
    let end = put_token(&row.name, buffer, at);
    buffer[end] = SPACE;
    end + 1
}

// The whole line.
pub fn put_row(row: Row, figure: u32, buffer: &mut [u8], at: usize) -> usize
    requires { at + 80 ≤ length buffer.old }
    ensures { Put buffer.old at (row_text row figure) buffer.new result × (result ≤ at + 80) }
{
    let first = put_name(row, buffer, at);
    let second = put_figure(row, figure, buffer, first);
    put_unit(row, figure, buffer, second)
}

// The line with `_` for its figure.
pub fn put_blank_row(row: Row, buffer: &mut [u8], at: usize) -> usize
    requires { at + 80 ≤ length buffer.old }
    ensures { Put buffer.old at (blank_row row) buffer.new result }
{
    let first = put_name(row, buffer, at);
    buffer[first] = BLANK;
    put_unit(row, 0, buffer, first + 1)
}

// The lines of a row's words past the first, each behind ` | `.
fn put_words(row: Row, buffer: &mut [u8], at: usize) -> usize
    requires { at + 420 ≤ length buffer.old }
    ensures { Put buffer.old at (words_from row 1 5) buffer.new result }
{
    let mut end = at;
    for j in 1..WORDS {
        if row.words[SLOT * j] == SPACE {
            return end;
        }
        end = fitting::put(b" | ", buffer, end);
        end = put_row(row, j as u32, buffer, end);
    }
    end
}

// The lines of two figures, ` .. ` between.
fn put_span(row: Row, least: u32, greatest: u32, buffer: &mut [u8], at: usize) -> usize
    requires { at + 164 ≤ length buffer.old }
    ensures { Put buffer.old at (span_text row least greatest) buffer.new result }
{
    let first = put_row(row, least, buffer, at);
    let second = fitting::put(b" .. ", buffer, first);
    put_row(row, greatest, buffer, second)
}

// What is expected: all words, or the least and the greatest figure.
pub fn put_lines(row: Row, values: Range, buffer: &mut [u8], at: usize) -> usize
    requires { at + 512 ≤ length buffer.old }
    ensures { Put buffer.old at (lines_text row values) buffer.new result }
{
    match row.kind {
        Kind::Words => {
            let first = put_row(row, 0, buffer, at);
            put_words(row, buffer, first)
        }
        Kind::Level => {
            let record = put_row(row, 0, buffer, at);
            let given = fitting::put(b" | ", buffer, record);
            put_span(row, 1, values.greatest, buffer, given)
        }
        _ => put_span(row, values.least, values.greatest, buffer, at),
    }
}

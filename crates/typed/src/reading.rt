// What a line says in the place of a row: the figure is guessed, put back as the row has it and compared (definition, section 14.2).
ghost use Rattle.std.specs.Prelude.{◌≡◌, ◌+◌, ◌*◌, ◌-◌, ◌≤◌, ◌<◌};
ghost use Rattle.typed.specs.Lines.{name_text};
ghost use Rattle.typed.specs.Reading.{stands, in_number, digit_on, digits_read, below_zero, level_guess, word_stands, word_guess, guessed, entry_by};

use crate::table::Row;
use crate::{EntryFault, Kind, begins_with, printing};

// A number from here on takes no further digit.
const CAP: u32 = 100_000_000;

// Whether a byte may stand in a number: a point, a digit or the stroke between them.
fn in_number(byte: u8) -> bool
    ensures { result ≡ in_number byte }
{
    matches!(byte, b'.'..=b'9')
}

// A number with one more digit; points are passed over.
fn digit_on(value: u32, byte: u8) -> u32
    requires { (value < 100000000) × (byte ≤ 57) }
    ensures { (result ≡ digit_on value byte) × (result < 1000000000) }
{
    if byte < b'0' {
        return value;
    }
    10 * value + u32::from(byte - b'0')
}

// The number that the digits at the front mean; 0 where they are too many.
fn digits_read(bytes: &[u8]) -> u32
    ensures { (result ≡ digits_read 0 bytes.now) × (result < 1000000000) }
{
    let mut value: u32 = 0;
    for byte in bytes {
        if !in_number(*byte) {
            return value;
        }
        if CAP <= value {
            return 0;
        }
        value = digit_on(value, *byte);
    }
    value
}

// The figure of a level so far below 0.
fn below_zero(depth: u32) -> u32
    ensures { result ≡ below_zero depth }
{
    printing::LEVEL_ZERO.saturating_sub(depth)
}

// The figure of a level that bytes may stand for.
fn level_guess(bytes: &[u8]) -> u32
    ensures { result ≡ level_guess bytes.now }
{
    if !begins_with(bytes, b"given ") {
        return 0;
    }
    if begins_with(bytes, b"given -") {
        return below_zero(digits_read(&bytes[7..]));
    }
    digits_read(&bytes[6..]) + printing::LEVEL_ZERO
}

// Whether a word stands at the front of bytes.
fn word_stands(words: [u8; 96], j: usize, bytes: &[u8]) -> bool
    requires { j < 6 }
    ensures { result ≡ word_stands words bytes.now j }
{
    let start = printing::SLOT * j;
    let word = printing::token(&words[start..start + printing::SLOT]);
    if word.is_empty() {
        return false;
    }
    begins_with(bytes, word)
}

// The code of the first word that stands there; 0 where none does.
fn word_guess(words: [u8; 96], bytes: &[u8]) -> u32
    ensures { result ≡ word_guess words bytes.now }
{
    for j in 0..printing::WORDS {
        if word_stands(words, j, bytes) {
            return j as u32;
        }
    }
    0
}

// The figure that bytes may stand for in a row.
fn guess(row: Row, bytes: &[u8]) -> u32
    ensures { result ≡ guessed row bytes.now }
{
    match row.kind {
        Kind::Words => word_guess(row.words, bytes),
        Kind::Level => level_guess(bytes),
        Kind::Whole | Kind::Tenths | Kind::Hundredths => digits_read(bytes),
    }
}

// Whether a line has a row's name.
pub fn has_name(row: Row, line: &[u8]) -> bool
    ensures { result ≡ stands (name_text row) line.now }
{
    let mut name = [0u8; 32];
    let end = printing::put_name(row, &mut name, 0);
    begins_with(line, &name[..end])
}

// What a line says in the place of a row.
pub fn read_row(row: Row, line: &[u8]) -> Result<u32, EntryFault>
    ensures { result ≡ entry_by row line.now }
{
    let mut printed = [0u8; 80];
    let name = printing::put_name(row, &mut printed, 0);
    if !begins_with(line, &printed[..name]) {
        return Err(EntryFault::NoName);
    }
    let figure = guess(row, &line[name..]);
    let front = printing::put_figure(row, figure, &mut printed, name);
    if !begins_with(line, &printed[..front]) {
        return Err(EntryFault::NoFigure);
    }
    let end = printing::put_unit(row, figure, &mut printed, front);
    if &printed[..end] != line {
        return Err(EntryFault::NoUnit);
    }
    Ok(figure)
}

// The lines of the printing program: their text in decimal, put into a lent buffer.
#![tactic(auto)]

ghost use Rattle.std.specs.Prelude.{◌≡◌, [], ◌∷◌, map, ◌+◌, ◌*◌, ◌≤◌, length};
ghost use Rattle.laws.specs.Choice.{◌≤ᵇ◌};
ghost use Rattle.engine.specs.Numbers.{plain_count};
ghost use Rattle.lines.specs.Decimals.{count_text, number_text};
ghost use Rattle.lines.specs.Lines.{line_bytes, line_text, plain_text, line_in, levels_line, route_line_in, count_bytes, number_bytes, place_within, buffer_within, place_after, buffer_after, Put};

pub mod fitting;
mod within;
mod words;

use design::COUNT;
use engine::PLAIN_COUNT;

// The bytes that a line is given: the longest has 12 for each number of a sheet, 21 for each of the plain engine's, and 21 for its index and the newline.
pub const LINE_BYTES: usize = 12 * COUNT + 21 * PLAIN_COUNT + 21;

// The bytes that a count is given.
const COUNT_BYTES: usize = 20;

// The bytes that a signed number is given: those of a count, and one for its sign.
const NUMBER_BYTES: usize = 21;

const NEWLINE: u8 = b'\n';

// The worksheet's figures alone, or the plain engine's behind them. The program runs in one of the two, and has the plain numbers in both:
// an Option in their place would be made of the form at each call.
#[derive(Clone, Copy)]
pub enum Form {
    Alone,
    Both,
}

// Puts the line of a sheet at a place and answers the place after it; the same place, and nothing put, where no line fits.
// One call for both forms: the compiler then lays the line out in the loop over the sheets.
pub fn put_sheet_line(
    form: Form,
    index: u64,
    numbers: [i32; COUNT],
    plain: [u64; PLAIN_COUNT],
    buffer: &mut [u8],
    at: usize,
) -> usize
    ensures { (result ≡ place_after (line_in form index numbers plain) at buffer.old) × (buffer.new ≡ buffer_after (line_in form index numbers plain) at buffer.old) }
{
    if !line_fits(buffer.len(), at) {
        return at;
    }
    put_index_line(form, index, numbers, plain, buffer, at)
}

// The first line likewise: the readings added, missing and refused.
pub fn put_levels_line(
    added: u64,
    missing: u64,
    refused: u64,
    buffer: &mut [u8],
    at: usize,
) -> usize
    ensures { (result ≡ place_after (levels_line added missing refused) at buffer.old) × (buffer.new ≡ buffer_after (levels_line added missing refused) at buffer.old) }
{
    if !line_fits(buffer.len(), at) {
        return at;
    }
    put_letter_line(b'L', &[added, missing, refused], buffer, at)
}

// The last line likewise: the sheets, those answered, and the route's class; by both engines on how many sheets they agreed, too.
pub fn put_route_line(
    form: Form,
    sheets: u64,
    answered: u64,
    class: u8,
    agreed: u64,
    buffer: &mut [u8],
    at: usize,
) -> usize
    ensures { (result ≡ place_after (route_line_in form sheets answered class agreed) at buffer.old) × (buffer.new ≡ buffer_after (route_line_in form sheets answered class agreed) at buffer.old) }
{
    if !line_fits(buffer.len(), at) {
        return at;
    }
    put_last_line(form, sheets, answered, class as u64, agreed, buffer, at)
}

// Puts a count at a place and answers the place after it; the same place, and nothing put, where 20 bytes do not fit.
#[tactic(auto, unfolding(crate::specs::Lines::place_within, crate::specs::Lines::buffer_within))]
pub fn put_decimal(count: u64, buffer: &mut [u8], at: usize) -> usize
    ensures { (result ≡ place_within count_bytes (count_text count) at buffer.old) × (buffer.new ≡ buffer_within count_bytes (count_text count) at buffer.old) }
{
    if !fits(buffer.len(), at, COUNT_BYTES) {
        return at;
    }
    within::put_count(count, buffer, at)
}

// Puts a signed number likewise; the same place, and nothing put, where 21 bytes do not fit.
#[tactic(auto, unfolding(crate::specs::Lines::place_within, crate::specs::Lines::buffer_within))]
pub fn put_signed(number: i32, buffer: &mut [u8], at: usize) -> usize
    ensures { (result ≡ place_within number_bytes (number_text number) at buffer.old) × (buffer.new ≡ buffer_within number_bytes (number_text number) at buffer.old) }
{
    if !fits(buffer.len(), at, NUMBER_BYTES) {
        return at;
    }
    within::put_signed(number, buffer, at)
}

// Puts bytes at a place and answers the place after them; the same place, and nothing put, where they do not fit.
#[tactic(auto, unfolding(crate::specs::Lines::place_within, crate::specs::Lines::buffer_within))]
pub fn put_bytes(text: &[u8], buffer: &mut [u8], at: usize) -> usize
    ensures { (result ≡ place_within (length text.now) text.now at buffer.old) × (buffer.new ≡ buffer_within (length text.now) text.now at buffer.old) }
{
    if !fits(buffer.len(), at, text.len()) {
        return at;
    }
    within::put(text, buffer, at)
}

// Whether so much room is in a buffer of so many bytes from a place on.
pub fn fits(bytes: usize, at: usize, room: usize) -> bool
    ensures { result ≡ (at + room ≤ᵇ bytes) }
{
    at <= bytes && room <= bytes - at
}

// Whether a line fits into a buffer of so many bytes from a place on.
fn line_fits(bytes: usize, at: usize) -> bool
    ensures { result ≡ (at + line_bytes ≤ᵇ bytes) }
{
    fits(bytes, at, LINE_BYTES)
}

// A line of an index, the numbers of a sheet and those of the plain engine.
fn put_index_line(
    form: Form,
    index: u64,
    numbers: [i32; COUNT],
    plain: [u64; PLAIN_COUNT],
    buffer: &mut [u8],
    at: usize,
) -> usize
    requires { at + line_bytes ≤ length buffer.old }
    ensures { Put buffer.old at (line_in form index numbers plain) buffer.new result }
{
    let first = within::put_count(index, buffer, at);
    let middle = words::put_numbers(numbers, buffer, first);
    let last = put_plain(form, plain, buffer, middle);
    buffer[last] = NEWLINE;
    last + 1
}

// The plain engine's numbers, where the form has them.
fn put_plain(form: Form, plain: [u64; PLAIN_COUNT], buffer: &mut [u8], at: usize) -> usize
    requires { at + 21 * plain_count + 1 ≤ length buffer.old }
    ensures { Put buffer.old at (plain_text form plain) buffer.new result × (result ≤ at + 21 * plain_count) }
{
    match form {
        Form::Alone => at,
        Form::Both => words::put_words(&plain, buffer, at),
    }
}

// The last line, where it fits.
fn put_last_line(
    form: Form,
    sheets: u64,
    answered: u64,
    class: u64,
    agreed: u64,
    buffer: &mut [u8],
    at: usize,
) -> usize
    requires { at + line_bytes ≤ length buffer.old }
    ensures { Put buffer.old at (route_line_in form sheets answered class agreed) buffer.new result }
{
    match form {
        Form::Alone => put_letter_line(b'R', &[sheets, answered, class], buffer, at),
        Form::Both => put_letter_line(b'R', &[sheets, answered, class, agreed], buffer, at),
    }
}

// A line of a letter and counts.
fn put_letter_line(letter: u8, counts: &[u64], buffer: &mut [u8], at: usize) -> usize
    requires { at + 21 * length counts.now + 2 ≤ length buffer.old }
    ensures { Put buffer.old at (line_text (letter ∷ []) (map count_text counts.now)) buffer.new result }
{
    buffer[at] = letter;
    let last = words::put_words(counts, buffer, at + 1);
    buffer[last] = NEWLINE;
    last + 1
}

// A text whose blanks are filled with figures: `%` and one byte for the width, and the next figure stands there.
#![tactic(auto)]

ghost use Rattle.std.specs.Prelude.{◌≡◌, ◌+◌, ◌*◌, ◌≤◌, length};
ghost use Rattle.laws.specs.Choice.{◌≤ᵇ◌};
ghost use Rattle.lines.specs.Lines.{place_within, buffer_within, Put};
ghost use Rattle.blanks.specs.Blanks.{filled_bytes, filled};

mod figures;

use lines::fitting;

// A figure: a count, a signed number, a byte, the word of a number in the table lent, or none.
#[derive(Clone, Copy)]
pub enum Figure {
    Count(u64),
    Signed(i32),
    Letter(u8),
    Word(usize),
    Nothing,
}

// The byte that begins a blank.
const BLANK: u8 = b'%';

// The bytes that a text is given for each of its own.
const ROOM: usize = 12;

// Puts a text with its blanks filled, and answers the place after it; the same place, and nothing put, where 12 bytes for each of the text's do not fit.
#[tactic(auto, unfolding(lines::specs::Lines::place_within, lines::specs::Lines::buffer_within))]
pub fn put_filled(
    text: &[u8],
    figures: &[Figure],
    words: &[u8],
    buffer: &mut [u8],
    at: usize,
) -> usize
    ensures { (result ≡ place_within (filled_bytes text.now) (filled words.now text.now figures.now) at buffer.old) × (buffer.new ≡ buffer_within (filled_bytes text.now) (filled words.now text.now figures.now) at buffer.old) × (result ≤ at + filled_bytes text.now) }
{
    if !text_fits(buffer.len(), at, text.len()) {
        return at;
    }
    put_text(text, figures, words, buffer, at)
}

// Whether 12 bytes for each of a text's are in a buffer from a place on; the division keeps the product from wrapping.
fn text_fits(bytes: usize, at: usize, text: usize) -> bool
    ensures { result ≡ (at + 12 * text ≤ᵇ bytes) }
{
    if bytes / ROOM < text {
        return false;
    }
    lines::fits(bytes, at, ROOM * text)
}

// The text byte by byte, with the next figure in each blank.
fn put_text(text: &[u8], figures: &[Figure], words: &[u8], buffer: &mut [u8], at: usize) -> usize
    requires { at + filled_bytes text.now ≤ length buffer.old }
    ensures { Put buffer.old at (filled words.now text.now figures.now) buffer.new result × (result ≤ at + filled_bytes text.now) }
{
    let mut end = at;
    let mut bytes = text.iter();
    let mut left = figures.iter();
    while let Some(byte) = bytes.next() {
        if *byte != BLANK {
            end = fitting::put_byte(*byte, buffer, end);
            continue;
        }
        let Some(width) = bytes.next() else {
            return end;
        };
        if let Some(figure) = left.next() {
            end = figures::put_blank(figures::width_of(*width), *figure, words, buffer, end);
        }
    }
    end
}

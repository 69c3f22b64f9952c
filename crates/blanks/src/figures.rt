// One figure, and one blank with its figure in it.
ghost use Rattle.std.specs.Prelude.{◌≡◌, ◌+◌, ◌≤◌, length, take, replicate};
ghost use Rattle.lines.specs.Lines.{space, Put};
ghost use Rattle.blanks.specs.Blanks.{width_of, trimmed, word_at, figure_text, at_left, at_right, blank_text};

use crate::Figure;
use lines::fitting;

// The bytes of a word in a table of words, and the most columns of a blank.
const WORD: usize = 24;

// The columns that a byte asks for.
#[tactic(auto, unfolding(crate::specs::Blanks::width_of))]
pub fn width_of(byte: u8) -> usize
    ensures { (result ≡ width_of byte) × (result ≤ 24) }
{
    match byte {
        b'0'..=b'9' => (byte - b'0') as usize,
        b'A'..=b'O' => (byte - b'A') as usize + 10,
        _ => 0,
    }
}

// A figure in so many columns: a word from the left, everything else from the right.
pub fn put_blank(width: usize, figure: Figure, words: &[u8], buffer: &mut [u8], at: usize) -> usize
    requires { (width ≤ 24) × (at + 24 ≤ length buffer.old) }
    ensures { Put buffer.old at (blank_text words.now width figure) buffer.new result × (result ≤ at + 24) }
{
    if let Figure::Word(i) = figure {
        return put_left(width, i, words, buffer, at);
    }
    let mut columns = [0u8; WORD];
    let bytes = put_figure(figure, words, &mut columns, 0);
    put_right(width, columns, bytes, buffer, at)
}

// A word, and the spaces behind it.
fn put_left(width: usize, i: usize, words: &[u8], buffer: &mut [u8], at: usize) -> usize
    requires { (width ≤ 24) × (at + 24 ≤ length buffer.old) }
    ensures { Put buffer.old at (at_left width (word_at words.now i)) buffer.new result × (result ≤ at + 24) }
{
    let end = put_word(words, i, buffer, at);
    put_spaces(width.saturating_sub(end - at), buffer, end)
}

// The spaces before the first bytes of some, and those.
fn put_right(width: usize, columns: [u8; WORD], bytes: usize, buffer: &mut [u8], at: usize) -> usize
    requires { (width ≤ 24) × (bytes ≤ 24) × (at + 24 ≤ length buffer.old) }
    ensures { Put buffer.old at (at_right width (take bytes columns)) buffer.new result × (result ≤ at + 24) }
{
    let start = put_spaces(width.saturating_sub(bytes), buffer, at);
    fitting::put(&columns[..bytes], buffer, start)
}

// So many spaces.
fn put_spaces(count: usize, buffer: &mut [u8], at: usize) -> usize
    requires { at + count ≤ length buffer.old }
    ensures { Put buffer.old at (replicate count space) buffer.new result × (result ≤ at + count) }
{
    buffer[at..at + count].fill(b' ');
    at + count
}

// The text of a figure.
#[tactic(auto, unfolding(crate::specs::Blanks::figure_text))]
fn put_figure(figure: Figure, words: &[u8], buffer: &mut [u8], at: usize) -> usize
    requires { at + 24 ≤ length buffer.old }
    ensures { Put buffer.old at (figure_text words.now figure) buffer.new result × (result ≤ at + 24) }
{
    match figure {
        Figure::Count(count) => fitting::put_count(count, buffer, at),
        Figure::Signed(number) => fitting::put_signed(number, buffer, at),
        Figure::Letter(byte) => fitting::put_byte(byte, buffer, at),
        Figure::Word(i) => put_word(words, i, buffer, at),
        Figure::Nothing => fitting::put(b"none", buffer, at),
    }
}

// A word of the table without the spaces at its end; nothing past the table.
fn put_word(words: &[u8], i: usize, buffer: &mut [u8], at: usize) -> usize
    requires { at + 24 ≤ length buffer.old }
    ensures { Put buffer.old at (word_at words.now i) buffer.new result × (result ≤ at + 24) }
{
    if words.len() / WORD <= i {
        return at;
    }
    let start = WORD * i;
    let end = start + WORD;
    put_trimmed(&words[start..end], buffer, at)
}

// A word without the spaces at its end.
fn put_trimmed(word: &[u8], buffer: &mut [u8], at: usize) -> usize
    requires { at + length word.now ≤ length buffer.old }
    ensures { Put buffer.old at (trimmed word.now) buffer.new result × (result ≤ at + length word.now) }
{
    let bytes = trimmed_length(word);
    fitting::put(&word[..bytes], buffer, at)
}

// The bytes of a word up to the last that is no space.
fn trimmed_length(word: &[u8]) -> usize
    ensures { result ≡ length (trimmed word.now) }
{
    for last in (0..word.len()).rev() {
        if word[last] != b' ' {
            return last + 1;
        }
    }
    0
}

// The lines of a text (definition, section 14.1).
ghost use Rattle.std.specs.Prelude.{◌≡◌, ◌+◌, ◌-◌, ◌≤◌, min, length, take, drop};
ghost use Rattle.texts.specs.Cutting.{line_of, bare, blank, passed_over, begins_sheet, next_number};

const NEWLINE: u8 = b'\n';

const TAB: u8 = b'\t';

const SPACE: u8 = b' ';

const HASH: u8 = b'#';

// The place of the first newline from a place on, the end of the text where there is none.
pub fn line_end(text: &[u8], from: usize) -> usize
    requires { from ≤ length text.now }
    ensures { (result ≡ from + length (line_of (drop from text.now))) × (result ≤ length text.now) }
{
    for (before, byte) in text[from..].iter().enumerate() {
        if *byte == NEWLINE {
            return from + before;
        }
    }
    text.len()
}

// The place after a line's newline, or the end of the text.
pub fn line_after(end: usize, bytes: usize) -> usize
    ensures { result ≡ min (end + 1) bytes }
{
    end.saturating_add(1).min(bytes)
}

// How long a line is without a carriage return at its end.
pub fn bare_length(line: &[u8]) -> usize
    ensures { (result ≡ length (bare line.now)) × (take result line.now ≡ bare line.now) × (result ≤ length line.now) }
{
    if line.ends_with(b"\r") {
        return line.len() - 1;
    }
    line.len()
}

// Whether a byte is a space or a tab.
fn is_blank(byte: u8) -> bool
    ensures { result ≡ blank byte }
{
    byte == SPACE || byte == TAB
}

// Whether a line is blank or a comment.
pub fn passed_over(line: &[u8]) -> bool
    ensures { result ≡ passed_over line.now }
{
    for byte in line {
        if *byte == HASH {
            return true;
        }
        if !is_blank(*byte) {
            return false;
        }
    }
    true
}

// Whether a line begins a sheet: `sheet`, or `sheet`, a space and a name.
pub fn begins_sheet(line: &[u8]) -> bool
    ensures { result ≡ begins_sheet line.now }
{
    if line.len() == 5 {
        return typed::begins_with(line, b"sheet");
    }
    typed::begins_with(line, b"sheet ")
}

// The number of the next line; the greatest of 32 bits stays.
pub fn next_number(lines: u32) -> u32
    ensures { result ≡ next_number lines }
{
    lines.saturating_add(1)
}

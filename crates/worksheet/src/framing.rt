// The head of a page and its end: index, name, the line to sign and the bytes (definition, section 15.3).
ghost use Rattle.std.specs.Prelude.{◌≡◌, map, ◌+◌, ◌*◌, ◌≤◌, ◌<◌, min, length};
ghost use Rattle.lines.specs.Lines.{Put};
ghost use Rattle.texts.specs.Messages.{shown};
ghost use Rattle.worksheet.specs.Framing.{continues, whole_to, name_end, name_text, head_text, hex_digit, hex_byte, hex_text, signature_text, end_text};

use crate::filling;
use blanks::Figure;
use lines::fitting;

// The bytes of a name that are shown at most, and those of a sheet.
const NAME: usize = 36;

const SHEET: usize = 28;

// A byte that is not the first of its letter.
#[tactic(auto, unfolding(crate::specs::Framing::continues))]
fn continues_letter(byte: u8) -> bool
    ensures { result ≡ continues byte }
{
    matches!(byte, 128..=191)
}

// The greatest place up to one at which no letter is torn.
fn whole_to(name: &[u8], most: usize) -> usize
    requires { most < length name.now }
    ensures { (result ≡ whole_to name.now most) × (result ≤ most) }
{
    for before in (0..most).rev() {
        if !continues_letter(name[before + 1]) {
            return before + 1;
        }
    }
    0
}

// How many bytes of a name are shown.
fn name_end(name: &[u8]) -> usize
    ensures { (result ≡ name_end name.now) × ((result ≤ 36) × (result ≤ length name.now)) }
{
    if name.len() <= NAME {
        return name.len();
    }
    whole_to(name, NAME)
}

// The head of a page.
pub fn put_head(index: u64, name: &[u8], buffer: &mut [u8], at: usize) -> usize
    requires { at + 600 ≤ length buffer.old }
    ensures { Put buffer.old at (head_text index name.now) buffer.new result × (result ≤ at + 600) }
{
    let title = filling::put(
        b"CHANNEL WORKSHEET   sheet %0",
        &[Figure::Count(index)],
        buffer,
        at,
    );
    let named = put_name(name, buffer, title);
    fitting::put(b"\n\n", buffer, named)
}

// A name behind three spaces, or nothing.
fn put_name(name: &[u8], buffer: &mut [u8], at: usize) -> usize
    requires { at + 60 ≤ length buffer.old }
    ensures { Put buffer.old at (name_text name.now) buffer.new result × (result ≤ at + 60) }
{
    if name.is_empty() {
        return at;
    }
    let from = fitting::put(b"   ", buffer, at);
    let end = name_end(name);
    put_visible(&name[..end], buffer, from)
}

// Bytes as they are shown.
fn put_visible(bytes: &[u8], buffer: &mut [u8], at: usize) -> usize
    requires { at + length bytes.now ≤ length buffer.old }
    ensures { Put buffer.old at (map shown bytes.now) buffer.new result × (result ≤ at + length bytes.now) }
{
    texts::put_visible(bytes, buffer, at)
}

// A byte of a hexadecimal digit.
#[tactic(auto, unfolding(crate::specs::Framing::hex_digit))]
fn hex_digit(digit: u8) -> u8
    requires { digit < 16 }
    ensures { result ≡ hex_digit digit }
{
    if digit < 10 {
        b'0' + digit
    } else {
        b'a' + (digit - 10)
    }
}

// The two digits of a byte.
#[tactic(auto, unfolding(crate::specs::Framing::hex_byte))]
fn put_byte(byte: u8, buffer: &mut [u8], at: usize) -> usize
    requires { at + 2 ≤ length buffer.old }
    ensures { Put buffer.old at (hex_byte byte) buffer.new result × (result ≤ at + 2) }
{
    let digits = [hex_digit(byte / 16), hex_digit(byte % 16)];
    fitting::put(&digits, buffer, at)
}

// The digits of bytes.
fn put_hex(bytes: &[u8], buffer: &mut [u8], at: usize) -> usize
    requires { at + 2 * length bytes.now ≤ length buffer.old }
    ensures { Put buffer.old at (hex_text bytes.now) buffer.new result × (result ≤ at + 2 * length bytes.now) }
{
    let mut end = at;
    for byte in bytes {
        end = put_byte(*byte, buffer, end);
    }
    end
}

// The end of a page.
pub fn put_end(bytes: &[u8], buffer: &mut [u8], at: usize) -> usize
    requires { at + 200 ≤ length buffer.old }
    ensures { Put buffer.old at (end_text bytes.now) buffer.new result × (result ≤ at + 200) }
{
    let line = put_signature(buffer, at);
    let hex = fitting::put(b"bytes ", buffer, line);
    let shown = SHEET.min(bytes.len());
    let last = put_hex(&bytes[..shown], buffer, hex);
    fitting::put(b"\n\x0c", buffer, last)
}

// An empty line, and the line for name, date and signature.
#[tactic(auto, unfolding(crate::specs::Framing::signature_text))]
pub fn put_signature(buffer: &mut [u8], at: usize) -> usize
    requires { at + 74 ≤ length buffer.old }
    ensures { Put buffer.old at signature_text buffer.new result × (result ≤ at + 74) }
{
    fitting::put(
        b"\nname ____________________  date __________  signature __________________\n",
        buffer,
        at,
    )
}

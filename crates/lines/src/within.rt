// Bytes, counts and signed numbers put where there is room for them: inside this room the caller has seen that they fit.
ghost use Rattle.std.specs.Prelude.{◌≡◌, [], ◌∷◌, ◌+◌, ◌≤◌, ◌<◌, length};
ghost use Rattle.lines.specs.Decimals.{digits, byte_of, count_text, number_text};
ghost use Rattle.lines.specs.Lines.{Put};

// Bytes.
pub fn put(text: &[u8], buffer: &mut [u8], at: usize) -> usize
    requires { at + length text.now ≤ length buffer.old }
    ensures { Put buffer.old at text.now buffer.new result × (result ≤ at + length text.now) }
{
    buffer[at..at + text.len()].copy_from_slice(text);
    at + text.len()
}

// A byte.
pub fn put_byte(byte: u8, buffer: &mut [u8], at: usize) -> usize
    requires { at < length buffer.old }
    ensures { Put buffer.old at (byte ∷ []) buffer.new result × (result ≤ at + 1) }
{
    buffer[at] = byte;
    at + 1
}

// A signed number: a minus before a negative one. It is given the bytes of a count and one for its sign, and has 11 at most.
pub fn put_signed(number: i32, buffer: &mut [u8], at: usize) -> usize
    requires { at + 21 ≤ length buffer.old }
    ensures { Put buffer.old at (number_text number) buffer.new result × (result ≤ at + 11) }
{
    if number < 0 {
        buffer[at] = b'-';
        return put_count(number.unsigned_abs() as u64, buffer, at + 1);
    }
    let count = number.unsigned_abs() as u64;
    if count < 10 {
        return put_digit(count, buffer, at);
    }
    put_count(count, buffer, at)
}

// A count of one digit.
fn put_digit(count: u64, buffer: &mut [u8], at: usize) -> usize
    requires { (count < 10) × (at < length buffer.old) }
    ensures { Put buffer.old at (count_text count) buffer.new result × (result ≤ at + 1) }
{
    buffer[at] = digit(count);
    at + 1
}

// The byte of a digit.
fn digit(count: u64) -> u8
    requires { count < 10 }
    ensures { result ≡ byte_of count }
{
    b'0' + count as u8
}

// A count: its digits from the last to the first, up to four of them with no loop.
pub fn put_count(count: u64, buffer: &mut [u8], at: usize) -> usize
    requires { at + 20 ≤ length buffer.old }
    ensures { Put buffer.old at (count_text count) buffer.new result × (result ≤ at + 20) }
{
    if count < 10 {
        return put_digit(count, buffer, at);
    }
    if count < 100 {
        buffer[at + 1] = digit(count % 10);
        buffer[at] = digit(count / 10);
        return at + 2;
    }
    if count < 1000 {
        buffer[at + 2] = digit(count % 10);
        buffer[at + 1] = digit(count / 10 % 10);
        buffer[at] = digit(count / 100);
        return at + 3;
    }
    if count < 10000 {
        buffer[at + 3] = digit(count % 10);
        buffer[at + 2] = digit(count / 10 % 10);
        buffer[at + 1] = digit(count / 100 % 10);
        buffer[at] = digit(count / 1000);
        return at + 4;
    }
    put_long_count(count, buffer, at)
}

// A count of any length.
fn put_long_count(count: u64, buffer: &mut [u8], at: usize) -> usize
    requires { at + 20 ≤ length buffer.old }
    ensures { Put buffer.old at (count_text count) buffer.new result × (result ≤ at + 20) }
{
    let end = at + places(count);
    let mut rest = count;
    for place in (at + 1..end).rev() {
        buffer[place] = digit(rest % 10);
        rest = rest / 10;
    }
    buffer[at] = digit(rest);
    end
}

// How many digits a count has: four at a time while it is long, then by comparisons.
fn places(count: u64) -> usize
    ensures { result ≡ length (digits count) }
{
    let mut places = 0;
    let mut rest = count;
    while 10000 <= rest {
        places += 4;
        rest = rest / 10000;
    }
    if rest < 10 {
        return places + 1;
    }
    if rest < 100 {
        return places + 2;
    }
    if rest < 1000 {
        return places + 3;
    }
    places + 4
}

// Bytes, counts and signed numbers for the rooms above, which have seen that they fit. Where they do not, nothing is put and the same
// place is answered, so that nothing is asked of a caller.
ghost use Rattle.std.specs.Prelude.{◌≡◌, [], ◌∷◌, ◌+◌, ◌≤◌, length};
ghost use Rattle.lines.specs.Decimals.{count_text, number_text};
ghost use Rattle.lines.specs.Lines.{place_within, buffer_within, count_bytes, number_bytes, Put};

// Bytes.
pub fn put(text: &[u8], buffer: &mut [u8], at: usize) -> usize
    ensures answered { (result ≡ place_within (length text.now) text.now at buffer.old) × (buffer.new ≡ buffer_within (length text.now) text.now at buffer.old) }
    ensures put { at + length text.now ≤ length buffer.old → Put buffer.old at text.now buffer.new result }
    ensures bound { at + length text.now ≤ length buffer.old → result ≤ at + length text.now }
{
    crate::put_bytes(text, buffer, at)
}

// A byte.
pub fn put_byte(byte: u8, buffer: &mut [u8], at: usize) -> usize
    ensures answered { (result ≡ place_within 1 (byte ∷ []) at buffer.old) × (buffer.new ≡ buffer_within 1 (byte ∷ []) at buffer.old) }
    ensures put { at + 1 ≤ length buffer.old → Put buffer.old at (byte ∷ []) buffer.new result }
    ensures bound { at + 1 ≤ length buffer.old → result ≤ at + 1 }
{
    crate::put_bytes(&[byte], buffer, at)
}

// A count.
pub fn put_count(count: u64, buffer: &mut [u8], at: usize) -> usize
    ensures answered { (result ≡ place_within count_bytes (count_text count) at buffer.old) × (buffer.new ≡ buffer_within count_bytes (count_text count) at buffer.old) }
    ensures put { at + count_bytes ≤ length buffer.old → Put buffer.old at (count_text count) buffer.new result }
    ensures bound { at + count_bytes ≤ length buffer.old → result ≤ at + count_bytes }
{
    crate::put_decimal(count, buffer, at)
}

// A signed number.
pub fn put_signed(number: i32, buffer: &mut [u8], at: usize) -> usize
    ensures answered { (result ≡ place_within number_bytes (number_text number) at buffer.old) × (buffer.new ≡ buffer_within number_bytes (number_text number) at buffer.old) }
    ensures put { at + number_bytes ≤ length buffer.old → Put buffer.old at (number_text number) buffer.new result }
    ensures bound { at + number_bytes ≤ length buffer.old → result ≤ at + 11 }
{
    crate::put_signed(number, buffer, at)
}

// Numbers and counts, each behind one space.
ghost use Rattle.std.specs.Prelude.{List, ℕ, map, ◌+◌, ◌-◌, ◌*◌, ◌≤◌, length};
ghost use Rattle.design.specs.Numbers.{number_count};
ghost use Rattle.lines.specs.Decimals.{count_text, number_text};
ghost use Rattle.lines.specs.Lines.{spaced, Put};

use crate::within;
use design::COUNT;

// A word of a line: its text, and the most bytes of one.
pub trait Word: Copy {
    ghost text: { Self → List ℕ };

    ghost most: { ℕ };

    fn put(self, buffer: &mut [u8], at: usize) -> usize
        requires { at + 21 ≤ length buffer.old }
        ensures { Put buffer.old at (text self) buffer.new result × (result ≤ at + most) };
}

impl Word for u64 {
    ghost text = { count_text };

    ghost most = { 20 };

    fn put(self, buffer: &mut [u8], at: usize) -> usize {
        within::put_count(self, buffer, at)
    }
}

impl Word for i32 {
    ghost text = { number_text };

    ghost most = { 11 };

    fn put(self, buffer: &mut [u8], at: usize) -> usize {
        within::put_signed(self, buffer, at)
    }
}

// The numbers of a sheet. In two short runs: the compiler lays each out flat.
pub fn put_numbers(numbers: [i32; COUNT], buffer: &mut [u8], at: usize) -> usize
    requires { at + 12 * number_count + 16 ≤ length buffer.old }
    ensures { Put buffer.old at (spaced (map number_text numbers)) buffer.new result × (result ≤ at + 12 * number_count) }
{
    let middle = put_words(&numbers[..7], buffer, at);
    put_words(&numbers[7..], buffer, middle)
}

// Words of one type.
pub fn put_words<T: Word>(words: &[T], buffer: &mut [u8], at: usize) -> usize
    requires { at + (T.most + 1) * length words.now + (21 - T.most) ≤ length buffer.old }
    ensures { Put buffer.old at (spaced (map T.text words.now)) buffer.new result × (result ≤ at + (T.most + 1) * length words.now) }
{
    let mut end = at;
    for word in words {
        buffer[end] = b' ';
        end = word.put(buffer, end + 1);
    }
    end
}

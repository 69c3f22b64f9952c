// Figures out of a slice, and into one; a place past its end reads as 0 and takes nothing.
ghost use Rattle.std.specs.Prelude.{◌<◌, ◌^◌};

use lanes::Lanes;
use laws::Refusal;

pub fn figure_at(figures: &[u32], k: usize) -> u32 {
    figures.get(k).copied().unwrap_or(0)
}

// The low bits of a figure, as a byte and as a short: two functions, since a cast names its own type.
pub fn small_at(figures: &[u32], k: usize) -> u8 {
    (figure_at(figures, k) % 256) as u8
}

pub fn short_at(figures: &[u32], k: usize) -> u16 {
    (figure_at(figures, k) % 65536) as u16
}

pub fn lanes_of(figure: u32) -> Lanes {
    match figure {
        1 => Lanes::One,
        _ => Lanes::Two,
    }
}

// The low 32 bits.
pub fn low(figure: u64) -> u32 {
    (figure % 4294967296) as u32
}

// As many of the numbers as there is room for, from a place on.
pub fn store<T: Copy>(numbers: &[T], place: &mut [T], from: usize) {
    let start = from.min(place.len());
    let room = &mut place[start..];
    let count = numbers.len().min(room.len());
    room[..count].copy_from_slice(&numbers[..count]);
}

// A refusal's number, and a hundred times the field that it names.
pub fn refusal_of<F: Refusal + Copy>(fault: F) -> u32
    ensures { result < 2 ^ 16 }
{
    u32::from(fault.number()) + 100 * u32::from(fault.field())
}

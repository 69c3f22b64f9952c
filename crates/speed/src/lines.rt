// Speeds by their weights, and straight lines over the table's grid (definition, section 13.2).
ghost use Rattle.std.specs.Prelude.{◌≡◌, ℕ, Option, ◌+◌, ◌-◌, ◌*◌, ◌/◌, ◌%◌, ◌^◌, ◌≤◌, ◌<◌};
ghost use Rattle.speed.specs.Lines.{parts_of, times, part, together, weighed};
ghost use Rattle.speed.specs.Critical.{row_speed, slope_speed};

use crate::table;

// So many times a speed.
pub fn times_of(weight: u16, speed: Option<u64>) -> Option<u64>
    requires { parts_of speed < 2 ^ 29 }
    ensures { result ≡ times weight speed }
{
    Some(weight as u64 * speed?)
}

// The part of a speed that has a weight; one without weight is not asked for.
#[tactic(auto, unfolding(crate::specs::Lines::part))]
fn part_of(weight: u16, speed: Option<u64>) -> Option<u64>
    requires { parts_of speed < 2 ^ 29 }
    ensures { result ≡ part weight speed }
{
    if weight == 0 {
        return Some(0);
    }
    times_of(weight, speed)
}

// Two parts together.
fn together_of(one: Option<u64>, other: Option<u64>) -> Option<u64>
    requires { (parts_of one < 2 ^ 45) × (parts_of other < 2 ^ 45) }
    ensures { result ≡ together one other }
{
    Some(one? + other?)
}

// Two speeds, each by its weight.
#[tactic(auto, unfolding(crate::specs::Lines::weighed))]
pub fn weighed_of(near: u16, here: Option<u64>, far: u16, next: Option<u64>) -> Option<u64>
    requires { (parts_of here < 2 ^ 29) × (parts_of next < 2 ^ 29) }
    ensures { result ≡ weighed near here far next }
{
    together_of(part_of(near, here), part_of(far, next))
}

// The straight line over a grid of a step, at x, by the speed at each line.
pub fn straight_line<F: Fn(u32) -> Option<u64>>(step: u16, x: u32, at: F) -> Option<u64>
    requires callable { F.IsAlwaysCallable at }
    requires small { (line : ℕ) (speed : Option ℕ) → F.post at line speed → parts_of speed < 2 ^ 29 }
    requires stepped { 1 < step }
    ensures { (here : Option ℕ) × (next : Option ℕ) × F.post at (x / step) here × F.post at (x / step + 1) next
        × result ≡ weighed (step - x % step) here (x % step) next }
{
    let line = x / step as u32;
    let past = (x % step as u32) as u16;
    weighed_of(step - past, at(line), past, at(line + 1))
}

// A row's speed at a depth in cm, in hundredths: the straight line between two whole metres.
pub fn row_speed(row: [u8; 13], depth: u16) -> Option<u64>
    ensures value { result ≡ row_speed row depth }
    ensures small { parts_of result ≤ 25500 }
{
    straight_line(100, depth as u32, |metres| table::point_of(row, metres))
}

// The speed of a full section at a width in lines of 50 m: the straight line between two slopes.
pub fn slope_speed(width: u32, slope: u8, depth: u16) -> Option<u64>
    ensures value { result ≡ slope_speed width slope depth }
    ensures small { parts_of result ≤ 102000 }
{
    let at_slope = |line| row_speed(table::full_row(width, line), depth);
    straight_line(4, slope as u32, at_slope)
}

// The table of fields and their rules (definition, sections 1.1 and 1.2).
ghost use Rattle.std.specs.Prelude.{◌≡◌, ◌<◌, ◌≤◌, ◌-◌, ℕ, Bool};
ghost use Rattle.laws.specs.First.{first_from};
ghost use Rattle.sheet.specs.Fields.{count, groups, field_at, width, outside_at, pair_bad, bad_at, first_bad, named};

use crate::COUNT;

// A field: its bits, its least and its greatest value.
#[derive(Clone, Copy)]
pub struct Field {
    pub bits: u32,
    pub least: u32,
    pub greatest: u32,
}

impl Field {
    const fn new(bits: u32, least: u32, greatest: u32) -> Field
        ensures { (result.bits ≡ bits) × (result.least ≡ least) × (result.greatest ≡ greatest) }
    {
        Field {
            bits,
            least,
            greatest,
        }
    }
}

// How many groups of bits there are, the spare bits with them.
pub const GROUPS: usize = COUNT + 1;

const SPARE_BITS: u32 = 7;

// The field after the first i. A match and no array: the compiler would build the array anew at each call.
#[tactic(auto, unfolding(crate::specs::Fields::field_at, crate::specs::Fields::fields))]
pub fn field_at(i: usize) -> Field
    ensures { result ≡ field_at i }
{
    match i {
        0 => Field::new(20, 1, 600000), // 1 deadweight, t
        1 => Field::new(12, 700, 2500), // 2 draft, cm
        2 => Field::new(16, 2000, 40000), // 3 length, cm
        3 => Field::new(13, 500, 7000), // 4 beam, cm
        4 => Field::new(4, 2, 12), // 5 speed, knots
        5 => Field::new(12, 0, 3000), // 6 natural bed below chart datum, cm
        6 => Field::new(2, 0, 3), // 7 soil grade
        7 => Field::new(9, 0, 300), // 8 wave allowance z2, cm
        8 => Field::new(10, 0, 900), // 9 silting P, per mille a year
        9 => Field::new(3, 0, 5), // 10 dredging interval
        10 => Field::new(2, 0, 2), // 11 lanes
        11 => Field::new(18, 1, 200000), // 12 channel length, m
        12 => Field::new(15, 0, 20000), // 13 ships a day, hundredths
        13 => Field::new(1, 0, 1), // 14 water
        14 => Field::new(2, 0, 2), // 15 handling
        15 => Field::new(7, 0, 99), // 16 cross wind, knots
        16 => Field::new(6, 0, 60), // 17 cross current, tenths of a knot
        17 => Field::new(6, 0, 60), // 18 along current, tenths of a knot
        18 => Field::new(11, 0, 1500), // 19 wave height, cm
        19 => Field::new(2, 0, 3), // 20 aids
        20 => Field::new(2, 0, 2), // 21 bed
        21 => Field::new(2, 0, 2), // 22 cargo
        22 => Field::new(1, 0, 1), // 23 left bank
        23 => Field::new(1, 0, 1), // 24 right bank
        24 => Field::new(8, 0, 180), // 25 turn, degrees
        25 => Field::new(15, 0, 20000), // 26 radius, m
        26 => Field::new(1, 0, 1), // 27 level source
        27 => Field::new(11, 0, 2000), // 28 level plus 500, cm
        28 => Field::new(5, 0, 30), // 29 side slope
        _ => Field::new(0, 0, 0), // no field
    }
}

// The bits of a group: a field's, or the spare bits.
#[tactic(auto, using(std::proofs::lemmas::Bool::Decides::nat_tests), unfolding(crate::specs::Fields::width))]
pub fn width_of(i: usize) -> u32
    requires { i < groups }
    ensures { result ≡ width i }
{
    if i < COUNT {
        field_at(i).bits
    } else {
        SPARE_BITS
    }
}

// Whether field i + 1 is bad against another field.
#[tactic(auto, using(std::proofs::lemmas::Bool::Decides::nat_tests), unfolding(crate::specs::Fields::pair_bad))]
pub fn pair_bad(figures: [u32; COUNT], i: usize) -> bool
    ensures { result ≡ pair_bad figures i }
{
    // turn and radius are both 0, or both not
    if i == 25 {
        return (figures[24] == 0) != (figures[25] == 0);
    }
    // a level off the record has no figure
    if i == 27 {
        return figures[26] == 0 && figures[27] != 0;
    }
    false
}

// Whether field i + 1 is outside its values.
#[tactic(auto, using(std::proofs::lemmas::Bool::Decides::nat_tests), unfolding(crate::specs::Fields::outside_at, crate::specs::Fields::least, crate::specs::Fields::greatest))]
pub fn outside(figures: [u32; COUNT], i: usize) -> bool
    requires { i < count }
    ensures { result ≡ outside_at figures i }
{
    let field = field_at(i);
    let figure = figures[i];
    figure < field.least || field.greatest < figure
}

// The number of the first field past the first `from`, up to `to`, for which a test holds.
fn first_where<F: Fn(usize) -> bool>(from: usize, to: usize, test: F) -> Option<u8>
    requires within { to ≤ count }
    requires callable { (i : ℕ) → i < to → F.pre test i }
    ensures { (holds : ℕ → Bool) → ((i : ℕ) (b : Bool) → i < to → F.post test i b → b ≡ holds i)
        → result ≡ named (first_from holds from (to - from)) }
{
    for i in from..to {
        if test(i) {
            return Some(i as u8 + 1);
        }
    }
    None
}

// Whether field i + 1 is bad: outside its values, or against another field.
#[tactic(auto, unfolding(crate::specs::Fields::outside_at, crate::specs::Fields::bad_at))]
fn bad_at(figures: [u32; COUNT], i: usize) -> bool
    requires { i < count }
    ensures { result ≡ bad_at figures i }
{
    outside(figures, i) || pair_bad(figures, i)
}

// The number of the first bad field. Up to field 25 none is tested against another. Short runs of fields: the compiler
// lays each out flat, with the table's numbers in their places.
pub fn first_bad(figures: [u32; COUNT]) -> Option<u8>
    ensures { result ≡ named (first_bad figures) }
{
    if let Some(bad) = first_where(0, 9, |i| outside(figures, i)) {
        return Some(bad);
    }
    if let Some(bad) = first_where(9, 17, |i| outside(figures, i)) {
        return Some(bad);
    }
    if let Some(bad) = first_where(17, 25, |i| outside(figures, i)) {
        return Some(bad);
    }
    first_where(25, COUNT, |i| bad_at(figures, i))
}

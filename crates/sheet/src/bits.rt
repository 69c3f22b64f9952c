// Groups of bits out of bytes, and back into them (definition, section 1.3).
ghost use Rattle.std.specs.Prelude.{◌≡◌, ◌++◌, ◌+◌, ◌-◌, ◌*◌, ◌/◌, ◌%◌, ◌^◌, ◌<◌, ◌≤◌, length, drop};
ghost use Rattle.sheet.specs.Fields.{count, nth};
ghost use Rattle.sheet.specs.Packing.{groups_of, figures_in, bytes_of, Narrow};
ghost use Rattle.sheet.specs.Regrouping.{word_at, filled_of, SplitTo};

use crate::{COUNT, fields};

// Bits that are taken in and not given out yet: the low n bits of bits.
#[derive(Clone, Copy)]
struct Held {
    bits: u64,
    n: u32,
}

impl Held {
    // No bit.
    const NONE: Held = Held { bits: 0, n: 0 };

    // With w bits more behind them.
    fn put(self, x: u64, w: u32) -> Held
        requires { (self.bits < 2 ^ self.n) × (x < 2 ^ w) × (self.n + w ≤ 60) }
        ensures { (result.bits ≡ self.bits * 2 ^ w + x) × (result.n ≡ self.n + w) }
    {
        Held {
            bits: (self.bits << w) + x,
            n: self.n + w,
        }
    }

    // The first w bits.
    fn first(self, w: u32) -> u64
        requires { (w ≤ self.n) × (self.n ≤ 60) }
        ensures { result ≡ self.bits / 2 ^ (self.n - w) }
    {
        self.bits >> (self.n - w)
    }

    // The bits behind the first w.
    fn rest(self, w: u32) -> Held
        requires { (w ≤ self.n) × (self.n ≤ 60) }
        ensures { (result.bits ≡ self.bits % 2 ^ (self.n - w)) × (result.n ≡ self.n - w) }
    {
        let n = self.n - w;
        Held {
            bits: self.bits % (1u64 << n),
            n,
        }
    }
}

// The 32 bits of word k, four bytes.
#[tactic(auto, unfolding(crate::specs::Regrouping::word_at))]
fn word(bytes: &[u8], k: usize) -> u64
    requires bytes_len { length bytes.now ≡ 28 }
    requires k_bound { k < 7 }
    ensures value { result ≡ word_at bytes.now k }
    ensures bound { result < 2 ^ 32 }
{
    let at = 4 * k;
    u32::from_be_bytes([bytes[at], bytes[at + 1], bytes[at + 2], bytes[at + 3]]) as u64
}

// Between two groups: the bits held, and how many words are taken in.
#[derive(Clone, Copy)]
struct Between {
    held: Held,
    words: usize,
}

impl Between {
    // With one word more where fewer than w bits are held.
    #[tactic(auto, using(std::proofs::lemmas::Bool::Decides::nat_tests), unfolding(crate::specs::Regrouping::filled_of))]
    fn filled(self, bytes: &[u8], w: u32) -> Between
        requires bytes_len { length bytes.now ≡ 28 }
        requires bits_bound { self.held.bits < 2 ^ self.held.n }
        requires n_bound { self.held.n < w → (self.held.n < 28) × (self.words < 7) }
        ensures { result ≡ filled_of bytes.now self w }
    {
        if w <= self.held.n {
            return self;
        }
        Between {
            held: self.held.put(word(bytes, self.words), 32),
            words: self.words + 1,
        }
    }
}

// Splits on from the first `from` fields up to the first `to`.
fn split_on(
    bytes: &[u8],
    figures: &mut [u32; COUNT],
    start: Between,
    from: usize,
    to: usize,
) -> Between
    requires bytes_len { length bytes.now ≡ 28 }
    requires split_to { SplitTo bytes.now figures.old start from }
    requires from_le_to { (from ≤ to) × (to ≤ count) }
    ensures { SplitTo bytes.now figures.new result to }
{
    let mut between = start;
    for i in from..to {
        let width = fields::width_of(i);
        let full = between.filled(bytes, width);
        figures[i] = full.held.first(width) as u32;
        between = Between {
            held: full.held.rest(width),
            words: full.words,
        };
    }
    between
}

// The figures of the fields, and the spare bits behind them.
#[derive(Clone, Copy)]
pub struct Parts {
    pub figures: [u32; COUNT],
    pub spare: u32,
}

// The fields and the spare bits of 28 bytes. Short runs of fields: the compiler lays each out flat.
pub fn split(bytes: &[u8]) -> Parts
    requires { length bytes.now ≡ 28 }
    ensures { (result.figures ≡ figures_in bytes.now) × (result.spare ≡ nth (groups_of bytes.now) count) }
{
    let mut figures = [0u32; COUNT];
    let start = Between {
        held: Held::NONE,
        words: 0,
    };
    let of_ten = split_on(bytes, &mut figures, start, 0, 10);
    let of_twenty = split_on(bytes, &mut figures, of_ten, 10, 20);
    let of_all = split_on(bytes, &mut figures, of_twenty, 20, COUNT);
    Parts {
        figures,
        spare: of_all.held.bits as u32,
    }
}

// What a group holds: a field's figure, or 0 in the spare bits.
fn group_at(figures: [u32; COUNT], i: usize) -> u64
    ensures { result ≡ nth figures i }
{
    if i < COUNT { figures[i] as u64 } else { 0 }
}

// Fields, and no spare bit, into the first 28 bytes of a place.
pub fn join(figures: [u32; COUNT], place: &mut [u8])
    requires narrow { Narrow figures }
    requires in_bounds { 28 ≤ length place.old }
    ensures { place.new ≡ bytes_of figures ++ drop 28 place.old }
{
    let mut held = Held::NONE;
    let mut at: usize = 0;
    for i in 0..fields::GROUPS {
        let width = fields::width_of(i);
        held = held.put(group_at(figures, i), width);
        while 8 <= held.n {
            place[at] = held.first(8) as u8;
            held = held.rest(8);
            at += 1;
        }
    }
}

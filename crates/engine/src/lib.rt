// The plain engine: the definition of the depth read straight (definition, sections 4.2 to 4.7). It tries each cut from 1 to 3,000 and takes the first that
// meets the definition; where none does, it asks the columns why.
#![tactic(auto)]

ghost use Rattle.std.specs.Prelude.{◌≡◌, true, ◌^◌, ◌<◌, Some};
ghost use Rattle.datum.specs.Datum.{dug};
ghost use Rattle.depth.specs.Depth.{column_of, z3, sailing, z4};
ghost use Rattle.engine.specs.Plain.{deep, serves, meets, first_cut, first_figure, by_figure, ruling_of, reason_of, figures_at, plain_depth};
ghost use Rattle.engine.specs.Numbers.{plain_numbers};

use datum::BelowLevel;
use depth::{Column, DepthFault, Stretch};
use laws::Refusal;

// A cut and the sailing depth of its column.
#[derive(Clone, Copy)]
pub struct PlainFigures {
    pub cut: BelowLevel,
    pub sailing: BelowLevel,
}

// How many numbers a depth has: its refusal, its sailing depth and its cut.
pub const PLAIN_COUNT: usize = 3;

// The deepest cut.
const DEEPEST: u64 = 3000;

// The most silt.
const MOST_SILT: u64 = 120;

// How many columns the squat table has.
const COLUMNS: u8 = 3;

// A stretch in a column of the squat table.
#[derive(Clone, Copy)]
struct InColumn {
    stretch: Stretch,
    column: Column,
}

// h: how much of a depth d is dug, d - N, or 0 if negative.
fn dug_of(natural: BelowLevel, d: u64) -> u64
    ensures { result ≡ dug natural.0 d }
{
    d.saturating_sub(natural.0 as u64)
}

// The column of a cut d: A when 10h ≤ 5d, B when 10h ≤ 8d, else C. `depth` has this rule for its worksheet; here it is read of the definition again, so that
// neither engine rests on the other's reading.
#[tactic(auto, using(depth::proofs::squat::Columns::column_a, depth::proofs::squat::Columns::column_b, depth::proofs::squat::Columns::column_c))]
fn column_at(natural: BelowLevel, d: u64) -> Column
    requires { d < 2 ^ 20 }
    ensures { result ≡ column_of natural.0 d }
{
    let h = dug_of(natural, d);
    if 10 * h <= 5 * d {
        return Column::A;
    }
    if 10 * h <= 8 * d {
        return Column::B;
    }
    Column::C
}

impl InColumn {
    // A stretch in the column in which a cut d falls.
    fn of_cut(stretch: Stretch, d: u64) -> InColumn
        requires { d < 2 ^ 20 }
        ensures { (result.stretch ≡ stretch) × (result.column ≡ column_of stretch.natural.0 d) }
    {
        let column = column_at(stretch.natural, d);
        InColumn { stretch, column }
    }

    // z3: the squat at the ship's speed.
    #[tactic(auto, unfolding(depth::specs::Depth::z3))]
    fn squat(self) -> u16
        ensures { result ≡ z3 self.stretch self.column }
    {
        depth::squat_of(self.stretch.lanes, self.column, self.stretch.speed)
    }

    // s = draft + z0 + z1 + z2 + z3.
    fn sailing(self) -> u64
        ensures { (result ≡ sailing self.stretch self.column) × (result < 2 ^ 19) }
    {
        let added = depth::allowances_of(self.stretch);
        self.stretch.draft as u64 + added.list + added.keel + added.wave + self.squat() as u64
    }

    // z4 of a cut d: P × interval × (d - N, or 0 if negative) / 100,000, rounded up; 0 when s ≤ N.
    fn silt_at(self, d: u64) -> u64
        requires { d < 2 ^ 20 }
        ensures { (result ≡ z4 self.stretch self.column d) × (result < 2 ^ 36) }
    {
        let natural = self.stretch.natural;
        let s = self.sailing();
        let h = dug_of(natural, d);
        if s <= natural.0 as u64 {
            return 0;
        }
        (self.stretch.silting as u64 * self.stretch.interval as u64 * h).div_ceil(100000)
    }

    // Whether a cut d is deep enough: at least s + z4, the z4 of d itself.
    fn is_deep(self, d: u64) -> bool
        requires { d < 2 ^ 20 }
        ensures { result ≡ deep self.stretch self.column d }
    {
        let s = self.sailing();
        let silt = self.silt_at(d);
        s + silt <= d
    }

    // Whether the column serves a cut d: it has an entry, z4 is at most 120, and d is deep enough.
    #[tactic(auto, using(crate::proofs::Tests::no_entry, crate::proofs::Tests::much_silt))]
    fn serves(self, d: u64) -> bool
        requires { d < 2 ^ 20 }
        ensures { result ≡ serves self.stretch self.column d }
    {
        if depth::NONE <= self.squat() {
            return false;
        }
        if MOST_SILT < self.silt_at(d) {
            return false;
        }
        self.is_deep(d)
    }

    // The figure of the column, where its z4 is at most 120: the first d from s on that is deep enough. It is s + z4, so the last to try is s + 120.
    fn first_figure(self) -> Option<u64>
        ensures { result ≡ first_figure self.stretch self.column }
    {
        let s = self.sailing();
        for figure in s..=s + MOST_SILT {
            if self.is_deep(figure) {
                return Some(figure);
            }
        }
        None
    }

    // The rules of the column in their order: an entry, silt of at most 120, a figure of at most 3,000; and then where that falls.
    fn ruling(self) -> Result<Column, DepthFault>
        ensures { result ≡ ruling_of self.stretch self.column }
    {
        if depth::NONE <= self.squat() {
            return Err(DepthFault::NoSquatEntry);
        }
        let figure = self.first_figure().ok_or(DepthFault::SiltOver)?;
        by_figure(self.stretch.natural, figure)
    }
}

// A figure that is over 3,000, or the column that it falls in.
fn by_figure(natural: BelowLevel, d: u64) -> Result<Column, DepthFault>
    ensures { result ≡ by_figure natural.0 (Some d) }
{
    if DEEPEST < d {
        return Err(DepthFault::CutOver);
    }
    Ok(column_at(natural, d))
}

// Whether a cut d meets the definition: the column in which it falls serves it.
fn meets_it(stretch: Stretch, d: u64) -> bool
    requires { d < 2 ^ 20 }
    ensures { result ≡ meets stretch d }
{
    InColumn::of_cut(stretch, d).serves(d)
}

// The first cut from 1 to 3,000 that meets the definition.
fn first_cut(stretch: Stretch) -> Option<u64>
    ensures { result ≡ first_cut stretch }
{
    for d in 1..=DEEPEST {
        if meets_it(stretch, d) {
            return Some(d);
        }
    }
    None
}

// Why no cut meets the definition: from column A on, the test by which the first column fails that cannot be used.
fn reason_of(stretch: Stretch) -> DepthFault
    ensures { result ≡ reason_of stretch }
{
    let mut column = Column::A;
    for _ in 0..COLUMNS {
        match (InColumn { stretch, column }).ruling() {
            Err(fault) => return fault,
            Ok(next) => column = next,
        }
    }
    // no figure falls back, so that no fourth column is come to
    DepthFault::CutOver
}

// The figures of a cut that meets the definition.
fn figures_at(stretch: Stretch, d: u64) -> PlainFigures
    requires { (d < 2 ^ 16) × (meets stretch d ≡ true) }
    ensures { result ≡ figures_at stretch d }
{
    let s = InColumn::of_cut(stretch, d).sailing();
    PlainFigures {
        cut: BelowLevel(d as u16),
        sailing: BelowLevel(s as u16),
    }
}

// The depth of a stretch, as the definition reads.
pub fn plain_depth(stretch: Stretch) -> Result<PlainFigures, DepthFault>
    ensures { result ≡ plain_depth stretch }
{
    match first_cut(stretch) {
        Some(d) => Ok(figures_at(stretch, d)),
        None => Err(reason_of(stretch)),
    }
}

// The numbers of a depth, its refusal 0 where it has a cut.
pub fn plain_numbers(depth: Result<PlainFigures, DepthFault>) -> [u64; PLAIN_COUNT]
    ensures { result ≡ plain_numbers depth }
{
    match depth {
        Ok(figures) => [0, figures.sailing.0 as u64, figures.cut.0 as u64],
        Err(fault) => [fault.number() as u64, 0, 0],
    }
}

// Neighbours of one unit, as types of their own: depths below two datums, with the level that alone leads from one to the other (definition,
// section 4.1), and the two currents.
#![tactic(auto)]

ghost use Rattle.std.specs.Prelude.{◌≡◌};
ghost use Rattle.datum.specs.Datum.{level_of, natural_depth, datum_depth};

// A level above chart datum, in cm plus 500: the record's levels from -500 on, with no sign.
#[derive(Clone, Copy)]
pub struct Level(pub u16);

impl Level {
    // In cm above chart datum, signed.
    pub fn above_chart(self) -> i32
        ensures { result ≡ level_of self }
    {
        i32::from(self.0) - 500
    }
}

// A depth below the design level, in cm.
#[derive(Clone, Copy)]
pub struct BelowLevel(pub u16);

// A depth below chart datum, in cm; negative above it.
#[derive(Clone, Copy)]
pub struct BelowChart(pub i32);

// Cross current and along current, in tenths of a knot: two types, so that neither stands in the other's column.
#[derive(Clone, Copy)]
pub struct CrossCurrent(pub u8);

#[derive(Clone, Copy)]
pub struct AlongCurrent(pub u8);

// The deepest that a depth below the design level is held as: no cut is as deep.
const DEEPEST: i64 = 65535;

// The natural depth of a bed: how far it lies below the design level, or 0 where it lies above.
pub fn natural_depth(bed: BelowChart, level: Level) -> BelowLevel
    ensures { result ≡ natural_depth bed level }
{
    let depth = i64::from(bed.0) + i64::from(level.above_chart());
    BelowLevel(depth.clamp(0, DEEPEST) as u16)
}

// The datum depth of a cut: how far it lies below chart datum.
pub fn datum_depth(cut: BelowLevel, level: Level) -> BelowChart
    ensures { result ≡ datum_depth cut level }
{
    BelowChart(i32::from(cut.0) - level.above_chart())
}

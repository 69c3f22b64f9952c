// Depth below the design level: the worksheet, and the cut it ends in (definition, section 4).
#![tactic(auto)]

ghost use Rattle.std.specs.Prelude.{◌≡◌, ◌+◌, ◌-◌, ◌*◌, ◌^◌, ◌≤◌, ◌<◌, min, get_or, take};
ghost use Rattle.laws.specs.Rounding.{up};
ghost use Rattle.datum.specs.Datum.{dug};
ghost use Rattle.depth.specs.Interval.{interval_of};
ghost use Rattle.depth.specs.Squat.{squat_of, fastest_entry};
ghost use Rattle.depth.specs.Depth.{column_of, sailing_with, allowances_of, depth_fault_number, depth_fault_some};
ghost use Rattle.depth.specs.Worksheet.{reckoned, silt_over, column_try, blank_try, finding_of, moves_on, answer_of, worksheet_of, work_depth};

use datum::BelowLevel;
use lanes::Lanes;
use laws::Refusal;

// What the depth of a stretch is worked from: cm, but for the soil grade, the silting in per mille a year,
// the dredging interval in hundredths of a year and the speed in knots.
#[derive(Clone, Copy)]
pub struct Stretch {
    pub draft: u16,
    pub length: u16,
    pub soil: u8,
    pub allowance: u16,
    pub silting: u16,
    pub interval: u16,
    pub natural: BelowLevel,
    pub speed: u8,
    pub lanes: Lanes,
}

// The squat table's columns in their order, by how much of the cut is dug.
#[derive(Clone, Copy, PartialEq, Eq)]
pub enum Column {
    A,
    B,
    C,
}

// A depth below the design level as the worksheet reckons it, in cm: wide, since its limit is tested afterwards.
#[derive(Clone, Copy)]
pub struct ReckonedDepth(pub u64);

// A line of the worksheet, in cm: a column, its squat z3 (NONE for no entry, and then the rest means nothing), sailing depth s,
// silt z4 (ENDLESS for no figure, and then the rest means nothing), figure s + z4, which is the least cut that holds its own
// silt, and the column that the figure falls in.
#[derive(Clone, Copy)]
pub struct Try {
    pub column: Column,
    pub squat: u16,
    pub sailing: ReckonedDepth,
    pub silt: u64,
    pub figure: ReckonedDepth,
    pub falls_in: Column,
}

// Why the worksheet cannot use a column: no entry in the squat table, silt over 120 or endless, a cut over 3,000, tested in this
// order.
#[derive(Clone, Copy)]
pub enum DepthFault {
    NoSquatEntry,
    SiltOver,
    CutOver,
}

// What a try of a column that can be used comes to: the worksheet stays in it, or moves to the one its figure falls in.
#[derive(Clone, Copy)]
pub enum Finding {
    Stays,
    Moves,
}

// The worksheet: its tries in order, `count` of them, then blank ones. An array, since nothing here takes memory, and one with no ghost
// field, since `one_worksheet` and its neighbours speak of this very record. `last` and `tries` read it, whatever it counts.
#[derive(Clone, Copy)]
pub struct Worksheet {
    pub tries: [Try; 3],
    pub count: u8,
}

// The cut, its sailing depth, and how many columns were tried.
#[derive(Clone, Copy)]
pub struct DepthFigures {
    pub cut: BelowLevel,
    pub sailing: BelowLevel,
    pub columns: u8,
}

// What the ship's list and trim, the clearance under the keel and the waves add to the draft, in cm: z0, z1 and z2.
#[derive(Clone, Copy)]
pub struct Allowances {
    pub list: u64,
    pub keel: u64,
    pub wave: u64,
}

// The mark of no entry in the squat table: greater than every entry, and no Option, since `squat_never_falls` compares it with the entries.
pub const NONE: u16 = 9999;

// The mark of a column in which every cut silts up whole, so that it has no figure: greater than every silt, and no Option, since
// `endless_exactly` has it for the silt of such a line.
pub const ENDLESS: u64 = 999999999999;

// The squat in cm, at the speeds 2 to 12: columns A, B and C, each lone and then passing.
const SQUAT: [[[u16; 11]; 2]; 3] = [
    [
        [5, 10, 10, 15, 20, 25, 35, 45, 60, 80, 100],
        [10, 20, 20, 25, 35, 45, 65, 80, 110, 145, 180],
    ],
    [
        [10, 10, 15, 20, 25, 35, 50, 65, 90, 120, NONE],
        [10, 20, 25, 35, 45, 65, 90, 120, 160, 215, NONE],
    ],
    [
        [10, 15, 20, 25, 35, 45, 60, 80, 100, NONE, NONE],
        [20, 25, 35, 40, 65, 80, 110, 145, 200, NONE, NONE],
    ],
];

// The dredging intervals by their codes, in hundredths of a year.
const INTERVALS: [u16; 6] = [25, 33, 50, 100, 200, 300];

// A line of the worksheet that was not needed.
const BLANK: Try = Try {
    column: Column::A,
    squat: 0,
    sailing: ReckonedDepth(0),
    silt: 0,
    figure: ReckonedDepth(0),
    falls_in: Column::A,
};

// The number that turns a sheet away for a fault; it names no field.
impl Refusal for DepthFault {
    ghost number_is = { depth_fault_number };

    ghost field_is = { λ _. 0 };

    ghost some = { depth_fault_some };

    fn number(self) -> u8 {
        match self {
            DepthFault::NoSquatEntry => 13,
            DepthFault::SiltOver => 14,
            DepthFault::CutOver => 15,
        }
    }

    fn field(self) -> u8 {
        0
    }
}

// The dredging interval of a code; a code past the last counts as the last.
#[tactic(auto, unfolding(crate::specs::Interval::interval_of))]
pub fn interval_of(code: u8) -> u16
    ensures { result ≡ interval_of code }
{
    INTERVALS[code.min(5) as usize]
}

// The squat of a column at a speed; a speed outside the table has no entry.
pub fn squat_of(lanes: Lanes, column: Column, speed: u8) -> u16
    ensures { result ≡ squat_of lanes column speed }
{
    if !(2..=12).contains(&speed) {
        return NONE;
    }
    let row = SQUAT[column as usize][lanes as usize];
    row[speed as usize - 2]
}

// The greatest speed with an entry in a column.
pub fn fastest_entry(column: Column) -> u8
    ensures { result ≡ fastest_entry column }
{
    match column {
        Column::A => 12,
        Column::B => 11,
        Column::C => 10,
    }
}

// How far a depth lies below the natural one, or 0 if it does not.
fn dug_to(depth: ReckonedDepth, natural: BelowLevel) -> u64
    ensures { result ≡ dug natural.0 depth.0 }
{
    depth.0.saturating_sub(natural.0 as u64)
}

// The column that a cut falls in: A while at most half of it is dug, B while at most eight tenths.
#[tactic(auto, using(crate::proofs::squat::Columns::column_a, crate::proofs::squat::Columns::column_b, crate::proofs::squat::Columns::column_c))]
fn column_of(natural: BelowLevel, cut: ReckonedDepth) -> Column
    requires { cut.0 < 2 ^ 60 }
    ensures { result ≡ column_of natural.0 cut.0 }
{
    let dug = dug_to(cut, natural);
    if 10 * dug <= 5 * cut.0 {
        Column::A
    } else if 10 * dug <= 8 * cut.0 {
        Column::B
    } else {
        Column::C
    }
}

// The ship's list and trim, rounded up.
fn z0(length: u16) -> u64
    ensures { result ≡ up length 400 }
{
    (length as u64).div_ceil(400)
}

// The clearance under the keel by the soil grade, rounded up.
fn z1(draft: u16, soil: u8) -> u64
    ensures { (result ≡ up (draft * (4 + soil)) 100) × (result < 170000) }
{
    (draft as u64 * (4 + soil as u64)).div_ceil(100)
}

// The allowances of a stretch.
#[tactic(auto, unfolding(crate::specs::Depth::allowances_of))]
pub fn allowances_of(stretch: Stretch) -> Allowances
    ensures { (result ≡ allowances_of stretch) × (result.list + result.keel + result.wave < 2 ^ 18) }
{
    let list = z0(stretch.length);
    let keel = z1(stretch.draft, stretch.soil);
    let wave = stretch.allowance as u64;
    Allowances { list, keel, wave }
}

impl Stretch {
    // The sailing depth at a squat.
    fn sailing_depth(self, squat: u16) -> ReckonedDepth
        ensures { (result ≡ reckoned (sailing_with self squat)) × (result.0 < 2 ^ 19) }
    {
        let added = allowances_of(self);
        ReckonedDepth(self.draft as u64 + added.list + added.keel + added.wave + squat as u64)
    }

    // The silt z4 of a column's figure, the least cut that is at least s + z4, where z4 is silting × interval × (cut - N) / 100,000,
    // rounded up. With s + z4 for the cut this comes to silting × interval × (s - N) / (100,000 - silting × interval).
    #[tactic(auto, using(crate::proofs::cuts::Settling::not_dug, crate::proofs::cuts::Settling::fills_up))]
    fn silt_over(self, sailing: ReckonedDepth) -> u64
        requires { sailing.0 < 2 ^ 19 }
        ensures { (result ≡ silt_over self sailing.0) × (result < 2 ^ 40) }
    {
        let dug = dug_to(sailing, self.natural);
        let filling = self.silting as u64 * self.interval as u64;
        if dug == 0 {
            return 0;
        }
        if 100000 <= filling {
            return ENDLESS;
        }
        (filling * dug).div_ceil(100000 - filling)
    }

    // What the worksheet has in a column.
    fn try_column(self, column: Column) -> Try
        ensures { result ≡ column_try self column }
    {
        let natural = self.natural;
        let squat = squat_of(self.lanes, column, self.speed);
        let sailing = self.sailing_depth(squat);
        let silt = self.silt_over(sailing);
        let figure = ReckonedDepth(sailing.0 + silt);
        let falls_in = column_of(natural, figure);
        Try {
            column,
            squat,
            sailing,
            silt,
            figure,
            falls_in,
        }
    }
}

// The limits of a column in the order of the worksheet, and then where its figure falls.
#[tactic(auto, using(crate::proofs::walks::Findings::no_entry, crate::proofs::walks::Findings::too_much_silt, crate::proofs::walks::Findings::too_deep))]
pub fn finding_of(tried: Try) -> Result<Finding, DepthFault>
    ensures { result ≡ finding_of tried }
{
    if NONE <= tried.squat {
        return Err(DepthFault::NoSquatEntry);
    }
    if 120 < tried.silt {
        return Err(DepthFault::SiltOver);
    }
    if 3000 < tried.figure.0 {
        return Err(DepthFault::CutOver);
    }
    if tried.falls_in == tried.column {
        Ok(Finding::Stays)
    } else {
        Ok(Finding::Moves)
    }
}

// Whether the worksheet goes on to another column.
#[tactic(auto, unfolding(crate::specs::Worksheet::moves_on))]
fn moves_on(tried: Try) -> bool
    ensures { result ≡ moves_on tried }
{
    matches!(finding_of(tried), Ok(Finding::Moves))
}

// The worksheet: it begins in column A and moves to the column its figure falls in; from a third it never moves.
pub fn fill_worksheet(stretch: Stretch) -> Worksheet
    ensures { result ≡ worksheet_of stretch }
{
    let first = stretch.try_column(Column::A);
    if !moves_on(first) {
        return Worksheet {
            tries: [first, BLANK, BLANK],
            count: 1,
        };
    }
    let second = stretch.try_column(first.falls_in);
    if !moves_on(second) {
        return Worksheet {
            tries: [first, second, BLANK],
            count: 2,
        };
    }
    let third = stretch.try_column(second.falls_in);
    Worksheet {
        tries: [first, second, third],
        count: 3,
    }
}

impl Worksheet {
    // The line that the count reaches, the third at most. By cases, so that the compiler need not lay the worksheet out.
    pub fn last(self) -> Try
        ensures { result ≡ get_or self.tries (min self.count 3 - 1) blank_try }
    {
        match self.count {
            0 | 1 => self.tries[0],
            2 => self.tries[1],
            _ => self.tries[2],
        }
    }

    // The lines that were needed, in their order.
    pub fn tries(&self) -> &[Try]
        ensures { result.now ≡ take self.now.count self.now.tries }
    {
        &self.tries[..self.count.min(3) as usize]
    }
}

// The depth that the last of `columns` tries gives.
fn answer_of(last: Try, columns: u8) -> Result<DepthFigures, DepthFault>
    requires { last.sailing.0 ≤ last.figure.0 }
    ensures { result ≡ answer_of last columns }
{
    match finding_of(last)? {
        Finding::Stays => Ok(DepthFigures {
            cut: BelowLevel(last.figure.0 as u16),
            sailing: BelowLevel(last.sailing.0 as u16),
            columns,
        }),
        // no last try moves
        Finding::Moves => Err(DepthFault::CutOver),
    }
}

// The depth of a stretch: the last try of its worksheet.
pub fn work_depth(stretch: Stretch) -> Result<DepthFigures, DepthFault>
    ensures { result ≡ work_depth stretch }
{
    let worksheet = fill_worksheet(stretch);
    answer_of(worksheet.last(), worksheet.count)
}

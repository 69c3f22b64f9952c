// The critical speed of a stretch, and whether its ship keeps to nine tenths of it (definition, section 13).
#![tactic(auto)]

ghost use Rattle.std.specs.Prelude.{◌≡◌, ◌-◌, ◌^◌, ◌≤◌, ◌<◌};
ghost use Rattle.datum.specs.Datum.{dug};
ghost use Rattle.speed.specs.Lines.{parts_of};
ghost use Rattle.speed.specs.Critical.{shallow_speed, full_speed, critical_speed, against, check_of};
ghost use Rattle.speed.specs.Shown.{over, fastest_speed, parts_shown};
ghost use Rattle.speed.specs.Refusals.{speed_fault_number, speed_fault_some};

use datum::BelowLevel;
use laws::Refusal;

mod lines;
mod table;

// What the critical speed of a stretch is worked from: its natural depth and its cut, its bottom width in cm, which is the width without
// widening, and the m of its side slopes 1/m.
#[derive(Clone, Copy)]
pub struct Section {
    pub natural: BelowLevel,
    pub cut: BelowLevel,
    pub width: u32,
    pub slope: u8,
}

impl Section {
    // h, what is dug of the cut: cut - N, or 0 if negative.
    fn dug(self) -> u16
        ensures { (result ≡ dug self.natural.0 self.cut.0) × (result ≤ self.cut.0) }
    {
        self.cut.0.saturating_sub(self.natural.0)
    }
}

// Why a speed is not allowed: a needed point of the table is blank or outside, or the ship is too fast.
#[derive(Clone, Copy)]
pub enum SpeedFault {
    PointMissing,
    TooFast,
}

// What a critical speed is joined from, as a sheet shows it: h in cm, V', V'' and the joined speed in whole mm a second, and the fastest
// that a ship may go, nine tenths of the joined speed, in hundredths of a knot; all rounded down.
#[derive(Clone, Copy)]
pub struct SpeedParts {
    pub dug: u16,
    pub shallow: Option<u64>,
    pub full: Option<u64>,
    pub critical: Option<u64>,
    pub fastest: Option<u64>,
}

impl Refusal for SpeedFault {
    ghost number_is = { speed_fault_number };

    ghost field_is = { λ _. 0 };

    fn number(self) -> u8 {
        match self {
            SpeedFault::PointMissing => 16,
            SpeedFault::TooFast => 17,
        }
    }

    fn field(self) -> u8 {
        0
    }

    ghost some = { speed_fault_some };
}

// V', the critical speed of shallow water at a depth, in hundredths.
pub fn shallow_speed(depth: BelowLevel) -> Option<u64>
    ensures value { result ≡ shallow_speed depth.0 }
    ensures small { parts_of result ≤ 25500 }
{
    lines::row_speed(table::SHALLOW, depth.0)
}

// V'', the critical speed of a full section, in parts of 5,000 × 4 × 100: the straight line between two widths.
pub fn full_speed(width: u32, slope: u8, depth: BelowLevel) -> Option<u64>
    ensures value { result ≡ full_speed width slope depth.0 }
    ensures small { parts_of result ≤ 510000000 }
{
    lines::straight_line(5000, width, |line| lines::slope_speed(line, slope, depth.0))
}

// The joined speed (V' × (cut - h) + V'' × h) / cut, in parts of 5,000 × 4 × 100 × cut; V' comes in hundredths, and goes into it 5,000 × 4 times.
#[tactic(auto, unfolding(crate::specs::Critical::critical_speed))]
pub fn critical_speed(section: Section) -> Option<u64>
    ensures value { result ≡ critical_speed section }
    ensures small { parts_of result < 2 ^ 46 }
{
    let cut = section.cut;
    let dug = section.dug();
    let shallow = lines::times_of(20000, shallow_speed(cut));
    let full = full_speed(section.width, section.slope, cut);
    lines::weighed_of(cut.0 - dug, shallow, dug, full)
}

// Knots × 1,852 / 3,600 metres a second may be nine tenths of the speed, and no more. Both sides stand times 100 × 3,600 × the whole, as
// the parts are tenths of a metre a second.
#[tactic(auto, unfolding(crate::specs::Critical::against))]
fn against_of(parts: u64, cut: u16, knots: u8) -> Result<(), SpeedFault>
    requires { parts < 2 ^ 46 }
    ensures { result ≡ against parts cut knots }
{
    if 9 * parts * 3600 < 100 * (knots as u64 * 1852) * (2000000 * cut as u64) {
        return Err(SpeedFault::TooFast);
    }
    Ok(())
}

// The check of a ship's speed in a section; a slope of 0 asks for none.
#[tactic(auto, unfolding(crate::specs::Critical::check_of))]
pub fn check_speed(section: Section, knots: u8) -> Result<(), SpeedFault>
    ensures { result ≡ check_of section knots }
{
    if section.slope == 0 {
        return Ok(());
    }
    let parts = critical_speed(section).ok_or(SpeedFault::PointMissing)?;
    against_of(parts, section.cut.0, knots)
}

// A speed over a divisor, rounded down; a divisor of 0 gives none.
#[tactic(auto, using(crate::proofs::Showing::over_missing), unfolding(crate::specs::Shown::over))]
fn over_of(divisor: u64, speed: Option<u64>) -> Option<u64>
    ensures { result ≡ over divisor speed }
{
    speed?.checked_div(divisor)
}

// Nine tenths of a joined speed in hundredths of a knot of 1,852 m in 3,600 s, rounded down.
#[tactic(auto, using(crate::proofs::Showing::over_missing), unfolding(crate::specs::Shown::fastest_speed))]
fn fastest_of(cut: u16, speed: Option<u64>) -> Option<u64>
    requires { parts_of speed < 2 ^ 46 }
    ensures { result ≡ fastest_speed cut speed }
{
    over_of(1852 * (2000000 * cut as u64), Some(9 * 3600 * speed?))
}

// The parts of a section's critical speed.
#[tactic(auto, unfolding(crate::specs::Shown::parts_shown))]
pub fn parts_of(section: Section) -> SpeedParts
    ensures { result ≡ parts_shown section }
{
    let cut = section.cut;
    let joined = critical_speed(section);
    SpeedParts {
        dug: section.dug(),
        shallow: shallow_speed(cut),
        full: over_of(20000, full_speed(section.width, section.slope, cut)),
        critical: over_of(20000 * cut.0 as u64, joined),
        fastest: fastest_of(cut.0, joined),
    }
}

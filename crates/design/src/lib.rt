// A design: from any bytes and a level table to its figures, or the reason why there are none (definition, section 8).
#![tactic(auto)]

ghost use Rattle.std.specs.Prelude.{◌≡◌};
ghost use Rattle.design.specs.Design.{design_at, design_of};
ghost use Rattle.design.specs.Numbers.{code_of, numbers_of};
ghost use Rattle.design.specs.declared.Reason.TheVariants.{NoSheet, NoLevel, NoWidth, NoDepth, NoSpeed};
ghost use Rattle.design.specs.Refusals.{reason_number, reason_field, reason_some};

use class::Classes;
use datum::{BelowChart, BelowLevel, Level};
use depth::DepthFault;
use gauge::LevelFault;
use lanes::Lanes;
use laws::Refusal;
use sheet::ReadFault;
use speed::SpeedFault;
use width::WidthFault;

mod checks;
mod numbering;
pub mod working;

// Why a sheet is turned away: the refusal of the room that turns it away, or the design's own.
#[derive(Clone, Copy)]
pub enum Reason {
    NoSheet(ReadFault),
    // its length is under three beams
    NoShip,
    NoLevel(LevelFault),
    NoWidth(WidthFault),
    NoDepth(DepthFault),
    NoSpeed(SpeedFault),
}

impl From<ReadFault> for Reason {
    ghost from_gives = { λ fault reason. reason ≡ NoSheet fault };

    fn from(fault: ReadFault) -> Reason {
        Reason::NoSheet(fault)
    }
}

impl From<LevelFault> for Reason {
    ghost from_gives = { λ fault reason. reason ≡ NoLevel fault };

    fn from(fault: LevelFault) -> Reason {
        Reason::NoLevel(fault)
    }
}

impl From<WidthFault> for Reason {
    ghost from_gives = { λ fault reason. reason ≡ NoWidth fault };

    fn from(fault: WidthFault) -> Reason {
        Reason::NoWidth(fault)
    }
}

impl From<DepthFault> for Reason {
    ghost from_gives = { λ fault reason. reason ≡ NoDepth fault };

    fn from(fault: DepthFault) -> Reason {
        Reason::NoDepth(fault)
    }
}

impl From<SpeedFault> for Reason {
    ghost from_gives = { λ fault reason. reason ≡ NoSpeed fault };

    fn from(fault: SpeedFault) -> Reason {
        Reason::NoSpeed(fault)
    }
}

// The figures of a sheet that is answered, in cm.
#[derive(Clone, Copy)]
pub struct Figures {
    pub level: Level,
    pub lanes: Lanes,
    pub sailing: BelowLevel,
    pub cut: BelowLevel,
    // the cut, below chart datum
    pub datum: BelowChart,
    // without widening
    pub width: i32,
    pub widening: i32,
    // tried on the worksheet
    pub columns: u8,
    pub classes: Classes,
}

// Each room gives the number and the field of its own refusals, and 18 is the design's.
impl Refusal for Reason {
    ghost number_is = { reason_number };

    ghost field_is = { reason_field };

    ghost some = { reason_some };

    fn number(self) -> u8 {
        match self {
            Reason::NoSheet(fault) => fault.number(),
            Reason::NoShip => 18,
            Reason::NoLevel(fault) => fault.number(),
            Reason::NoWidth(fault) => fault.number(),
            Reason::NoDepth(fault) => fault.number(),
            Reason::NoSpeed(fault) => fault.number(),
        }
    }

    fn field(self) -> u8 {
        match self {
            Reason::NoSheet(fault) => fault.field(),
            Reason::NoShip => 0,
            Reason::NoLevel(fault) => fault.field(),
            Reason::NoWidth(fault) => fault.field(),
            Reason::NoDepth(fault) => fault.field(),
            Reason::NoSpeed(fault) => fault.field(),
        }
    }
}

// How many numbers an answer has: code, field and figures.
pub const COUNT: usize = 13;

// The design of a sheet over a level table.
#[tactic(auto, unfolding(crate::specs::Design::design_of))]
pub fn design(bytes: &[u8], table: &[u32]) -> Result<Figures, Reason>
    ensures { result ≡ design_of bytes.now table.now }
{
    design_at(bytes, gauge::design_level(table))
}

// The same at a level that is already read off the table, for a caller with many sheets.
#[tactic(auto, unfolding(crate::specs::Design::design_at))]
pub fn design_at(bytes: &[u8], level: Result<Level, LevelFault>) -> Result<Figures, Reason>
    ensures { result ≡ design_at bytes.now level }
{
    checks::of_sheet(sheet::read(bytes)?, level)
}

// The code of a design: 0, or the number that turns its sheet away.
pub fn code(design: Result<Figures, Reason>) -> u8
    ensures { result ≡ code_of design }
{
    match design {
        Ok(_) => 0,
        Err(reason) => reason.number(),
    }
}

// The numbers of a design.
#[tactic(auto, unfolding(crate::specs::Numbers::numbers_of))]
pub fn numbers(design: Result<Figures, Reason>) -> [i32; COUNT]
    ensures { result ≡ numbers_of design }
{
    match design {
        Ok(figures) => numbering::answered(figures),
        Err(reason) => numbering::refused(reason.number(), reason.field()),
    }
}

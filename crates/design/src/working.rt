// What a sheet's level, depth, width and speed are worked from, and the figures they come to (definition, section 8).
ghost use Rattle.std.specs.Prelude.{◌≡◌, ◌<◌, ◌^◌};
ghost use Rattle.design.specs.Design.{level_for, depth_stretch, width_stretch, width_at, speed_section, figures_of};

use crate::Figures;
use datum::{BelowLevel, Level};
use depth::DepthFigures;
use gauge::LevelFault;
use lanes::Lanes;
use sheet::{LevelSource, Sheet};
use speed::Section;
use width::Entries;

// The level of a sheet: its own, or the one read off the record.
pub fn level_for(source: LevelSource, read: Result<Level, LevelFault>) -> Result<Level, LevelFault>
    ensures { result ≡ level_for source read }
{
    match source {
        LevelSource::FromRecord => read,
        LevelSource::Given(level) => Ok(level),
    }
}

// What the depth of a sheet is worked from, at its level and in its lanes.
pub fn depth_stretch(sheet: Sheet, level: Level, lanes: Lanes) -> depth::Stretch
    ensures { result ≡ depth_stretch sheet level lanes }
{
    depth::Stretch {
        draft: sheet.draft,
        length: sheet.length,
        soil: sheet.soil,
        allowance: sheet.allowance,
        silting: sheet.silting,
        interval: depth::interval_of(sheet.interval),
        natural: datum::natural_depth(sheet.bed, level),
        speed: sheet.speed,
        lanes,
    }
}

// What its width is worked from beside its entries, in its lanes and at its sailing depth.
pub fn width_stretch(sheet: Sheet, lanes: Lanes, sailing: BelowLevel) -> width::Stretch
    ensures { result ≡ width_stretch sheet lanes sailing }
{
    width::Stretch {
        beam: sheet.beam,
        draft: sheet.draft,
        handling: sheet.handling,
        wind: sheet.wind,
        along: sheet.along,
        aids: sheet.aids,
        bottom: sheet.bottom,
        cargo: sheet.cargo,
        left: sheet.left,
        right: sheet.right,
        ships: sheet.ships,
        lanes,
        sailing,
    }
}

// The width of a sheet without widening, in its lanes, with its entries and its depth.
pub(crate) fn width_at(sheet: Sheet, lanes: Lanes, entries: Entries, depth: DepthFigures) -> u32
    ensures value { result ≡ width_at sheet lanes entries depth }
    ensures small { result < 2 ^ 31 }
{
    width::width_of(width_stretch(sheet, lanes, depth.sailing), entries)
}

// The section of a sheet at its level, with its width and its cut.
pub fn section_of(sheet: Sheet, level: Level, width: u32, cut: BelowLevel) -> Section
    ensures { result ≡ speed_section sheet level width cut }
{
    Section {
        natural: datum::natural_depth(sheet.bed, level),
        cut,
        width,
        slope: sheet.slope,
    }
}

// The figures of a sheet at its level, in its lanes, with the widening of its bend, its width and its depth.
#[tactic(auto, unfolding(crate::specs::Design::figures_of))]
pub(crate) fn figures_of(
    sheet: Sheet,
    level: Level,
    lanes: Lanes,
    widening: u32,
    width: u32,
    depth: DepthFigures,
) -> Figures
    requires { (widening < 2 ^ 31) × (width < 2 ^ 31) }
    ensures { result ≡ figures_of sheet level lanes widening width depth }
{
    Figures {
        level,
        lanes,
        sailing: depth.sailing,
        cut: depth.cut,
        datum: datum::datum_depth(depth.cut, level),
        width: width as i32,
        widening: widening as i32,
        columns: depth.columns,
        classes: class::classes_of(sheet.deadweight, width, lanes, depth.sailing),
    }
}

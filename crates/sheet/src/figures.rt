// A sheet's fields as plain figures, and a sheet from them (definition, section 1.1).
ghost use Rattle.std.specs.Prelude.{◌≡◌};
ghost use Rattle.sheet.specs.Packing.{Narrow};
ghost use Rattle.sheet.specs.Sheets.{sheet_of, level_source_of, figures_of, bed_figure, source_figure, level_figure};

use crate::{COUNT, LevelSource, Sheet};
use datum::{AlongCurrent, BelowChart, CrossCurrent, Level};

// A figure that no field holds: past every field's greatest value.
const NO_FIGURE: u32 = u32::MAX;

impl LevelSource {
    // The level of fields 27 and 28.
    #[tactic(auto, using(std::proofs::lemmas::Bool::Decides::nat_tests), unfolding(crate::specs::Sheets::level_source_of))]
    fn of(source: u32, level: u16) -> LevelSource
        ensures { result ≡ level_source_of source level }
    {
        if source == 0 {
            LevelSource::FromRecord
        } else {
            LevelSource::Given(Level(level))
        }
    }

    // Field 27 of a level.
    fn source(self) -> u32
        ensures { result ≡ source_figure self }
    {
        match self {
            LevelSource::FromRecord => 0,
            LevelSource::Given(_) => 1,
        }
    }

    // Field 28 of a level.
    fn figure(self) -> u32
        ensures { result ≡ level_figure self }
    {
        match self {
            LevelSource::FromRecord => 0,
            LevelSource::Given(level) => level.0 as u32,
        }
    }
}

// Field 6 of a bed. One above chart datum has no figure.
#[tactic(auto, unfolding(crate::specs::Sheets::bed_figure))]
fn bed_figure(bed: BelowChart) -> u32
    ensures { result ≡ bed_figure bed }
{
    u32::try_from(bed.0).unwrap_or(NO_FIGURE)
}

// The sheet of figures, each within the bits of its field.
#[tactic(auto, unfolding(crate::specs::Sheets::sheet_of, crate::specs::Packing::Narrow, crate::specs::Fields::width, crate::specs::Fields::field_at, crate::specs::Fields::fields))]
pub fn sheet_of(figures: [u32; COUNT]) -> Sheet
    requires { Narrow figures }
    ensures { result ≡ sheet_of figures }
{
    Sheet {
        deadweight: figures[0],
        draft: figures[1] as u16,
        length: figures[2] as u16,
        beam: figures[3] as u16,
        speed: figures[4] as u8,
        bed: BelowChart(figures[5] as i32),
        soil: figures[6] as u8,
        allowance: figures[7] as u16,
        silting: figures[8] as u16,
        interval: figures[9] as u8,
        lanes: figures[10] as u8,
        channel: figures[11],
        ships: figures[12] as u16,
        water: figures[13] as u8,
        handling: figures[14] as u8,
        wind: figures[15] as u8,
        cross: CrossCurrent(figures[16] as u8),
        along: AlongCurrent(figures[17] as u8),
        wave: figures[18] as u16,
        aids: figures[19] as u8,
        bottom: figures[20] as u8,
        cargo: figures[21] as u8,
        left: figures[22] as u8,
        right: figures[23] as u8,
        turn: figures[24] as u8,
        radius: figures[25] as u16,
        level: LevelSource::of(figures[26], figures[27] as u16),
        slope: figures[28] as u8,
    }
}

// The figures of a sheet.
#[tactic(auto, unfolding(crate::specs::Sheets::figures_of))]
pub fn in_order(sheet: Sheet) -> [u32; COUNT]
    ensures { result ≡ figures_of sheet }
{
    [
        sheet.deadweight,
        sheet.draft as u32,
        sheet.length as u32,
        sheet.beam as u32,
        sheet.speed as u32,
        bed_figure(sheet.bed),
        sheet.soil as u32,
        sheet.allowance as u32,
        sheet.silting as u32,
        sheet.interval as u32,
        sheet.lanes as u32,
        sheet.channel,
        sheet.ships as u32,
        sheet.water as u32,
        sheet.handling as u32,
        sheet.wind as u32,
        sheet.cross.0 as u32,
        sheet.along.0 as u32,
        sheet.wave as u32,
        sheet.aids as u32,
        sheet.bottom as u32,
        sheet.cargo as u32,
        sheet.left as u32,
        sheet.right as u32,
        sheet.turn as u32,
        sheet.radius as u32,
        sheet.level.source(),
        sheet.level.figure(),
        sheet.slope as u32,
    ]
}

// The sheet: 28 bytes, 29 fields packed most significant bit first (definition, section 1).
#![tactic(auto)]

ghost use Rattle.std.specs.Prelude.{◌≡◌};
ghost use Rattle.sheet.specs.Fields.{range_of, standing_of};
ghost use Rattle.sheet.specs.Refusals.{read_fault_number, read_fault_field, read_fault_some, write_fault_number, write_fault_field, write_fault_some};
ghost use Rattle.sheet.specs.Sheets.{figures_of, sheet_from, read_of, written_of, place_of};

use datum::{AlongCurrent, BelowChart, CrossCurrent, Level};
use laws::Refusal;

mod bits;
mod fields;
mod figures;

// How many fields a sheet has.
pub const COUNT: usize = 29;

// Where the design level comes from: off the record, or given with its figure.
#[derive(Clone, Copy)]
pub enum LevelSource {
    FromRecord,
    Given(Level),
}

// The fields of a sheet, in the order of their numbers. Kinds and grades are numbers, as a sheet with any of them can be
// asked to be written: `write` names the one that its field cannot hold.
#[derive(Clone, Copy)]
pub struct Sheet {
    // 1, t
    pub deadweight: u32,
    // 2, 3 and 4, cm
    pub draft: u16,
    pub length: u16,
    pub beam: u16,
    // 5, knots
    pub speed: u8,
    // 6, the natural bed
    pub bed: BelowChart,
    // 7, a grade
    pub soil: u8,
    // 8, the wave allowance z2, cm
    pub allowance: u16,
    // 9, P, per mille a year
    pub silting: u16,
    // 10, 0 to 5
    pub interval: u8,
    // 11, 1, 2, or 0 by the traffic
    pub lanes: u8,
    // 12, the channel's length, m
    pub channel: u32,
    // 13, a day, in hundredths
    pub ships: u16,
    // 14, 0 open, 1 sheltered
    pub water: u8,
    // 15, 0 good, 1 fair, 2 poor
    pub handling: u8,
    // 16, knots
    pub wind: u8,
    // 17 and 18
    pub cross: CrossCurrent,
    pub along: AlongCurrent,
    // 19, cm
    pub wave: u16,
    // 20, 0 to 3
    pub aids: u8,
    // 21, 0 soft, 1 hard and smooth, 2 hard and rough
    pub bottom: u8,
    // 22, 0 to 2
    pub cargo: u8,
    // 23 and 24, the left and the right bank, 0 sloping, 1 steep
    pub left: u8,
    pub right: u8,
    // 25, degrees
    pub turn: u8,
    // 26, m
    pub radius: u16,
    // 27 and 28
    pub level: LevelSource,
    // 29, the m of a side slope 1/m; 0 for no check
    pub slope: u8,
}

// Why a string of bytes is no sheet.
#[derive(Clone, Copy)]
pub enum ReadFault {
    WrongLength,
    SpareBitSet,
    // by its number
    BadField(u8),
}

// Why a sheet is not written.
#[derive(Clone, Copy)]
pub enum WriteFault {
    PlaceTooSmall,
    // by its number
    BadField(u8),
}

impl Refusal for ReadFault {
    ghost number_is = { read_fault_number };

    ghost field_is = { read_fault_field };

    fn number(self) -> u8 {
        match self {
            ReadFault::WrongLength => 1,
            ReadFault::SpareBitSet => 2,
            ReadFault::BadField(_) => 3,
        }
    }

    fn field(self) -> u8 {
        match self {
            ReadFault::WrongLength => 0,
            ReadFault::SpareBitSet => 0,
            ReadFault::BadField(field) => field,
        }
    }

    ghost some = { read_fault_some };
}

impl Refusal for WriteFault {
    ghost number_is = { write_fault_number };

    ghost field_is = { write_fault_field };

    fn number(self) -> u8 {
        match self {
            WriteFault::PlaceTooSmall => 12,
            WriteFault::BadField(_) => 3,
        }
    }

    fn field(self) -> u8 {
        match self {
            WriteFault::PlaceTooSmall => 0,
            WriteFault::BadField(field) => field,
        }
    }

    ghost some = { write_fault_some };
}

// A field's least and greatest value.
#[derive(Clone, Copy)]
pub struct Range {
    pub least: u32,
    pub greatest: u32,
}

// How a figure is wrong in its field: outside its values, or against another field.
#[derive(Clone, Copy)]
pub enum FieldFault {
    Outside,
    Disagrees,
}

// The values of the field after the first i; 0 and 0 where there is none.
#[tactic(auto, unfolding(crate::specs::Fields::range_of, crate::specs::Fields::least, crate::specs::Fields::greatest))]
pub fn range_of(i: usize) -> Range
    ensures { result ≡ range_of i }
{
    let field = fields::field_at(i);
    Range {
        least: field.least,
        greatest: field.greatest,
    }
}

// How the figure after the first i stands; past the fields nothing is wrong.
#[tactic(auto, using(std::proofs::lemmas::Bool::Decides::nat_tests), unfolding(crate::specs::Fields::standing_of))]
pub fn standing_of(figures: [u32; COUNT], i: usize) -> Result<(), FieldFault>
    ensures { result ≡ standing_of figures i }
{
    if COUNT <= i {
        return Ok(());
    }
    if fields::outside(figures, i) {
        return Err(FieldFault::Outside);
    }
    if fields::pair_bad(figures, i) {
        return Err(FieldFault::Disagrees);
    }
    Ok(())
}

// The figures of a sheet, in the order of its fields.
pub fn figures_of(sheet: Sheet) -> [u32; COUNT]
    ensures { result ≡ figures_of sheet }
{
    figures::in_order(sheet)
}

// The sheet of figures of any size, or the first field that is bad.
pub fn sheet_from(figures: [u32; COUNT]) -> Result<Sheet, ReadFault>
    ensures { result ≡ sheet_from figures }
{
    if let Some(bad) = fields::first_bad(figures) {
        return Err(ReadFault::BadField(bad));
    }
    Ok(figures::sheet_of(figures))
}

// Any string of bytes as a sheet, or why it is none.
pub fn read(bytes: &[u8]) -> Result<Sheet, ReadFault>
    ensures { result ≡ read_of bytes.now }
{
    if bytes.len() != 28 {
        return Err(ReadFault::WrongLength);
    }
    let parts = bits::split(bytes);
    if parts.spare != 0 {
        return Err(ReadFault::SpareBitSet);
    }
    sheet_from(parts.figures)
}

// Writes a sheet into the first 28 bytes of a place, or says why not and changes nothing.
pub fn write(sheet: Sheet, place: &mut [u8]) -> Result<(), WriteFault>
    ensures { (result ≡ written_of sheet place.old) × (place.new ≡ place_of sheet place.old) }
{
    if place.len() < 28 {
        return Err(WriteFault::PlaceTooSmall);
    }
    let figures = figures_of(sheet);
    if let Some(bad) = fields::first_bad(figures) {
        return Err(WriteFault::BadField(bad));
    }
    bits::join(figures, place);
    Ok(())
}

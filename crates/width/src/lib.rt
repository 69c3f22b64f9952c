// The width of a stretch, in tenths of the beam, and its bends (definition, sections 5 and 6).
#![tactic(auto)]

ghost use Rattle.std.specs.Prelude.{◌≡◌, ◌<◌, ◌^◌};
ghost use Rattle.width.specs.Bands.{water_of, speed_band_of, by◌in-open◌in-sheltered◌, for◌moderate◌slow◌, entries_of};
ghost use Rattle.width.specs.Bends.{least_radius, bend_of, widening_figure};
ghost use Rattle.width.specs.Refusals.{width_fault_number, width_fault_some};
ghost use Rattle.width.specs.Width.{items_of, tenths_of, width_of, lane_and_added};

use datum::{AlongCurrent, BelowLevel, CrossCurrent};
use lanes::Lanes;
use laws::Refusal;

mod additions;
mod bands;
mod bends;

// Open or sheltered water: field 14.
#[derive(Clone, Copy)]
pub enum Water {
    Open,
    Sheltered,
}

// A sheet's figure: 1 is sheltered, and any other, of which a sheet has only 0, is open.
impl From<u8> for Water {
    ghost from_gives = { λ water r. r ≡ water_of water };

    #[tactic(auto, unfolding(crate::specs::Bands::water_of))]
    fn from(water: u8) -> Water {
        match water {
            1 => Water::Sheltered,
            _ => Water::Open,
        }
    }
}

impl Water {
    // What open water takes, or what sheltered water takes.
    fn pick<T: Copy>(self, outside: T, inside: T) -> T
        ensures { result ≡ (by self in-open outside in-sheltered inside) }
    {
        match self {
            Water::Open => outside,
            Water::Sheltered => inside,
        }
    }
}

// From 8 knots on a ship is at moderate speed, under 8 slow.
#[derive(Clone, Copy)]
pub enum SpeedBand {
    Moderate,
    Slow,
}

impl SpeedBand {
    // The band of a speed in knots.
    #[tactic(auto, unfolding(crate::specs::Bands::speed_band_of))]
    fn of(speed: u8) -> SpeedBand
        ensures { result ≡ speed_band_of speed }
    {
        if speed < 8 {
            SpeedBand::Slow
        } else {
            SpeedBand::Moderate
        }
    }

    // A figure written moderate/slow.
    fn pick(self, faster: u8, slower: u8) -> u8
        ensures { result ≡ (for self moderate faster slow slower) }
    {
        match self {
            SpeedBand::Moderate => faster,
            SpeedBand::Slow => slower,
        }
    }
}

// What the tables of bands give before the depth is known: the water, the speed band, and the tenths of cross current and wave.
#[derive(Clone, Copy)]
pub struct Entries {
    pub water: Water,
    pub band: SpeedBand,
    pub cross: u8,
    pub wave: u8,
}

// What else the width of a stretch is worked from: the sheet's fields under the sheet's names, its lanes and its sailing depth s.
#[derive(Clone, Copy)]
pub struct Stretch {
    pub beam: u16,
    pub draft: u16,
    pub handling: u8,
    pub wind: u8,
    pub along: AlongCurrent,
    pub aids: u8,
    pub bottom: u8,
    pub cargo: u8,
    pub left: u8,
    pub right: u8,
    pub ships: u16,
    pub lanes: Lanes,
    pub sailing: BelowLevel,
}

// The items of a width, in tenths of the beam, each one row of the annex; passing and traffic count in two lanes only.
#[derive(Clone, Copy)]
pub struct Items {
    pub lane: u8,
    pub wind: u8,
    pub cross: u8,
    pub along: u8,
    pub wave: u8,
    pub aids: u8,
    pub bed: u8,
    pub depth: u8,
    pub cargo: u8,
    pub banks: u8,
    pub passing: u8,
    pub traffic: u8,
}

// Why a stretch has no width: its bend is too tight, or its cross current or wave has no entry.
#[derive(Clone, Copy)]
pub enum WidthFault {
    BendTooTight,
    NoWidthEntry,
}

impl Refusal for WidthFault {
    ghost number_is = { width_fault_number };

    ghost field_is = { λ _. 0 };

    fn number(self) -> u8 {
        match self {
            WidthFault::BendTooTight => 7,
            WidthFault::NoWidthEntry => 8,
        }
    }

    fn field(self) -> u8 {
        0
    }

    ghost some = { width_fault_some };
}

// The entries of the cross current and the wave, which are known before the depth is.
#[tactic(auto, unfolding(crate::specs::Bands::entries_of))]
pub fn entries_of(
    water: u8,
    speed: u8,
    cross: CrossCurrent,
    wave: u16,
) -> Result<Entries, WidthFault>
    ensures { result ≡ entries_of water speed cross wave }
{
    let water = Water::from(water);
    let band = SpeedBand::of(speed);
    let cross = bands::cross_entry(water, band, cross).ok_or(WidthFault::NoWidthEntry)?;
    let wave = bands::wave_entry(water, band, wave).ok_or(WidthFault::NoWidthEntry)?;
    Ok(Entries {
        water,
        band,
        cross,
        wave,
    })
}

// The items of a stretch with its entries, each by itself.
#[tactic(auto, unfolding(crate::specs::Width::items_of))]
pub fn items_of(stretch: Stretch, entries: Entries) -> Items
    ensures { result ≡ items_of stretch entries }
{
    let water = entries.water;
    let band = entries.band;
    Items {
        lane: additions::lane_item(stretch.handling),
        wind: additions::wind_item(band, stretch.wind),
        cross: entries.cross,
        along: bands::along_item(band, stretch.along),
        wave: entries.wave,
        aids: additions::aids_item(stretch.aids),
        bed: additions::bed_item(stretch.draft, stretch.sailing, stretch.bottom),
        depth: additions::depth_item(water, stretch.draft, stretch.sailing),
        cargo: additions::cargo_item(water, stretch.cargo),
        banks: additions::banks_item(band, stretch.left, stretch.right),
        passing: additions::passing_item(water, band),
        traffic: additions::traffic_item(water, stretch.ships),
    }
}

// The width of a stretch with its entries, in cm: its tenths of the beam, rounded up once.
#[tactic(auto, using(laws::proofs::Rounding::rounded_up), unfolding(crate::specs::Width::width_of))]
pub fn width_of(stretch: Stretch, entries: Entries) -> u32
    ensures value { result ≡ width_of stretch entries }
    ensures small { result < 2 ^ 31 }
{
    let tenths = tenths_of(items_of(stretch, entries), stretch.lanes);
    (tenths as u32 * stretch.beam as u32).div_ceil(10)
}

// The tenths of the beam that the items come to.
#[tactic(auto, unfolding(crate::specs::Width::tenths_of))]
pub fn tenths_of(items: Items, lanes: Lanes) -> u16
    ensures { result ≡ tenths_of lanes items }
{
    let lane = lane_and_added(items);
    match lanes {
        Lanes::One => lane + items.banks as u16,
        Lanes::Two => 2 * lane + items.banks as u16 + items.passing as u16 + items.traffic as u16,
    }
}

// The lane and what is added to it, W.
pub fn lane_and_added(items: Items) -> u16
    ensures { result ≡ lane_and_added items }
{
    items.lane as u16
        + items.wind as u16
        + items.cross as u16
        + items.along as u16
        + items.wave as u16
        + items.aids as u16
        + items.bed as u16
        + items.depth as u16
        + items.cargo as u16
}

// The least whole metres of radius that are not too tight for a turn, by the ship's length in cm.
#[tactic(auto, using(laws::proofs::Rounding::rounded_up), unfolding(crate::specs::Bends::least_radius))]
pub fn least_radius(turn: u8, length: u16) -> u32
    ensures { result ≡ least_radius turn length }
{
    (bends::least_lengths(turn) as u32 * length as u32).div_ceil(100)
}

// What a bend of a turn in degrees and a radius in m asks for, by the ship's length in cm, its speed and the lanes.
#[tactic(auto, unfolding(crate::specs::Bends::bend_of))]
pub fn bend_of(
    turn: u8,
    radius: u16,
    length: u16,
    knots: u8,
    lanes: Lanes,
) -> Result<u32, WidthFault>
    ensures value { result ≡ bend_of turn radius length knots lanes }
    ensures small { widening_figure result < 2 ^ 31 }
{
    if turn == 0 {
        return Ok(0);
    }
    let reach = 100 * radius as u32;
    let ship = length as u32;
    if reach < bends::least_lengths(turn) as u32 * ship {
        return Err(WidthFault::BendTooTight);
    }
    if reach < 10 * ship {
        return Ok(bends::widening(turn, radius, length, knots, lanes));
    }
    Ok(0)
}

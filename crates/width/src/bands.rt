// The bands of currents and waves, line by line as (c), (d) and (e) of annex A of TCVN 9272:2012 (definition, section 5.2).
// A band's lines are moderate then slow, since no sheet has a fast ship; a line has open water, then sheltered; a dash is a blank entry.
ghost use Rattle.std.specs.Prelude.{◌≡◌, Some, None};
ghost use Rattle.width.specs.Bands.{by◌in-open◌in-sheltered◌, cross_entry, along_item, wave_entry};

use crate::{SpeedBand, Water};
use datum::{AlongCurrent, CrossCurrent};

// A line with a figure for open water and a dash for sheltered water.
fn open_only(water: Water, outside: u8) -> Option<u8>
    ensures { result ≡ (by water in-open (Some outside) in-sheltered None) }
{
    water.pick(Some(outside), None)
}

// (c) Cross current, in tenths of a knot: negligible, weak, moderate, strong.
#[tactic(auto, unfolding(crate::specs::Bands::cross_entry))]
pub fn cross_entry(water: Water, band: SpeedBand, cross: CrossCurrent) -> Option<u8>
    ensures { result ≡ cross_entry water band cross }
{
    match cross.0 {
        0..=1 => Some(0),
        2..=5 => match band {
            SpeedBand::Moderate => Some(water.pick(2, 1)),
            SpeedBand::Slow => Some(water.pick(3, 2)),
        },
        6..=15 => match band {
            SpeedBand::Moderate => Some(water.pick(7, 5)),
            SpeedBand::Slow => Some(water.pick(10, 8)),
        },
        _ => match band {
            SpeedBand::Moderate => open_only(water, 10),
            SpeedBand::Slow => open_only(water, 13),
        },
    }
}

// (d) Along current, in tenths of a knot: weak, moderate, strong; each line has one figure in both waters.
#[tactic(auto, unfolding(crate::specs::Bands::along_item))]
pub fn along_item(band: SpeedBand, along: AlongCurrent) -> u8
    ensures { result ≡ along_item band along }
{
    match along.0 {
        0..=14 => 0,
        15..=30 => match band {
            SpeedBand::Moderate => 1,
            SpeedBand::Slow => 2,
        },
        _ => match band {
            SpeedBand::Moderate => 2,
            SpeedBand::Slow => 4,
        },
    }
}

// (e) Wave height, in cm: to 1 m, to 3 m, over 3 m.
#[tactic(auto, unfolding(crate::specs::Bands::wave_entry))]
pub fn wave_entry(water: Water, band: SpeedBand, wave: u16) -> Option<u8>
    ensures { result ≡ wave_entry water band wave }
{
    match wave {
        0..=100 => Some(0),
        101..=300 => match band {
            SpeedBand::Moderate => open_only(water, 10),
            SpeedBand::Slow => open_only(water, 5),
        },
        _ => match band {
            SpeedBand::Moderate => open_only(water, 22),
            SpeedBand::Slow => open_only(water, 15),
        },
    }
}

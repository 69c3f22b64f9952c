// The items of a width but for currents and waves (definition, sections 5.1 to 5.3).
// Handling, aids, bottom, cargo and banks stay numbers: `items_of` takes any figure of a sheet's fields, and an enum would ask more of its callers.
ghost use Rattle.std.specs.Prelude.{◌≡◌, ◌*◌};
ghost use Rattle.laws.specs.Choice.{◌≤ᵇ◌};
ghost use Rattle.width.specs.Additions.{lane_item, wind_item, aids_item, bed_item, depth_item, cargo_item, bank_item, banks_item, passing_item, traffic_item};

use crate::{SpeedBand, Water};
use datum::BelowLevel;

#[tactic(auto, unfolding(crate::specs::Additions::lane_item))]
pub fn lane_item(handling: u8) -> u8
    ensures { result ≡ lane_item handling }
{
    match handling {
        0 => 13,
        1 => 15,
        _ => 18,
    }
}

#[tactic(auto, unfolding(crate::specs::Additions::wind_item))]
pub fn wind_item(band: SpeedBand, wind: u8) -> u8
    ensures { result ≡ wind_item band wind }
{
    match wind {
        0..=14 => 0,
        15..=33 => band.pick(4, 5),
        _ => band.pick(8, 10),
    }
}

#[tactic(auto, unfolding(crate::specs::Additions::aids_item))]
pub fn aids_item(aids: u8) -> u8
    ensures { result ≡ aids_item aids }
{
    match aids {
        0 => 0,
        1 => 1,
        2 => 2,
        _ => 5,
    }
}

// Whether the water is so deep that the bed and the depth take nothing: two depths for three drafts.
fn is_deep(draft: u16, sailing: BelowLevel) -> bool
    ensures { result ≡ (3 * draft ≤ᵇ 2 * sailing.0) }
{
    3 * draft as u32 <= 2 * sailing.0 as u32
}

#[tactic(auto, unfolding(crate::specs::Additions::bed_item))]
pub fn bed_item(draft: u16, sailing: BelowLevel, bottom: u8) -> u8
    ensures { result ≡ bed_item draft sailing bottom }
{
    if is_deep(draft, sailing) {
        return 0;
    }
    match bottom {
        0 | 1 => 1,
        _ => 2,
    }
}

#[tactic(auto, unfolding(crate::specs::Additions::depth_item))]
pub fn depth_item(water: Water, draft: u16, sailing: BelowLevel) -> u8
    ensures { result ≡ depth_item water draft sailing }
{
    if is_deep(draft, sailing) {
        return 0;
    }
    let ship = draft as u32;
    let depth = sailing.0 as u32;
    match water {
        Water::Open => if 5 * ship <= 4 * depth { 1 } else { 2 },
        Water::Sheltered => if 23 * ship <= 20 * depth { 2 } else { 4 },
    }
}

#[tactic(auto, unfolding(crate::specs::Additions::cargo_item))]
pub fn cargo_item(water: Water, cargo: u8) -> u8
    ensures { result ≡ cargo_item water cargo }
{
    match cargo {
        0 => 0,
        1 => water.pick(5, 4),
        _ => water.pick(10, 8),
    }
}

#[tactic(auto, unfolding(crate::specs::Additions::bank_item))]
fn bank_item(band: SpeedBand, bank: u8) -> u8
    ensures { result ≡ bank_item band bank }
{
    match bank {
        0 => band.pick(5, 3),
        _ => band.pick(10, 5),
    }
}

#[tactic(auto, using(crate::proofs::additions::Banks::bank_within), unfolding(crate::specs::Additions::banks_item))]
pub fn banks_item(band: SpeedBand, left: u8, right: u8) -> u8
    ensures { result ≡ banks_item band left right }
{
    bank_item(band, left) + bank_item(band, right)
}

#[tactic(auto, unfolding(crate::specs::Additions::passing_item))]
pub fn passing_item(water: Water, band: SpeedBand) -> u8
    ensures { result ≡ passing_item water band }
{
    water.pick(band.pick(16, 12), band.pick(14, 10))
}

#[tactic(auto, unfolding(crate::specs::Additions::traffic_item))]
pub fn traffic_item(water: Water, ships: u16) -> u8
    ensures { result ≡ traffic_item water ships }
{
    match ships {
        0..=2400 => 0,
        2401..=7200 => 2,
        _ => water.pick(5, 4),
    }
}

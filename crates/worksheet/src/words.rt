// The words of the bands of a width, 24 bytes each: what is shorter ends in spaces (definition, section 15.8).
ghost use Rattle.std.specs.Prelude.{◌≡◌};
ghost use Rattle.worksheet.specs.Words.{handling_words, wind_words, cross_words, along_words, wave_words, aids_words, bed_words, depth_words, cargo_words, banks_words, passing_words, traffic_words, times_words};

use datum::{AlongCurrent, BelowLevel, CrossCurrent};
use lanes::Lanes;
use width::{SpeedBand, Water};

const GOOD_HANDLING: [u8; 24] = *b"good handling           ";

const FAIR_HANDLING: [u8; 24] = *b"fair handling           ";

const POOR_HANDLING: [u8; 24] = *b"poor handling           ";

const LIGHT_WIND: [u8; 24] = *b"under 15 kn             ";

const MIDDLE_WIND: [u8; 24] = *b"15 to 33 kn             ";

const STRONG_WIND: [u8; 24] = *b"over 33 kn              ";

const NEGLIGIBLE_CROSS: [u8; 24] = *b"under 0.2 kn            ";

const WEAK_CROSS: [u8; 24] = *b"0.2 to 0.5 kn           ";

const MIDDLE_CROSS: [u8; 24] = *b"over 0.5 to 1.5 kn      ";

const STRONG_CROSS: [u8; 24] = *b"over 1.5 kn             ";

const WEAK_ALONG: [u8; 24] = *b"under 1.5 kn            ";

const MIDDLE_ALONG: [u8; 24] = *b"1.5 to 3 kn             ";

const STRONG_ALONG: [u8; 24] = *b"over 3 kn               ";

const LOW_WAVE: [u8; 24] = *b"to 1 m                  ";

const MIDDLE_WAVE: [u8; 24] = *b"over 1 to 3 m           ";

const HIGH_WAVE: [u8; 24] = *b"over 3 m                ";

const COMPLETE_AIDS: [u8; 24] = *b"complete                ";

const GOOD_AIDS: [u8; 24] = *b"good                    ";

const MIDDLE_AIDS: [u8; 24] = *b"middle                  ";

const POOR_AIDS: [u8; 24] = *b"poor                    ";

const DEEP: [u8; 24] = *b"s from 1.5 drafts on    ";

const SOFT_BED: [u8; 24] = *b"soft                    ";

const SMOOTH_BED: [u8; 24] = *b"hard, smooth            ";

const ROUGH_BED: [u8; 24] = *b"hard, rough             ";

const OPEN_MIDDLE: [u8; 24] = *b"s from 1.25 drafts on   ";

const OPEN_SHALLOW: [u8; 24] = *b"s under 1.25 drafts     ";

const SHELTERED_MIDDLE: [u8; 24] = *b"s from 1.15 drafts on   ";

const SHELTERED_SHALLOW: [u8; 24] = *b"s under 1.15 drafts     ";

const LOW_DANGER: [u8; 24] = *b"low danger              ";

const MIDDLE_DANGER: [u8; 24] = *b"middle danger           ";

const HIGH_DANGER: [u8; 24] = *b"high danger             ";

const SLOPING_SLOPING: [u8; 24] = *b"sloping, sloping        ";

const SLOPING_STEEP: [u8; 24] = *b"sloping, steep          ";

const STEEP_SLOPING: [u8; 24] = *b"steep, sloping          ";

const STEEP_STEEP: [u8; 24] = *b"steep, steep            ";

const MODERATE_SPEED: [u8; 24] = *b"moderate speed          ";

const SLOW_SPEED: [u8; 24] = *b"slow speed              ";

const LITTLE_TRAFFIC: [u8; 24] = *b"to 1 ship an hour       ";

const MIDDLE_TRAFFIC: [u8; 24] = *b"over 1 to 3 an hour     ";

const GREAT_TRAFFIC: [u8; 24] = *b"over 3 an hour          ";

const ONCE: [u8; 24] = *b"once                    ";

const TWICE: [u8; 24] = *b"twice                   ";

#[tactic(auto, unfolding(crate::specs::Words::handling_words))]
pub fn handling_words(handling: u8) -> [u8; 24]
    ensures { result ≡ handling_words handling }
{
    match handling {
        0 => GOOD_HANDLING,
        1 => FAIR_HANDLING,
        _ => POOR_HANDLING,
    }
}

#[tactic(auto, unfolding(crate::specs::Words::wind_words))]
pub fn wind_words(wind: u8) -> [u8; 24]
    ensures { result ≡ wind_words wind }
{
    match wind {
        0..=14 => LIGHT_WIND,
        15..=33 => MIDDLE_WIND,
        _ => STRONG_WIND,
    }
}

#[tactic(auto, unfolding(crate::specs::Words::cross_words))]
pub fn cross_words(cross: CrossCurrent) -> [u8; 24]
    ensures { result ≡ cross_words cross }
{
    match cross.0 {
        0..=1 => NEGLIGIBLE_CROSS,
        2..=5 => WEAK_CROSS,
        6..=15 => MIDDLE_CROSS,
        _ => STRONG_CROSS,
    }
}

#[tactic(auto, unfolding(crate::specs::Words::along_words))]
pub fn along_words(along: AlongCurrent) -> [u8; 24]
    ensures { result ≡ along_words along }
{
    match along.0 {
        0..=14 => WEAK_ALONG,
        15..=30 => MIDDLE_ALONG,
        _ => STRONG_ALONG,
    }
}

#[tactic(auto, unfolding(crate::specs::Words::wave_words))]
pub fn wave_words(wave: u16) -> [u8; 24]
    ensures { result ≡ wave_words wave }
{
    match wave {
        0..=100 => LOW_WAVE,
        101..=300 => MIDDLE_WAVE,
        _ => HIGH_WAVE,
    }
}

#[tactic(auto, unfolding(crate::specs::Words::aids_words))]
pub fn aids_words(aids: u8) -> [u8; 24]
    ensures { result ≡ aids_words aids }
{
    match aids {
        0 => COMPLETE_AIDS,
        1 => GOOD_AIDS,
        2 => MIDDLE_AIDS,
        _ => POOR_AIDS,
    }
}

#[tactic(auto, unfolding(crate::specs::Words::bed_words))]
pub fn bed_words(draft: u16, sailing: BelowLevel, bottom: u8) -> [u8; 24]
    ensures { result ≡ bed_words draft sailing bottom }
{
    if 3 * u32::from(draft) <= 2 * u32::from(sailing.0) {
        return DEEP;
    }
    match bottom {
        0 => SOFT_BED,
        1 => SMOOTH_BED,
        _ => ROUGH_BED,
    }
}

#[tactic(auto, unfolding(crate::specs::Words::depth_words))]
pub fn depth_words(water: Water, draft: u16, sailing: BelowLevel) -> [u8; 24]
    ensures { result ≡ depth_words water draft sailing }
{
    let ship = u32::from(draft);
    let depth = u32::from(sailing.0);
    if 3 * ship <= 2 * depth {
        return DEEP;
    }
    match water {
        Water::Open if 5 * ship <= 4 * depth => OPEN_MIDDLE,
        Water::Open => OPEN_SHALLOW,
        Water::Sheltered if 23 * ship <= 20 * depth => SHELTERED_MIDDLE,
        Water::Sheltered => SHELTERED_SHALLOW,
    }
}

#[tactic(auto, unfolding(crate::specs::Words::cargo_words))]
pub fn cargo_words(cargo: u8) -> [u8; 24]
    ensures { result ≡ cargo_words cargo }
{
    match cargo {
        0 => LOW_DANGER,
        1 => MIDDLE_DANGER,
        _ => HIGH_DANGER,
    }
}

#[tactic(auto, unfolding(crate::specs::Words::banks_words))]
pub fn banks_words(left: u8, right: u8) -> [u8; 24]
    ensures { result ≡ banks_words left right }
{
    match (left, right) {
        (0, 0) => SLOPING_SLOPING,
        (0, _) => SLOPING_STEEP,
        (_, 0) => STEEP_SLOPING,
        _ => STEEP_STEEP,
    }
}

pub fn passing_words(band: SpeedBand) -> [u8; 24]
    ensures { result ≡ passing_words band }
{
    match band {
        SpeedBand::Moderate => MODERATE_SPEED,
        SpeedBand::Slow => SLOW_SPEED,
    }
}

#[tactic(auto, unfolding(crate::specs::Words::traffic_words))]
pub fn traffic_words(ships: u16) -> [u8; 24]
    ensures { result ≡ traffic_words ships }
{
    match ships {
        0..=2400 => LITTLE_TRAFFIC,
        2401..=7200 => MIDDLE_TRAFFIC,
        _ => GREAT_TRAFFIC,
    }
}

pub fn times_words(lanes: Lanes) -> [u8; 24]
    ensures { result ≡ times_words lanes }
{
    match lanes {
        Lanes::One => ONCE,
        Lanes::Two => TWICE,
    }
}

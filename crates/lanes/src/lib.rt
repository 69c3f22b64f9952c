// Lanes: one or two, as the sheet names them or by the traffic (definition, section 3).
#![tactic(auto)]

ghost use Rattle.std.specs.Prelude.{◌≡◌};
ghost use Rattle.lanes.specs.Lanes.{lane_count, lanes_of, by_traffic, sides_of};

#[derive(Clone, Copy)]
pub enum Lanes {
    One,
    Two,
}

// The two sides of the rule by the traffic.
#[derive(Clone, Copy)]
pub struct Sides {
    pub traffic: u64,
    pub limit: u64,
}

// How many lanes: one or two.
pub fn lane_count(lanes: Lanes) -> u8
    ensures { result ≡ lane_count lanes }
{
    match lanes {
        Lanes::One => 1,
        Lanes::Two => 2,
    }
}

// One lane while the channel's length times the ships stays under this many times the knots.
const TRAFFIC: u64 = 4444800;

// The lanes of a channel: those that are named, else by its length in m, its ships a day in hundredths and their speed in knots.
#[tactic(auto, unfolding(crate::specs::Lanes::lanes_of))]
pub fn lane_rule(named: u8, channel: u32, ships: u16, knots: u8) -> Lanes
    ensures { result ≡ lanes_of named channel ships knots }
{
    match named {
        1 => Lanes::One,
        2 => Lanes::Two,
        _ => by_traffic(channel, ships, knots),
    }
}

// The lanes where none are named.
#[tactic(auto, unfolding(crate::specs::Lanes::by_traffic, crate::specs::Lanes::sides_of))]
fn by_traffic(channel: u32, ships: u16, knots: u8) -> Lanes
    ensures { result ≡ by_traffic channel ships knots }
{
    let sides = sides_of(channel, ships, knots);
    if sides.traffic < sides.limit {
        Lanes::One
    } else {
        Lanes::Two
    }
}

// The channel's length times its ships, and what that must stay under for one lane.
#[tactic(auto, unfolding(crate::specs::Lanes::sides_of))]
pub fn sides_of(channel: u32, ships: u16, knots: u8) -> Sides
    ensures { result ≡ sides_of channel ships knots }
{
    Sides {
        traffic: u64::from(channel) * u64::from(ships),
        limit: TRAFFIC * u64::from(knots),
    }
}

// The classes of a ship, a width and a depth, 0 special to 4, and the route's (definition, section 7).
#![tactic(auto)]

ghost use Rattle.std.specs.Prelude.{◌≡◌, []};
ghost use Rattle.class.specs.Classes.{class_by, ship_class, width_class, depth_class, classes_of, limits_by, ship_limits, width_limits, depth_limits, with_ship, route_class};

use datum::BelowLevel;
use lanes::Lanes;

// The three classes of a stretch.
#[derive(Clone, Copy)]
pub struct Classes {
    pub ship: u8,
    pub width: u8,
    pub depth: u8,
}

// The limits around a figure: that of its class, which it has passed, and that of the next better class.
#[derive(Clone, Copy)]
pub struct Limits {
    pub passed: Option<u32>,
    pub next: Option<u32>,
}

// The figures from which classes 0 to 3 count; under the last is class 4.
#[derive(Clone, Copy)]
struct Steps {
    special: u32,
    first: u32,
    second: u32,
    third: u32,
}

// Of the deadweight in t.
const SHIP: Steps = Steps {
    special: 40000,
    first: 20000,
    second: 10000,
    third: 5000,
};

// Of the width without widening, in cm.
const WIDTH_ONE: Steps = Steps {
    special: 11000,
    first: 9000,
    second: 7000,
    third: 5000,
};

const WIDTH_TWO: Steps = Steps {
    special: 24000,
    first: 20000,
    second: 16000,
    third: 12000,
};

// Of the sailing depth, in cm.
const DEPTH: Steps = Steps {
    special: 1400,
    first: 1100,
    second: 900,
    third: 800,
};

impl Steps {
    // The class of a figure.
    #[tactic(auto, unfolding(crate::specs::Classes::class_by))]
    fn class(self, figure: u32) -> u8
        ensures { result ≡ class_by self.special self.first self.second self.third figure }
    {
        if self.special <= figure {
            0
        } else if self.first <= figure {
            1
        } else if self.second <= figure {
            2
        } else if self.third <= figure {
            3
        } else {
            4
        }
    }

    // The limits around a figure.
    #[tactic(auto, unfolding(crate::specs::Classes::limits_by))]
    fn limits(self, figure: u32) -> Limits
        ensures { result ≡ limits_by self.special self.first self.second self.third figure }
    {
        let (passed, next) = if self.special <= figure {
            (Some(self.special), None)
        } else if self.first <= figure {
            (Some(self.first), Some(self.special))
        } else if self.second <= figure {
            (Some(self.second), Some(self.first))
        } else if self.third <= figure {
            (Some(self.third), Some(self.second))
        } else {
            (None, Some(self.third))
        };
        Limits { passed, next }
    }
}

// By the deadweight in t.
pub fn ship_class(deadweight: u32) -> u8
    ensures { result ≡ ship_class deadweight }
{
    SHIP.class(deadweight)
}

// By the width without widening, in cm.
pub fn width_class(width: u32, lanes: Lanes) -> u8
    ensures { result ≡ width_class lanes width }
{
    match lanes {
        Lanes::One => WIDTH_ONE.class(width),
        Lanes::Two => WIDTH_TWO.class(width),
    }
}

// By the sailing depth.
pub fn depth_class(sailing: BelowLevel) -> u8
    ensures { result ≡ depth_class sailing }
{
    DEPTH.class(u32::from(sailing.0))
}

// The classes of a stretch: by the deadweight in t, the width without widening in its lanes, and the sailing depth.
pub fn classes_of(deadweight: u32, width: u32, lanes: Lanes, sailing: BelowLevel) -> Classes
    ensures { result ≡ classes_of deadweight width lanes sailing }
{
    Classes {
        ship: ship_class(deadweight),
        width: width_class(width, lanes),
        depth: depth_class(sailing),
    }
}

// Of the deadweight in t.
pub fn ship_limits(deadweight: u32) -> Limits
    ensures { result ≡ ship_limits deadweight }
{
    SHIP.limits(deadweight)
}

// Of the width without widening, in cm.
pub fn width_limits(width: u32, lanes: Lanes) -> Limits
    ensures { result ≡ width_limits lanes width }
{
    match lanes {
        Lanes::One => WIDTH_ONE.limits(width),
        Lanes::Two => WIDTH_TWO.limits(width),
    }
}

// Of the sailing depth.
pub fn depth_limits(sailing: BelowLevel) -> Limits
    ensures { result ≡ depth_limits sailing }
{
    DEPTH.limits(u32::from(sailing.0))
}

// The class of a route none of whose stretches is answered.
pub fn none_answered() -> u8
    ensures { result ≡ route_class [] }
{
    5
}

// The class of a route with one more answered stretch, of the given ship class.
#[tactic(auto, unfolding(crate::specs::Classes::with_ship))]
pub fn route_class(route: u8, ship: u8) -> u8
    ensures { result ≡ with_ship route ship }
{
    ship.min(route)
}

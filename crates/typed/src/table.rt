// The rows of the typed sheet, a row a field: name, kind, unit and words (definition, section 14.2).
ghost use Rattle.std.specs.Prelude.{◌≡◌};
ghost use Rattle.typed.specs.Rows.{row_at, values_of};

use crate::{COUNT, Kind, LEVEL};
use sheet::Range;

// A name, how the figure is typed, the unit, and the words of its codes, 16 bytes each. What is shorter ends in spaces: the places are
// those of the definition, and what is promised of a line speaks of them.
#[derive(Clone, Copy)]
pub struct Row {
    pub name: [u8; 16],
    pub kind: Kind,
    pub unit: [u8; 16],
    pub words: [u8; 96],
}

const NONE: [u8; 16] = *b"                ";

const NO_WORDS: [u8; 96] = [b' '; 96];

const NO_ROW: Row = Row {
    name: NONE,
    kind: Kind::Whole,
    unit: NONE,
    words: NO_WORDS,
};

const DEADWEIGHT: Row = Row {
    name: *b"deadweight      ",
    kind: Kind::Whole,
    unit: *b"t               ",
    words: NO_WORDS,
};

const DRAFT: Row = Row {
    name: *b"draft           ",
    kind: Kind::Whole,
    unit: *b"cm              ",
    words: NO_WORDS,
};

const LENGTH: Row = Row {
    name: *b"length          ",
    kind: Kind::Whole,
    unit: *b"cm              ",
    words: NO_WORDS,
};

const BEAM: Row = Row {
    name: *b"beam            ",
    kind: Kind::Whole,
    unit: *b"cm              ",
    words: NO_WORDS,
};

const SPEED: Row = Row {
    name: *b"speed           ",
    kind: Kind::Whole,
    unit: *b"kn              ",
    words: NO_WORDS,
};

const NATURAL_BED: Row = Row {
    name: *b"natural-bed     ",
    kind: Kind::Whole,
    unit: *b"cm              ",
    words: NO_WORDS,
};

const SOIL: Row = Row {
    name: *b"soil            ",
    kind: Kind::Words,
    unit: NONE,
    words: *b"mud             deposited       dense           grade-3                                         ",
};

const WAVE_ALLOWANCE: Row = Row {
    name: *b"wave-allowance  ",
    kind: Kind::Whole,
    unit: *b"cm              ",
    words: NO_WORDS,
};

const SILTING: Row = Row {
    name: *b"silting         ",
    kind: Kind::Whole,
    unit: *b"per-mille/yr    ",
    words: NO_WORDS,
};

const INTERVAL: Row = Row {
    name: *b"interval        ",
    kind: Kind::Words,
    unit: *b"yr              ",
    words: *b"0.25            0.33            0.50            1.00            2.00            3.00            ",
};

const LANES: Row = Row {
    name: *b"lanes           ",
    kind: Kind::Words,
    unit: NONE,
    words: *b"by-traffic      one             two                                                             ",
};

const CHANNEL_LENGTH: Row = Row {
    name: *b"channel-length  ",
    kind: Kind::Whole,
    unit: *b"m               ",
    words: NO_WORDS,
};

const SHIPS: Row = Row {
    name: *b"ships           ",
    kind: Kind::Hundredths,
    unit: *b"/day            ",
    words: NO_WORDS,
};

const WATER: Row = Row {
    name: *b"water           ",
    kind: Kind::Words,
    unit: NONE,
    words: *b"open            sheltered                                                                       ",
};

const HANDLING: Row = Row {
    name: *b"handling        ",
    kind: Kind::Words,
    unit: NONE,
    words: *b"good            fair            poor                                                            ",
};

const CROSS_WIND: Row = Row {
    name: *b"cross-wind      ",
    kind: Kind::Whole,
    unit: *b"kn              ",
    words: NO_WORDS,
};

const CROSS_CURRENT: Row = Row {
    name: *b"cross-current   ",
    kind: Kind::Tenths,
    unit: *b"kn              ",
    words: NO_WORDS,
};

const ALONG_CURRENT: Row = Row {
    name: *b"along-current   ",
    kind: Kind::Tenths,
    unit: *b"kn              ",
    words: NO_WORDS,
};

const WAVE_HEIGHT: Row = Row {
    name: *b"wave-height     ",
    kind: Kind::Whole,
    unit: *b"cm              ",
    words: NO_WORDS,
};

const AIDS: Row = Row {
    name: *b"aids            ",
    kind: Kind::Words,
    unit: NONE,
    words: *b"complete        good            middle          poor                                            ",
};

const BOTTOM: Row = Row {
    name: *b"bottom          ",
    kind: Kind::Words,
    unit: NONE,
    words: *b"soft            hard-smooth     hard-rough                                                      ",
};

const CARGO: Row = Row {
    name: *b"cargo           ",
    kind: Kind::Words,
    unit: NONE,
    words: *b"low-danger      middle-danger   high-danger                                                     ",
};

const LEFT_BANK: Row = Row {
    name: *b"left-bank       ",
    kind: Kind::Words,
    unit: NONE,
    words: *b"sloping         steep                                                                           ",
};

const RIGHT_BANK: Row = Row {
    name: *b"right-bank      ",
    kind: Kind::Words,
    unit: NONE,
    words: *b"sloping         steep                                                                           ",
};

const TURN: Row = Row {
    name: *b"turn            ",
    kind: Kind::Whole,
    unit: *b"deg             ",
    words: NO_WORDS,
};

const RADIUS: Row = Row {
    name: *b"radius          ",
    kind: Kind::Whole,
    unit: *b"m               ",
    words: NO_WORDS,
};

const LEVEL_ROW: Row = Row {
    name: *b"level           ",
    kind: Kind::Level,
    unit: *b"cm              ",
    words: NO_WORDS,
};

const SIDE_SLOPE: Row = Row {
    name: *b"side-slope      ",
    kind: Kind::Whole,
    unit: *b"m/m             ",
    words: NO_WORDS,
};

// The row after the first i; past them one with no name.
pub fn row_at(i: usize) -> Row
    ensures { result ≡ row_at i }
{
    match i {
        0 => DEADWEIGHT,
        1 => DRAFT,
        2 => LENGTH,
        3 => BEAM,
        4 => SPEED,
        5 => NATURAL_BED,
        6 => SOIL,
        7 => WAVE_ALLOWANCE,
        8 => SILTING,
        9 => INTERVAL,
        10 => LANES,
        11 => CHANNEL_LENGTH,
        12 => SHIPS,
        13 => WATER,
        14 => HANDLING,
        15 => CROSS_WIND,
        16 => CROSS_CURRENT,
        17 => ALONG_CURRENT,
        18 => WAVE_HEIGHT,
        19 => AIDS,
        20 => BOTTOM,
        21 => CARGO,
        22 => LEFT_BANK,
        23 => RIGHT_BANK,
        24 => TURN,
        25 => RADIUS,
        26 => LEVEL_ROW,
        27 => SIDE_SLOPE,
        _ => NO_ROW,
    }
}

// The least and the greatest figure of the row after the first i. The level's is 0 off the record, or one more than its field 28.
pub fn values_of(i: usize) -> Range
    ensures { result ≡ values_of i }
{
    if i < LEVEL {
        return sheet::range_of(i);
    }
    if i == LEVEL {
        return Range {
            least: 0,
            greatest: 2001,
        };
    }
    if i < COUNT {
        return sheet::range_of(i + 1);
    }
    Range {
        least: 0,
        greatest: 0,
    }
}

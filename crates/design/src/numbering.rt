// The numbers of a design: code, field and figures (definition, sections 8 and 10).
ghost use Rattle.std.specs.Prelude.{◌≡◌};
ghost use Rattle.design.specs.Numbers.{answered_numbers, refused_numbers};

use crate::{COUNT, Figures};

// The number, the field, and zeros.
pub fn refused(number: u8, field: u8) -> [i32; COUNT]
    ensures { result ≡ refused_numbers number field }
{
    let mut numbers = [0i32; COUNT];
    numbers[0] = i32::from(number);
    numbers[1] = i32::from(field);
    numbers
}

pub fn answered(f: Figures) -> [i32; COUNT]
    ensures { result ≡ answered_numbers f }
{
    [
        0,
        0,
        f.level.above_chart(),
        i32::from(lanes::lane_count(f.lanes)),
        i32::from(f.sailing.0),
        i32::from(f.cut.0),
        f.datum.0,
        f.width,
        f.widening,
        i32::from(f.columns),
        i32::from(f.classes.ship),
        i32::from(f.classes.width),
        i32::from(f.classes.depth),
    ]
}

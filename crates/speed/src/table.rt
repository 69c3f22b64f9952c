// Table 2a of document 001: critical speeds in tenths of a metre a second (definition, section 13.1).
ghost use Rattle.std.specs.Prelude.{◌≡◌, ◌≤◌};
ghost use Rattle.speed.specs.Table.{full_row, entry, point_of};
ghost use Rattle.speed.specs.Lines.{parts_of};

// The mark of a dash, as the table is written: no entry of it is 0.
const DASH: u8 = 0;

// V', of shallow water, at depths of 4 to 16 m.
pub const SHALLOW: [u8; 13] = [46, 51, 56, 61, 65, 69, 73, 76, 80, 83, 86, 89, 92];

// V'', of a full section, at depths of 4 to 16 m: by the bottom width, and the side slope.
const FULL: [[u8; 13]; 15] = [
    [37, 38, 38, 38, 39, 39, 39, 39, 39, 39, 40, 41, 41], // 50 m, 1/4
    [38, 41, 41, 43, 45, 45, 47, 47, 47, 47, 48, 49, 49], // 1/8
    [39, 43, 44, 46, 48, 50, 50, 50, 50, 52, 54, 55, 56], // 1/12
    [45, 45, 45, 47, 49, 50, 50, 50, 50, 51, 52, 53, 53], // 100 m, 1/4
    [45, 46, 48, 50, 53, 54, 55, 55, 55, 56, 57, 57, 58], // 1/8
    [46, 49, 51, 55, 57, 58, 61, 61, 61, 61, 61, 61, 62], // 1/12
    [DASH, 51, 51, 52, 56, 57, 58, 58, 58, 59, 60, 60, 60], // 150 m, 1/4
    [DASH, DASH, 53, 54, 57, 59, 61, 62, 62, 62, 62, 63, 64], // 1/8
    [DASH, DASH, 55, 56, 60, 61, 64, 65, 65, 67, 67, 68, 68], // 1/12
    [DASH, DASH, 55, 57, 59, 62, 64, 64, 64, 64, 64, 65, 65], // 200 m, 1/4
    [DASH, DASH, 56, 58, 60, 64, 64, 65, 66, 67, 68, 69, 70], // 1/8
    [DASH, DASH, DASH, 59, 62, 65, 68, 67, 69, 70, 72, 73, 74], // 1/12
    [DASH, DASH, DASH, 60, 63, 65, 66, 67, 67, 68, 69, 69, 70], // 250 m, 1/4
    [DASH, DASH, DASH, 61, 64, 66, 67, 68, 70, 71, 73, 73, 73], // 1/8
    [DASH, DASH, DASH, DASH, 65, 68, 69, 70, 72, 73, 75, 76, 77], // 1/12
];

// What stands outside the table: the definition's row there has dashes, so it is no Option.
const DASHES: [u8; 13] = [DASH; 13];

// The row of a width, in lines of 50 m, and a slope, in lines of 4.
#[tactic(auto, unfolding(crate::specs::Table::full_row))]
pub fn full_row(width: u32, slope: u32) -> [u8; 13]
    ensures { result ≡ full_row width slope }
{
    match (width, slope) {
        (1..=5, 1..=3) => FULL[(3 * (width - 1) + (slope - 1)) as usize],
        _ => DASHES,
    }
}

// What stands in the table, as a speed: a dash is none.
#[tactic(auto, unfolding(crate::specs::Table::entry))]
fn entered(figure: u8) -> Option<u64>
    ensures { (result ≡ entry figure) × (parts_of result ≤ 255) }
{
    match figure {
        DASH => None,
        _ => Some(figure as u64),
    }
}

// The point of a row at a depth in whole metres.
#[tactic(auto, unfolding(crate::specs::Table::point_of))]
pub fn point_of(row: [u8; 13], metres: u32) -> Option<u64>
    ensures { (result ≡ point_of row metres) × (parts_of result ≤ 255) }
{
    match metres {
        4..=16 => entered(row[metres as usize - 4]),
        _ => None,
    }
}

// Why a sheet is turned away, and what it would need to pass (definition, section 15.12).
ghost use Rattle.std.specs.Prelude.{◌≡◌, ◌+◌, ◌*◌, ◌≤◌, ◌<◌, length};
ghost use Rattle.lines.specs.Lines.{Put};
ghost use Rattle.worksheet.specs.Refusals.{row_of_field, values_of_field, may_hold, field_note, bad_field, no_sheet_text, no_ship_text, no_level_text, no_width_text, silt_text, no_cut_text, no_depth_text, too_fast_text, no_speed_text};

use crate::filling;
use blanks::Figure;
use datum::CrossCurrent;
use depth::{DepthFault, Try};
use gauge::{LevelFault, LevelSteps};
use lines::fitting;
use sheet::{Range, ReadFault};
use speed::{Section, SpeedFault};
use width::WidthFault;

// The row of a field, by how many stand before it.
#[tactic(auto, unfolding(crate::specs::Refusals::row_of_field))]
fn row_of_field(field: u8) -> usize
    ensures { (result ≡ row_of_field field) × (result < 28) }
{
    match field {
        0 => 0,
        1..=26 => field as usize - 1,
        27..=28 => typed::LEVEL,
        _ => typed::LEVEL + 1,
    }
}

// The least and the greatest figure of its row; a level's are those that are given.
#[tactic(auto, unfolding(crate::specs::Refusals::values_of_field))]
fn values_of_field(field: u8) -> Range
    ensures { result ≡ values_of_field field }
{
    if row_of_field(field) == typed::LEVEL {
        return Range {
            least: 1,
            greatest: 2001,
        };
    }
    sheet::range_of((field as usize).saturating_sub(1))
}

// What a field may hold.
fn put_may_hold(field: u8, buffer: &mut [u8], at: usize) -> usize
    requires { at + 200 ≤ length buffer.old }
    ensures { Put buffer.old at (may_hold field) buffer.new result × (result ≤ at + 200) }
{
    let row = row_of_field(field);
    let values = values_of_field(field);
    let first = filling::put_line(row, values.least, buffer, at);
    let second = fitting::put(b" .. ", buffer, first);
    let last = filling::put_line(row, values.greatest, buffer, second);
    fitting::put(b"\n", buffer, last)
}

// What else makes a field bad.
#[tactic(auto, using(lines::proofs::putting::Placing::put_none), unfolding(crate::specs::Refusals::field_note))]
fn put_field_note(field: u8, buffer: &mut [u8], at: usize) -> usize
    requires { at + 50 ≤ length buffer.old }
    ensures { Put buffer.old at (field_note field) buffer.new result × (result ≤ at + 50) }
{
    match field {
        26 => fitting::put(b"  turn and radius are both 0, or neither\n", buffer, at),
        28 => fitting::put(b"  a level off the record has no figure\n", buffer, at),
        _ => at,
    }
}

fn put_bad_field(field: u8, buffer: &mut [u8], at: usize) -> usize
    requires { at + 760 ≤ length buffer.old }
    ensures { Put buffer.old at (bad_field field) buffer.new result × (result ≤ at + 760) }
{
    let head = filling::put(
        b"REFUSED 3: field %0 is bad\n  it may hold ",
        &[Figure::Count(u64::from(field))],
        buffer,
        at,
    );
    let range = put_may_hold(field, buffer, head);
    put_field_note(field, buffer, range)
}

// 1, 2 and 3, of so many bytes.
pub fn put_no_sheet(fault: ReadFault, bytes: usize, buffer: &mut [u8], at: usize) -> usize
    requires { at + 800 ≤ length buffer.old }
    ensures { Put buffer.old at (no_sheet_text fault bytes) buffer.new result × (result ≤ at + 800) }
{
    match fault {
        ReadFault::WrongLength => filling::put(
            b"REFUSED 1: not 28 bytes\n  there are %0\n",
            &[Figure::Count(bytes as u64)],
            buffer,
            at,
        ),
        ReadFault::SpareBitSet => fitting::put(
            b"REFUSED 2: a spare bit is set\n  the last 7 bits of a sheet are 0\n",
            buffer,
            at,
        ),
        ReadFault::BadField(field) => put_bad_field(field, buffer, at),
    }
}

// 18.
#[tactic(auto, unfolding(crate::specs::Refusals::no_ship_text))]
pub fn put_no_ship(ship: u16, beam: u16, buffer: &mut [u8], at: usize) -> usize
    requires { at + 1400 ≤ length buffer.old }
    ensures { Put buffer.old at (no_ship_text ship beam) buffer.new result × (result ≤ at + 1400) }
{
    filling::put(
        b"REFUSED 18: the length is under three beams\n  length %0 cm, three beams %0 cm: they may have changed places\n",
        &[
            Figure::Count(u64::from(ship)),
            Figure::Count(u64::from(3 * (beam as u32))),
        ],
        buffer,
        at,
    )
}

// 4, 5 and 6.
pub fn put_no_level(fault: LevelFault, steps: LevelSteps, buffer: &mut [u8], at: usize) -> usize
    requires { at + 1400 ≤ length buffer.old }
    ensures { Put buffer.old at (no_level_text fault steps) buffer.new result × (result ≤ at + 1400) }
{
    match fault {
        LevelFault::WrongTable => fitting::put(
            b"REFUSED 4: a slot of the record is over its limit\n  a slot holds at most 1000000 readings\n",
            buffer,
            at,
        ),
        LevelFault::TooFewReadings => filling::put(
            b"REFUSED 5: under 26280 readings in the record\n  it has %0\n",
            &[Figure::Count(steps.readings)],
            buffer,
            at,
        ),
        LevelFault::RangeTooWide => filling::put(
            b"REFUSED 6: the range D of the levels is over 140 cm\n  D is %0 cm; the procedure asks for an economic study\n",
            &[Figure::Count(u64::from(steps.range))],
            buffer,
            at,
        ),
    }
}

// 7 and 8.
pub fn put_no_width(
    fault: WidthFault,
    least: u32,
    radius: u16,
    cross: CrossCurrent,
    wave: u16,
    buffer: &mut [u8],
    at: usize,
) -> usize
    requires { at + 2000 ≤ length buffer.old }
    ensures { Put buffer.old at (no_width_text fault least radius cross wave) buffer.new result × (result ≤ at + 2000) }
{
    match fault {
        WidthFault::BendTooTight => filling::put(
            b"REFUSED 7: the bend is too tight\n  the least radius is %0 m; the sheet has %0 m\n",
            &[
                Figure::Count(u64::from(least)),
                Figure::Count(u64::from(radius)),
            ],
            buffer,
            at,
        ),
        WidthFault::NoWidthEntry => filling::put(
            b"REFUSED 8: no width entry\n  sheltered water has entries to 1.5 kn across and waves of 100 cm\n  the sheet has %0.%0 kn across and waves of %0 cm\n",
            &[
                Figure::Count(u64::from(cross.0 / 10)),
                Figure::Count(u64::from(cross.0 % 10)),
                Figure::Count(u64::from(wave)),
            ],
            buffer,
            at,
        ),
    }
}

// 14: over 120, or without end.
fn put_silt(last: Try, filling: u64, buffer: &mut [u8], at: usize) -> usize
    requires { at + 1300 ≤ length buffer.old }
    ensures { Put buffer.old at (silt_text last filling) buffer.new result × (result ≤ at + 1300) }
{
    if last.silt < depth::ENDLESS {
        return filling::put(
            b"REFUSED 14: no depth, as silt is over 120 cm\n  in column %0 it comes to %0 cm\n",
            &[filling::letter(last.column), Figure::Count(last.silt)],
            buffer,
            at,
        );
    }
    filling::put(
        b"REFUSED 14: no depth, as all that is dug silts up\n  silting x interval is %0; under 100000 is needed\n",
        &[Figure::Count(filling)],
        buffer,
        at,
    )
}

// 13, 14 and 15, by the last try.
fn put_no_cut(
    fault: DepthFault,
    last: Try,
    knots: u8,
    filling: u64,
    buffer: &mut [u8],
    at: usize,
) -> usize
    requires { at + 1400 ≤ length buffer.old }
    ensures { Put buffer.old at (no_cut_text fault last knots filling) buffer.new result × (result ≤ at + 1400) }
{
    match fault {
        DepthFault::NoSquatEntry => filling::put(
            b"REFUSED 13: no depth, as a column has no squat entry\n  column %0 has entries up to %0 kn; the sheet has %0 kn\n",
            &[
                filling::letter(last.column),
                Figure::Count(u64::from(depth::fastest_entry(last.column))),
                Figure::Count(u64::from(knots)),
            ],
            buffer,
            at,
        ),
        DepthFault::SiltOver => put_silt(last, filling, buffer, at),
        DepthFault::CutOver => filling::put(
            b"REFUSED 15: no depth, as a cut is over 3000 cm\n  in column %0 it comes to %0 cm\n",
            &[filling::letter(last.column), Figure::Count(last.figure.0)],
            buffer,
            at,
        ),
    }
}

pub fn put_no_depth(
    fault: DepthFault,
    stretch: depth::Stretch,
    buffer: &mut [u8],
    at: usize,
) -> usize
    requires { at + 1400 ≤ length buffer.old }
    ensures { Put buffer.old at (no_depth_text fault stretch) buffer.new result × (result ≤ at + 1400) }
{
    let last = depth::fill_worksheet(stretch).last();
    let filling = u64::from(stretch.silting) * u64::from(stretch.interval);
    put_no_cut(fault, last, stretch.speed, filling, buffer, at)
}

// 17.
fn put_too_fast(fastest: Option<u64>, knots: u8, buffer: &mut [u8], at: usize) -> usize
    requires { at + 1300 ≤ length buffer.old }
    ensures { Put buffer.old at (too_fast_text fastest knots) buffer.new result × (result ≤ at + 1300) }
{
    let Some(hundredths) = fastest else {
        return at;
    };
    filling::put(
        b"REFUSED 17: the ship is too fast\n  nine tenths of the critical speed: %0.%0%0 kn; the sheet has %0 kn\n",
        &[
            Figure::Count(hundredths / 100),
            Figure::Count(hundredths / 10 % 10),
            Figure::Count(hundredths % 10),
            Figure::Count(u64::from(knots)),
        ],
        buffer,
        at,
    )
}

// 16 and 17.
pub fn put_no_speed(
    fault: SpeedFault,
    section: Section,
    knots: u8,
    buffer: &mut [u8],
    at: usize,
) -> usize
    requires { at + 2400 ≤ length buffer.old }
    ensures { Put buffer.old at (no_speed_text fault section knots) buffer.new result × (result ≤ at + 2400) }
{
    match fault {
        SpeedFault::PointMissing => {
            filling::put(
                b"REFUSED 16: the critical speed needs a blank or a point off its table\n  the section has width %0 cm, slope 1/%0, depth %0 cm\n  the table has 50 to 250 m, 1/4 to 1/12 and 4 to 16 m\n",
                &[
                    Figure::Count(u64::from(section.width)),
                    Figure::Count(u64::from(section.slope)),
                    Figure::Count(u64::from(section.cut.0)),
                ],
                buffer,
                at,
            )
        }
        SpeedFault::TooFast => { put_too_fast(speed::parts_of(section).fastest, knots, buffer, at) }
    }
}

// The worksheet that is signed: a page a sheet, and the pages of the route (definition, section 15).
#![tactic(auto)]

ghost use Rattle.std.specs.Prelude.{◌≡◌};
ghost use Rattle.lines.specs.Lines.{place_within, buffer_within};
ghost use Rattle.worksheet.specs.Framing.{page_bytes};
ghost use Rattle.worksheet.specs.Pages.{page_text};
ghost use Rattle.worksheet.specs.Routes.{none_yet, with_stretch, route_head, stretch_text, foot_text};

use design::{Figures, Reason};
use gauge::LevelSteps;

mod bends;
mod classes;
mod depths;
mod filling;
mod framing;
mod items;
mod levels;
mod pages;
mod refusals;
mod routes;
mod rows;
mod speeds;
mod traffic;
mod widths;
mod words;

// The bytes that a page is given, and each part of the route's.
pub const PAGE_BYTES: usize = 24576;

// The greatest cut and width of the stretches that are answered so far.
#[derive(Clone, Copy)]
pub struct Greatest {
    pub cut: u16,
    pub width: u32,
}

// The sheets of a route, those answered, and its class.
#[derive(Clone, Copy)]
pub struct Totals {
    pub sheets: u64,
    pub answered: u64,
    pub class: u8,
}

// The readings of the record: added, missing and refused.
#[derive(Clone, Copy)]
pub struct Readings {
    pub added: u64,
    pub missing: u64,
    pub refused: u64,
}

// Puts the page of a sheet's bytes, by its index and its name, and answers the place after it; the same place, and nothing put, where
// so many bytes do not fit.
pub fn put_page(
    index: u64,
    name: &[u8],
    bytes: &[u8],
    steps: LevelSteps,
    buffer: &mut [u8],
    at: usize,
) -> usize
    ensures { (result ≡ place_within page_bytes (page_text index name.now bytes.now steps) at buffer.old) × (buffer.new ≡ buffer_within page_bytes (page_text index name.now bytes.now steps) at buffer.old) }
{
    if !lines::fits(buffer.len(), at, PAGE_BYTES) {
        return at;
    }
    pages::put_whole(index, name, bytes, steps, buffer, at)
}

// Puts the head of the route's first page likewise.
#[tactic(auto, unfolding(lines::specs::Lines::place_within, crate::specs::Routes::route_head, lines::specs::Lines::buffer_within))]
pub fn put_route_head(buffer: &mut [u8], at: usize) -> usize
    ensures { (result ≡ place_within page_bytes (route_head 1) at buffer.old) × (buffer.new ≡ buffer_within page_bytes (route_head 1) at buffer.old) }
{
    if !lines::fits(buffer.len(), at, PAGE_BYTES) {
        return at;
    }
    routes::put_head(1, buffer, at)
}

// Puts the line of a stretch likewise, behind the head of a new page where one begins.
#[tactic(auto, unfolding(lines::specs::Lines::place_within, crate::specs::Routes::stretch_text, lines::specs::Lines::buffer_within))]
pub fn put_stretch(
    index: u64,
    answer: Result<Figures, Reason>,
    buffer: &mut [u8],
    at: usize,
) -> usize
    ensures { (result ≡ place_within page_bytes (stretch_text index answer) at buffer.old) × (buffer.new ≡ buffer_within page_bytes (stretch_text index answer) at buffer.old) }
{
    if !lines::fits(buffer.len(), at, PAGE_BYTES) {
        return at;
    }
    routes::put_line(index, answer, buffer, at)
}

// Puts the end of the route likewise.
#[tactic(auto, unfolding(lines::specs::Lines::place_within, crate::specs::Routes::foot_text, lines::specs::Lines::buffer_within))]
pub fn put_route_foot(
    totals: Totals,
    greatest: Greatest,
    readings: Readings,
    buffer: &mut [u8],
    at: usize,
) -> usize
    ensures { (result ≡ place_within page_bytes (foot_text totals greatest readings) at buffer.old) × (buffer.new ≡ buffer_within page_bytes (foot_text totals greatest readings) at buffer.old) }
{
    if !lines::fits(buffer.len(), at, PAGE_BYTES) {
        return at;
    }
    routes::put_foot(totals, greatest, readings, buffer, at)
}

// Before the first stretch.
pub fn none_yet() -> Greatest
    ensures { result ≡ none_yet }
{
    Greatest { cut: 0, width: 0 }
}

// With one more.
pub fn with_stretch(greatest: Greatest, answer: Result<Figures, Reason>) -> Greatest
    ensures { result ≡ with_stretch greatest answer }
{
    match answer {
        Ok(figures) => routes::greater(greatest, figures),
        Err(_) => greatest,
    }
}

// The critical speed of five figures: cut, natural depth, width, side slope, knots.
use crate::places;
use datum::BelowLevel;
use speed::Section;

fn section_of(figures: &[u32]) -> Section {
    Section {
        natural: BelowLevel(places::short_at(figures, 1)),
        cut: BelowLevel(places::short_at(figures, 0)),
        width: places::figure_at(figures, 2),
        slope: places::small_at(figures, 3),
    }
}

// The parts of the critical speed into the place, low and high, 0 where a point is missing; 0, or the number of its fault.
#[unsafe(no_mangle)]
pub extern "C" fn trial_speed(figures: &[u32], place: &mut [u32]) -> u32 {
    let section = section_of(figures);
    let parts = speed::critical_speed(section).unwrap_or(0);
    places::store(
        &[places::low(parts), places::low(parts / 4294967296)],
        place,
        0,
    );
    match speed::check_speed(section, places::small_at(figures, 4)) {
        Ok(()) => 0,
        Err(fault) => places::refusal_of(fault),
    }
}

// The depth of nine figures: draft, length, soil, wave allowance, silting, interval's code, natural depth, speed, lanes.
use crate::places;
use datum::BelowLevel;
use depth::{Stretch, Try};

fn stretch_of(figures: &[u32]) -> Stretch {
    Stretch {
        draft: places::short_at(figures, 0),
        length: places::short_at(figures, 1),
        soil: places::small_at(figures, 2),
        allowance: places::short_at(figures, 3),
        silting: places::short_at(figures, 4),
        interval: depth::interval_of(places::small_at(figures, 5)),
        natural: BelowLevel(places::short_at(figures, 6)),
        speed: places::small_at(figures, 7),
        lanes: places::lanes_of(places::figure_at(figures, 8)),
    }
}

// 0, cut, sailing depth and columns; or the number of its reason.
#[unsafe(no_mangle)]
pub extern "C" fn trial_depth(figures: &[u32], place: &mut [u32]) -> u32 {
    match depth::work_depth(stretch_of(figures)) {
        Ok(found) => {
            let numbers = [
                u32::from(found.cut.0),
                u32::from(found.sailing.0),
                u32::from(found.columns),
            ];
            places::store(&numbers, place, 0);
            0
        }
        Err(fault) => places::refusal_of(fault),
    }
}

// The sailing depth and the cut of the plain engine, 0 where it has none; its refusal, 0 where it has a cut.
#[unsafe(no_mangle)]
pub extern "C" fn trial_plain(figures: &[u32], place: &mut [u32]) -> u32 {
    let [refusal, sailing, cut] = engine::plain_numbers(engine::plain_depth(stretch_of(
        figures,
    ))).map(places::low);
    places::store(&[sailing, cut], place, 0);
    refusal % 256
}

fn line_of(tried: Try) -> [u32; 6] {
    [
        tried.column as u32,
        u32::from(tried.squat),
        places::low(tried.sailing.0),
        places::low(tried.silt),
        places::low(tried.figure.0),
        tried.falls_in as u32,
    ]
}

// The count of the worksheet's tries, and six figures of each.
#[unsafe(no_mangle)]
pub extern "C" fn trial_worksheet(figures: &[u32], place: &mut [u32]) -> u32 {
    let worksheet = depth::fill_worksheet(stretch_of(figures));
    for (k, &tried) in worksheet.tries.iter().enumerate() {
        places::store(&line_of(tried), &mut *place, 6 * k);
    }
    u32::from(worksheet.count)
}

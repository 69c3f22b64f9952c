// The gauge's calls: a string of additions, and the design level.
use crate::places;
use gauge::Added;

// The answers, mixed into one number.
#[unsafe(no_mangle)]
pub extern "C" fn trial_add(readings: &[i32], table: &mut [u32]) -> u32 {
    let mut answers: u32 = 0;
    for &reading in readings {
        let answer = match gauge::add(&mut *table, reading) {
            Ok(Added::Counted) => 1,
            Ok(Added::Missing) => 2,
            Err(fault) => places::refusal_of(fault),
        };
        answers = (answers % 65521 * 31 + answer % 100) % 65521;
    }
    answers
}

// The level plus 500, or 10,000 and the refusal's number.
#[unsafe(no_mangle)]
pub extern "C" fn trial_level(table: &[u32], place: &mut [u8]) -> u32 {
    match gauge::design_level(table) {
        Ok(level) => u32::from(level.0),
        Err(fault) => 10000 + places::refusal_of(fault),
    }
}

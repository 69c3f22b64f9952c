// The design of a sheet over a level table.
use crate::places;

// The numbers of the design into the place; its code.
#[unsafe(no_mangle)]
pub extern "C" fn trial_design(bytes: &[u8], table: &[u32], place: &mut [i32]) -> u32 {
    let answer = design::design(bytes, table);
    places::store(&design::numbers(answer), place, 0);
    u32::from(design::code(answer))
}

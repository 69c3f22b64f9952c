// The call from C: a sheet's bytes in, the numbers of its design into a place that is lent, the code back (definition, section 9).
#![tactic(auto)]

ghost use Rattle.std.specs.Prelude.{◌≡◌, ◌++◌, ◌+◌, ◌≤◌, length, take, drop};
ghost use Rattle.std.specs.Int.{w32};
ghost use Rattle.std.proofs.Common.{of_z};
ghost use Rattle.plan.specs.Words.{word_bytes, bytes_of_numbers};
ghost use Rattle.plan.specs.Plan.{needed, plan_number, plan_place};

use design::{COUNT, Figures, Reason};
use gauge::LevelFault;

// The bytes of an answer: four for each number.
const NEEDED: usize = 4 * COUNT;

// The four bytes of a signed number, most significant first.
fn put_number(place: &mut [u8], at: usize, number: i32)
    requires { at + 4 ≤ length place.old }
    ensures { place.new ≡ take at place.old ++ (word_bytes (of_z w32 number) ++ drop (at + 4) place.old) }
{
    place[at..at + 4].copy_from_slice(&number.to_be_bytes());
}

// The numbers into the first bytes.
fn put_numbers(numbers: [i32; COUNT], place: &mut [u8])
    requires { needed ≤ length place.old }
    ensures { place.new ≡ bytes_of_numbers numbers ++ drop needed place.old }
{
    for i in 0..COUNT {
        let number = numbers[i];
        put_number(place, 4 * i, number);
    }
}

// Plans a sheet with no level table: 12 where the place is too small; else the code, with the numbers in the place.
#[tactic(auto, unfolding(crate::specs::Plan::plan_number, crate::specs::Plan::plan_place))]
#[unsafe(no_mangle)]
pub extern "C" fn channel_plan(sheet: &[u8], place: &mut [u8]) -> u32
    ensures { (result ≡ plan_number sheet.now place.old) × (place.new ≡ plan_place sheet.now place.old) }
{
    if place.len() < NEEDED {
        return 12;
    }
    let answer = design::design_at(sheet, Err(LevelFault::WrongTable));
    put_numbers(design::numbers(answer), place);
    design::code(answer) as u32
}

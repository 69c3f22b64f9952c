// The bend: its least radius, its radius and its widening (definition, section 15.9).
ghost use Rattle.std.specs.Prelude.{◌+◌, ◌≤◌, length};
ghost use Rattle.lines.specs.Lines.{Put};
ghost use Rattle.worksheet.specs.Bends.{bend_text, bend_part};

use crate::filling;
use blanks::Figure;
use lanes::Lanes;
use lines::fitting;
use width::WidthFault;

// What a bend asks for.
fn put_bend_of(
    bend: Result<u32, WidthFault>,
    turn: u8,
    radius: u16,
    ship: u16,
    buffer: &mut [u8],
    at: usize,
) -> usize
    requires { at + 900 ≤ length buffer.old }
    ensures { Put buffer.old at (bend_text bend turn radius ship) buffer.new result × (result ≤ at + 900) }
{
    let least = width::least_radius(turn, ship);
    match bend {
        Ok(cm) => filling::put(
            b"BEND\n  turn %0 deg, least radius %0 m, radius %0 m, widening %0 cm\n",
            &[
                Figure::Count(u64::from(turn)),
                Figure::Count(u64::from(least)),
                Figure::Count(u64::from(radius)),
                Figure::Count(u64::from(cm)),
            ],
            buffer,
            at,
        ),
        Err(_) => filling::put(
            b"BEND\n  turn %0 deg, least radius %0 m, radius %0 m: too tight\n",
            &[
                Figure::Count(u64::from(turn)),
                Figure::Count(u64::from(least)),
                Figure::Count(u64::from(radius)),
            ],
            buffer,
            at,
        ),
    }
}

// The part of the bend.
#[tactic(auto, unfolding(crate::specs::Bends::bend_part))]
pub fn put_bend(
    turn: u8,
    radius: u16,
    ship: u16,
    knots: u8,
    lanes: Lanes,
    buffer: &mut [u8],
    at: usize,
) -> usize
    requires { at + 900 ≤ length buffer.old }
    ensures { Put buffer.old at (bend_part turn radius ship knots lanes) buffer.new result × (result ≤ at + 900) }
{
    if turn == 0 {
        return fitting::put(b"BEND\n  straight\n", buffer, at);
    }
    let bend = width::bend_of(turn, radius, ship, knots, lanes);
    put_bend_of(bend, turn, radius, ship, buffer, at)
}

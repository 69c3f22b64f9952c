// Bends: the least radius and the widening (definition, section 6).
ghost use Rattle.std.specs.Prelude.{◌≡◌, ◌*◌, ◌^◌, ◌<◌};
ghost use Rattle.laws.specs.Rounding.{up};
ghost use Rattle.width.specs.Bends.{least_lengths, widening_of, LongEnough};

use lanes::Lanes;

// The least radius of a bend, in lengths of the ship.
#[tactic(auto, unfolding(crate::specs::Bends::least_lengths))]
pub fn least_lengths(turn: u8) -> u8
    ensures { result ≡ least_lengths turn }
{
    match turn {
        0..=24 => 3,
        25..=34 => 5,
        35..=54 => 8,
        _ => 10,
    }
}

// 9144 / 2,446,000,000 in its lowest terms.
const NUMERATOR: u64 = 1143;

const DENOMINATOR: u64 = 305750000;

// The widening of a bend, in cm, by what `bend_of` is called with: a struct for this one call would be no plainer.
pub fn widening(turn: u8, radius: u16, length: u16, knots: u8, lanes: Lanes) -> u32
    requires { LongEnough radius length }
    ensures value { result ≡ widening_of turn radius length knots lanes }
    ensures small { result < 2 ^ 31 }
{
    let knots = knots as u64;
    let length = length as u64;
    let ship = NUMERATOR * turn as u64 * (knots * knots) * lanes::lane_count(lanes) as u64;
    scaled(ship, length * length).div_ceil(radius as u64) as u32
}

// A product over the denominator, rounded up: in two parts, since the product alone can pass 64 bits.
fn scaled(ship: u64, square: u64) -> u64
    requires { (ship < 124 * 305750000) × (square < 4294967296) }
    ensures { result ≡ up (ship * square) 305750000 }
{
    let whole = ship / DENOMINATOR * square;
    let rest = ship % DENOMINATOR * square;
    whole + rest.div_ceil(DENOMINATOR)
}

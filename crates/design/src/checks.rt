// The checks of a sheet in their order: the ship, the level, the bend, the width's entries, the depth, the speed (definition, section 8).
ghost use Rattle.std.specs.Prelude.{◌≡◌};
ghost use Rattle.design.specs.Design.{at_level, of_sheet};

use crate::{Figures, Reason, working};
use datum::Level;
use gauge::LevelFault;
use sheet::Sheet;

// A length under three beams is no ship's: the two may have changed places. Then the level.
#[tactic(auto, unfolding(crate::specs::Design::of_sheet))]
pub fn of_sheet(sheet: Sheet, read: Result<Level, LevelFault>) -> Result<Figures, Reason>
    ensures { result ≡ of_sheet sheet read }
{
    if (sheet.length as u32) < 3 * (sheet.beam as u32) {
        return Err(Reason::NoShip);
    }
    let level = working::level_for(sheet.level, read)?;
    at_level(sheet, level)
}

// The width's entries are known before the depth is, and the speed is checked behind both.
#[tactic(auto, unfolding(crate::specs::Design::at_level, crate::specs::Design::past_bend, crate::specs::Design::past_entries, crate::specs::Design::past_depth))]
fn at_level(sheet: Sheet, level: Level) -> Result<Figures, Reason>
    ensures { result ≡ at_level sheet level }
{
    let lanes = lanes::lane_rule(sheet.lanes, sheet.channel, sheet.ships, sheet.speed);
    let widening = width::bend_of(sheet.turn, sheet.radius, sheet.length, sheet.speed, lanes)?;
    let entries = width::entries_of(sheet.water, sheet.speed, sheet.cross, sheet.wave)?;
    let depth = depth::work_depth(working::depth_stretch(sheet, level, lanes))?;
    let width = working::width_at(sheet, lanes, entries, depth);
    let section = working::section_of(sheet, level, width, depth.cut);
    speed::check_speed(section, sheet.speed)?;
    Ok(working::figures_of(sheet, level, lanes, widening, width, depth))
}

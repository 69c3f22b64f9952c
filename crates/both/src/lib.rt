// The two engines beside each other: the answer of a sheet, and what the plain engine has for its depth (definition, section 16).
#![tactic(auto)]

ghost use Rattle.std.specs.Prelude.{◌≡◌};
ghost use Rattle.both.specs.Both.{reason_came, came_to, uncounted, verdict_of, not_come, of_stretch, by_level, by_reading, both_of};

use datum::Level;
use depth::{DepthFault, DepthFigures};
use design::{Figures, Reason};
use engine::{PLAIN_COUNT, PlainFigures};
use gauge::LevelFault;
use sheet::{ReadFault, Sheet};

// What the two engines come to on a sheet: it is refused before its depth, or they agree, or they differ.
#[derive(Clone, Copy)]
pub enum Verdict {
    NotCome,
    Agreed,
    Differed,
}

// The answer of a sheet; beside it the plain engine's refusal, sailing depth and cut, all 0 where the sheet is refused before its depth.
#[derive(Clone, Copy)]
pub struct Both {
    pub answer: Result<Figures, Reason>,
    pub plain: [u64; PLAIN_COUNT],
    pub verdict: Verdict,
}

// Whether a sheet came to its depth: it is answered, or refused for its depth or for its speed, which is checked behind it.
fn came_to(answer: Result<Figures, Reason>) -> bool
    ensures { result ≡ came_to answer }
{
    match answer {
        Ok(_) => true,
        Err(reason) => reason_came(reason),
    }
}

fn reason_came(reason: Reason) -> bool
    ensures { result ≡ reason_came reason }
{
    matches!(reason, Reason::NoDepth(_) | Reason::NoSpeed(_))
}

// Two depths agree where they have the same refusal, sailing depth and cut.
fn verdict_of(worked: [u64; PLAIN_COUNT], plain: [u64; PLAIN_COUNT]) -> Verdict
    ensures { result ≡ verdict_of worked plain }
{
    if worked == plain {
        Verdict::Agreed
    } else {
        Verdict::Differed
    }
}

// An answer with nothing of the plain engine: of a sheet that is refused before its depth, or where that engine is not asked.
pub fn not_come(answer: Result<Figures, Reason>) -> Both
    ensures { result ≡ not_come answer }
{
    Both {
        answer,
        plain: [0, 0, 0],
        verdict: Verdict::NotCome,
    }
}

// The worksheet's depth, without its count of columns.
fn uncounted_of(depth: Result<DepthFigures, DepthFault>) -> Result<PlainFigures, DepthFault>
    ensures { result ≡ uncounted depth }
{
    let figures = depth?;
    Ok(PlainFigures {
        cut: figures.cut,
        sailing: figures.sailing,
    })
}

// The two engines on the stretch of a sheet.
#[tactic(auto, unfolding(crate::specs::Both::of_stretch))]
fn of_stretch(answer: Result<Figures, Reason>, stretch: depth::Stretch) -> Both
    ensures { result ≡ of_stretch answer stretch }
{
    let worked = engine::plain_numbers(uncounted_of(depth::work_depth(stretch)));
    let plain = engine::plain_numbers(engine::plain_depth(stretch));
    Both {
        answer,
        plain,
        verdict: verdict_of(worked, plain),
    }
}

fn by_level(answer: Result<Figures, Reason>, sheet: Sheet, level: Result<Level, LevelFault>) -> Both
    ensures { result ≡ by_level answer sheet level }
{
    let Ok(found) = level else {
        return not_come(answer);
    };
    let lanes = lanes::lane_rule(sheet.lanes, sheet.channel, sheet.ships, sheet.speed);
    of_stretch(answer, design::working::depth_stretch(sheet, found, lanes))
}

fn by_reading(
    answer: Result<Figures, Reason>,
    reading: Result<Sheet, ReadFault>,
    level: Result<Level, LevelFault>,
) -> Both
    ensures { result ≡ by_reading answer reading level }
{
    let Ok(sheet) = reading else {
        return not_come(answer);
    };
    by_level(
        answer,
        sheet,
        design::working::level_for(sheet.level, level),
    )
}

// The design of a sheet at a level that is already read off the table, and the plain engine beside it.
#[tactic(auto, unfolding(crate::specs::Both::both_of))]
pub fn design_both(bytes: &[u8], level: Result<Level, LevelFault>) -> Both
    ensures { result ≡ both_of bytes.now level }
{
    let answer = design::design_at(bytes, level);
    if !came_to(answer) {
        return not_come(answer);
    }
    by_reading(answer, sheet::read(bytes), level)
}

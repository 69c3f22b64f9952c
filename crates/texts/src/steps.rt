// One line of a text: what it brings, and how far the text is read then (definition, section 14.3).
ghost use Rattle.std.specs.Prelude.{◌≡◌, ◌<◌, length, drop};
ghost use Rattle.texts.specs.Cutting.{line_of};
ghost use Rattle.texts.specs.Steps.{stored, field_of, refused_by, told_of_field, accepted_in, name_fault, told_of, row_step, missing_at, begin_step, step_of, line_step};
ghost use Rattle.texts.specs.Texts.{turn_on, ended_at};

use crate::{Cursor, Event, Found, LineFault, Place, Stage, cutting};
use sheet::FieldFault;
use typed::EntryFault;

// What a line brings, and the stage and the figures then.
#[derive(Clone, Copy)]
pub struct Step {
    pub stage: Stage,
    pub figures: [u32; sheet::COUNT],
    pub event: Option<Event>,
}

// The figures with that of the row after the first k; the level's stands for two fields.
fn with_figure(figures: [u32; sheet::COUNT], k: usize, figure: u32) -> [u32; sheet::COUNT]
    ensures { result ≡ stored figures k figure }
{
    let mut all = figures;
    if k < typed::LEVEL {
        all[k] = figure;
        return all;
    }
    if k == typed::LEVEL {
        if figure == 0 {
            all[26] = 0;
            all[27] = 0;
            return all;
        }
        all[26] = 1;
        all[27] = figure - 1;
        return all;
    }
    if k == 27 {
        all[28] = figure;
        return all;
    }
    all
}

// The field that a row's figure is tested in, by how many stand before it.
fn field_of(k: usize) -> usize
    ensures { result ≡ field_of k }
{
    if k < typed::LEVEL {
        return k;
    }
    if k < typed::COUNT {
        return k + 1;
    }
    sheet::COUNT
}

fn refused_by(figures: [u32; sheet::COUNT], fault: LineFault, row: usize) -> Step
    ensures { result ≡ refused_by figures fault row }
{
    Step {
        stage: Stage::Skipping,
        figures,
        event: Some(Event::Fault(fault, row)),
    }
}

// How a figure is wrong in its field, as it is told.
fn told_of_field(fault: FieldFault) -> LineFault
    ensures { result ≡ told_of_field fault }
{
    match fault {
        FieldFault::Outside => LineFault::OutOfRange,
        FieldFault::Disagrees => LineFault::Disagrees,
    }
}

// A figure was read: on to the next row, or the sheet is whole.
fn accepted_in(figures: [u32; sheet::COUNT], k: usize) -> Step
    ensures { result ≡ accepted_in figures k }
{
    if let Err(fault) = sheet::standing_of(figures, field_of(k)) {
        return refused_by(figures, told_of_field(fault), k);
    }
    if k < 27 {
        return Step {
            stage: Stage::InRow(k + 1),
            figures,
            event: None,
        };
    }
    Step {
        stage: Stage::Between,
        figures,
        event: Some(Event::Sheet),
    }
}

// A line without the name of the row after the first k: no row has its name, or one before, or one behind.
fn name_fault(k: usize, line: &[u8]) -> LineFault
    ensures { result ≡ name_fault k line.now }
{
    match typed::row_named(line) {
        None => LineFault::NoName,
        Some(named) if named < k => LineFault::Twice,
        Some(_) => LineFault::Misplaced,
    }
}

// Why a line in the place of the row after the first k has no figure, as it is told.
fn told_of(fault: EntryFault, k: usize, line: &[u8]) -> LineFault
    ensures { result ≡ told_of fault k line.now }
{
    match fault {
        EntryFault::NoName => name_fault(k, line),
        EntryFault::NoFigure => LineFault::NoFigure,
        EntryFault::NoUnit => LineFault::NoUnit,
    }
}

// A line in the place of the row after the first k.
fn row_step(figures: [u32; sheet::COUNT], k: usize, line: &[u8]) -> Step
    ensures { result ≡ row_step figures k line.now }
{
    match typed::read_line(k, line) {
        Ok(figure) => accepted_in(with_figure(figures, k, figure), k),
        Err(fault) => refused_by(figures, told_of(fault, k, line), k),
    }
}

// What is missing where a sheet ends at a stage.
fn missing_at(stage: Stage) -> Option<Event>
    ensures { result ≡ missing_at stage }
{
    match stage {
        Stage::InRow(k) => Some(Event::Fault(LineFault::Missing, k)),
        Stage::Between | Stage::Skipping => None,
    }
}

// A line that begins a sheet: rows of the one before may be missing.
fn begin_step(stage: Stage, figures: [u32; sheet::COUNT]) -> Step
    ensures { result ≡ begin_step stage figures }
{
    Step {
        stage: Stage::InRow(0),
        figures,
        event: missing_at(stage),
    }
}

// A line that is not passed over.
fn kept_step(stage: Stage, figures: [u32; sheet::COUNT], line: &[u8]) -> Step
    ensures { result ≡ step_of stage figures line.now }
{
    if cutting::begins_sheet(line) {
        return begin_step(stage, figures);
    }
    match stage {
        Stage::Between => refused_by(figures, LineFault::NoSheet, typed::COUNT),
        Stage::Skipping => Step {
            stage: Stage::Skipping,
            figures,
            event: None,
        },
        Stage::InRow(k) => row_step(figures, k, line),
    }
}

// What a line brings, one that is passed over too.
fn line_step(stage: Stage, figures: [u32; sheet::COUNT], line: &[u8]) -> Step
    ensures { result ≡ line_step stage figures line.now }
{
    if cutting::passed_over(line) {
        return Step {
            stage,
            figures,
            event: None,
        };
    }
    kept_step(stage, figures, line)
}

// One line more. (The proof follows an array from one struct to the next only by a variable.)
pub fn turn(text: &[u8], cursor: Cursor) -> Found
    requires { cursor.at < length text.now }
    ensures { (result ≡ turn_on (length text.now) cursor (line_of (drop cursor.at text.now))) × (cursor.at < result.cursor.at) }
{
    let start = cursor.at;
    let end = cutting::line_end(text, start);
    let whole = &text[start..end];
    let bare = cutting::bare_length(whole);
    let figures = cursor.figures;
    let step = line_step(cursor.stage, figures, &whole[..bare]);
    let number = cutting::next_number(cursor.lines);
    let figures = step.figures;
    Found {
        event: step.event,
        place: Place {
            line: number,
            start,
            end: start + bare,
            ended: false,
        },
        cursor: Cursor {
            at: cutting::line_after(end, text.len()),
            lines: number,
            stage: step.stage,
            figures,
        },
    }
}

// Behind the last line: rows of the last sheet may be missing.
pub fn ended(cursor: Cursor) -> Found
    ensures { result ≡ ended_at cursor }
{
    let figures = cursor.figures;
    Found {
        event: missing_at(cursor.stage),
        place: Place {
            line: cutting::next_number(cursor.lines),
            start: cursor.at,
            end: cursor.at,
            ended: true,
        },
        cursor: Cursor {
            at: cursor.at,
            lines: cursor.lines,
            stage: Stage::Between,
            figures,
        },
    }
}

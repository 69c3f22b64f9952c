// The worksheets of sheets, and the pages of their route (definition, section 15).
ghost use Rattle.std.specs.Prelude.{◌≡◌, [], ◌≤◌, length};
ghost use Rattle.lines.specs.Lines.{place_within, buffer_within};
ghost use Rattle.worksheet.specs.Framing.{page_bytes};
ghost use Rattle.worksheet.specs.Routes.{none_yet};
ghost use Rattle.channel.specs.Route.{no_sheets};
ghost use Rattle.channel.specs.Text.{sheets_of};
ghost use Rattle.channel.specs.Typing.{lines_at};
ghost use Rattle.channel.specs.Worksheets.{text_by, progress, one_put, all_put, unnamed, name_of, bytes_for, named_of, items_of, head_put, foot_put, WorksheetsOut, FaultlessOut, OverRecord};

use crate::output::Out;
use crate::route::Route;
use crate::{levels, output, sheets, typing};
use design::{Figures, Reason};
use gauge::LevelSteps;
use record::Counts;
use worksheet::{Greatest, Readings, Totals};

// Where the sheets come from: bytes, or a typed text.
#[derive(Clone, Copy)]
pub enum Source {
    Bytes,
    Typed,
}

// What is put of each sheet: its page, or then its line of the route. A variant, and no closure, since `WorksheetsOut` names the texts
// of both.
#[derive(Clone, Copy)]
enum Pass {
    Pages,
    Stretches,
}

// How each sheet is put: by which handle of the run, in which pass, and by the record's steps.
#[derive(Clone, Copy)]
struct Putting {
    rt: HostRuntime,
    pass: Pass,
    steps: LevelSteps,
}

// The texts so far, the route, and its greatest figures.
#[derive(Clone, Copy)]
struct State {
    out: Out,
    route: Route,
    greatest: Greatest,
}

impl Putting {
    // The page of a sheet, or its line of the route.
    fn put_text(
        self,
        index: u64,
        name: &[u8],
        sheet: &[u8],
        answer: Result<Figures, Reason>,
        buffer: &mut [u8],
        at: usize,
    ) -> usize
        ensures { (result ≡ place_within page_bytes (text_by self.pass self.steps index name.now sheet.now answer) at buffer.old) × (buffer.new ≡ buffer_within page_bytes (text_by self.pass self.steps index name.now sheet.now answer) at buffer.old) }
    {
        match self.pass {
            Pass::Pages => worksheet::put_page(index, name, sheet, self.steps, buffer, at),
            Pass::Stretches => worksheet::put_stretch(index, answer, buffer, at),
        }
    }

    // One sheet more.
    #[tactic(auto, unfolding(crate::specs::Worksheets::one_put, crate::specs::Output::with_line))]
    fn put_one(self, name: &[u8], sheet: &[u8], buffer: &mut [u8], state: State) -> State
        ensures { progress result buffer.new ≡ one_put self.pass self.steps name.now sheet.now (progress state buffer.old) }
    {
        let ready = output::made_ready(self.rt, buffer, state.out, worksheet::PAGE_BYTES);
        let answer = design::design_at(sheet, self.steps.read);
        let route = state.route.with_sheet(answer);
        let greatest = worksheet::with_stretch(state.greatest, answer);
        let at = self.put_text(route.sheets, name, sheet, answer, buffer, ready.at);
        State {
            out: Out { at, ..ready },
            route,
            greatest,
        }
    }

    // One sheet more, without a name.
    fn put_unnamed(self, sheet: &[u8], buffer: &mut [u8], state: State) -> State
        ensures { progress result buffer.new ≡ one_put self.pass self.steps [] sheet.now (progress state buffer.old) }
    {
        self.put_one(b"", sheet, buffer, state)
    }

    // The sheets of bytes, which have no names.
    fn put_bytes(self, input: &[u8], buffer: &mut [u8], state: State) -> State
        ensures { progress result buffer.new ≡ all_put self.pass self.steps (unnamed (sheets_of input.now)) (progress state buffer.old) }
    {
        let mut now = state;
        for sheet in input.chunks(sheets::SHEET) {
            now = self.put_unnamed(sheet, buffer, now);
        }
        now
    }

    // A sheet that was found in a text behind a place, with its name.
    fn put_named(
        self,
        text: &[u8],
        from: usize,
        figures: [u32; sheet::COUNT],
        buffer: &mut [u8],
        state: State,
    ) -> State
        ensures { progress result buffer.new ≡ one_put self.pass self.steps (name_of text.now from) (bytes_for figures) (progress state buffer.old) }
    {
        let name = texts::name_after(text, from);
        let bytes = bytes_for(figures);
        self.put_one(&text[name.start..name.end], &bytes, buffer, state)
    }

    // The sheets of a typed text without a fault, with their names.
    fn put_typed(self, text: &[u8], buffer: &mut [u8], state: State) -> State
        ensures { progress result buffer.new ≡ all_put self.pass self.steps (named_of text.now) (progress state buffer.old) }
    {
        let mut cursor = texts::begin();
        let mut now = state;
        loop {
            let found = texts::next(text, cursor);
            if found.event.is_none() {
                return now;
            }
            let after = found.cursor;
            now = self.put_named(text, cursor.at, after.figures, buffer, now);
            cursor = after;
        }
    }

    // All sheets of an input.
    fn put_all(self, source: Source, input: &[u8], buffer: &mut [u8], state: State) -> State
        ensures { progress result buffer.new ≡ all_put self.pass self.steps (items_of source input.now) (progress state buffer.old) }
    {
        match source {
            Source::Bytes => self.put_bytes(input, buffer, state),
            Source::Typed => self.put_typed(input, buffer, state),
        }
    }
}

// Before the first sheet.
fn at_first(out: Out) -> State
    ensures { (result.out ≡ out) × ((result.route ≡ no_sheets) × (result.greatest ≡ none_yet)) }
{
    State {
        out,
        route: Route::new(),
        greatest: worksheet::none_yet(),
    }
}

// The bytes of a sheet's figures.
fn bytes_for(figures: [u32; sheet::COUNT]) -> [u8; texts::SHEET_BYTES]
    ensures { result ≡ bytes_for figures }
{
    let mut bytes = [0u8; texts::SHEET_BYTES];
    texts::put_sheet(figures, &mut bytes, 0);
    bytes
}

// The head of the route behind the pages.
#[tactic(auto, unfolding(crate::specs::Worksheets::head_put, crate::specs::Output::with_line))]
fn put_head(rt: HostRuntime, buffer: &mut [u8], out: Out) -> Out
    ensures { lines_at result buffer.new ≡ head_put (lines_at out buffer.old) }
{
    let ready = output::made_ready(rt, buffer, out, worksheet::PAGE_BYTES);
    let at = worksheet::put_route_head(buffer, ready.at);
    Out { at, ..ready }
}

// The end of the route.
#[tactic(auto, unfolding(crate::specs::Worksheets::foot_put, crate::specs::Output::with_line))]
fn put_foot(rt: HostRuntime, counts: Counts, buffer: &mut [u8], state: State) -> Out
    ensures { lines_at result buffer.new ≡ foot_put counts (progress state buffer.old) }
{
    let route = state.route;
    let ready = output::made_ready(rt, buffer, state.out, worksheet::PAGE_BYTES);
    let totals = Totals {
        sheets: route.sheets,
        answered: route.answered,
        class: route.class,
    };
    let readings = Readings {
        added: counts.added,
        missing: counts.missing,
        refused: counts.refused,
    };
    let at = worksheet::put_route_foot(totals, state.greatest, readings, buffer, ready.at);
    Out { at, ..ready }
}

// The pages of an input's sheets and of their route, written as the buffer fills but for the last of them.
fn put_worksheets(
    rt: HostRuntime,
    source: Source,
    steps: LevelSteps,
    counts: Counts,
    input: &[u8],
    buffer: &mut [u8],
) -> Option<usize>
    requires { page_bytes ≤ length buffer.old }
    ensures { WorksheetsOut source steps counts input.now buffer.old result buffer.new }
{
    let first = at_first(Out { at: 0, open: true });
    let putting = Putting {
        rt,
        pass: Pass::Pages,
        steps,
    };
    let pages = putting.put_all(source, input, buffer, first);
    let head = put_head(rt, buffer, pages.out);
    let again = at_first(head);
    let putting = Putting {
        pass: Pass::Stretches,
        ..putting
    };
    let stretches = putting.put_all(source, input, buffer, again);
    put_foot(rt, counts, buffer, stretches).rest()
}

// The same of a text only where it has no fault; its faults are told.
fn put_faultless(
    rt: HostRuntime,
    source: Source,
    steps: LevelSteps,
    counts: Counts,
    input: &[u8],
    buffer: &mut [u8],
) -> Option<usize>
    requires { page_bytes ≤ length buffer.old }
    ensures { FaultlessOut source steps counts input.now buffer.old result buffer.new }
{
    match source {
        Source::Bytes => put_worksheets(rt, source, steps, counts, input, buffer),
        Source::Typed => {
            if typing::tell_faults(rt, input) {
                return None;
            }
            put_worksheets(rt, source, steps, counts, input, buffer)
        }
    }
}

// The worksheets of an input over the record of levels.bin.
pub fn over_record(
    rt: HostRuntime,
    source: Source,
    input: &[u8],
    buffer: &mut [u8],
) -> Option<usize>
    requires { page_bytes ≤ length buffer.old }
    ensures { OverRecord source input.now buffer.old result buffer.new }
{
    let mut table = [0u32; gauge::SLOTS];
    let counts = levels::load(rt, &mut table)?;
    put_faultless(
        rt,
        source,
        gauge::level_steps(&table),
        counts,
        input,
        buffer,
    )
}

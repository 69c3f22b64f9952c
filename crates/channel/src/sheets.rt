// Sheets from standard input, each with its line.
ghost use Rattle.std.specs.Prelude.{◌≡◌, [], ◌∷◌};
ghost use Rattle.channel.specs.Text.{sheets_of};
ghost use Rattle.channel.specs.Printing.{progress, sheets_printed, printed_count, BlockPrinted, AllPrinted, RoutePrinted};

use crate::input::{Filled, Stop};
use crate::output::Out;
use crate::route::Route;
use crate::{engines, input, output};
use datum::Level;
use gauge::LevelFault;
use lines::Form;

// A whole number of sheets.
pub const BLOCK: usize = 65520;

// The bytes of a sheet.
pub const SHEET: usize = texts::SHEET_BYTES;

// How the sheets are printed: by which handle of the run, in which form, and at which design level.
#[derive(Clone, Copy)]
pub struct Printer {
    pub rt: HostRuntime,
    pub form: Form,
    pub level: Result<Level, LevelFault>,
}

// The lines so far, the route, and on how many of its sheets the two engines agreed.
#[derive(Clone, Copy)]
pub struct State {
    pub out: Out,
    pub route: Route,
    pub agreed: u64,
}

// The bytes that are printed or shown of what was filled: where a read failed, those of whole sheets.
pub fn printed_of(filled: Filled) -> usize
    ensures { result ≡ printed_count filled }
{
    match filled.stop {
        Stop::Failed(_) => filled.count - filled.count % SHEET,
        Stop::Full | Stop::Ended => filled.count,
    }
}

impl Printer {
    // The line of one sheet.
    fn print_sheet(self, sheet: &[u8], buffer: &mut [u8], state: State) -> State
        ensures { progress result buffer.new ≡ sheets_printed self.form self.level (sheet.now ∷ []) (progress state buffer.old) }
    {
        let ready = output::made_ready(self.rt, buffer, state.out, lines::LINE_BYTES);
        let worked = engines::worked(self.form, sheet, self.level);
        let route = state.route.with_sheet(worked.answer);
        let numbers = design::numbers(worked.answer);
        let at = lines::put_sheet_line(
            self.form,
            route.sheets,
            numbers,
            worked.plain,
            buffer,
            ready.at,
        );
        let agreed = engines::with_verdict(state.agreed, worked.verdict);
        engines::tell(self.rt, route.sheets, worked.verdict);
        State {
            out: Out { at, ..ready },
            route,
            agreed,
        }
    }

    // The lines of the sheets of a block.
    fn print_block(self, block: &[u8], buffer: &mut [u8], state: State) -> State
        ensures { progress result buffer.new ≡ sheets_printed self.form self.level (sheets_of block.now) (progress state buffer.old) }
    {
        let mut now = state;
        for sheet in block.chunks(SHEET) {
            now = self.print_sheet(sheet, buffer, now);
        }
        now
    }

    // The lines of one block of the input, full or to its end; where its read failed, those of the whole sheets before.
    fn print_some(self, space: &mut [u8], buffer: &mut [u8], state: &mut State) -> Filled
        ensures { BlockPrinted self.form self.level (progress state.old buffer.old) (progress state.new buffer.new) result space.new }
    {
        let filled = input::fill(&mut self.rt.stdin(), space);
        let count = printed_of(filled);
        *state = self.print_block(&space[..count], buffer, *state);
        filled
    }

    // Every sheet of standard input, from a place of the buffer on, each block in a space that is made once for all; where the input
    // fails, or the output takes no more, nothing is left.
    pub fn print_all(self, buffer: &mut [u8], at: usize) -> Option<State>
        ensures { AllPrinted self.form self.level at buffer.old result buffer.new }
    {
        let mut state = State {
            out: Out { at, open: true },
            route: Route::new(),
            agreed: 0,
        };
        let mut space = [0u8; BLOCK];
        for _ in 0..input::TURNS {
            let filled = self.print_some(&mut space, buffer, &mut state);
            if !state.out.open {
                return None;
            }
            match filled.stop {
                Stop::Full => {}
                Stop::Ended => {
                    return Some(state);
                }
                Stop::Failed(error) => {
                    return output::cut_short(self.rt, buffer, state.out.at, error);
                }
            }
        }
        output::cut_short(self.rt, buffer, state.out.at, None)
    }

    // The route's line behind those of the sheets.
    #[tactic(auto, unfolding(crate::specs::Output::with_line))]
    pub fn print_route(self, buffer: &mut [u8], state: State) -> Out
        ensures { RoutePrinted self.form state buffer.old result.at buffer.new }
    {
        let Route {
            sheets,
            answered,
            class,
        } = state.route;
        let ready = output::made_ready(self.rt, buffer, state.out, lines::LINE_BYTES);
        let agreed = state.agreed;
        let at = lines::put_route_line(
            self.form, sheets, answered, class, agreed, buffer, ready.at,
        );
        Out { at, ..ready }
    }
}

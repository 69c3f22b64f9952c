// Bytes from standard input, shown as text (definition, section 14.5).
ghost use Rattle.std.specs.Prelude.{◌≡◌, [], ◌∷◌, ◌≤◌, length};
ghost use Rattle.texts.specs.Shown.{shown_bytes};
ghost use Rattle.channel.specs.Text.{sheets_of};
ghost use Rattle.channel.specs.Showing.{progress, sheets_shown, BlockShown, AllShown, TextShown};

use crate::input::{Filled, Stop};
use crate::output::Out;
use crate::{input, output, sheets};

// The texts so far, and the index of the last.
#[derive(Clone, Copy)]
struct State {
    out: Out,
    index: u64,
}

// The text of one sheet.
#[tactic(auto, unfolding(crate::specs::Showing::sheets_shown, crate::specs::Showing::index_after, crate::specs::Showing::shown_texts, crate::specs::Output::with_lines, crate::specs::Output::with_line))]
fn show_sheet(rt: HostRuntime, sheet: &[u8], buffer: &mut [u8], state: State) -> State
    ensures { progress result buffer.new ≡ sheets_shown (sheet.now ∷ []) (progress state buffer.old) }
{
    let index = record::one_more(state.index);
    let ready = output::made_ready(rt, buffer, state.out, texts::SHOWN_BYTES);
    let at = texts::put_shown(index, sheet, buffer, ready.at);
    State {
        out: Out { at, ..ready },
        index,
    }
}

// The texts of the sheets of a block.
fn show_block(rt: HostRuntime, block: &[u8], buffer: &mut [u8], state: State) -> State
    ensures { progress result buffer.new ≡ sheets_shown (sheets_of block.now) (progress state buffer.old) }
{
    let mut now = state;
    for sheet in block.chunks(sheets::SHEET) {
        now = show_sheet(rt, sheet, buffer, now);
    }
    now
}

// The texts of one block of the input, full or to its end; where its read failed, those of the whole sheets before.
fn show_some(rt: HostRuntime, space: &mut [u8], buffer: &mut [u8], state: &mut State) -> Filled
    ensures { BlockShown (progress state.old buffer.old) (progress state.new buffer.new) result space.new }
{
    let filled = input::fill(&mut rt.stdin(), space);
    let count = sheets::printed_of(filled);
    *state = show_block(rt, &space[..count], buffer, *state);
    filled
}

// Every sheet of standard input, from the beginning of the buffer on, each block in a space that is made once for all; where the
// input fails, or the output takes no more, nothing is left.
fn show_all(rt: HostRuntime, buffer: &mut [u8]) -> Option<State>
    ensures { AllShown buffer.old result buffer.new }
{
    let mut state = State {
        out: Out { at: 0, open: true },
        index: 0,
    };
    let mut space = [0u8; sheets::BLOCK];
    for _ in 0..input::TURNS {
        let filled = show_some(rt, &mut space, buffer, &mut state);
        if !state.out.open {
            return None;
        }
        match filled.stop {
            Stop::Full => {}
            Stop::Ended => {
                return Some(state);
            }
            Stop::Failed(error) => {
                return output::cut_short(rt, buffer, state.out.at, error);
            }
        }
    }
    output::cut_short(rt, buffer, state.out.at, None)
}

// The text of what standard input has, written as the buffer fills but for the last of it.
pub fn show(rt: HostRuntime, buffer: &mut [u8]) -> Option<usize>
    requires { shown_bytes ≤ length buffer.old }
    ensures { TextShown buffer.old result buffer.new }
{
    let state = show_all(rt, buffer)?;
    Some(state.out.at)
}

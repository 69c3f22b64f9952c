// Standard input read whole, and the words that ask for that.
ghost use Rattle.std.specs.Prelude.{◌≡◌, ◌≤◌, length, None};
ghost use Rattle.worksheet.specs.Framing.{page_bytes};
ghost use Rattle.channel.specs.Input.{ReadWithin};

use crate::input::Stop;
use crate::worksheets::Source;
use crate::{input, output, typing, worksheets};

// The bytes of the longest input that is read whole.
const LONGEST: usize = 4194304;

// What is made of an input: the bytes of a typed text, or the worksheets of its sheets.
#[derive(Clone, Copy)]
pub enum Task {
    Type,
    Worksheets(Source),
}

// Why no more than a byte is behind an input that fills its space.
fn behind(rt: HostRuntime) -> Stop {
    let mut space = [0u8; 1];
    input::fill(&mut rt.stdin(), &mut space).stop
}

// The space of the longest input.
fn input_space() -> [u8; LONGEST]
    ensures { 4194304 ≡ length result }
{
    [0; LONGEST]
}

fn too_long(rt: HostRuntime) -> Option<usize>
    ensures { result ≡ None }
{
    let _ = eprintln!(rt; "standard input: longer than 4194304 bytes");
    None
}

// Standard input, read to its end.
fn read_whole(rt: HostRuntime, space: &mut [u8]) -> Option<usize>
    ensures { ReadWithin result (length space.old) }
{
    let filled = input::fill(&mut rt.stdin(), space);
    let stop = match filled.stop {
        Stop::Full => behind(rt),
        stop => stop,
    };
    match stop {
        Stop::Ended => Some(filled.count),
        Stop::Full => too_long(rt),
        Stop::Failed(error) => output::failed(rt, output::INPUT, error),
    }
}

// What a task makes of an input.
fn made_of(rt: HostRuntime, task: Task, input: &[u8], buffer: &mut [u8]) -> Option<usize>
    requires { page_bytes ≤ length buffer.old }
{
    match task {
        Task::Type => typing::type_text(rt, input, buffer),
        Task::Worksheets(source) => worksheets::over_record(rt, source, input, buffer),
    }
}

// What a task makes of standard input.
pub fn of_input(rt: HostRuntime, task: Task, buffer: &mut [u8]) -> Option<usize>
    requires { page_bytes ≤ length buffer.old }
{
    let mut space = input_space();
    let count = read_whole(rt, &mut space)?;
    made_of(rt, task, &space[..count], buffer)
}

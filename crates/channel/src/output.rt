// The buffer in which lines wait, and its writing to standard output.
ghost use Rattle.std.specs.Prelude.{◌≡◌, ◌↔◌, ◌⊎◌, IsTrue, Some, None, pos};
ghost use Rattle.std.specs.IoError.{error_kind, raw_os_error};
ghost use Rattle.channel.specs.Output.{place_for, rest_of};

use std::alloc::{AllocError, Global};
use std::io;
use std::io::{ErrorKind, Print};

// The number of the system's error where a descriptor is closed.
const BAD_DESCRIPTOR: i32 = 9;

// The input that the program's words read.
pub const INPUT: &str = "standard input";

// Where the next line goes in the buffer, and whether the output still takes it.
#[derive(Clone, Copy)]
pub struct Out {
    pub at: usize,
    pub open: bool,
}

// The system's words for an error, without the number that stands behind them.
fn words_of(alloc: Global, error: io::Error) -> Result<String, AllocError> {
    let whole = format!(in alloc; "{error}")?;
    match whole.as_str().split_once(" (os error ") {
        Some((words, _)) => format!(in alloc; "{words}"),
        None => Ok(whole),
    }
}

// Tells on standard error what failed, by the system's words.
fn fail_by(rt: HostRuntime, what: &str, error: io::Error) {
    let _ = match words_of(rt.alloc(), error) {
        Ok(words) => eprintln!(rt; "{what}: {words}"),
        Err(_) => eprintln!(rt; "{what}: {error}"),
    };
}

// Tells on standard error what failed, and by which error; without one it took too many turns.
fn fail(rt: HostRuntime, what: &str, failure: Option<io::Error>) {
    match failure {
        Some(error) => fail_by(rt, what, error),
        None => {
            let _ = eprintln!(rt; "{what}: it comes in too many parts");
        }
    }
}

// Nothing of an input that failed, which is told.
pub fn failed<T: Copy>(rt: HostRuntime, what: &str, failure: Option<io::Error>) -> Option<T>
    ensures { result ≡ None }
{
    fail(rt, what, failure);
    None
}

// Writes the buffer's first bytes; an error where the output takes no more.
pub fn write_first<P: Print>(output: &P, buffer: &[u8], count: usize) -> io::Result<()> {
    if count <= buffer.len() {
        output.write_all(&buffer[..count])
    } else {
        Err(io::Error::from(ErrorKind::InvalidInput))
    }
}

// Whether an output takes no more because it is closed, or nobody reads it.
fn is_closed(error: io::Error) -> bool
    ensures { IsTrue result ↔ ((error_kind error ≡ ErrorKind.BrokenPipe) ⊎ (raw_os_error error ≡ Some (pos 9))) }
{
    error.kind() == ErrorKind::BrokenPipe || error.raw_os_error() == Some(BAD_DESCRIPTOR)
}

impl Out {
    // What waits in the buffer, where the output takes it.
    pub fn rest(self) -> Option<usize>
        ensures { result ≡ rest_of self }
    {
        if self.open {
            return Some(self.at);
        }
        None
    }
}

// Writes the buffer's first bytes to standard output; false where that takes no more. What is wrong with it is told; a closed one is left quietly.
pub fn put_out(rt: HostRuntime, buffer: &[u8], count: usize) -> bool {
    match write_first(&rt.stdout(), buffer, count) {
        Ok(()) => true,
        Err(error) => {
            if !is_closed(error) {
                fail(rt, "standard output", Some(error));
            }
            false
        }
    }
}

// Ready for a line that is given so much room: what stands in the buffer is written where less is left and the output takes it.
pub fn made_ready(rt: HostRuntime, buffer: &[u8], out: Out, room: usize) -> Out
    ensures { result.at ≡ place_for room buffer.now out.at }
{
    if lines::fits(buffer.len(), out.at, room) {
        return out;
    }
    let open = out.open && put_out(rt, buffer, out.at);
    Out { at: 0, open }
}

// Nothing of an input that failed: what waits is written, and then that is told. A closed output is left quietly.
pub fn cut_short<T: Copy>(
    rt: HostRuntime,
    buffer: &[u8],
    at: usize,
    failure: Option<io::Error>,
) -> Option<T>
    ensures { result ≡ None }
{
    if put_out(rt, buffer, at) {
        fail(rt, INPUT, failure);
    }
    None
}

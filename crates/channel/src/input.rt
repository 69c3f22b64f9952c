// Reading a file or a pipe in blocks: a short read, a slow writer or an interrupted call changes nothing.
ghost use Rattle.std.specs.Prelude.{◌≡◌, ◌-◌, ◌<◌, length, take};
ghost use Rattle.channel.specs.Input.{GotWithin, Filling};

use std::io;
use std::io::{ErrorKind, Read};

// As many turns as 64 bits hold, so that each loop ends; no input comes in as many parts.
pub const TURNS: u64 = u64::MAX;

// What a read answered that could give so many bytes at most: what a reader says is not taken on trust.
fn got_of(answer: io::Result<usize>, most: usize) -> io::Result<usize>
    ensures { GotWithin result most }
{
    let count = answer?;
    if most < count {
        return Err(io::Error::from(ErrorKind::InvalidData));
    }
    Ok(count)
}

// One read into what is left of a space, which is some, so that no byte means the end; what the space has stays.
fn read_some<R: Read>(reader: &mut R, space: &mut [u8], have: usize) -> io::Result<usize>
    requires { have < length space.old }
    ensures got_within { GotWithin result (length space.old - have) }
    ensures space_unchanged { take have space.new ≡ take have space.old }
{
    let most = space.len() - have;
    let answer = reader.read(&mut space[have..]);
    got_of(answer, most)
}

// Why no more of a space was filled: it is full, the input ended, or a read failed, by an error, if not by too many turns.
#[derive(Clone, Copy)]
pub enum Stop {
    Full,
    Ended,
    Failed(Option<io::Error>),
}

// How much of a space was filled, and why no more.
#[derive(Clone, Copy)]
pub struct Filled {
    pub count: usize,
    pub stop: Stop,
}

// Fills a space from its start. The file, the sheets that are printed and those that are shown are each read by a loop over it: one
// function over a closure would be longer than the loop, since it would promise what each changes of its table or buffer.
pub fn fill<R: Read>(reader: &mut R, space: &mut [u8]) -> Filled
    ensures { Filling result (length space.old) }
{
    let mut have: usize = 0;
    for _ in 0..TURNS {
        if have == space.len() {
            return Filled {
                count: have,
                stop: Stop::Full,
            };
        }
        match read_some(reader, space, have) {
            Ok(0) => {
                return Filled {
                    count: have,
                    stop: Stop::Ended,
                };
            }
            Ok(count) => {
                have += count;
            }
            Err(error) => {
                if error.kind() != ErrorKind::Interrupted {
                    return Filled {
                        count: have,
                        stop: Stop::Failed(Some(error)),
                    };
                }
            }
        }
    }
    let stop = if have < space.len() {
        Stop::Failed(None)
    } else {
        Stop::Full
    };
    Filled { count: have, stop }
}

// The program: sheets in, a line a sheet out (definition, section 10); the words type, show and form (section 14); the worksheets (section 15); and the word both, by which
// the plain engine's figures stand behind the worksheet's (section 16).
#![tactic(auto)]

ghost use Rattle.std.specs.Prelude.{◌≤◌, length};
ghost use Rattle.lines.specs.Lines.{line_bytes};
ghost use Rattle.channel.specs.Printing.{LinesPrinted, TextPrinted};

use crate::reading::Task;
use crate::sheets::Printer;
use crate::worksheets::Source;
use lines::Form;
use record::Counts;
use std::env::{Env, FillError};

mod engines;
mod input;
mod levels;
mod output;
mod reading;
mod route;
mod sheets;
mod showing;
mod typing;
mod worksheets;

// The bytes of the buffer in which lines wait.
const BUFFER: usize = 65536;

// The bytes of the command's longest word, and some.
const WORD: usize = 16;

fn main(rt: HostRuntime) {
    let mut buffer = [0u8; BUFFER];
    let mut space = [0u8; WORD];
    let text = match rt.arg(1, &mut space) {
        Ok(length) => of_word(rt, Some(&space[..length]), &mut buffer),
        Err(FillError::NotPresent) => of_word(rt, None, &mut buffer),
        // No word of the program's is as long.
        Err(FillError::TooLong) => of_word(rt, Some(b""), &mut buffer),
    };
    if let Some(rest) = text {
        output::put_out(rt, &buffer, rest);
    }
}

// What the program's first word asks for; without one it prints.
fn of_word(rt: HostRuntime, first: Option<&[u8]>, buffer: &mut [u8]) -> Option<usize>
    requires { 65536 ≤ length buffer.old }
{
    match first {
        None => print(rt, Form::Alone, buffer),
        Some(b"both") => print(rt, Form::Both, buffer),
        Some(b"type") => reading::of_input(rt, Task::Type, buffer),
        Some(b"show") => showing::show(rt, buffer),
        Some(b"worksheet") => reading::of_input(rt, Task::Worksheets(Source::Bytes), buffer),
        Some(b"worksheet-text") => reading::of_input(rt, Task::Worksheets(Source::Typed), buffer),
        Some(b"form") => Some(texts::put_form(buffer, 0)),
        Some(_) => {
            let _ = eprintln!(rt;
                "no such word: both, type, show, form, worksheet and worksheet-text are known"
            );
            None
        }
    }
}

// The text of the record and the sheets.
fn print(rt: HostRuntime, form: Form, buffer: &mut [u8]) -> Option<usize>
    requires { line_bytes ≤ length buffer.old }
    ensures { TextPrinted form buffer.old result buffer.new }
{
    let mut table = [0u32; gauge::SLOTS];
    let counts = levels::load(rt, &mut table)?;
    let printer = Printer {
        rt,
        form,
        level: gauge::design_level(&table),
    };
    print_lines(printer, counts, buffer)
}

// The record's line, the sheets' lines and the route's, written as the buffer fills but for the last of them.
fn print_lines(printer: Printer, counts: Counts, buffer: &mut [u8]) -> Option<usize>
    requires { line_bytes ≤ length buffer.old }
    ensures { LinesPrinted printer.form printer.level counts buffer.old result buffer.new }
{
    let at = lines::put_levels_line(counts.added, counts.missing, counts.refused, buffer, 0);
    let state = printer.print_all(buffer, at)?;
    printer.print_route(buffer, state).rest()
}

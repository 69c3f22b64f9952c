// The figures of a sheet in two columns, as they are typed (definition, section 15.4).
ghost use Rattle.std.specs.Prelude.{◌+◌, ◌≤◌, ◌<◌, ◌-◌, length};
ghost use Rattle.lines.specs.Lines.{Put};
ghost use Rattle.worksheet.specs.Rows.{row_text, pair_text, pairs_text, rows_part};

use crate::filling;
use lines::fitting;

// The bytes of the left column.
const COLUMN: usize = 36;

const SPACES: [u8; COLUMN] = [b' '; COLUMN];

// The lines of the two columns.
const LINES: usize = 14;

// The line of a row, without a newline.
#[tactic(auto, unfolding(crate::specs::Rows::row_text))]
fn put_row(figures: [u32; sheet::COUNT], i: usize, buffer: &mut [u8], at: usize) -> usize
    requires { (i < 28) × (at + 80 ≤ length buffer.old) }
    ensures { Put buffer.old at (row_text figures i) buffer.new result × (result ≤ at + 80) }
{
    filling::put_line(i, texts::row_figure(figures, i), buffer, at)
}

// A row, and the fourteenth behind it.
fn put_pair(figures: [u32; sheet::COUNT], i: usize, buffer: &mut [u8], at: usize) -> usize
    requires { (i < 14) × (at + 200 ≤ length buffer.old) }
    ensures { Put buffer.old at (pair_text figures i) buffer.new result × (result ≤ at + 200) }
{
    let left = put_row(figures, i, buffer, at);
    let spaces = COLUMN.saturating_sub(left - at);
    let middle = fitting::put(&SPACES[..spaces], buffer, left);
    let right = put_row(figures, i + LINES, buffer, middle);
    fitting::put(b"\n", buffer, right)
}

// The rows of a sheet, and an empty line.
pub fn put_rows(figures: [u32; sheet::COUNT], buffer: &mut [u8], at: usize) -> usize
    requires { at + 2900 ≤ length buffer.old }
    ensures { Put buffer.old at (rows_part figures) buffer.new result × (result ≤ at + 2900) }
{
    let last = put_pairs(figures, buffer, at);
    fitting::put(b"\n", buffer, last)
}

fn put_pairs(figures: [u32; sheet::COUNT], buffer: &mut [u8], at: usize) -> usize
    requires { at + 2899 ≤ length buffer.old }
    ensures { Put buffer.old at (pairs_text figures 0 14) buffer.new result × (result ≤ at + 2899) }
{
    let mut end = at;
    for i in 0..LINES {
        end = put_pair(figures, i, buffer, end);
    }
    end
}

// Bytes shown as text, the bytes of figures, and the empty form (definition, sections 14.5 and 14.6).
ghost use Rattle.std.specs.Prelude.{◌+◌, ◌≤◌, ◌<◌, length};
ghost use Rattle.lines.specs.Lines.{Put};
ghost use Rattle.texts.specs.Shown.{row_line, rows_text, refused_text, read_text, shown_text, form_row, form_text, sheet_text};

use crate::SHEET_BYTES;
use laws::Refusal;
use lines::fitting;
use sheet::{ReadFault, Sheet};

// The bytes that the form is given.
pub const FORM_ROOM: usize = 20000;

// The line of a row, with its newline.
fn put_row(i: usize, figure: u32, buffer: &mut [u8], at: usize) -> usize
    requires { (i < 28) × (at + 85 ≤ length buffer.old) }
    ensures { Put buffer.old at (row_line i figure) buffer.new result × (result ≤ at + 85) }
{
    let end = typed::put_line(i, figure, buffer, at);
    fitting::put(b"\n", buffer, end)
}

// The rows of a sheet, each with its newline.
fn put_rows(figures: [u32; sheet::COUNT], buffer: &mut [u8], at: usize) -> usize
    requires { at + 2400 ≤ length buffer.old }
    ensures { Put buffer.old at (rows_text figures 0 28) buffer.new result }
{
    let mut end = at;
    for i in 0..typed::COUNT {
        end = put_row(i, crate::row_figure(figures, i), buffer, end);
    }
    end
}

// The line of bytes that are no sheet.
fn put_refused(fault: ReadFault, buffer: &mut [u8], at: usize) -> usize
    requires { at + 100 ≤ length buffer.old }
    ensures { Put buffer.old at (refused_text fault) buffer.new result }
{
    let number = fitting::put(b"refused ", buffer, at);
    let space = fitting::put_count(fault.number() as u64, buffer, number);
    let field = fitting::put(b" ", buffer, space);
    let end = fitting::put_count(fault.field() as u64, buffer, field);
    fitting::put(b"\n", buffer, end)
}

// What bytes are read as.
fn put_read(read: Result<Sheet, ReadFault>, buffer: &mut [u8], at: usize) -> usize
    requires { at + 2400 ≤ length buffer.old }
    ensures { Put buffer.old at (read_text read) buffer.new result }
{
    match read {
        Ok(sheet) => put_rows(sheet::figures_of(sheet), buffer, at),
        Err(fault) => put_refused(fault, buffer, at),
    }
}

// Bytes as the sheet of an index.
pub fn put_sheet(index: u64, bytes: &[u8], buffer: &mut [u8], at: usize) -> usize
    requires { at + 4096 ≤ length buffer.old }
    ensures { Put buffer.old at (shown_text index bytes.now) buffer.new result }
{
    let first = fitting::put(b"sheet ", buffer, at);
    let end = fitting::put_count(index, buffer, first);
    let rows = fitting::put(b"\n", buffer, end);
    put_read(sheet::read(bytes), buffer, rows)
}

// The bytes of a sheet's figures, nothing where they are no sheet's.
pub fn put_figures(figures: [u32; sheet::COUNT], buffer: &mut [u8], at: usize) -> usize
    requires { at + 28 ≤ length buffer.old }
    ensures { Put buffer.old at (sheet_text figures) buffer.new result }
{
    let made = sheet::sheet_from(figures);
    match made {
        Ok(sheet) => {
            // The figures are a sheet's, and its bytes fit: nothing is refused.
            let _ = sheet::write(sheet, &mut buffer[at..]);
            at + SHEET_BYTES
        }
        Err(_) => at,
    }
}

// A row of the form: what is expected, and the line with a blank.
fn put_form_row(i: usize, buffer: &mut [u8], at: usize) -> usize
    requires { at + 600 ≤ length buffer.old }
    ensures { Put buffer.old at (form_row i) buffer.new result × (result ≤ at + 600) }
{
    let first = fitting::put(b"# ", buffer, at);
    let second = typed::put_expected(i, buffer, first);
    let third = fitting::put(b"\n", buffer, second);
    let end = typed::put_blank(i, buffer, third);
    fitting::put(b"\n", buffer, end)
}

// The whole form.
pub fn put_form_rows(buffer: &mut [u8], at: usize) -> usize
    requires { at + 20000 ≤ length buffer.old }
    ensures { Put buffer.old at form_text buffer.new result }
{
    let head =
        b"# Put a figure or a word in the place of each _; the line above says which. A name may stand behind sheet.\nsheet\n";
    let mut end = fitting::put(head, buffer, at);
    for i in 0..typed::COUNT {
        end = put_form_row(i, buffer, end);
    }
    end
}

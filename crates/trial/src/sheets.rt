// Sheets read, made of figures, and written.
use crate::places;
use datum::{BelowLevel, Level};
use sheet::{COUNT, ReadFault, Sheet};

// The figures of a sheet; those that are missing are 0.
fn array_of(figures: &[u32]) -> [u32; COUNT] {
    let mut all = [0u32; COUNT];
    places::store(figures, &mut all, 0);
    all
}

// The figures of a sheet into the place and 0; or the refusal's number, and a hundred times the field that it names.
fn answer_of(answer: Result<Sheet, ReadFault>, place: &mut [u32]) -> u32 {
    match answer {
        Ok(sheet) => {
            places::store(&sheet::figures_of(sheet), place, 0);
            0
        }
        Err(fault) => places::refusal_of(fault),
    }
}

#[unsafe(no_mangle)]
pub extern "C" fn trial_read(bytes: &[u8], place: &mut [u32]) -> u32 {
    answer_of(sheet::read(bytes), place)
}

#[unsafe(no_mangle)]
pub extern "C" fn trial_make(figures: &[u32], place: &mut [u32]) -> u32 {
    answer_of(sheet::sheet_from(array_of(figures)), place)
}

// A sheet with one field set to any figure of its type, by the field's number: one of each type, and one of a pair. The bed
// is handed over plus 10,000: what lies below a level of 100 m.
fn with_figure(good: Sheet, field: u32, figure: u32) -> Sheet {
    let mut sheet = good;
    match field {
        1 => sheet.deadweight = figure,
        2 => sheet.draft = (figure % 65536) as u16,
        5 => sheet.speed = (figure % 256) as u8,
        6 => sheet.bed = datum::datum_depth(BelowLevel((figure % 65536) as u16), Level(10500)),
        25 => sheet.turn = (figure % 256) as u8,
        _ => {}
    }
    sheet
}

// Writes the sheet of 29 figures, with one field set to another figure: its number and that figure stand behind them.
#[unsafe(no_mangle)]
pub extern "C" fn trial_write(figures: &[u32], place: &mut [u8]) -> u32 {
    let Ok(good) = sheet::sheet_from(array_of(figures)) else {
        return 10000;
    };
    let field = places::figure_at(figures, COUNT);
    let figure = places::figure_at(figures, COUNT + 1);
    match sheet::write(with_figure(good, field, figure), place) {
        Ok(()) => 0,
        Err(fault) => places::refusal_of(fault),
    }
}

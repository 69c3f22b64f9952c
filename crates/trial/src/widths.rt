// The width and the bend of a stretch, by figures in the order of the sheet's fields, then the lanes and the sailing depth.
use crate::places;
use datum::{AlongCurrent, BelowLevel, CrossCurrent};
use width::{Entries, Items, Stretch, WidthFault};

fn entries_of(figures: &[u32]) -> Result<Entries, WidthFault> {
    width::entries_of(
        places::small_at(figures, 3),
        places::small_at(figures, 2),
        CrossCurrent(places::small_at(figures, 6)),
        places::short_at(figures, 8),
    )
}

fn stretch_of(figures: &[u32]) -> Stretch {
    Stretch {
        beam: places::short_at(figures, 0),
        draft: places::short_at(figures, 1),
        handling: places::small_at(figures, 4),
        wind: places::small_at(figures, 5),
        along: AlongCurrent(places::small_at(figures, 7)),
        aids: places::small_at(figures, 9),
        bottom: places::small_at(figures, 10),
        cargo: places::small_at(figures, 11),
        left: places::small_at(figures, 12),
        right: places::small_at(figures, 13),
        ships: places::short_at(figures, 14),
        lanes: places::lanes_of(places::figure_at(figures, 15)),
        sailing: BelowLevel(places::short_at(figures, 16)),
    }
}

fn in_order(items: Items) -> [u8; 12] {
    [
        items.lane,
        items.wind,
        items.cross,
        items.along,
        items.wave,
        items.aids,
        items.bed,
        items.depth,
        items.cargo,
        items.banks,
        items.passing,
        items.traffic,
    ]
}

// The twelve items, the width and the two classes into the place; 0, or 8.
#[unsafe(no_mangle)]
pub extern "C" fn trial_width(figures: &[u32], place: &mut [u32]) -> u32 {
    let stretch = stretch_of(figures);
    let entries = match entries_of(figures) {
        Ok(entries) => entries,
        Err(fault) => return places::refusal_of(fault),
    };
    let items = in_order(width::items_of(stretch, entries)).map(u32::from);
    let width = width::width_of(stretch, entries);
    let found = [
        width,
        u32::from(class::width_class(width, stretch.lanes)),
        u32::from(class::depth_class(stretch.sailing)),
    ];
    places::store(&items, &mut *place, 0);
    places::store(&found, place, 12);
    0
}

// Turn, radius, length, speed, lanes and deadweight: the widening and the ship's class into the place; 0, or 7.
#[unsafe(no_mangle)]
pub extern "C" fn trial_bend(figures: &[u32], place: &mut [u32]) -> u32 {
    let bend = width::bend_of(
        places::small_at(figures, 0),
        places::short_at(figures, 1),
        places::short_at(figures, 2),
        places::small_at(figures, 3),
        places::lanes_of(places::figure_at(figures, 4)),
    );
    let ship = class::ship_class(places::figure_at(figures, 5));
    let widening = bend.unwrap_or(0);
    places::store(&[widening, u32::from(ship)], place, 0);
    match bend {
        Ok(_) => 0,
        Err(fault) => places::refusal_of(fault),
    }
}

// Deadweight, width, lanes and sailing depth: the three classes into the place; 0.
#[unsafe(no_mangle)]
pub extern "C" fn trial_classes(figures: &[u32], place: &mut [u32]) -> u32 {
    let classes = class::classes_of(
        places::figure_at(figures, 0),
        places::figure_at(figures, 1),
        places::lanes_of(places::figure_at(figures, 2)),
        BelowLevel(places::short_at(figures, 3)),
    );
    let numbers = [classes.ship, classes.width, classes.depth].map(u32::from);
    places::store(&numbers, place, 0);
    0
}

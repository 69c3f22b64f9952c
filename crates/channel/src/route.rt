// The route: its sheets, how many are answered, and its class.
ghost use Rattle.std.specs.Prelude.{◌≡◌};
ghost use Rattle.channel.specs.Route.{no_sheets, with_sheet};

use design::{Figures, Reason};

// The route so far.
#[derive(Clone, Copy)]
pub struct Route {
    pub sheets: u64,
    pub answered: u64,
    pub class: u8,
}

impl Route {
    // The route before its first sheet.
    pub fn new() -> Route
        ensures { result ≡ no_sheets }
    {
        Route {
            sheets: 0,
            answered: 0,
            class: class::none_answered(),
        }
    }

    // The route with one more sheet.
    pub fn with_sheet(self, answer: Result<Figures, Reason>) -> Route
        ensures { result ≡ with_sheet self answer }
    {
        let sheets = record::one_more(self.sheets);
        match answer {
            Ok(figures) => Route {
                sheets,
                answered: record::one_more(self.answered),
                class: class::route_class(self.class, figures.classes.ship),
            },
            Err(_) => Route { sheets, ..self },
        }
    }
}

// The handles by which the tests call the rooms: numbers and slices, for a program in another language.
#![tactic(auto)]

mod depths;
mod designs;
mod gauges;
mod places;
mod sheets;
mod speeds;
mod widths;

//! Flow numbers of native rules: they fall in the rule order, and a rule keeps its number while there is room.
#![tactic(auto)]

mod insertion;
mod ladder;
mod numbered;
mod window;

pub use ladder::Ladder;
pub use numbered::{Numbered, Placed};
pub use window::least_window_law;

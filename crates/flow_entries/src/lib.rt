//! Flows: the packets that their fields match, what they do, and their texts.
#![tactic(auto)]

mod fields;
mod flow;
mod table;
mod writing;

pub use fields::Match;
pub use flow::{Bundle, Clause, Does, Flow};
pub use table::Table;
pub use writing::{write_flow, write_label, write_match};

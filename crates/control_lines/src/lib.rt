//! Reading control lines: what is ordered of the controller and of agents.
#![tactic(auto)]

mod control;
mod needed;
mod orders;
mod reading;
mod words;

pub use control::{Control, ControlLine, NodeOrder};
pub use reading::read_control;

//! The controller: the cluster, its groups, and what each stream of each node is told.
#![tactic(auto)]

mod applying;
mod controller;
mod following;
mod laws;
mod naming;
mod outcome;
mod side;
mod spread;
mod telling;
mod touched;
mod trying;
mod turns;

pub use controller::Controller;
pub use laws::{cuts_and_rejoins_keep_streams, lines_keep_streams, takes_keep_streams};
pub use node_streams::Trio;
pub use outcome::{Outcome, RejoinFault, StreamOf};

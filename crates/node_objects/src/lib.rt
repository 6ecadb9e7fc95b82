//! What belongs on the streams of a node, and what changes there, read from clusters and the indexes of their groups.
#![tactic(auto)]

mod changes;
mod members;
mod named;
mod objects;
mod spans;
mod touched;

pub use changes::push_touched;
pub use members::members_in;
pub use objects::objects_on;
pub use spans::egress_counts;
pub use touched::{Naming, TouchedName, all_touched};

//! Reading lines of JSON: objects of Kubernetes and Antrea, bare, in a List or in an event, and control lines.
#![tactic(auto)]

mod item;
mod kinds;
mod laws;
mod reader;

pub use control_lines::{Control, NodeOrder};
pub use item::LineItem;
pub use json_fields::ReadRefusal;
pub use laws::what_is_read_is_whole;
pub use reader::read_line;

//! Marks of the addresses that leave through a node's egress.
#![tactic(auto)]

mod marks;

pub use marks::Marks;

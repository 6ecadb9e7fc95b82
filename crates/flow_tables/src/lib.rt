//! The flow tables of a switch, and which flow of a table a packet hits.
#![tactic(auto)]

mod class;
mod index;
mod lookup;
mod place;
mod tables;

pub use tables::Tables;

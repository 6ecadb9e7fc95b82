//! Reading pods, with their addresses and the ports that their containers name.
#![tactic(auto)]

mod containers;
mod entries;
mod laws;
mod pods;

pub use laws::pods_are_whole;
pub use pods::{pod_fault, pod_key, pod_value};

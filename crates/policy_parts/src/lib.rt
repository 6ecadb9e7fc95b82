//! Reading the parts of policies that are no groups of pods: ports, actions, directions, tiers and priorities.
#![tactic(auto)]

mod actions;
mod directions;
mod places;
mod port_words;
mod ports;

pub use actions::given_action;
pub use directions::{has_egress, has_ingress, types_fault, types_of};
pub use places::{is_in_baseline, priority_fault, priority_value, tier_fault, tier_name};
pub use port_words::{is_port_name, protocol_of};
pub use ports::{names_of, ports_fault, services_of};

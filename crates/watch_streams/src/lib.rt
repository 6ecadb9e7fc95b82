//! What a controller tells the agents of nodes, and what agents hold of it.
#![tactic(auto)]

mod in_order;
mod laws;
mod member_sets;
mod message;
mod net;
mod port;
mod queue;
mod rule_changes;

pub use in_order::sorted;
pub use laws::{
    block_order_is_exact, messages_lead_to_the_new_map, messages_name_once,
    one_revision_is_the_policies_verdict, policies_on_streams_are_whole, projections_are_maps,
    resolved_order_is_exact, streams_lead_on,
};
pub use member_sets::{ascending_members, patched_members, sort_once};
pub use message::{Changes, Msg, Objects, StreamChange, StreamName, StreamObject};
pub use net::{HeldMember, NetEgress, NetPeers, NetPolicy, NetRule};
pub use port::Port;
pub use queue::QueuePort;
pub use rule_changes::{
    Choice, ChoiceChange, IsolationChange, MarkChange, Resolved, RuleChanges, RuleParts,
};

#[cfg(test)]
mod tests;

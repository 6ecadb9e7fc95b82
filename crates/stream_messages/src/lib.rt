//! What nodes are told of policies, Egresses and groups, how what belongs on a stream changes, and what holds of the messages
//! on a stream.
#![tactic(auto)]

mod changes;
mod groups;
mod laws;
mod members;
mod named;
mod net;

pub use changes::{changes_between, push_change};
pub use groups::{copy_groups, policy_groups};
pub use laws::{
    one_revision_is_the_policies_verdict, parts_are_streams, streams_begin_empty, streams_go_on,
};
pub use named::{TitledName, groups_by_text, names_by_text, sorted_by_name};
pub use net::{net_egress, net_policy};

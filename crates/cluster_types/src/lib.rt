//! The objects of a cluster and what they mean: which pods count, who is in a group, which rules match a question,
//! and how a verdict is found.
#![tactic(auto)]

mod change;
mod egress;
mod node;
mod pod;
mod policy;
mod references;
mod steps;

pub use change::{Change, Object, ObjectKey};
pub use egress::EgressObj;
pub use node::{Namespace, NodeInfo};
pub use pod::Pod;
pub use policy::{Block, Peer, Policy, Rule, Tier};
pub use references::{ClusterGroup, GroupBody, Pool, PooledEgress, Range, RefItem, RefPolicy};
pub use steps::{
    BASELINE_TIER, KUBE_TIER, Ruling, Stage, allowed_by_default, allowed_first, decided_first,
    earlier, first_rule_is_least, is_kube,
};

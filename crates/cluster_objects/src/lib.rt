//! The cluster: its objects in order, what a change does to it, and why a change is refused.
#![tactic(auto)]

mod addresses;
mod change;
mod cluster;
mod forms;
mod kinds;
mod laws;
mod pods;
mod room;
mod totals;

pub use addresses::address_has_one_pod;
pub use change::{Applied, ClusterRefusal, Kept, Undo};
pub use cluster::{Cluster, NAME_LABEL};
pub use cluster_types::{
    BASELINE_TIER, Block, Change, ClusterGroup, EgressObj, GroupBody, KUBE_TIER, Namespace,
    NodeInfo, Object, ObjectKey, Peer, Pod, Policy, Pool, PooledEgress, Range, RefItem, RefPolicy,
    Rule, Ruling, Stage, Tier, allowed_by_default, allowed_first, decided_first, earlier,
    first_rule_is_least, is_kube,
};
pub use laws::{
    address_has_one_node, changes_keep_clusters, changes_leave_the_rest, marks_suffice,
    undoes_take_back,
};
pub use totals::Total;

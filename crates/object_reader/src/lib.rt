//! Reading the objects that are neither pods nor policies: nodes, namespaces, tiers, Egresses, cluster groups and pools;
//! and what pods and policies have in common with them.
#![tactic(auto)]

mod blocks;
mod egresses;
mod groups;
mod laws;
mod nodes;
mod pools;
mod texts;
mod tiers;

pub use blocks::{block_fault, block_value};
pub use egresses::{egress_fault, egress_item};
pub use groups::{
    cluster_group, group_fault, group_value, has_namespace_selector, has_selector,
    namespace_selector, pod_selector, selectors_fault,
};
pub use laws::{egresses_are_whole, groups_are_whole, nodes_are_whole};
pub use nodes::{
    metadata_of, name_of, namespace_fault, namespace_name, namespace_value, node_fault, node_value,
    spec_of,
};
pub use pools::{pool_fault, pool_value};
pub use texts::{four_of, has_colon, read_address, read_block, six_of};
pub use tiers::{tier_fault, tier_value};

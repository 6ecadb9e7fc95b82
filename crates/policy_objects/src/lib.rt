//! Reading policies: those of Kubernetes, and those of Antrea for a namespace and for the whole cluster.
#![tactic(auto)]

mod applied;
mod kube;
mod laws;
mod native;
mod peers;
mod rules;

pub use kube::{key_in_namespace, kube_policy_fault, kube_policy_value};
pub use laws::policies_are_whole;
pub use native::{
    antrea_policy_fault, antrea_policy_value, cluster_key, cluster_policy_fault,
    cluster_policy_value,
};

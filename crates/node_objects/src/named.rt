//! The policy and the Egress that stand on a stream of a node under one name.
ghost use Rattle.std.specs.Prelude.{◌≡◌, ◌≢◌, [], IfOk, Some, option_map};
ghost use Rattle.cl_types.specs.AscendingLaws.{passed};
ghost use Rattle.node_objects.specs.UnderName.{egress_under, policy_under};
ghost use Rattle.node_objects.specs.Indexed.{is_egress_on, is_policy_on};
ghost use Rattle.touched_names.specs.Standing.{egress_object, policy_object};
ghost use Rattle.watch_streams.specs.Net.{IsNetPolicy};
ghost use Rattle.watch_streams.specs.Projection.{net_policy};

use crate::spans::{is_egress_on, is_policy_on};
use cl_types::{NoMemory, PolicyKey, Text, find};
use cluster_objects::Cluster;
use cluster_types::{EgressObj, Policy};
use group_index::GroupIndex;
use std::alloc::Global;
use stream_messages::{net_egress, net_policy};
use watch_streams::StreamObject;

fn policy_if_on(
    alloc: Global,
    groups: &GroupIndex,
    node: &Text,
    policy: &Policy,
) -> Result<Option<StreamObject>, NoMemory>
    requires { policy.now.applied ≢ [] → IsNetPolicy (net_policy policy.now) }
    ensures { IfOk result (λ object. object ≡ option_map policy_object (passed (is_policy_on groups.now node.now) (Some policy.now))) }
{
    if is_policy_on(groups, node, policy) {
        Ok(Some(StreamObject::Policy(net_policy(alloc, policy)?)))
    } else {
        Ok(None)
    }
}

/// The policy of the key, where it concerns the node.
pub(crate) fn policy_under(
    alloc: Global,
    c: &Cluster,
    groups: &GroupIndex,
    node: &Text,
    key: &PolicyKey,
) -> Result<Option<StreamObject>, NoMemory>
    ensures { IfOk result (λ object. object ≡ policy_under c.now.cluster groups.now node.now key.now) }
{
    c.keeps_its_form();
    watch_streams::policies_on_streams_are_whole();
    let Some(policy) = find(c.policies(), key) else {
        return Ok(None);
    };
    let object = policy_if_on(alloc, groups, node, policy)?;
    Ok(object)
}

fn egress_if_on(
    c: &Cluster,
    groups: &GroupIndex,
    node: &Text,
    egress: &EgressObj,
) -> Result<Option<StreamObject>, NoMemory>
    ensures { IfOk result (λ object. object ≡ option_map egress_object (passed (is_egress_on c.now.cluster groups.now node.now) (Some egress.now))) }
{
    if is_egress_on(c, groups, node, egress) {
        Ok(Some(StreamObject::Egress(net_egress(egress)?)))
    } else {
        Ok(None)
    }
}

/// The Egress of the name, where it concerns the node.
pub(crate) fn egress_under(
    c: &Cluster,
    groups: &GroupIndex,
    node: &Text,
    name: &Text,
) -> Result<Option<StreamObject>, NoMemory>
    ensures { IfOk result (λ object. object ≡ egress_under c.now.cluster groups.now node.now name.now) }
{
    c.keeps_its_form();
    let Some(egress) = find(c.egresses(), name) else {
        return Ok(None);
    };
    let object = egress_if_on(c, groups, node, egress)?;
    Ok(object)
}

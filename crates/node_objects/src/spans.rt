//! Which policies and Egresses concern a node.
ghost use Rattle.std.specs.Prelude.{◌≡◌};
ghost use Rattle.std.specs.List.{list_any};
ghost use Rattle.cl_types.specs.Text.{text_eq};
ghost use Rattle.cluster_types.specs.Choice.{egress_counts};
ghost use Rattle.node_objects.specs.Indexed.{is_egress_on, is_policy_on};
ghost use Rattle.node_objects.specs.Touched.{some_on};

use cl_types::Text;
use cluster_objects::Cluster;
use cluster_types::{EgressObj, NodeInfo, Policy};
use group_index::GroupIndex;
use label_select::GroupKey;

/// Whether a member of one of the groups is on the node.
pub(crate) fn some_on(groups: &GroupIndex, node: &Text, applied: &[GroupKey]) -> bool
    ensures { result ≡ some_on groups.now node.now applied.now }
{
    applied.iter().any(|g| groups.is_on(g, node))
}

/// Whether the policy applies to a member on the node.
pub(crate) fn is_policy_on(groups: &GroupIndex, node: &Text, policy: &Policy) -> bool
    ensures { result ≡ is_policy_on groups.now node.now policy.now }
{
    some_on(groups, node, policy.applied.as_slice())
}

fn is_listed(nodes: &[NodeInfo], name: &Text) -> bool
    ensures { result ≡ list_any (λ n. text_eq n.name name.now) nodes.now }
{
    nodes.iter().any(|n| n.name == *name)
}

/// Whether the node of the Egress is listed.
pub fn egress_counts(c: &Cluster, egress: &EgressObj) -> bool
    ensures { result ≡ egress_counts c.now.cluster egress.now }
{
    is_listed(c.nodes(), &egress.node)
}

/// Whether the Egress counts, and leaves by the node or selects a member on it.
pub(crate) fn is_egress_on(
    c: &Cluster,
    groups: &GroupIndex,
    node: &Text,
    egress: &EgressObj,
) -> bool
    ensures { result ≡ is_egress_on c.now.cluster groups.now node.now egress.now }
{
    egress_counts(c, egress) && (egress.node == *node || groups.is_on(&egress.applied, node))
}

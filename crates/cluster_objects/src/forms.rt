//! What the types of a change's parts keep, for proofs: these functions do nothing.
ghost use Rattle.std.specs.Prelude.{◌≡◌};
ghost use Rattle.std.specs.List.{AllByRecursion};
ghost use Rattle.std.specs.Option.{ForSome};
ghost use Rattle.cl_types.specs.PolicyName.{IsPolicyName};
ghost use Rattle.cl_types.specs.Prefix.{PrefixData, IsBlock};
ghost use Rattle.label_select.specs.Group.{IsGroup};
ghost use Rattle.cluster_types.specs.Whole.{IsWholeNode, IsWholePod, IsWholePeer, IsWholeRule, IsWholePolicy};

use cl_types::{PolicyKey, Prefix};
use cluster_types::{NodeInfo, Peer, Pod, Policy, Rule};
use label_select::{GroupKey, group_form, labels_form};

/// A part of a policy whose type keeps something.
pub(crate) trait Formed {
    ghost form: { Self → Type 0 };

    fn form(&self)
        ensures { form self.now };
}

impl Formed for GroupKey {
    ghost form = { IsGroup };

    fn form(&self) {
        group_form(self);
    }
}

impl Formed for Peer {
    ghost form = { IsWholePeer };

    fn form(&self) {
        if let Peer::Group(group) = self {
            group_form(group);
        }
    }
}

impl Formed for Rule {
    ghost form = { IsWholeRule };

    fn form(&self) {
        if let Some(peers) = &self.peers {
            each_form(peers.as_slice());
        }
    }
}

fn each_form<T: Formed>(items: &[T])
    ensures { AllByRecursion T.form items.now }
{
    for item in items {
        item.form();
    }
}

fn name_form(key: &PolicyKey)
    ensures { IsPolicyName key.now.kind key.now.namespace key.now.name }
{
    let _kind = key.kind;
}

pub(crate) fn policy_form(policy: &Policy)
    ensures { IsWholePolicy policy.now }
{
    name_form(&policy.key);
    each_form(policy.applied.as_slice());
    each_form(policy.rules.as_slice());
}

fn block_form(block: &Prefix)
    ensures { IsBlock block.now.base block.now.len }
{
    let _base = block.base;
}

fn other_block_form(block: &Option<Prefix>)
    ensures { ForSome block.now (λ (b : PrefixData). IsBlock b.base b.len) }
{
    if let Some(block) = block {
        block_form(block);
    }
}

pub(crate) fn node_form(node: &NodeInfo)
    ensures { IsWholeNode node.now }
{
    block_form(&node.cidr);
    other_block_form(&node.cidr6);
}

pub(crate) fn pod_form(pod: &Pod)
    ensures { IsWholePod pod.now }
{
    labels_form(&pod.labels);
}

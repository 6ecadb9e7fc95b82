ghost use Rattle.std.proofs.Common.{rules};
ghost use Rattle.std.proofs.lemmas.Grind.{common_steps};
ghost use Rattle.std.specs.Prelude.{◌≡◌, IfOk, refl};
ghost use Rattle.std.specs.Ordering.{as_partial_cmp, eq_by_cmp};
ghost use Rattle.std.specs.Cmp.{partial_order_from_agreeing_total, partial_equiv_from_equiv, eq_by_cmp_equiv};
ghost use Rattle.cl_types.specs.RuleOrder.{kind_place, pod_order, pod_order_total, policy_order, policy_order_total, rule_order, rule_order_total};
ghost use Rattle.cl_types.specs.Dir.{dir_place};

use crate::copies::Copies;
use crate::memory::NoMemory;
use crate::same::Same;
use crate::text::Text;
use std::cmp::Ordering;
use std::marker::Model;

/// A pod's name in its namespace.
#[derive(Clone, Debug, Drop)]
pub struct PodKey {
    pub namespace: Text,
    pub name: Text,
}

/// By the bytes of namespace and name.
impl Ord for PodKey {
    ghost cmp = { pod_order };

    ghost total = { pod_order_total };

    ghost matches_partial_cmp = { λ a b. refl };

    ghost matches_eq = { λ a b. refl };

    fn cmp(&self, other: &PodKey) -> Ordering {
        self.namespace
            .cmp(&other.namespace)
            .then(self.name.cmp(&other.name))
    }
}

impl PartialOrd for PodKey {
    ghost partial_cmp = { as_partial_cmp pod_order };

    ghost laws = { partial_order_from_agreeing_total pod_order pod_order_total (λ a b. refl) (λ a b. refl) };

    fn partial_cmp(&self, other: &PodKey) -> Option<Ordering> {
        Some(self.cmp(other))
    }
}

impl PartialEq for PodKey {
    ghost eq = { eq_by_cmp pod_order };

    ghost laws = { partial_equiv_from_equiv (eq_by_cmp_equiv pod_order_total) };

    fn eq(&self, other: &PodKey) -> bool {
        self.cmp(other).is_eq()
    }
}

impl Eq for PodKey {
    ghost laws = { eq_by_cmp_equiv pod_order_total };
}

impl Copies for PodKey {
    ghost exact = { λ x y h. Prim.search (rules, common_steps) };
}

impl Same for PodKey {
    fn same(&self, other: &PodKey) -> bool {
        self.namespace.same(&other.namespace) && self.name.same(&other.name)
    }
}

/// Where a policy comes from: an Antrea ClusterNetworkPolicy, an Antrea NetworkPolicy or a Kubernetes
/// NetworkPolicy. Their order here is the order in which kinds stand in the rule order.
#[derive(Clone, Copy, Debug, PartialEq, Eq, PartialOrd, Ord)]
pub enum PolicyKind {
    Cluster,
    Antrea,
    Kube,
}

impl PolicyKind {
    fn place(self) -> u8
        ensures { result ≡ kind_place self }
    {
        match self {
            PolicyKind::Cluster => 0,
            PolicyKind::Antrea => 1,
            PolicyKind::Kube => 2,
        }
    }
}

/// A policy's kind and name. Neither text has the byte `/`, and the namespace is empty for a
/// ClusterNetworkPolicy alone, so that different keys print differently.
#[derive(Clone, Debug, Drop)]
pub struct PolicyKey {
    pub kind: PolicyKind,
    pub namespace: Text,
    pub name: Text,
}

impl Model for PolicyKey {
    ghost use Rattle.cl_types.specs.PolicyName.{PolicyName, IsPolicyName};

    ghost Value = { PolicyName };

    ghost view = { λ k. record { kind = k.kind; namespace = k.namespace; name = k.name } };

    ghost invariant = { λ k. IsPolicyName k.kind k.namespace k.name };

    ghost inverse = { λ k. record { kind = k.kind; namespace = k.namespace; name = k.name } };
}

/// By kind, then by the bytes of namespace and name.
impl Ord for PolicyKey {
    ghost cmp = { policy_order };

    ghost total = { policy_order_total };

    ghost matches_partial_cmp = { λ a b. refl };

    ghost matches_eq = { λ a b. refl };

    fn cmp(&self, other: &PolicyKey) -> Ordering {
        self.kind
            .place()
            .cmp(&other.kind.place())
            .then(self.namespace.cmp(&other.namespace))
            .then(self.name.cmp(&other.name))
    }
}

impl PartialOrd for PolicyKey {
    ghost partial_cmp = { as_partial_cmp policy_order };

    ghost laws = { partial_order_from_agreeing_total policy_order policy_order_total (λ a b. refl) (λ a b. refl) };

    fn partial_cmp(&self, other: &PolicyKey) -> Option<Ordering> {
        Some(self.cmp(other))
    }
}

impl PartialEq for PolicyKey {
    ghost eq = { eq_by_cmp policy_order };

    ghost laws = { partial_equiv_from_equiv (eq_by_cmp_equiv policy_order_total) };

    fn eq(&self, other: &PolicyKey) -> bool {
        self.cmp(other).is_eq()
    }
}

impl Eq for PolicyKey {
    ghost laws = { eq_by_cmp_equiv policy_order_total };
}

impl Copies for PolicyKey {
    ghost exact = { λ x y h. Prim.search (rules, common_steps) };
}

impl Same for PolicyKey {
    fn same(&self, other: &PolicyKey) -> bool {
        self.kind == other.kind
            && self.namespace.same(&other.namespace)
            && self.name.same(&other.name)
    }
}

/// The direction of traffic as the pod sees it.
#[derive(Clone, Copy, Debug, PartialEq, Eq, PartialOrd, Ord)]
pub enum Dir {
    Ingress,
    Egress,
}

impl Dir {
    fn place(self) -> u8
        ensures { result ≡ dir_place self }
    {
        match self {
            Dir::Ingress => 0,
            Dir::Egress => 1,
        }
    }
}

impl Dir {
    ghost use Rattle.std.specs.Prelude.{◌≡◌};
    ghost use Rattle.cl_types.specs.Dir.{dir_eq};

    /// Whether the two are one direction.
    pub fn is(self, other: Dir) -> bool
        ensures { result ≡ dir_eq self other }
    {
        self == other
    }
}

/// What orders and names a rule. A Kubernetes rule has tier 255 and priority 0; `index` counts from 0 in
/// the list of the rule's direction.
#[derive(Clone, Debug, Drop)]
pub struct RuleKey {
    pub tier: u16,
    pub priority: u16,
    pub policy: PolicyKey,
    pub dir: Dir,
    pub index: u32,
}

/// By tier, priority, policy, direction and index.
impl Ord for RuleKey {
    ghost cmp = { rule_order };

    ghost total = { rule_order_total };

    ghost matches_partial_cmp = { λ a b. refl };

    ghost matches_eq = { λ a b. refl };

    fn cmp(&self, other: &RuleKey) -> Ordering {
        self.tier
            .cmp(&other.tier)
            .then(self.priority.cmp(&other.priority))
            .then(self.policy.cmp(&other.policy))
            .then(self.dir.place().cmp(&other.dir.place()))
            .then(self.index.cmp(&other.index))
    }
}

impl PartialOrd for RuleKey {
    ghost partial_cmp = { as_partial_cmp rule_order };

    ghost laws = { partial_order_from_agreeing_total rule_order rule_order_total (λ a b. refl) (λ a b. refl) };

    fn partial_cmp(&self, other: &RuleKey) -> Option<Ordering> {
        Some(self.cmp(other))
    }
}

impl PartialEq for RuleKey {
    ghost eq = { eq_by_cmp rule_order };

    ghost laws = { partial_equiv_from_equiv (eq_by_cmp_equiv rule_order_total) };

    fn eq(&self, other: &RuleKey) -> bool {
        self.cmp(other).is_eq()
    }
}

impl Eq for RuleKey {
    ghost laws = { eq_by_cmp_equiv rule_order_total };
}

impl Copies for RuleKey {
    ghost exact = { λ x y h. Prim.search (rules, common_steps) };
}

impl Same for RuleKey {
    fn same(&self, other: &RuleKey) -> bool {
        self.tier == other.tier
            && self.priority == other.priority
            && self.policy.same(&other.policy)
            && self.dir == other.dir
            && self.index == other.index
    }
}

/// The rule order: the lesser of two rules is looked at first.
pub fn rule_cmp(a: &RuleKey, b: &RuleKey) -> Ordering
    ensures { result ≡ rule_order a.now b.now }
{
    a.cmp(b)
}

#[cfg(test)]
mod tests;

ghost use Rattle.std.proofs.Common.{rules};
ghost use Rattle.std.proofs.lemmas.Grind.{common_steps};
ghost use Rattle.std.specs.Prelude.{◌≡◌, IfOk, IsTrue, ◌↔◌};

use crate::steps::Ruling;
use cl_types::{
    Action, Copies, Keyed, List, NoMemory, PolicyKey, PortName, Prefix, RuleKey, Same, Service,
    Text,
};
use label_select::GroupKey;
use std::marker::Model;

/// A tier of native policies. A lower number is looked at first.
#[derive(Clone, Debug, Drop)]
pub struct Tier {
    pub name: Text,
    pub priority: u16,
}

impl Model for Tier {
    ghost use Rattle.cluster_types.specs.Tier.{TierData};

    ghost Value = { TierData };

    ghost view = { λ x. record { name = x.name; priority = x.priority } };
}

impl Keyed for Tier {
    type Key = u16;

    ghost key = { λ t. t.priority };

    fn key(&self) -> &u16 {
        &self.priority
    }
}

impl Copies for Tier {
    ghost exact = { λ x y h. Prim.search (rules, common_steps) };
}

impl Same for Tier {
    fn same(&self, other: &Tier) -> bool {
        self.name.same(&other.name) && self.priority == other.priority
    }
}

/// A block of peers: the addresses in `cidr` that are in no except.
#[derive(Clone, Debug, Drop)]
pub struct Block {
    pub cidr: Prefix,
    pub excepts: List<Prefix>,
}

impl Copies for Block {
    ghost exact = { λ x y h. Prim.search (rules, common_steps) };
}

impl Same for Block {
    fn same(&self, other: &Block) -> bool {
        self.cidr.same(&other.cidr) && self.excepts.same(&other.excepts)
    }
}

/// Whom a rule lets speak with a pod. `Never` is nobody.
#[derive(Clone, Debug, Drop)]
pub enum Peer {
    Group(GroupKey),
    Block(Block),
    Never,
}

impl Copies for Peer {
    ghost exact = { λ x y h. Prim.search (rules, common_steps) };
}

impl Same for Peer {
    fn same(&self, other: &Peer) -> bool {
        match (self, other) {
            (Peer::Group(a), Peer::Group(b)) => a.same(b),
            (Peer::Block(a), Peer::Block(b)) => a.same(b),
            (Peer::Never, Peer::Never) => true,
            _ => false,
        }
    }
}

/// A rule of a policy. Without `peers` it is for every peer; without `services` it matches all traffic.
/// Where its policy names ports, `services` is there, perhaps empty, and `named` has the ports given by name.
#[derive(Clone, Debug, Drop)]
pub struct Rule {
    pub key: RuleKey,
    pub action: Action,
    pub peers: Option<List<Peer>>,
    pub services: Option<List<Service>>,
    pub named: List<PortName>,
}

impl Copies for Rule {
    ghost exact = { λ x y h. Prim.search (rules, common_steps) };
}

impl Same for Rule {
    fn same(&self, other: &Rule) -> bool {
        self.key.same(&other.key)
            && self.action == other.action
            && self.peers.same(&other.peers)
            && self.services.same(&other.services)
            && self.named.same(&other.named)
    }
}

impl Ruling for Rule {
    ghost use Rattle.cluster_types.specs.Evaluation.{rule_key, rule_action};

    ghost rule_key = { rule_key };

    ghost rule_action = { rule_action };

    fn rule_key(&self) -> &RuleKey {
        &self.key
    }

    fn action(&self) -> Action {
        self.action
    }
}

/// A policy. A Kubernetes policy has an empty `tier` and priority 0; `isolates_in` and `isolates_out` are
/// its directions. A native policy isolates nobody.
#[derive(Clone, Debug, Drop)]
pub struct Policy {
    pub key: PolicyKey,
    pub tier: Text,
    pub priority: u16,
    pub applied: List<GroupKey>,
    pub isolates_in: bool,
    pub isolates_out: bool,
    pub rules: List<Rule>,
}

impl Model for Policy {
    ghost use Rattle.cluster_types.specs.Policy.{PolicyData, IsPolicy};

    ghost Value = { PolicyData };

    ghost view = { λ p. record { key = p.key; tier = p.tier; priority = p.priority; applied = p.applied; isolates_in = p.isolates_in; isolates_out = p.isolates_out; rules = p.rules } };

    ghost invariant = { λ p. IsPolicy (record { key = p.key; tier = p.tier; priority = p.priority; applied = p.applied; isolates_in = p.isolates_in; isolates_out = p.isolates_out; rules = p.rules }) };
}

impl Keyed for Policy {
    type Key = PolicyKey;

    ghost key = { λ p. p.key };

    fn key(&self) -> &PolicyKey {
        &self.key
    }
}

impl Copies for Policy {
    ghost exact = { λ x y h. Prim.search (rules, common_steps) };
}

impl Same for Policy {
    fn same(&self, other: &Policy) -> bool {
        self.key.same(&other.key)
            && self.tier.same(&other.tier)
            && self.priority == other.priority
            && self.applied.same(&other.applied)
            && self.isolates_in == other.isolates_in
            && self.isolates_out == other.isolates_out
            && self.rules.same(&other.rules)
    }
}

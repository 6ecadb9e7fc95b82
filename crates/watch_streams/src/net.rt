ghost use Rattle.std.proofs.Common.{rules};
ghost use Rattle.std.proofs.lemmas.Grind.{common_steps};
ghost use Rattle.std.specs.Prelude.{◌≡◌, IfOk, IsTrue, ◌↔◌};
ghost use Rattle.watch_streams.specs.HeldEvaluation.{net_rule_key, net_rule_action};

use cl_types::{
    Action, Addr, Copies, Keyed, List, NamedPort, NoMemory, PolicyKey, PortName, RuleKey, Same,
    Service, Text,
};
use cluster_types::{Block, Ruling};
use label_select::GroupKey;
use std::marker::Model;

/// The peers of a rule: the members of its groups, by ascending text without repeats, and the addresses of
/// its blocks, in the policy's order.
#[derive(Clone, Debug, Drop)]
pub struct NetPeers {
    pub groups: List<GroupKey>,
    pub blocks: List<Block>,
}

impl Copies for NetPeers {
    ghost exact = { λ x y h. Prim.search (rules, common_steps) };
}

impl Same for NetPeers {
    fn same(&self, other: &NetPeers) -> bool {
        self.groups.same(&other.groups) && self.blocks.same(&other.blocks)
    }
}

/// A rule as agents are told it. Without `peers` it is for every peer, and without `services` it matches all traffic.
#[derive(Clone, Debug, Drop)]
pub struct NetRule {
    pub key: RuleKey,
    pub action: Action,
    pub peers: Option<NetPeers>,
    pub services: Option<List<Service>>,
    pub named: List<PortName>,
}

impl Copies for NetRule {
    ghost exact = { λ x y h. Prim.search (rules, common_steps) };
}

impl Same for NetRule {
    fn same(&self, other: &NetRule) -> bool {
        self.key.same(&other.key)
            && self.action == other.action
            && self.peers.same(&other.peers)
            && self.services.same(&other.services)
            && self.named.same(&other.named)
    }
}

impl Ruling for NetRule {
    ghost rule_key = { net_rule_key };

    ghost rule_action = { net_rule_action };

    fn rule_key(&self) -> &RuleKey {
        &self.key
    }

    fn action(&self) -> Action {
        self.action
    }
}

/// A policy as agents are told it, with groups in place of selectors. Its rules stand in the rule order.
#[derive(Clone, Debug, Drop)]
pub struct NetPolicy {
    pub key: PolicyKey,
    pub applied: List<GroupKey>,
    pub isolates_in: bool,
    pub isolates_out: bool,
    pub rules: List<NetRule>,
}

impl Model for NetPolicy {
    ghost use Rattle.watch_streams.specs.Net.{NetPolicyData, IsNetPolicy};

    ghost Value = { NetPolicyData };

    ghost view = { λ p. record { key = p.key; applied = p.applied; isolates_in = p.isolates_in; isolates_out = p.isolates_out; rules = p.rules } };

    ghost invariant = { λ p. IsNetPolicy (record { key = p.key; applied = p.applied; isolates_in = p.isolates_in; isolates_out = p.isolates_out; rules = p.rules }) };
}

impl Copies for NetPolicy {
    ghost exact = { λ x y h. Prim.search (rules, common_steps) };
}

impl Same for NetPolicy {
    fn same(&self, other: &NetPolicy) -> bool {
        self.key.same(&other.key)
            && self.applied.same(&other.applied)
            && self.isolates_in == other.isolates_in
            && self.isolates_out == other.isolates_out
            && self.rules.same(&other.rules)
    }
}

/// An Egress as agents are told it: traffic of the group's pods out of the cluster leaves with `address` by
/// `node`.
#[derive(Clone, Debug, Drop)]
pub struct NetEgress {
    pub name: Text,
    pub address: Addr,
    pub node: Text,
    pub applied: GroupKey,
}

impl Model for NetEgress {
    ghost use Rattle.watch_streams.specs.Net.{NetEgressData};

    ghost Value = { NetEgressData };

    ghost view = { λ e. record { name = e.name; address = e.address; node = e.node; applied = e.applied } };
}

impl Copies for NetEgress {
    ghost exact = { λ x y h. Prim.search (rules, common_steps) };
}

impl Same for NetEgress {
    fn same(&self, other: &NetEgress) -> bool {
        self.name.same(&other.name)
            && self.address.same(&other.address)
            && self.node.same(&other.node)
            && self.applied.same(&other.applied)
    }
}

/// A member of a group: an address, and the ports that its pod names, by name and protocol without a repeat.
#[derive(Clone, Debug, Drop)]
pub struct HeldMember {
    pub address: Addr,
    pub ports: List<NamedPort>,
}

impl Model for HeldMember {
    ghost use Rattle.cl_types.specs.Ascending.{Ascends};
    ghost use Rattle.cluster_types.specs.Pod.{port_order};
    ghost use Rattle.watch_streams.specs.Net.{MemberData};

    ghost Value = { MemberData };

    ghost view = { λ m. record { address = m.address; ports = m.ports } };

    ghost invariant = { λ m. Ascends (λ p. p) port_order m.ports };
}

impl Copies for HeldMember {
    ghost exact = { λ x y h. Prim.search (rules, common_steps) };
}

impl Same for HeldMember {
    fn same(&self, other: &HeldMember) -> bool {
        self.address.same(&other.address) && self.ports.same(&other.ports)
    }
}

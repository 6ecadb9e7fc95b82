//! What changes of the rules, isolation, Egresses and marks of a node.
ghost use Rattle.std.proofs.Common.{rules};
ghost use Rattle.std.proofs.lemmas.Grind.{common_steps};
ghost use Rattle.std.specs.Prelude.{◌≡◌, IfOk, IsTrue, ◌↔◌, refl};
ghost use Rattle.std.specs.Cmp.{partial_order_from_agreeing_total, partial_equiv_from_equiv, eq_by_cmp_equiv};
ghost use Rattle.std.specs.Ordering.{as_partial_cmp, eq_by_cmp};
ghost use Rattle.watch_streams.specs.PartOrders.{resolved_order, resolved_order_total};

use crate::member_sets::proto_place;
use cl_types::{
    Action, Addr, Copies, Dir, Keyed, List, NoMemory, Prefix, Proto, RuleKey, Same, Service, Text,
};
use std::cmp::Ordering;

/// A port that a named port stands for at the pod with an address.
#[derive(Clone, Copy, Debug)]
pub struct Resolved {
    pub address: Addr,
    pub proto: Proto,
    pub port: u16,
}

/// By address, then by protocol and port.
impl Ord for Resolved {
    ghost cmp = { resolved_order };

    ghost total = { resolved_order_total };

    ghost matches_partial_cmp = { λ a b. refl };

    ghost matches_eq = { λ a b. refl };

    fn cmp(&self, other: &Resolved) -> Ordering {
        self.address
            .cmp(&other.address)
            .then(proto_place(self.proto).cmp(&proto_place(other.proto)))
            .then(self.port.cmp(&other.port))
    }
}

impl PartialOrd for Resolved {
    ghost partial_cmp = { as_partial_cmp resolved_order };

    ghost laws = { partial_order_from_agreeing_total resolved_order resolved_order_total (λ a b. refl) (λ a b. refl) };

    fn partial_cmp(&self, other: &Resolved) -> Option<Ordering> {
        Some(self.cmp(other))
    }
}

impl PartialEq for Resolved {
    ghost eq = { eq_by_cmp resolved_order };

    ghost laws = { partial_equiv_from_equiv (eq_by_cmp_equiv resolved_order_total) };

    fn eq(&self, other: &Resolved) -> bool {
        self.cmp(other).is_eq()
    }
}

impl Eq for Resolved {
    ghost laws = { eq_by_cmp_equiv resolved_order_total };
}

impl Copies for Resolved {
    ghost exact = { λ x y h. Prim.search (rules, common_steps) };
}

impl Same for Resolved {
    fn same(&self, other: &Resolved) -> bool {
        self.address.same(&other.address) && self.proto == other.proto && self.port == other.port
    }
}

/// A complete rule and what it matches: the addresses of the pods to which it applies, those of its peers as
/// blocks, its services, and the ports that its named ports stand for. Without `peers` it is for every peer,
/// and without `services` it matches all traffic.
#[derive(Clone, Debug, Drop)]
pub struct RuleParts {
    pub key: RuleKey,
    pub action: Action,
    pub pods: List<Addr>,
    pub peers: Option<List<Prefix>>,
    pub services: Option<List<Service>>,
    pub resolved: List<Resolved>,
}

impl Copies for RuleParts {
    ghost exact = { λ x y h. Prim.search (rules, common_steps) };
}

impl Same for RuleParts {
    fn same(&self, other: &RuleParts) -> bool {
        self.key.same(&other.key)
            && self.action == other.action
            && self.pods.same(&other.pods)
            && self.peers.same(&other.peers)
            && self.services.same(&other.services)
            && self.resolved.same(&other.resolved)
    }
}

impl Keyed for RuleParts {
    type Key = RuleKey;

    ghost key = { λ p. p.key };

    fn key(&self) -> &RuleKey {
        &self.key
    }
}

/// Whether Kubernetes policies isolate the address in the direction from now on.
#[derive(Clone, Copy, Debug)]
pub struct IsolationChange {
    pub dir: Dir,
    pub address: Addr,
    pub now: bool,
}

impl Copies for IsolationChange {
    ghost exact = { λ x y h. Prim.search (rules, common_steps) };
}

impl Same for IsolationChange {
    fn same(&self, other: &IsolationChange) -> bool {
        self.dir == other.dir && self.address.same(&other.address) && self.now == other.now
    }
}

/// Changes in one direction are found by their addresses.
impl Keyed for IsolationChange {
    type Key = Addr;

    ghost key = { λ c. c.address };

    fn key(&self) -> &Addr {
        &self.address
    }
}

/// How a pod's traffic leaves the cluster: as any traffic, with an address by the pod's own node, or with an
/// address by another node.
#[derive(Clone, Debug, Drop)]
pub enum Choice {
    Plain,
    Here(Addr),
    There { node: Text, address: Addr },
}

impl Copies for Choice {
    ghost exact = { λ x y h. Prim.search (rules, common_steps) };
}

impl Same for Choice {
    fn same(&self, other: &Choice) -> bool {
        match (self, other) {
            (Choice::Plain, Choice::Plain) => true,
            (Choice::Here(a), Choice::Here(b)) => a.same(b),
            (
                Choice::There { node, address },
                Choice::There {
                    node: m,
                    address: b,
                },
            ) => node.same(m) && address.same(b),
            _ => false,
        }
    }
}

/// How the traffic of the pod at the address leaves from now on.
#[derive(Clone, Debug, Drop)]
pub struct ChoiceChange {
    pub pod: Addr,
    pub now: Choice,
}

impl Copies for ChoiceChange {
    ghost exact = { λ x y h. Prim.search (rules, common_steps) };
}

impl Same for ChoiceChange {
    fn same(&self, other: &ChoiceChange) -> bool {
        self.pod.same(&other.pod) && self.now.same(&other.now)
    }
}

impl Keyed for ChoiceChange {
    type Key = Addr;

    ghost key = { λ c. c.pod };

    fn key(&self) -> &Addr {
        &self.pod
    }
}

/// Whether the node marks traffic for the address from now on.
#[derive(Clone, Copy, Debug)]
pub struct MarkChange {
    pub address: Addr,
    pub now: bool,
}

impl Copies for MarkChange {
    ghost exact = { λ x y h. Prim.search (rules, common_steps) };
}

impl Same for MarkChange {
    fn same(&self, other: &MarkChange) -> bool {
        self.address.same(&other.address) && self.now == other.now
    }
}

impl Keyed for MarkChange {
    type Key = Addr;

    ghost key = { λ c. c.address };

    fn key(&self) -> &Addr {
        &self.address
    }
}

/// What differs between what two held states put in force: rules that are in force no longer, that came into
/// force, and that stay in force but match something else, each by its key; isolation, by direction and
/// address; and Egresses and marks, by address.
#[derive(Debug, Drop)]
pub struct RuleChanges {
    pub gone: List<RuleKey>,
    pub come: List<RuleParts>,
    pub altered: List<RuleParts>,
    pub isolated: List<IsolationChange>,
    pub choices: List<ChoiceChange>,
    pub marked: List<MarkChange>,
}

ghost use Rattle.std.proofs.Common.{rules};
ghost use Rattle.std.proofs.lemmas.Grind.{common_steps};
ghost use Rattle.std.specs.Prelude.{◌≡◌, ◌&&◌, IfOk, IsTrue, ◌↔◌, find, option_copied, None, if◌then◌else◌};
ghost use Rattle.std.specs.List.{list_any};
ghost use Rattle.cluster_types.specs.Pod.{has_address};
ghost use Rattle.cluster_types.specs.Pod.{counts};

use cl_types::{Addr, Copies, Keyed, List, NamedPort, NoMemory, PodKey, Same, Text};
use label_select::Labels;
use std::marker::Model;

/// A pod. It has at most one address of each family, the IPv4 one first, and its named ports ascend by name
/// and protocol, without a repeat. `node` is empty where the pod has none; `ended` is whether its phase is
/// Succeeded or Failed.
#[derive(Clone, Debug, Drop)]
pub struct Pod {
    pub key: PodKey,
    pub node: Text,
    pub addresses: List<Addr>,
    pub host: bool,
    pub ended: bool,
    pub labels: Labels,
    pub ports: List<NamedPort>,
}

impl Model for Pod {
    ghost use Rattle.cluster_types.specs.Pod.{PodData, IsPod};

    ghost Value = { PodData };

    ghost view = { λ p. record { key = p.key; node = p.node; addresses = p.addresses; host = p.host; ended = p.ended; labels = p.labels; ports = p.ports } };

    ghost invariant = { λ p. IsPod p.addresses p.ports };
}

impl Keyed for Pod {
    type Key = PodKey;

    ghost key = { λ p. p.key };

    fn key(&self) -> &PodKey {
        &self.key
    }
}

impl Copies for Pod {
    ghost exact = { λ x y h. Prim.search (rules, common_steps) };
}

impl Same for Pod {
    fn same(&self, other: &Pod) -> bool {
        self.key.same(&other.key)
            && self.node.same(&other.node)
            && self.addresses.same(&other.addresses)
            && self.host == other.host
            && self.ended == other.ended
            && self.labels.same(&other.labels)
            && self.ports.same(&other.ports)
    }
}

impl Pod {
    /// Whether the pod counts: it has an address, isn't on the host's network and hasn't ended.
    pub fn counts(&self) -> bool
        ensures { result ≡ counts self.now }
    {
        !self.addresses.as_slice().is_empty() && !self.host && !self.ended
    }

    /// Whether the address is one of the pod's.
    pub fn has_address(&self, a: Addr) -> bool
        ensures { result ≡ has_address a self.now }
    {
        self.addresses.as_slice().iter().any(|b| b.is(a))
    }
}

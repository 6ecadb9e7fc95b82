ghost use Rattle.std.proofs.Common.{rules};
ghost use Rattle.std.proofs.lemmas.Grind.{common_steps};
ghost use Rattle.std.specs.Prelude.{◌≡◌, IfOk, IsTrue, ◌↔◌};
ghost use Rattle.group_index.specs.Members.{is_member_on, is_of};

use cl_types::{Addr, Copies, Keyed, List, NamedPort, NoMemory, PodKey, Same, Text};
use std::marker::Model;

/// A member of a group: an address of a pod, with the pod's node, key and named ports, which ascend by name and
/// protocol without a repeat.
#[derive(Clone, Debug, Drop)]
pub struct Member {
    pub address: Addr,
    pub node: Text,
    pub pod: PodKey,
    pub ports: List<NamedPort>,
}

impl Model for Member {
    ghost use Rattle.cl_types.specs.Ascending.{Ascends};
    ghost use Rattle.cluster_types.specs.Pod.{port_order};
    ghost use Rattle.group_index.specs.Members.{MemberData};

    ghost Value = { MemberData };

    ghost view = { λ m. record { address = m.address; node = m.node; pod = m.pod; ports = m.ports } };

    ghost invariant = { λ m. Ascends (λ p. p) port_order m.ports };
}

impl Keyed for Member {
    type Key = Addr;

    ghost key = { λ m. m.address };

    fn key(&self) -> &Addr {
        &self.address
    }
}

impl Member {
    /// Whether it is an address of the pod.
    pub(crate) fn is_of(&self, pod: &PodKey) -> bool
        ensures { result ≡ is_of pod.now self.now }
    {
        self.pod == *pod
    }

    /// Whether it is on the node.
    pub(crate) fn is_on(&self, node: &Text) -> bool
        ensures { result ≡ is_member_on node.now self.now }
    {
        self.node == *node
    }
}

impl Copies for Member {
    ghost exact = { λ x y h. Prim.search (rules, common_steps) };
}

impl Same for Member {
    fn same(&self, other: &Member) -> bool {
        self.address.same(&other.address)
            && self.node.same(&other.node)
            && self.pod.same(&other.pod)
            && self.ports.same(&other.ports)
    }
}

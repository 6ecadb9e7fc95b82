ghost use Rattle.std.proofs.Common.{rules};
ghost use Rattle.std.proofs.lemmas.Grind.{common_steps};
ghost use Rattle.std.specs.Prelude.{◌≡◌, IfOk, IsTrue, ◌↔◌};

use cl_types::{Copies, Keyed, NoMemory, Prefix, Same, Text};
use label_select::Labels;
use std::marker::Model;

/// A node and the blocks of its pods' addresses: one of IPv4 with a length of 8 to 30, and perhaps one of
/// IPv6 with a length of 16 to 126.
#[derive(Clone, Debug, Drop)]
pub struct NodeInfo {
    pub name: Text,
    pub cidr: Prefix,
    pub cidr6: Option<Prefix>,
}

impl Model for NodeInfo {
    ghost use Rattle.cluster_types.specs.Node.{NodeData, IsNode};

    ghost Value = { NodeData };

    ghost view = { λ n. record { name = n.name; cidr = n.cidr; cidr6 = n.cidr6 } };

    ghost invariant = { λ n. IsNode n.cidr n.cidr6 };
}

impl Keyed for NodeInfo {
    type Key = Text;

    ghost key = { λ n. n.name };

    fn key(&self) -> &Text {
        &self.name
    }
}

impl Copies for NodeInfo {
    ghost exact = { λ x y h. Prim.search (rules, common_steps) };
}

impl Same for NodeInfo {
    fn same(&self, other: &NodeInfo) -> bool {
        self.name.same(&other.name) && self.cidr == other.cidr && self.cidr6 == other.cidr6
    }
}

/// A namespace and its labels.
#[derive(Clone, Debug, Drop)]
pub struct Namespace {
    pub name: Text,
    pub labels: Labels,
}

impl Model for Namespace {
    ghost use Rattle.cluster_types.specs.Node.{NamespaceData};

    ghost Value = { NamespaceData };

    ghost view = { λ x. record { name = x.name; labels = x.labels } };
}

impl Keyed for Namespace {
    type Key = Text;

    ghost key = { λ n. n.name };

    fn key(&self) -> &Text {
        &self.name
    }
}

impl Copies for Namespace {
    ghost exact = { λ x y h. Prim.search (rules, common_steps) };
}

impl Same for Namespace {
    fn same(&self, other: &Namespace) -> bool {
        self.name.same(&other.name) && self.labels.same(&other.labels)
    }
}

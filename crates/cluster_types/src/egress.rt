ghost use Rattle.std.proofs.Common.{rules};
ghost use Rattle.std.proofs.lemmas.Grind.{common_steps};
ghost use Rattle.std.specs.Prelude.{◌≡◌, IfOk, IsTrue, ◌↔◌};

use cl_types::{Addr, Copies, Keyed, NoMemory, Same, Text};
use label_select::GroupKey;
use std::marker::Model;

/// An Egress of Antrea: traffic of the group's pods out of the cluster leaves with `address` by `node`.
#[derive(Clone, Debug, Drop)]
pub struct EgressObj {
    pub name: Text,
    pub address: Addr,
    pub node: Text,
    pub applied: GroupKey,
}

impl Model for EgressObj {
    ghost use Rattle.cluster_types.specs.Egress.{EgressData};

    ghost Value = { EgressData };

    ghost view = { λ x. record { name = x.name; address = x.address; node = x.node; applied = x.applied } };
}

impl Keyed for EgressObj {
    type Key = Text;

    ghost key = { λ e. e.name };

    fn key(&self) -> &Text {
        &self.name
    }
}

impl Copies for EgressObj {
    ghost exact = { λ x y h. Prim.search (rules, common_steps) };
}

impl Same for EgressObj {
    fn same(&self, other: &EgressObj) -> bool {
        self.name.same(&other.name)
            && self.address.same(&other.address)
            && self.node.same(&other.node)
            && self.applied.same(&other.applied)
    }
}

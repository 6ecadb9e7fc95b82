ghost use Rattle.std.proofs.Common.{rules};
ghost use Rattle.std.proofs.lemmas.Grind.{common_steps};
ghost use Rattle.std.specs.Prelude.{◌≡◌, IfOk};

use crate::egress::EgressObj;
use crate::node::{Namespace, NodeInfo};
use crate::pod::Pod;
use crate::policy::{Policy, Tier};
use cl_types::{Copies, NoMemory, PodKey, PolicyKey, Text};

/// An object of the cluster.
#[derive(Clone, Debug, Drop)]
pub enum Object {
    Node(NodeInfo),
    Namespace(Namespace),
    Pod(Pod),
    Tier(Tier),
    Policy(Policy),
    Egress(EgressObj),
}

impl Copies for Object {
    ghost exact = { λ x y h. Prim.search (rules, common_steps) };
}

/// What names an object of the cluster. A tier is named by its name, though tiers stand by priority.
#[derive(Clone, Debug, Drop)]
pub enum ObjectKey {
    Node(Text),
    Namespace(Text),
    Pod(PodKey),
    Tier(Text),
    Policy(PolicyKey),
    Egress(Text),
}

impl Copies for ObjectKey {
    ghost exact = { λ x y h. Prim.search (rules, common_steps) };
}

/// A change of the cluster: an object stands at its key in place of what stood there, or nothing does.
#[derive(Clone, Debug, Drop)]
pub enum Change {
    Put(Object),
    Remove(ObjectKey),
}

impl Copies for Change {
    ghost exact = { λ x y h. Prim.search (rules, common_steps) };
}

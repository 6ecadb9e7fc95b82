ghost use Rattle.std.proofs.Common.{rules};
ghost use Rattle.std.proofs.lemmas.Grind.{common_steps};
ghost use Rattle.std.specs.Prelude.{◌≡◌, IfOk};
ghost use Rattle.cluster_objects.specs.declared.change.ClusterRefusal.TheVariants.{NoMemory as no_memory};

use cl_types::{Copies, NoMemory, PodKey, PolicyKey, Text};
use cluster_types::{Object, ObjectKey};
use thiserror::Error;

/// Whether a change made a difference.
#[derive(Clone, Copy, Debug, PartialEq, Eq)]
pub enum Applied {
    Changed,
    Unchanged,
}

/// What takes a change back: the key of the change, the object that stood there before it, and whether the nodes
/// were fixed before it.
#[derive(Clone, Debug, Drop)]
pub struct Undo {
    pub key: ObjectKey,
    pub old: Option<Object>,
    pub fixed: bool,
}

impl Copies for Undo {
    ghost exact = { λ x y h. Prim.search (rules, common_steps) };
}

/// A change that was made: whether it made a difference, and what takes it back.
#[derive(Clone, Debug, Drop)]
pub struct Kept {
    pub applied: Applied,
    pub undo: Undo,
}

impl Copies for Kept {
    ghost exact = { λ x y h. Prim.search (rules, common_steps) };
}

/// Why a change is refused.
#[derive(Clone, Debug, Drop, Error)]
pub enum ClusterRefusal {
    /// The nodes are fixed, and a Node would change.
    #[error("the nodes are fixed")]
    NodesFixed,
    /// A block of the node meets one of another node: the one with the least name.
    #[error("another node has a part of the block")]
    CidrOverlap(Text),
    /// A tier keeps its priority, and a static tier is never removed.
    #[error("the tier is fixed")]
    TierFixed,
    /// Another tier, this one, has the priority.
    #[error("another tier has the priority")]
    TierTaken(Text),
    /// Policies name the tier: this one is the first of them in the order of their keys.
    #[error("a policy is in the tier")]
    TierInUse(PolicyKey),
    /// No tier has the name, which is given as the policy writes it.
    #[error("no such tier")]
    NoSuchTier(Text),
    /// Another counting pod has an address of the pod: the first one in the order of their keys.
    #[error("another pod has the address")]
    AddressInUse(PodKey),
    /// A limit, this one, would be passed.
    #[error("too many")]
    TooMany(u32),
    /// A listed node, this one, would be the egress node of more addresses than there are marks.
    #[error("too many addresses on the egress node")]
    TooManyMarks(Text),
    #[error("out of memory")]
    NoMemory,
}

impl Copies for ClusterRefusal {
    ghost exact = { λ x y h. Prim.search (rules, common_steps) };
}

impl From<NoMemory> for ClusterRefusal {
    ghost from_gives = { λ _ refusal. refusal ≡ no_memory };

    fn from(_e: NoMemory) -> ClusterRefusal {
        ClusterRefusal::NoMemory
    }
}

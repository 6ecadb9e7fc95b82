ghost use Rattle.std.proofs.Common.{rules};
ghost use Rattle.std.proofs.lemmas.Grind.{common_steps};
ghost use Rattle.std.specs.Prelude.{◌≡◌, IfOk, IsTrue, ◌↔◌};
ghost use Rattle.watch_streams.specs.declared.message.StreamObject.TheVariants as object;
ghost use Rattle.watch_streams.specs.declared.message.StreamChange.TheVariants as change;

use crate::net::{HeldMember, NetEgress, NetPolicy};
use cl_types::{Copies, List, NoMemory, PolicyKey, Rev, Same, Text};
use label_select::GroupKey;
use std::marker::Model;

/// What stands on a stream under a name: a policy or an Egress on Policies, a group with members on
/// Addresses and Applied.
#[derive(Clone, Debug, Drop)]
pub enum StreamObject {
    Policy(NetPolicy),
    Egress(NetEgress),
    Group {
        group: GroupKey,
        members: List<HeldMember>,
    },
}

impl Copies for StreamObject {
    ghost exact = { λ x y h. Prim.search (rules, common_steps) };
}

impl Same for StreamObject {
    fn same(&self, other: &StreamObject) -> bool {
        match (self, other) {
            (StreamObject::Policy(a), StreamObject::Policy(b)) => a.same(b),
            (StreamObject::Egress(a), StreamObject::Egress(b)) => a.same(b),
            (
                StreamObject::Group { group, members },
                StreamObject::Group {
                    group: other_group,
                    members: other_members,
                },
            ) => group.same(other_group) && members.same(other_members),
            _ => false,
        }
    }
}

/// The name under which an object stands on its stream.
#[derive(Clone, Debug, Drop)]
pub enum StreamName {
    Policy(PolicyKey),
    Egress(Text),
    Group(GroupKey),
}

impl Copies for StreamName {
    ghost exact = { λ x y h. Prim.search (rules, common_steps) };
}

/// What changes under a name. A patch is of a group that was and is there: `added` and `removed` ascend.
#[derive(Clone, Debug, Drop)]
pub enum StreamChange {
    Put(StreamObject),
    Patch {
        group: GroupKey,
        added: List<HeldMember>,
        removed: List<HeldMember>,
    },
    Remove(StreamName),
}

impl Copies for StreamChange {
    ghost exact = { λ x y h. Prim.search (rules, common_steps) };
}

/// Changes under different names.
#[derive(Clone, Debug, Drop)]
pub struct Changes {
    items: List<StreamChange>,
}

impl Model for Changes {
    ghost use Rattle.std.specs.Prelude.{List as Items, map};
    ghost use Rattle.watch_streams.specs.declared.message.StreamChange.{StreamChange as Change};
    ghost use Rattle.watch_streams.specs.Names.{AreDistinct, changed_name};

    ghost Value = { Items Change };

    ghost view = { λ c. c.items };

    ghost invariant = { λ c. AreDistinct (map changed_name c.items) };
}

impl Changes {
    ghost use Rattle.std.specs.Prelude.{map};
    ghost use Rattle.watch_streams.specs.Names.{AreDistinct, changed_name};

    /// Keeps the changes that it is given.
    pub fn of(items: List<StreamChange>) -> Changes
        requires { AreDistinct (map changed_name items) }
        ensures { result ≡ items }
    {
        Changes { items }
    }

    pub fn as_slice(&self) -> &[StreamChange]
        ensures { result.now ≡ self.now }
    {
        self.items.as_slice()
    }

    /// The changes themselves.
    pub fn into_list(self) -> List<StreamChange>
        ensures value { result ≡ self }
        ensures distinct { AreDistinct (map changed_name self) }
    {
        self.items
    }
}

impl Copies for Changes {
    ghost exact = { λ x y h. Prim.search (rules, common_steps) };
}

/// Objects under different names.
#[derive(Clone, Debug, Drop)]
pub struct Objects {
    items: List<StreamObject>,
}

impl Model for Objects {
    ghost use Rattle.std.specs.Prelude.{List as Items, map};
    ghost use Rattle.watch_streams.specs.declared.message.StreamObject.{StreamObject as Object};
    ghost use Rattle.watch_streams.specs.Names.{AreDistinct, name_of};

    ghost Value = { Items Object };

    ghost view = { λ o. o.items };

    ghost invariant = { λ o. AreDistinct (map name_of o.items) };
}

impl Objects {
    ghost use Rattle.std.specs.Prelude.{map};
    ghost use Rattle.watch_streams.specs.Names.{AreDistinct, name_of};

    /// Keeps the objects that it is given.
    pub fn of(items: List<StreamObject>) -> Objects
        requires { AreDistinct (map name_of items) }
        ensures { result ≡ items }
    {
        Objects { items }
    }

    pub fn as_slice(&self) -> &[StreamObject]
        ensures { result.now ≡ self.now }
    {
        self.items.as_slice()
    }

    /// The objects themselves.
    pub fn into_list(self) -> List<StreamObject>
        ensures value { result ≡ self }
        ensures distinct { AreDistinct (map name_of self) }
    {
        self.items
    }
}

impl Copies for Objects {
    ghost exact = { λ x y h. Prim.search (rules, common_steps) };
}

/// What a stream's agent is told: the changes that a revision makes, or all that belongs on the stream at it.
#[derive(Clone, Debug, Drop)]
pub enum Msg {
    Delta(Rev, Changes),
    Snapshot(Rev, Objects),
}

impl Copies for Msg {
    ghost exact = { λ x y h. Prim.search (rules, common_steps) };
}

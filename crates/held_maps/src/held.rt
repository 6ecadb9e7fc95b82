ghost use Rattle.std.specs.Prelude.{◌≡◌, [], ◌∷◌};
ghost use Rattle.watch_streams.specs.Projection.{all_pods};

use crate::shelf::Shelf;
use cl_types::{List, Rev, Stream};
use label_select::{GroupKey, Scope, Selector};
use std::alloc::Global;
use std::marker::Model;
use watch_streams::{NetEgress, NetPolicy, StreamObject};

/// The revision of each stream's map.
#[derive(Clone, Copy, Debug)]
pub(crate) struct Revisions {
    pub(crate) policies: Rev,
    pub(crate) addresses: Rev,
    pub(crate) applied: Rev,
}

impl Revisions {
    ghost use Rattle.held_maps.specs.Held.{with_revision};

    pub(crate) fn set(&mut self, s: Stream, rev: Rev)
        ensures { self.new ≡ with_revision s rev self.old }
    {
        match s {
            Stream::Policies => self.policies = rev,
            Stream::Addresses => self.addresses = rev,
            Stream::Applied => self.applied = rev,
        }
    }
}

/// What an agent holds of its three streams.
#[derive(Drop)]
pub struct Held {
    pub(crate) policies: Shelf<NetPolicy>,
    pub(crate) egresses: Shelf<NetEgress>,
    pub(crate) addresses: Shelf<StreamObject>,
    pub(crate) applied: Shelf<StreamObject>,
    pub(crate) revisions: Revisions,
    pub(crate) no_groups: List<StreamObject>,
    pub(crate) every_pod: [GroupKey; 1],
}

impl Model for Held {
    ghost use Rattle.held_maps.specs.Held.{HeldData, IsHeld};

    ghost Value = { HeldData };

    ghost view = { λ h. record { policies = h.policies; egresses = h.egresses; addresses = h.addresses; applied = h.applied; revisions = h.revisions } };

    ghost invariant = { λ h. IsHeld h.addresses h.applied h.no_groups h.every_pod };
}

fn everything(alloc: Global) -> Selector
    ensures { result.needs ≡ [] }
{
    Selector {
        needs: List::new(alloc),
    }
}

pub(crate) fn all_pods(alloc: Global) -> GroupKey
    ensures { result ≡ all_pods }
{
    GroupKey {
        scope: Scope::Namespaces(everything(alloc)),
        pods: everything(alloc),
    }
}

impl Held {
    ghost use Rattle.held_maps.specs.Held.{nothing_held, revisions_of, groups_on, maps_of};
    ghost use Rattle.watch_streams.specs.HeldEvaluation.{held_egresses, held_policies};

    /// Three empty maps at revision 0. It does not allocate.
    pub fn new(alloc: Global) -> Held
        ensures { result ≡ nothing_held }
    {
        Held {
            policies: Shelf::new(alloc),
            egresses: Shelf::new(alloc),
            addresses: Shelf::new(alloc),
            applied: Shelf::new(alloc),
            revisions: Revisions {
                policies: Rev(0),
                addresses: Rev(0),
                applied: Rev(0),
            },
            no_groups: List::new(alloc),
            every_pod: [all_pods(alloc)],
        }
    }

    /// The revisions of the maps, in the order of the streams.
    pub fn revisions(&self) -> [Rev; 3]
        ensures { result ≡ revisions_of self.now }
    {
        let revisions = self.revisions;
        [revisions.policies, revisions.addresses, revisions.applied]
    }

    /// The policies, by the texts of their names.
    pub fn policies(&self) -> &List<NetPolicy>
        ensures value { result.now ≡ self.now.policies }
        ensures held { held_policies (maps_of self.now) ≡ self.now.policies }
    {
        self.policies.objects()
    }

    /// The Egresses, by name.
    pub fn egresses(&self) -> &List<NetEgress>
        ensures value { result.now ≡ self.now.egresses }
        ensures held { held_egresses (maps_of self.now) ≡ self.now.egresses }
    {
        let _policies = self.policies.objects();
        self.egresses.objects()
    }

    /// The groups of a stream, by their texts; none on Policies.
    pub fn groups(&self, s: Stream) -> &List<StreamObject>
        ensures { result.now ≡ groups_on s self.now }
    {
        match s {
            Stream::Policies => &self.no_groups,
            Stream::Addresses => self.addresses.objects(),
            Stream::Applied => self.applied.objects(),
        }
    }

    /// The group of all pods, as a list.
    pub(crate) fn every_pod(&self) -> &[GroupKey]
        ensures { result.now ≡ all_pods ∷ [] }
    {
        self.every_pod.as_slice()
    }
}

//! How the members of the groups in use move, held aside until all of it is there.
ghost use Rattle.std.specs.Prelude.{◌≡◌, ◌≤◌, ◌<◌, ◌++◌, [], ◌∷◌, length, take, option_copied, OnOk};
ghost use Rattle.std.specs.List.{AllByRecursion, HoldsAt};
ghost use Rattle.cluster_types.specs.Cluster.{ClusterData};
ghost use Rattle.group_index.specs.Index.{EntryData};
ghost use Rattle.group_index.specs.Members.{members_of};
ghost use Rattle.group_index.specs.Settled.{AreDrafts, DiffersAt, HavePlaces, MovesAt, draft_at, follows_labels, has_either, settled_by};
ghost use Rattle.std.specs.Prelude.{List as Items};

use crate::change::GroupChange;
use crate::concern::has_either;
use crate::entry::Entry;
use crate::moves::Moves;
use crate::stretch::Stretch;
use cl_types::{Addr, NoMemory};
use cluster_objects::{Cluster, Pod};
use std::alloc::Global;

/// How the members of the group in use at the place move.
#[derive(Drop)]
pub(crate) struct Draft {
    place: usize,
    moves: Moves,
}

/// Drafts of the groups in use whose members differ, and what changes.
#[derive(Drop)]
pub(crate) struct Drafts {
    pub(crate) drafts: Vec<Draft>,
    pub(crate) changes: Vec<GroupChange>,
}

impl Drafts {
    /// No draft.
    pub(crate) fn new(alloc: Global) -> Drafts
        ensures { (c : ClusterData) → AreDrafts c [] result }
    {
        Drafts {
            drafts: Vec::new(alloc),
            changes: Vec::new(alloc),
        }
    }

    fn push_draft(&mut self, place: usize, draft: Option<Moves>) -> Result<(), NoMemory>
        ensures drafts { OnOk result (self.new.drafts.items ≡ self.old.drafts.items ++ draft_at place draft) }
        ensures changes { self.new.changes ≡ self.old.changes }
    {
        if let Some(moves) = draft {
            self.drafts.push(Draft { place, moves })?;
        }
        Ok(())
    }

    // Appends what changes in the group at the place, and its draft, where its members differ at these addresses alone.
    fn draft(
        &mut self,
        place: usize,
        entry: &Entry,
        c: &Cluster,
        addresses: &[Addr],
    ) -> Result<(), NoMemory>
        requires { DiffersAt addresses.now entry.now.members (members_of c.now.cluster entry.now.group) }
        ensures { OnOk result ((first : Items EntryData) → length first ≡ place → AreDrafts c.now.cluster first self.old → AreDrafts c.now.cluster (first ++ entry.now ∷ []) self.new) }
    {
        let draft = entry.draft(&mut self.changes, c, addresses)?;
        self.push_draft(place, draft)
    }

    // The same, where the group contains the pod as it was or as it is.
    fn draft_if_in(
        &mut self,
        place: usize,
        entry: &Entry,
        c: &Cluster,
        old: Option<&Pod>,
        now: Option<&Pod>,
        addresses: &[Addr],
    ) -> Result<(), NoMemory>
        requires { MovesAt (has_either c.now.cluster (option_copied old) (option_copied now)) addresses.now c.now.cluster entry.now }
        ensures { OnOk result ((first : Items EntryData) → length first ≡ place → AreDrafts c.now.cluster first self.old → AreDrafts c.now.cluster (first ++ entry.now ∷ []) self.new) }
    {
        if !has_either(c, entry.group(), old, now) {
            return Ok(());
        }
        self.draft(place, entry, c, addresses)
    }

    // The same, where the group's scope is a selector of namespaces.
    fn draft_if_following(
        &mut self,
        place: usize,
        entry: &Entry,
        c: &Cluster,
        addresses: &[Addr],
    ) -> Result<(), NoMemory>
        requires { MovesAt follows_labels addresses.now c.now.cluster entry.now }
        ensures { OnOk result ((first : Items EntryData) → length first ≡ place → AreDrafts c.now.cluster first self.old → AreDrafts c.now.cluster (first ++ entry.now ∷ []) self.new) }
    {
        if !entry.follows_labels() {
            return Ok(());
        }
        self.draft(place, entry, c, addresses)
    }

    /// Drafts the groups of the stretch, where a pod changed.
    pub(crate) fn draft_pod(
        &mut self,
        entries: &[Entry],
        of: Stretch,
        c: &Cluster,
        old: Option<&Pod>,
        now: Option<&Pod>,
        addresses: &[Addr],
    ) -> Result<(), NoMemory>
        requires moves { AllByRecursion (MovesAt (has_either c.now.cluster (option_copied old) (option_copied now)) addresses.now c.now.cluster) entries.now }
        requires within { of.end ≤ length entries.now }
        requires order { of.start ≤ of.end }
        ensures { OnOk result (AreDrafts c.now.cluster (take of.start entries.now) self.old → AreDrafts c.now.cluster (take of.end entries.now) self.new) }
    {
        for place in of.start..of.end {
            self.draft_if_in(place, &entries[place], c, old, now, addresses)?;
        }
        Ok(())
    }

    /// Drafts the groups of the stretch, where a namespace changed.
    pub(crate) fn draft_namespace(
        &mut self,
        entries: &[Entry],
        of: Stretch,
        c: &Cluster,
        addresses: &[Addr],
    ) -> Result<(), NoMemory>
        requires moves { AllByRecursion (MovesAt follows_labels addresses.now c.now.cluster) entries.now }
        requires within { of.end ≤ length entries.now }
        requires order { of.start ≤ of.end }
        ensures { OnOk result (AreDrafts c.now.cluster (take of.start entries.now) self.old → AreDrafts c.now.cluster (take of.end entries.now) self.new) }
    {
        for place in of.start..of.end {
            self.draft_if_following(place, &entries[place], c, addresses)?;
        }
        Ok(())
    }
}

/// Settles the drafts, the last one first. It does not allocate.
pub(crate) fn settle(entries: &mut Vec<Entry>, mut drafts: Vec<Draft>)
    requires { HavePlaces drafts.items entries.old.items }
    ensures { entries.new.items ≡ settled_by drafts.items entries.old.items }
{
    while let Some(draft) = drafts.pop() {
        entries[draft.place].settle(draft.moves);
    }
}

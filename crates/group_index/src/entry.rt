ghost use Rattle.std.specs.Prelude.{◌≡◌, ◌++◌, ◌≤◌, ◌==◌, IfErr, IfOk, OnOk, OnErr, IfSome, IfNone};
ghost use Rattle.std.specs.List.{AllByRecursion};
ghost use Rattle.cl_types.specs.Ascending.{IsGap, IsPlace};
ghost use Rattle.label_select.specs.Written.{group_text};
ghost use Rattle.group_index.specs.Changes.{change_at};
ghost use Rattle.group_index.specs.Index.{IsIndex, at_group, entry_of, first_use, group_if_has, has_pod, used_again, used_less};
ghost use Rattle.group_index.specs.Members.{members_of};
ghost use Rattle.group_index.specs.Settled.{DiffersAt, Fits, FitsIf, edited_by, follows_labels, moved_if, with_members};

use crate::change::GroupChange;
use crate::gather::members_of;
use crate::member::Member;
use crate::moves::Moves;
use crate::settle::draft_of;
use cl_types::{Addr, Copies, Keyed, List, NoMemory, PodKey, Text};
use cluster_objects::Cluster;
use label_select::{GroupKey, Scope, compare_group, write_group};
use std::alloc::Global;
use std::cmp::Ordering;
use std::marker::Model;

/// A group in use, with its text, how often it is used, and its members.
#[derive(Debug, Drop)]
pub(crate) struct Entry {
    text: Text,
    group: GroupKey,
    uses: u64,
    members: List<Member>,
}

impl Model for Entry {
    ghost use Rattle.group_index.specs.Index.{EntryData, IsEntry};

    ghost Value = { EntryData };

    ghost view = { λ e. record { group = e.group; uses = e.uses; members = e.members } };

    ghost invariant = { λ e. IsEntry e.text e.group e.uses };
}

impl Keyed for Entry {
    type Key = Text;

    ghost key = { λ e. group_text e.group };

    fn key(&self) -> &Text {
        &self.text
    }
}

impl Entry {
    /// The group at its first use.
    pub(crate) fn first_use(alloc: Global, c: &Cluster, g: &GroupKey) -> Result<Entry, NoMemory>
        ensures { IfOk result (λ e. e ≡ first_use c.now.cluster g.now) }
    {
        let mut text = Text::new(alloc);
        write_group(&mut text, g)?;
        Ok(Entry {
            text,
            group: g.copy()?,
            uses: 1,
            members: List::of(members_of(alloc, c, g)?),
        })
    }

    /// One more use. Where they can't be counted it is as if out of memory.
    pub(crate) fn use_again(&mut self) -> Result<(), NoMemory>
        ensures ok { OnOk result (self.new ≡ used_again self.old) }
        ensures err { OnErr result (self.new ≡ self.old) }
        ensures group { self.new.group ≡ self.old.group }
    {
        if self.uses == u64::MAX {
            return Err(NoMemory);
        }
        self.uses += 1;
        Ok(())
    }

    /// Whether it is used once and no more.
    pub(crate) fn is_used_once(&self) -> bool
        ensures once { result ≡ (self.now.uses == 1) }
        ensures used { 1 ≤ self.now.uses }
    {
        self.uses == 1
    }

    /// Its members, by address.
    pub(crate) fn members(&self) -> &List<Member>
        ensures { result.now ≡ self.now.members }
    {
        &self.members
    }

    /// The group.
    pub(crate) fn group(&self) -> &GroupKey
        ensures { result.now ≡ self.now.group }
    {
        &self.group
    }

    /// Whether the group's scope is a selector of namespaces.
    pub(crate) fn follows_labels(&self) -> bool
        ensures { result ≡ follows_labels self.now.group }
    {
        match self.group.scope {
            Scope::Namespace(_) => false,
            Scope::Namespaces(_) => true,
        }
    }

    /// Appends what changes in the group where its members differ at these addresses alone, and answers how they move.
    pub(crate) fn draft(
        &self,
        changes: &mut Vec<GroupChange>,
        c: &Cluster,
        addresses: &[Addr],
    ) -> Result<Option<Moves>, NoMemory>
        requires { DiffersAt addresses.now self.now.members (members_of c.now.cluster self.now.group) }
        ensures changes { OnOk result (changes.new.items ≡ changes.old.items ++ change_at c.now.cluster self.now) }
        ensures draft { IfOk result (λ d. moved_if d self.now.members ≡ members_of c.now.cluster self.now.group) }
        ensures places { IfOk result (λ d. FitsIf d self.now.members) }
    {
        draft_of(changes, c, &self.group, &self.members, addresses)
    }

    /// Moves the members of the group. It does not allocate.
    pub(crate) fn settle(&mut self, moves: Moves)
        requires { Fits moves self.old.members }
        ensures { self.new ≡ with_members (edited_by moves.edits.items self.old.members) self.old }
    {
        moves.settle(&mut self.members);
    }

    // Whether a member is of the pod.
    fn has_pod(&self, pod: &PodKey) -> bool
        ensures { result ≡ has_pod pod.now self.now }
    {
        self.members.as_slice().iter().any(|m| m.is_of(pod))
    }

    /// Appends the group, where it contains the pod.
    pub(crate) fn push_if_has(
        &self,
        groups: &mut Vec<GroupKey>,
        pod: &PodKey,
    ) -> Result<(), NoMemory>
        ensures { OnOk result (groups.new.items ≡ groups.old.items ++ group_if_has pod.now self.now) }
    {
        if self.has_pod(pod) {
            groups.push(self.group.copy()?)?;
        }
        Ok(())
    }

    /// One use less, where there are more.
    pub(crate) fn use_less(&mut self)
        requires { 2 ≤ self.old.uses }
        ensures { self.new ≡ used_less self.old }
    {
        self.uses -= 1;
    }
}

// How the entry stands to the group, by their texts.
fn order_at(e: &Entry, g: &GroupKey) -> Ordering
    ensures { result ≡ at_group g.now e.now }
{
    compare_group(g, &e.text).reverse()
}

// The place of the group's entry, or where to insert one.
fn search_group(entries: &[Entry], g: &GroupKey) -> Result<usize, usize>
    requires { IsIndex entries.now }
    ensures found { IfOk result (IsPlace (at_group g.now) entries.now) }
    ensures absent { IfErr result (IsGap (at_group g.now) entries.now) }
{
    entries.binary_search_by(
        |e: &Entry| -> Ordering
            ensures { result ≡ at_group g.entry.now e.now }
        { order_at(e, g) },
    )
}

/// The place of the group's entry. It does not allocate.
pub(crate) fn place_of(entries: &[Entry], g: &GroupKey) -> Option<usize>
    requires { IsIndex entries.now }
    ensures place { IfSome result (IsPlace (at_group g.now) entries.now) }
    ensures none { IfNone result (entry_of entries.now g.now ≡ None) }
{
    match search_group(entries, g) {
        Ok(i) => Some(i),
        Err(_) => None,
    }
}

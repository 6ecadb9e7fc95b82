ghost use Rattle.std.specs.Prelude.{◌≡◌, ◌<◌, ◌++◌, [], Some, length, map, IfOk, OnOk, OnErr, IsSome, option_map, option_copied};
ghost use Rattle.std.specs.List.{AllByRecursion, flat_map, list_any};
ghost use Rattle.cl_types.specs.Ascending.{IsPlace};
ghost use Rattle.cluster_types.specs.Cluster.{ClusterData, IsCluster};
ghost use Rattle.group_index.specs.Changes.{at_cluster, before_namespace, before_pod, change_at, changes_between};
ghost use Rattle.group_index.specs.Index.{EntryData, IsIndex, StandsFor, at_group, entry_of, group_nodes, groups_of, groups_with, has_node, span, with_use, without_use};
ghost use Rattle.group_index.specs.Members.{MemberData, is_member_on};
ghost use Rattle.group_index.specs.Settled.{AreDrafts, HavePlaces, MovesAt, ShareNamespace, follows_labels, has_either, namespace_addresses, pod_addresses, settled_by};
ghost use Rattle.label_select.specs.Group.{Group};

use crate::change::GroupChange;
use crate::concern::{namespace_addresses, pod_addresses, pod_now};
use crate::draft::{Drafts, settle};
use crate::entry::{Entry, place_of};
use crate::member::Member;
use crate::scope::{following, of_pods};
use crate::sorted::sorted;
use cl_types::{Copies, List, NoMemory, PodKey, Text, put};
use cluster_objects::{Cluster, Namespace, Pod};
use label_select::GroupKey;
use std::alloc::Global;
use std::marker::Model;

/// The groups that are in use, in the order of their texts, with how often each is used and its members.
#[derive(Debug, Drop)]
pub struct GroupIndex {
    entries: Vec<Entry>,
}

impl Model for GroupIndex {
    ghost use Rattle.std.specs.Prelude.{List as Items};
    ghost use Rattle.group_index.specs.Index.{EntryData, IsIndex};

    ghost Value = { Items EntryData };

    ghost view = { λ index. index.entries.items };

    ghost invariant = { λ index. IsIndex index.entries.items };
}

// Appends the members' nodes.
fn push_nodes(nodes: &mut Vec<Text>, members: &[Member]) -> Result<(), NoMemory>
    ensures { OnOk result (nodes.new.items ≡ nodes.old.items ++ map (λ (m : MemberData). m.node) members.now) }
{
    for m in members {
        nodes.push(m.node.copy()?)?;
    }
    Ok(())
}

// Whether one of the members is on the node.
fn any_on(members: &[Member], node: &Text) -> bool
    ensures { result ≡ list_any (is_member_on node.now) members.now }
{
    members.iter().any(|m| m.is_on(node))
}

// One use less of the group at a place.
fn drop_at(entries: &mut Vec<Entry>, g: &GroupKey, i: usize)
    requires ascends { IsIndex entries.old.items }
    requires place { IsPlace (at_group g.now) entries.old.items i }
    ensures entries { entries.new.items ≡ without_use g.now entries.old.items }
    ensures ascends { IsIndex entries.new.items }
{
    if entries[i].is_used_once() {
        entries.remove(i);
        return;
    }
    entries[i].use_less();
}

impl GroupIndex {
    /// No group in use.
    pub fn new(alloc: Global) -> Result<GroupIndex, NoMemory>
        ensures { IfOk result (λ index. index ≡ []) }
    {
        Ok(GroupIndex {
            entries: Vec::new(alloc),
        })
    }

    /// Tells that the groups in use ascend by their texts. It does nothing else.
    pub fn keeps_its_form(&self)
        ensures { IsIndex self.now }
    {
        let _ = &self.entries;
    }

    /// One more use of the group. At its first use it gets its members.
    pub fn put_group(&mut self, c: &Cluster, g: &GroupKey) -> Result<(), NoMemory>
        requires { StandsFor self.old c.now.cluster }
        ensures ok { OnOk result (self.new ≡ with_use c.now.cluster g.now self.old) }
        ensures stands { StandsFor self.new c.now.cluster }
        ensures err { OnErr result (self.new ≡ self.old) }
    {
        match place_of(self.entries.as_slice(), g) {
            Some(i) => self.entries[i].use_again(),
            None => {
                let entry = Entry::first_use(*self.entries.allocator(), c, g)?;
                put(&mut self.entries, entry)
            }
        }
    }

    /// One use of the group less. After its last use it is gone. It does not allocate.
    pub fn drop_group(&mut self, g: &GroupKey)
        requires { IsSome (entry_of self.old g.now) }
        ensures index { self.new ≡ without_use g.now self.old }
        ensures stands { (c : ClusterData) → StandsFor self.old c → StandsFor self.new c }
    {
        if let Some(i) = place_of(self.entries.as_slice(), g) {
            drop_at(&mut self.entries, g, i);
        }
    }

    // Moves the members of the groups by their drafts, and answers what changes. It does not allocate.
    fn settle(&mut self, drafts: Drafts) -> List<GroupChange>
        requires { HavePlaces drafts.drafts.items self.old }
        ensures index { self.new ≡ settled_by drafts.drafts.items self.old }
        ensures changes { result ≡ drafts.changes.items }
    {
        settle(&mut self.entries, drafts.drafts);
        List::of(drafts.changes)
    }

    fn drafts_of_pod(
        &self,
        c: &Cluster,
        old: Option<&Pod>,
        now: Option<&Pod>,
    ) -> Result<Drafts, NoMemory>
        requires moves { AllByRecursion (MovesAt (has_either c.now.cluster (option_copied old) (option_copied now)) (pod_addresses (option_copied old) (option_copied now)) c.now.cluster) self.now }
        requires pods { ShareNamespace (option_copied old) (option_copied now) }
        ensures { IfOk result (λ drafts. AreDrafts c.now.cluster self.now drafts) }
    {
        let alloc = *self.entries.allocator();
        let addresses = pod_addresses(alloc, old, now)?;
        let entries = self.entries.as_slice();
        let of = of_pods(alloc, entries, old, now)?;
        let mut drafts = Drafts::new(alloc);
        drafts.draft_pod(entries, of.first, c, old, now, addresses.as_slice())?;
        drafts.draft_pod(entries, of.second, c, old, now, addresses.as_slice())?;
        Ok(drafts)
    }

    fn drafts_of_namespace(
        &self,
        c: &Cluster,
        old: Option<&Namespace>,
        name: &Text,
    ) -> Result<Drafts, NoMemory>
        requires { AllByRecursion (MovesAt follows_labels (namespace_addresses (option_copied old) name.now c.now.cluster.pods) c.now.cluster) self.now }
        ensures { IfOk result (λ drafts. AreDrafts c.now.cluster self.now drafts) }
    {
        let alloc = *self.entries.allocator();
        let addresses = namespace_addresses(alloc, c, old, name)?;
        let entries = self.entries.as_slice();
        let of = following(alloc, entries)?;
        let mut drafts = Drafts::new(alloc);
        drafts.draft_namespace(entries, of, c, addresses.as_slice())?;
        Ok(drafts)
    }

    /// Follows a pod that changed, came (without `old`) or went (without `new`), and answers what changed in the groups
    /// in use. It asks the groups whose scope is the pod's namespace and those whose scope is a selector; of those that
    /// contain the one pod or the other it reads the members at the addresses of the two, and it reads no other pod of
    /// the cluster.
    pub fn pod_changed(
        &mut self,
        c: &Cluster,
        old: Option<&Pod>,
        new: Option<&Pod>,
    ) -> Result<List<GroupChange>, NoMemory>
        requires { StandsFor self.old (before_pod (option_copied old) (option_copied new) c.now.cluster) }
        ensures changes { IfOk result (λ changes. changes ≡ changes_between (before_pod (option_copied old.entry) (option_copied new.entry) c.now.cluster) c.now.cluster self.old) }
        ensures index { OnOk result (self.new ≡ at_cluster c.now.cluster self.old) }
        ensures stands { OnOk result (StandsFor self.new c.now.cluster) }
        ensures err { OnErr result (self.new ≡ self.old) }
    {
        c.keeps_its_form();
        let drafts = self.drafts_of_pod(c, old, pod_now(c, old, new))?;
        Ok(self.settle(drafts))
    }

    /// Follows a namespace whose labels changed, that came (without `old`) or that went, and answers what changed in the
    /// groups in use. It asks the groups whose scope is a selector, and reads their members at the addresses of the
    /// namespace's pods alone.
    pub fn namespace_changed(
        &mut self,
        c: &Cluster,
        old: Option<&Namespace>,
        name: &Text,
    ) -> Result<List<GroupChange>, NoMemory>
        requires { StandsFor self.old (before_namespace (option_copied old) name.now c.now.cluster) }
        ensures changes { IfOk result (λ changes. changes ≡ changes_between (before_namespace (option_copied old.entry) name.now c.now.cluster) c.now.cluster self.old) }
        ensures index { OnOk result (self.new ≡ at_cluster c.now.cluster self.old) }
        ensures stands { OnOk result (StandsFor self.new c.now.cluster) }
        ensures err { OnErr result (self.new ≡ self.old) }
    {
        c.keeps_its_form();
        let drafts = self.drafts_of_namespace(c, old, name)?;
        Ok(self.settle(drafts))
    }

    /// The groups in use that contain the pod, by their texts.
    pub fn groups_of(&self, pod: &PodKey) -> Result<List<GroupKey>, NoMemory>
        ensures index { IfOk result (λ groups. groups ≡ groups_of self.now pod.now) }
        ensures pods { (c : ClusterData) → IsCluster c → StandsFor self.now c → IfOk result (λ groups. groups ≡ groups_with c pod.now (map (λ (e : EntryData). e.group) self.now)) }
    {
        self.groups_having(pod)
    }

    // The groups with a member that is of the pod.
    #[tactic(auto, unfolding(crate::specs::Index::groups_of))]
    fn groups_having(&self, pod: &PodKey) -> Result<List<GroupKey>, NoMemory>
        ensures { IfOk result (λ groups. groups ≡ groups_of self.now pod.now) }
    {
        let mut groups = Vec::new(*self.entries.allocator());
        let entries = self.entries.as_slice();
        for entry in entries {
            entry.push_if_has(&mut groups, pod)?;
        }
        Ok(List::of(groups))
    }

    /// The nodes of the members of these groups, by name, without a repeat. One that isn't listed may be among them.
    #[tactic(auto, unfolding(crate::specs::Index::span))]
    pub fn span(&self, applied: &List<GroupKey>) -> Result<List<Text>, NoMemory>
        requires { AllByRecursion (λ (g : Group). IsSome (entry_of self.now g)) applied.now }
        ensures { IfOk result (λ nodes. nodes ≡ span self.now applied.now) }
    {
        let alloc = *self.entries.allocator();
        let nodes = self.nodes_of(alloc, applied.as_slice())?;
        Ok(List::of(sorted(alloc, nodes)?))
    }

    // The nodes of the members of these groups, one after the other.
    fn nodes_of(&self, alloc: Global, applied: &[GroupKey]) -> Result<Vec<Text>, NoMemory>
        ensures { IfOk result (λ nodes. nodes.items ≡ flat_map (group_nodes self.now) applied.now) }
    {
        let mut nodes = Vec::new(alloc);
        for g in applied {
            self.push_group_nodes(&mut nodes, g)?;
        }
        Ok(nodes)
    }

    fn push_group_nodes(&self, nodes: &mut Vec<Text>, g: &GroupKey) -> Result<(), NoMemory>
        ensures { OnOk result (nodes.new.items ≡ nodes.old.items ++ group_nodes self.now g.now) }
    {
        match self.members(g) {
            Some(members) => push_nodes(nodes, members.as_slice()),
            None => Ok(()),
        }
    }

    /// Whether a member of the group is on the node. It is false where the group isn't in use. It does not allocate.
    pub fn is_on(&self, g: &GroupKey, node: &Text) -> bool
        ensures { result ≡ has_node self.now g.now node.now }
    {
        match self.members(g) {
            Some(members) => any_on(members.as_slice(), node),
            None => false,
        }
    }

    /// The members of a group in use, by address. It does not allocate.
    pub fn members(&self, g: &GroupKey) -> Option<&List<Member>>
        ensures { option_copied result ≡ option_map (λ (e : EntryData). e.members) (entry_of self.now g.now) }
    {
        match place_of(self.entries.as_slice(), g) {
            Some(i) => Some(self.entries[i].members()),
            None => None,
        }
    }
}

#[cfg(test)]
mod tests;

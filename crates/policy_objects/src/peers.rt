//! Reading the peers of a rule.
ghost use Rattle.std.specs.Prelude.{◌≡◌, [], List, IfOk, map, option_map, not, is_some};
ghost use Rattle.std.specs.List.{filter_map};
ghost use Rattle.serde_json.specs.View.{view};
ghost use Rattle.json_fields.specs.Faults.{least};
ghost use Rattle.json_fields.specs.Shapes.{unless};
ghost use Rattle.json_fields.specs.declared.refusal.ReadRefusal.TheVariants.{BadShape};
ghost use Rattle.policy_objects.specs.Peers.{own_pods, group_of, may_refer, has_reference, reference_of, beside_reference, group_name_faults, reference_faults, has_block, beside_peer, is_body, has_body, block_field_faults, ip_block_faults, plain_peer_faults, peer_faults, the_block, plain_peer, peer_of, peers_value, references_value};

use cl_types::{Copies, List, NoMemory, PolicyKind, Text};
use cluster_types::{Block, Peer};
use json_fields::{
    ReadRefusal, Reading, bad_shape, earlier, in_field, inner, object_fault, other_field,
    text_field_fault, text_in, unsupported,
};
use label_select::GroupKey;
use object_reader::{
    block_fault, block_value, cluster_group, has_namespace_selector, has_selector, pod_selector,
    selectors_fault,
};
use serde_json::Value;
use std::alloc::Global;

/// The pods among a policy's own that a selector of pods selects.
#[tactic(auto, unfolding(crate::specs::Peers::own_pods))]
pub(crate) fn own_pods(
    alloc: Global,
    own: &GroupKey,
    object: Option<&Value>,
) -> Result<GroupKey, NoMemory>
    ensures { IfOk result (λ (g : _). g ≡ own_pods own.now (option_map (λ v. view v.now) object.entry)) }
{
    let pods = pod_selector(alloc, object)?;
    Ok(GroupKey {
        scope: own.scope.copy()?,
        pods,
    })
}

/// The pods that the selectors of an object select; `own` has the policy's own pods.
#[tactic(auto, unfolding(crate::specs::Peers::group_of))]
pub(crate) fn group_of(
    alloc: Global,
    own: &GroupKey,
    object: Option<&Value>,
) -> Result<GroupKey, NoMemory>
    ensures { IfOk result (λ (g : _). g ≡ group_of own.now (option_map (λ v. view v.now) object.entry)) }
{
    if has_namespace_selector(object) {
        cluster_group(alloc, object)
    } else {
        own_pods(alloc, own, object)
    }
}

// ---- references to cluster groups

/// Whether policies of this kind refer to cluster groups.
pub(crate) fn may_refer(kind: PolicyKind) -> bool
    ensures { result ≡ may_refer kind }
{
    match kind {
        PolicyKind::Cluster => true,
        PolicyKind::Antrea => false,
        PolicyKind::Kube => false,
    }
}

/// Whether an entry refers to a cluster group.
#[tactic(auto, unfolding(crate::specs::Peers::has_reference))]
pub(crate) fn has_reference(entry: &Value) -> bool
    ensures { result ≡ has_reference (view entry.now) }
{
    inner(Some(entry), "group").is_some()
}

fn copy_of(alloc: Global, text: Option<&str>) -> Result<Option<Text>, NoMemory>
    ensures { IfOk result (λ (o : _). o ≡ option_map (λ s. s.now) text.entry) }
{
    match text {
        Some(text) => Ok(Some(Text::of(Vec::from_slice(alloc, text.as_bytes())?))),
        None => Ok(None),
    }
}

/// The cluster group to which an entry refers.
#[tactic(auto, unfolding(crate::specs::Peers::reference_of))]
pub(crate) fn reference_of(alloc: Global, entry: &Value) -> Result<Option<Text>, NoMemory>
    ensures { IfOk result (λ (o : _). o ≡ reference_of (view entry.now)) }
{
    copy_of(alloc, text_in(inner(Some(entry), "group")))
}

#[tactic(auto, unfolding(crate::specs::Peers::beside_reference))]
fn beside_reference(entry: &Value) -> Option<&str>
    ensures { option_map (λ s. s.now) result ≡ beside_reference (view entry.now) }
{
    other_field(["group"].as_slice(), Some(entry))
}

#[tactic(auto, unfolding(crate::specs::Peers::group_name_faults))]
fn group_name_fault(alloc: Global, entry: &Value) -> Result<Option<ReadRefusal>, NoMemory>
    ensures { IfOk result (λ f. f ≡ least (group_name_faults (view entry.now))) }
{
    text_field_fault(alloc, "group", Some(entry))
}

#[tactic(auto, unfolding(json_fields::specs::Faults::least, json_fields::specs::Faults::earlier))]
fn alone_fault(alloc: Global, entry: &Value) -> Option<ReadRefusal>
    ensures { result ≡ least (unless (not (is_some (beside_reference (view entry.now)))) (BadShape [])) }
{
    match beside_reference(entry) {
        Some(_) => Some(bad_shape(alloc)),
        None => None,
    }
}

/// The fault of an entry that refers to a cluster group.
#[tactic(auto, using(json_fields::specs::FaultLaws::least_append), unfolding(crate::specs::Peers::reference_faults))]
pub(crate) fn reference_fault(alloc: Global, entry: &Value) -> Result<Option<ReadRefusal>, NoMemory>
    ensures { IfOk result (λ f. f ≡ least (reference_faults (view entry.now))) }
{
    let name = group_name_fault(alloc, entry)?;
    Ok(earlier(alone_fault(alloc, entry), name))
}

// ---- a peer

#[tactic(auto, unfolding(crate::specs::Peers::has_block))]
fn has_block(entry: &Value) -> bool
    ensures { result ≡ has_block (view entry.now) }
{
    inner(Some(entry), "ipBlock").is_some()
}

#[tactic(auto, unfolding(crate::specs::Peers::beside_peer))]
fn beside_peer(entry: &Value) -> Option<&str>
    ensures { option_map (λ s. s.now) result ≡ beside_peer (view entry.now) }
{
    other_field(
        ["podSelector", "namespaceSelector", "ipBlock"].as_slice(),
        Some(entry),
    )
}

fn is_body(selected: bool, block: bool, other: bool) -> bool
    ensures { result ≡ is_body selected block other }
{
    match (selected, block) {
        (true, true) => false,
        (false, false) => other,
        _ => true,
    }
}

#[tactic(auto, unfolding(crate::specs::Peers::has_body))]
fn has_body(entry: &Value) -> bool
    ensures { result ≡ has_body (view entry.now) }
{
    let other = beside_peer(entry).is_some();
    is_body(has_selector(Some(entry)), has_block(entry), other)
}

#[tactic(auto, unfolding(json_fields::specs::Faults::least, json_fields::specs::Faults::earlier))]
fn body_fault(alloc: Global, entry: &Value) -> Option<ReadRefusal>
    ensures { result ≡ least (unless (has_body (view entry.now)) (BadShape [])) }
{
    if has_body(entry) {
        None
    } else {
        Some(bad_shape(alloc))
    }
}

#[tactic(auto, using(json_fields::specs::FaultLaws::least_at), unfolding(crate::specs::Peers::block_field_faults, json_fields::specs::Shapes::in_field))]
fn block_field_fault(alloc: Global, entry: &Value) -> Result<Option<ReadRefusal>, NoMemory>
    ensures { IfOk result (λ f. f ≡ least (block_field_faults (view entry.now))) }
{
    let fault = block_fault(alloc, inner(Some(entry), "ipBlock"))?;
    in_field(alloc, "ipBlock", fault)
}

#[tactic(auto, unfolding(crate::specs::Peers::ip_block_faults, json_fields::specs::Faults::least))]
fn ip_block_fault(alloc: Global, entry: &Value) -> Result<Option<ReadRefusal>, NoMemory>
    ensures { IfOk result (λ f. f ≡ least (ip_block_faults (view entry.now))) }
{
    if has_block(entry) {
        block_field_fault(alloc, entry)
    } else {
        Ok(None)
    }
}

#[tactic(auto, using(json_fields::specs::FaultLaws::least_append), unfolding(crate::specs::Peers::plain_peer_faults))]
fn plain_peer_fault(alloc: Global, entry: &Value) -> Result<Option<ReadRefusal>, NoMemory>
    ensures { IfOk result (λ f. f ≡ least (plain_peer_faults (view entry.now))) }
{
    let shape = earlier(object_fault(alloc, Some(entry)), body_fault(alloc, entry));
    let other = unsupported(alloc, beside_peer(entry))?;
    let selectors = selectors_fault(alloc, Some(entry))?;
    let block = ip_block_fault(alloc, entry)?;
    Ok(earlier(earlier(earlier(shape, other), selectors), block))
}

#[tactic(auto, unfolding(crate::specs::Peers::peer_faults))]
fn peer_fault(
    alloc: Global,
    kind: PolicyKind,
    entry: &Value,
) -> Result<Option<ReadRefusal>, NoMemory>
    ensures { IfOk result (λ f. f ≡ least (peer_faults kind (view entry.now))) }
{
    if may_refer(kind) && has_reference(entry) {
        reference_fault(alloc, entry)
    } else {
        plain_peer_fault(alloc, entry)
    }
}

/// A peer in a rule of a policy of this kind.
#[derive(Clone, Copy, Debug)]
pub(crate) struct PeerEntry {
    pub kind: PolicyKind,
}

impl Reading for PeerEntry {
    type Item = Option<Text>;

    ghost faults = { λ r. peer_faults r.kind };

    ghost meaning = { λ _. reference_of };

    fn fault(&self, alloc: Global, value: &Value) -> Result<Option<ReadRefusal>, NoMemory> {
        peer_fault(alloc, self.kind, value)
    }

    fn read(&self, alloc: Global, value: &Value) -> Result<Option<Text>, NoMemory> {
        reference_of(alloc, value)
    }
}

#[tactic(auto, unfolding(crate::specs::Peers::the_block))]
fn the_block(alloc: Global, entry: &Value) -> Result<Block, NoMemory>
    ensures { IfOk result (λ (b : _). b ≡ the_block (view entry.now)) }
{
    block_value(alloc, inner(Some(entry), "ipBlock"))
}

#[tactic(auto, unfolding(crate::specs::Peers::plain_peer))]
fn plain_peer(alloc: Global, own: &GroupKey, entry: &Value) -> Result<Peer, NoMemory>
    ensures { IfOk result (λ (p : _). p ≡ plain_peer own.now (view entry.now)) }
{
    if has_block(entry) {
        Ok(Peer::Block(the_block(alloc, entry)?))
    } else {
        Ok(Peer::Group(group_of(alloc, own, Some(entry))?))
    }
}

#[tactic(auto, unfolding(crate::specs::Peers::peer_of))]
fn peer_of(alloc: Global, own: &GroupKey, entry: &Value) -> Result<Option<Peer>, NoMemory>
    ensures { IfOk result (λ (o : _). o ≡ peer_of own.now (view entry.now)) }
{
    if has_reference(entry) {
        Ok(None)
    } else {
        Ok(Some(plain_peer(alloc, own, entry)?))
    }
}

fn peers_among(alloc: Global, own: &GroupKey, items: &[Value]) -> Result<List<Peer>, NoMemory>
    ensures { IfOk result (λ (l : List _). l ≡ filter_map (peer_of own.now) (map view items.now)) }
{
    let mut peers = Vec::new(alloc);
    for item in items {
        if let Some(peer) = peer_of(alloc, own, item)? {
            peers.push(peer)?;
        }
    }
    Ok(List::of(peers))
}

/// The peers that some entries say; none where a rule is for every peer.
pub(crate) fn peers_of(
    alloc: Global,
    own: &GroupKey,
    items: &[Value],
) -> Result<Option<List<Peer>>, NoMemory>
    ensures { IfOk result (λ (o : _). o ≡ peers_value own.now (map view items.now)) }
{
    match items {
        [] => Ok(None),
        _ => Ok(Some(peers_among(alloc, own, items)?)),
    }
}

/// The cluster groups to which some entries refer.
pub(crate) fn references_of(alloc: Global, items: &[Value]) -> Result<List<Text>, NoMemory>
    ensures { IfOk result (λ (l : List _). l ≡ references_value (map view items.now)) }
{
    let mut references = Vec::new(alloc);
    for item in items {
        if let Some(reference) = reference_of(alloc, item)? {
            references.push(reference)?;
        }
    }
    Ok(List::of(references))
}

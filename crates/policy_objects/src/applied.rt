//! Reading to whom a policy applies.
ghost use Rattle.std.specs.Prelude.{◌≡◌, ◌||◌, [], List, IfOk, Some, map, option_map, is_some};
ghost use Rattle.serde_json.specs.View.{view};
ghost use Rattle.json_fields.specs.Faults.{least};
ghost use Rattle.json_fields.specs.Shapes.{unless};
ghost use Rattle.json_fields.specs.declared.refusal.ReadRefusal.TheVariants.{BadShape};
ghost use Rattle.object_reader.specs.Groups.{pod_selector_faults, has_pod_selector, has_selector as selects};
ghost use Rattle.policy_objects.specs.Peers.{reference_of};
ghost use Rattle.policy_objects.specs.Applied.{beside_pods, namespaced_entry_faults, beside_selectors, wide_entry_faults, plain_entry_faults, entry_faults, entries_in, entries_of, applied_to_faults, applied_items, applied_of, applied_value};

use crate::peers::{group_of, has_reference, may_refer, reference_fault, reference_of};
use cl_types::{List, NoMemory, PolicyKind, Text};
use json_fields::{
    ReadRefusal, Reading, bad_shape, earlier, elements, elements_fault, in_field, inner, items_in,
    object_fault, other_field, selector_field_fault, unsupported,
};
use label_select::GroupKey;
use object_reader::{has_selector, selectors_fault};
use serde_json::Value;
use std::alloc::Global;

// ---- an entry

#[tactic(auto, unfolding(crate::specs::Applied::beside_pods))]
fn beside_pods(entry: &Value) -> Option<&str>
    ensures { option_map (λ s. s.now) result ≡ beside_pods (view entry.now) }
{
    other_field(["podSelector"].as_slice(), Some(entry))
}

#[tactic(auto, unfolding(object_reader::specs::Groups::has_pod_selector))]
fn has_pod_selector(entry: &Value) -> bool
    ensures { result ≡ has_pod_selector (Some (view entry.now)) }
{
    inner(Some(entry), "podSelector").is_some()
}

#[tactic(auto, unfolding(object_reader::specs::Groups::pod_selector_faults))]
fn pod_selector_fault(alloc: Global, entry: &Value) -> Result<Option<ReadRefusal>, NoMemory>
    ensures { IfOk result (λ f. f ≡ least (pod_selector_faults (Some (view entry.now)))) }
{
    selector_field_fault(alloc, "podSelector", Some(entry))
}

#[tactic(auto, unfolding(json_fields::specs::Faults::least, json_fields::specs::Faults::earlier))]
fn pods_wanted_fault(alloc: Global, entry: &Value) -> Option<ReadRefusal>
    ensures { result ≡ least (unless (has_pod_selector (Some (view entry.now)) || is_some (beside_pods (view entry.now))) (BadShape [])) }
{
    if has_pod_selector(entry) || beside_pods(entry).is_some() {
        None
    } else {
        Some(bad_shape(alloc))
    }
}

#[tactic(auto, using(json_fields::specs::FaultLaws::least_append), unfolding(crate::specs::Applied::namespaced_entry_faults))]
fn namespaced_entry_fault(alloc: Global, entry: &Value) -> Result<Option<ReadRefusal>, NoMemory>
    ensures { IfOk result (λ f. f ≡ least (namespaced_entry_faults (view entry.now))) }
{
    let shape = earlier(
        object_fault(alloc, Some(entry)),
        pods_wanted_fault(alloc, entry),
    );
    let other = unsupported(alloc, beside_pods(entry))?;
    let pods = pod_selector_fault(alloc, entry)?;
    Ok(earlier(earlier(shape, other), pods))
}

#[tactic(auto, unfolding(crate::specs::Applied::beside_selectors))]
fn beside_selectors(entry: &Value) -> Option<&str>
    ensures { option_map (λ s. s.now) result ≡ beside_selectors (view entry.now) }
{
    other_field(["podSelector", "namespaceSelector"].as_slice(), Some(entry))
}

#[tactic(auto, unfolding(json_fields::specs::Faults::least, json_fields::specs::Faults::earlier))]
fn selector_wanted_fault(alloc: Global, entry: &Value) -> Option<ReadRefusal>
    ensures { result ≡ least (unless (selects (Some (view entry.now)) || is_some (beside_selectors (view entry.now))) (BadShape [])) }
{
    if has_selector(Some(entry)) || beside_selectors(entry).is_some() {
        None
    } else {
        Some(bad_shape(alloc))
    }
}

#[tactic(auto, using(json_fields::specs::FaultLaws::least_append), unfolding(crate::specs::Applied::wide_entry_faults))]
fn wide_entry_fault(alloc: Global, entry: &Value) -> Result<Option<ReadRefusal>, NoMemory>
    ensures { IfOk result (λ f. f ≡ least (wide_entry_faults (view entry.now))) }
{
    let shape = earlier(
        object_fault(alloc, Some(entry)),
        selector_wanted_fault(alloc, entry),
    );
    let other = unsupported(alloc, beside_selectors(entry))?;
    let selectors = selectors_fault(alloc, Some(entry))?;
    Ok(earlier(earlier(shape, other), selectors))
}

fn plain_entry_fault(
    alloc: Global,
    kind: PolicyKind,
    entry: &Value,
) -> Result<Option<ReadRefusal>, NoMemory>
    ensures { IfOk result (λ f. f ≡ least (plain_entry_faults kind (view entry.now))) }
{
    match kind {
        PolicyKind::Cluster => wide_entry_fault(alloc, entry),
        PolicyKind::Antrea => namespaced_entry_fault(alloc, entry),
        PolicyKind::Kube => namespaced_entry_fault(alloc, entry),
    }
}

#[tactic(auto, unfolding(crate::specs::Applied::entry_faults))]
fn entry_fault(
    alloc: Global,
    kind: PolicyKind,
    entry: &Value,
) -> Result<Option<ReadRefusal>, NoMemory>
    ensures { IfOk result (λ f. f ≡ least (entry_faults kind (view entry.now))) }
{
    if may_refer(kind) && has_reference(entry) {
        reference_fault(alloc, entry)
    } else {
        plain_entry_fault(alloc, kind, entry)
    }
}

// An entry of a policy of this kind.
#[derive(Clone, Copy, Debug)]
struct AppliedEntry {
    kind: PolicyKind,
}

impl Reading for AppliedEntry {
    type Item = Option<Text>;

    ghost faults = { λ r. entry_faults r.kind };

    ghost meaning = { λ _. reference_of };

    fn fault(&self, alloc: Global, value: &Value) -> Result<Option<ReadRefusal>, NoMemory> {
        entry_fault(alloc, self.kind, value)
    }

    fn read(&self, alloc: Global, value: &Value) -> Result<Option<Text>, NoMemory> {
        reference_of(alloc, value)
    }
}

// ---- the list

#[tactic(auto, unfolding(json_fields::specs::Faults::least, json_fields::specs::Faults::earlier))]
fn some_entries(
    alloc: Global,
    kind: PolicyKind,
    items: &[Value],
) -> Result<Option<ReadRefusal>, NoMemory>
    ensures { IfOk result (λ f. f ≡ least (entries_in kind (Some (map view items.now)))) }
{
    match items {
        [] => Ok(Some(bad_shape(alloc))),
        _ => elements_fault(alloc, &AppliedEntry { kind }, items),
    }
}

#[tactic(auto, unfolding(crate::specs::Applied::entries_of, json_fields::specs::Faults::least, json_fields::specs::Faults::earlier))]
fn entries_fault(
    alloc: Global,
    kind: PolicyKind,
    value: Option<&Value>,
) -> Result<Option<ReadRefusal>, NoMemory>
    ensures { IfOk result (λ f. f ≡ least (entries_of kind (option_map (λ v. view v.now) value.entry))) }
{
    let Some(value) = value else {
        return Ok(Some(bad_shape(alloc)));
    };
    match elements(value) {
        Some(items) => some_entries(alloc, kind, items),
        None => Ok(Some(bad_shape(alloc))),
    }
}

/// The fault of to whom a policy of this kind applies.
#[tactic(auto, using(json_fields::specs::FaultLaws::least_at), unfolding(crate::specs::Applied::applied_to_faults, json_fields::specs::Shapes::in_field))]
pub(crate) fn applied_to_fault(
    alloc: Global,
    kind: PolicyKind,
    spec: Option<&Value>,
) -> Result<Option<ReadRefusal>, NoMemory>
    ensures { IfOk result (λ f. f ≡ least (applied_to_faults kind (option_map (λ v. view v.now) spec.entry))) }
{
    let fault = entries_fault(alloc, kind, inner(spec, "appliedTo"))?;
    in_field(alloc, "appliedTo", fault)
}

/// The entries that say to whom a policy applies.
#[tactic(auto, unfolding(crate::specs::Applied::applied_items))]
pub(crate) fn applied_items(spec: Option<&Value>) -> &[Value]
    ensures { map view result.now ≡ applied_items (option_map (λ v. view v.now) spec.entry) }
{
    items_in(inner(spec, "appliedTo"))
}

#[tactic(auto, unfolding(crate::specs::Applied::applied_of))]
fn applied_of(alloc: Global, own: &GroupKey, entry: &Value) -> Result<Option<GroupKey>, NoMemory>
    ensures { IfOk result (λ (o : _). o ≡ applied_of own.now (view entry.now)) }
{
    if has_reference(entry) {
        Ok(None)
    } else {
        Ok(Some(group_of(alloc, own, Some(entry))?))
    }
}

/// The groups to which a policy applies, without its references.
pub(crate) fn applied_groups(
    alloc: Global,
    own: &GroupKey,
    items: &[Value],
) -> Result<List<GroupKey>, NoMemory>
    ensures { IfOk result (λ (l : List _). l ≡ applied_value own.now (map view items.now)) }
{
    let mut groups = Vec::new(alloc);
    for item in items {
        if let Some(group) = applied_of(alloc, own, item)? {
            groups.push(group)?;
        }
    }
    Ok(List::of(groups))
}

//! Reading groups of pods by two selectors, and cluster groups.
ghost use Rattle.std.specs.Prelude.{◌≡◌, List, IfOk, Some, map, option_map, codes};
ghost use Rattle.serde_json.specs.View.{view};
ghost use Rattle.json_fields.specs.Faults.{least};
ghost use Rattle.json_fields.specs.Shapes.{in_field};
ghost use Rattle.object_reader.specs.Groups.{pod_selector_faults, namespace_selector_faults, selectors_faults, has_pod_selector, has_namespace_selector, has_selector, pod_selector, namespace_selector, cluster_group, has_blocks, has_children, other_body, bodies_faults, body_faults, element_block_faults, element_block, ip_blocks_faults, child_groups_faults, group_spec_faults, group_faults, ip_blocks, child_groups, group_body, group_value};

use crate::blocks::{block_fault, block_value};
use crate::nodes::{name_of, named_fault, spec_of};
use cl_types::{List, NoMemory, Text};
use cluster_types::{Block, ClusterGroup, GroupBody};
use json_fields::{
    ElementText, ReadRefusal, Reading, bad_shape, earlier, in_field, inner, list_field_fault,
    list_value, object_fault, other_field, selector_field_fault, selector_value, unsupported,
};
use label_select::{GroupKey, Scope, Selector};
use serde_json::Value;
use std::alloc::Global;

// ---- two selectors

#[tactic(auto, unfolding(crate::specs::Groups::pod_selector_faults))]
fn pod_selector_fault(
    alloc: Global,
    object: Option<&Value>,
) -> Result<Option<ReadRefusal>, NoMemory>
    ensures { IfOk result (λ f. f ≡ least (pod_selector_faults (option_map (λ v. view v.now) object.entry))) }
{
    selector_field_fault(alloc, "podSelector", object)
}

#[tactic(auto, unfolding(crate::specs::Groups::namespace_selector_faults))]
fn namespace_selector_fault(
    alloc: Global,
    object: Option<&Value>,
) -> Result<Option<ReadRefusal>, NoMemory>
    ensures { IfOk result (λ f. f ≡ least (namespace_selector_faults (option_map (λ v. view v.now) object.entry))) }
{
    selector_field_fault(alloc, "namespaceSelector", object)
}

/// The fault of both selectors of an object.
#[tactic(auto, using(json_fields::specs::FaultLaws::least_append), unfolding(crate::specs::Groups::selectors_faults))]
pub fn selectors_fault(
    alloc: Global,
    object: Option<&Value>,
) -> Result<Option<ReadRefusal>, NoMemory>
    ensures { IfOk result (λ f. f ≡ least (selectors_faults (option_map (λ v. view v.now) object.entry))) }
{
    let pods = pod_selector_fault(alloc, object)?;
    let namespaces = namespace_selector_fault(alloc, object)?;
    Ok(earlier(pods, namespaces))
}

#[tactic(auto, unfolding(crate::specs::Groups::has_pod_selector))]
fn has_pod_selector(object: Option<&Value>) -> bool
    ensures { result ≡ has_pod_selector (option_map (λ v. view v.now) object.entry) }
{
    inner(object, "podSelector").is_some()
}

/// Whether an object has a selector of namespaces.
#[tactic(auto, unfolding(crate::specs::Groups::has_namespace_selector))]
pub fn has_namespace_selector(object: Option<&Value>) -> bool
    ensures { result ≡ has_namespace_selector (option_map (λ v. view v.now) object.entry) }
{
    inner(object, "namespaceSelector").is_some()
}

/// Whether an object has one of the two selectors.
#[tactic(auto, unfolding(crate::specs::Groups::has_selector))]
pub fn has_selector(object: Option<&Value>) -> bool
    ensures { result ≡ has_selector (option_map (λ v. view v.now) object.entry) }
{
    has_pod_selector(object) || has_namespace_selector(object)
}

/// The selector of an object's pods.
#[tactic(auto, unfolding(crate::specs::Groups::pod_selector))]
pub fn pod_selector(alloc: Global, object: Option<&Value>) -> Result<Selector, NoMemory>
    ensures { IfOk result (λ (s : _). s ≡ pod_selector (option_map (λ v. view v.now) object.entry)) }
{
    selector_value(alloc, inner(object, "podSelector"))
}

/// The selector of an object's namespaces.
#[tactic(auto, unfolding(crate::specs::Groups::namespace_selector))]
pub fn namespace_selector(alloc: Global, object: Option<&Value>) -> Result<Selector, NoMemory>
    ensures { IfOk result (λ (s : _). s ≡ namespace_selector (option_map (λ v. view v.now) object.entry)) }
{
    selector_value(alloc, inner(object, "namespaceSelector"))
}

/// The pods of the whole cluster that both selectors of an object select.
#[tactic(auto, unfolding(crate::specs::Groups::cluster_group))]
pub fn cluster_group(alloc: Global, object: Option<&Value>) -> Result<GroupKey, NoMemory>
    ensures { IfOk result (λ (g : _). g ≡ cluster_group (option_map (λ v. view v.now) object.entry)) }
{
    let namespaces = namespace_selector(alloc, object)?;
    let pods = pod_selector(alloc, object)?;
    Ok(GroupKey {
        scope: Scope::Namespaces(namespaces),
        pods,
    })
}

// ---- cluster groups

#[tactic(auto, unfolding(crate::specs::Groups::has_blocks))]
fn has_blocks(spec: Option<&Value>) -> bool
    ensures { result ≡ has_blocks (option_map (λ v. view v.now) spec.entry) }
{
    inner(spec, "ipBlocks").is_some()
}

#[tactic(auto, unfolding(crate::specs::Groups::has_children))]
fn has_children(spec: Option<&Value>) -> bool
    ensures { result ≡ has_children (option_map (λ v. view v.now) spec.entry) }
{
    inner(spec, "childGroups").is_some()
}

// A field that is no body of a group.
#[tactic(auto, unfolding(crate::specs::Groups::other_body))]
fn other_body(spec: Option<&Value>) -> Option<&str>
    ensures { option_map (λ s. s.now) result ≡ other_body (option_map (λ v. view v.now) spec.entry) }
{
    other_field(
        [
            "podSelector",
            "namespaceSelector",
            "ipBlocks",
            "childGroups",
        ]
        .as_slice(),
        spec,
    )
}

// A group has exactly one body; beside a field that isn't supported it need have none.
#[tactic(auto, unfolding(json_fields::specs::Faults::least, json_fields::specs::Faults::earlier))]
fn bodies_fault(
    alloc: Global,
    selected: bool,
    blocks: bool,
    children: bool,
    other: bool,
) -> Option<ReadRefusal>
    ensures { result ≡ least (bodies_faults selected blocks children other) }
{
    match (selected, blocks, children) {
        (true, false, false) => None,
        (false, true, false) => None,
        (false, false, true) => None,
        (false, false, false) => { if other { None } else { Some(bad_shape(alloc)) } }
        _ => Some(bad_shape(alloc)),
    }
}

#[tactic(auto, unfolding(crate::specs::Groups::body_faults))]
fn body_fault(alloc: Global, spec: Option<&Value>) -> Option<ReadRefusal>
    ensures { result ≡ least (body_faults (option_map (λ v. view v.now) spec.entry)) }
{
    let other = other_body(spec).is_some();
    bodies_fault(
        alloc,
        has_selector(spec),
        has_blocks(spec),
        has_children(spec),
        other,
    )
}

// An element of a list of blocks.
struct ElementBlock;

impl Reading for ElementBlock {
    type Item = Block;

    ghost faults = { λ _. element_block_faults };

    ghost meaning = { λ _. element_block };

    fn fault(&self, alloc: Global, value: &Value) -> Result<Option<ReadRefusal>, NoMemory> {
        block_fault(alloc, Some(value))
    }

    fn read(&self, alloc: Global, value: &Value) -> Result<Block, NoMemory> {
        block_value(alloc, Some(value))
    }
}

#[tactic(auto, unfolding(crate::specs::Groups::ip_blocks_faults))]
fn ip_blocks_fault(alloc: Global, spec: Option<&Value>) -> Result<Option<ReadRefusal>, NoMemory>
    ensures { IfOk result (λ f. f ≡ least (ip_blocks_faults (option_map (λ v. view v.now) spec.entry))) }
{
    list_field_fault(alloc, &ElementBlock, "ipBlocks", spec)
}

#[tactic(auto, unfolding(crate::specs::Groups::child_groups_faults))]
fn child_groups_fault(alloc: Global, spec: Option<&Value>) -> Result<Option<ReadRefusal>, NoMemory>
    ensures { IfOk result (λ f. f ≡ least (child_groups_faults (option_map (λ v. view v.now) spec.entry))) }
{
    list_field_fault(alloc, &ElementText, "childGroups", spec)
}

#[tactic(auto, using(json_fields::specs::FaultLaws::least_append), unfolding(crate::specs::Groups::group_spec_faults))]
fn group_spec_fault(alloc: Global, spec: Option<&Value>) -> Result<Option<ReadRefusal>, NoMemory>
    ensures { IfOk result (λ f. f ≡ least (group_spec_faults (option_map (λ v. view v.now) spec.entry))) }
{
    let shape = earlier(object_fault(alloc, spec), body_fault(alloc, spec));
    let other = unsupported(alloc, other_body(spec))?;
    let selectors = selectors_fault(alloc, spec)?;
    let blocks = ip_blocks_fault(alloc, spec)?;
    let children = child_groups_fault(alloc, spec)?;
    Ok(earlier(
        earlier(earlier(earlier(shape, other), selectors), blocks),
        children,
    ))
}

#[tactic(auto, using(json_fields::specs::FaultLaws::least_at), unfolding(json_fields::specs::Shapes::in_field))]
fn group_spec_field_fault(alloc: Global, object: &Value) -> Result<Option<ReadRefusal>, NoMemory>
    ensures { IfOk result (λ f. f ≡ least (in_field (codes "spec") group_spec_faults (Some (view object.now)))) }
{
    let fault = group_spec_fault(alloc, inner(Some(object), "spec"))?;
    in_field(alloc, "spec", fault)
}

/// The fault of a cluster group.
#[tactic(auto, using(json_fields::specs::FaultLaws::least_append), unfolding(crate::specs::Groups::group_faults))]
pub fn group_fault(alloc: Global, object: &Value) -> Result<Option<ReadRefusal>, NoMemory>
    ensures { IfOk result (λ f. f ≡ least (group_faults (view object.now))) }
{
    let named = named_fault(alloc, object)?;
    let spec = group_spec_field_fault(alloc, object)?;
    Ok(earlier(named, spec))
}

#[tactic(auto, unfolding(crate::specs::Groups::ip_blocks))]
fn ip_blocks(alloc: Global, spec: Option<&Value>) -> Result<List<Block>, NoMemory>
    ensures { IfOk result (λ (l : List _). l ≡ ip_blocks (option_map (λ v. view v.now) spec.entry)) }
{
    list_value(alloc, &ElementBlock, inner(spec, "ipBlocks"))
}

#[tactic(auto, unfolding(crate::specs::Groups::child_groups))]
fn child_groups(alloc: Global, spec: Option<&Value>) -> Result<List<Text>, NoMemory>
    ensures { IfOk result (λ (l : List _). l ≡ child_groups (option_map (λ v. view v.now) spec.entry)) }
{
    list_value(alloc, &ElementText, inner(spec, "childGroups"))
}

#[tactic(auto, unfolding(crate::specs::Groups::group_body))]
fn group_body(alloc: Global, spec: Option<&Value>) -> Result<GroupBody, NoMemory>
    ensures { IfOk result (λ (b : _). b ≡ group_body (option_map (λ v. view v.now) spec.entry)) }
{
    if has_blocks(spec) {
        Ok(GroupBody::Blocks(ip_blocks(alloc, spec)?))
    } else if has_children(spec) {
        Ok(GroupBody::Children(child_groups(alloc, spec)?))
    } else {
        Ok(GroupBody::Selected(cluster_group(alloc, spec)?))
    }
}

/// The cluster group that an object is.
#[tactic(auto, unfolding(crate::specs::Groups::group_value))]
pub fn group_value(alloc: Global, object: &Value) -> Result<ClusterGroup, NoMemory>
    ensures { IfOk result (λ (g : _). g ≡ group_value (view object.now)) }
{
    let name = name_of(alloc, object)?;
    let body = group_body(alloc, spec_of(object))?;
    Ok(ClusterGroup { name, body })
}

//! Reading the directions that a policy of Kubernetes has.
ghost use Rattle.std.specs.Prelude.{◌≡◌, List, IfOk, map, option_map};
ghost use Rattle.std.specs.List.{list_any, filter_map};
ghost use Rattle.serde_json.specs.View.{view};
ghost use Rattle.cl_types.specs.Dir.{dir_eq};
ghost use Rattle.json_fields.specs.Faults.{least};
ghost use Rattle.policy_parts.specs.Directions.{dir_named, type_of, type_faults, types_faults, types_of, has_ingress, has_egress};

use cl_types::{Dir, NoMemory};
use json_fields::{ReadRefusal, Reading, bad_shape, inner, items_in, list_field_fault};
use serde_json::Value;
use std::alloc::Global;

fn dir_named(text: &[u8]) -> Option<Dir>
    ensures { result ≡ dir_named text.now }
{
    if text == b"Ingress".as_slice() {
        Some(Dir::Ingress)
    } else if text == b"Egress".as_slice() {
        Some(Dir::Egress)
    } else {
        None
    }
}

#[tactic(auto, unfolding(crate::specs::Directions::type_of))]
fn type_of(value: &Value) -> Option<Dir>
    ensures { result ≡ type_of (view value.now) }
{
    match value.as_str() {
        Some(text) => dir_named(text.as_bytes()),
        None => None,
    }
}

#[tactic(auto, unfolding(crate::specs::Directions::type_faults, json_fields::specs::Faults::least, json_fields::specs::Faults::earlier))]
fn type_fault(alloc: Global, value: &Value) -> Option<ReadRefusal>
    ensures { result ≡ least (type_faults (view value.now)) }
{
    match type_of(value) {
        Some(_) => None,
        None => Some(bad_shape(alloc)),
    }
}

// One of a policy's types.
struct PolicyType;

impl Reading for PolicyType {
    type Item = Option<Dir>;

    ghost faults = { λ _. type_faults };

    ghost meaning = { λ _. type_of };

    fn fault(&self, alloc: Global, value: &Value) -> Result<Option<ReadRefusal>, NoMemory> {
        Ok(type_fault(alloc, value))
    }

    fn read(&self, _alloc: Global, value: &Value) -> Result<Option<Dir>, NoMemory> {
        Ok(type_of(value))
    }
}

/// The fault of the types of a policy.
#[tactic(auto, unfolding(crate::specs::Directions::types_faults))]
pub fn types_fault(alloc: Global, spec: Option<&Value>) -> Result<Option<ReadRefusal>, NoMemory>
    ensures { IfOk result (λ f. f ≡ least (types_faults (option_map (λ v. view v.now) spec.entry))) }
{
    list_field_fault(alloc, &PolicyType, "policyTypes", spec)
}

fn types_among(alloc: Global, items: &[Value]) -> Result<Vec<Dir>, NoMemory>
    ensures { IfOk result (λ v. v.items ≡ filter_map type_of (map view items.now)) }
{
    let mut types = Vec::new(alloc);
    for item in items {
        if let Some(dir) = type_of(item) {
            types.push(dir)?;
        }
    }
    Ok(types)
}

/// The types of a policy, each a direction.
#[tactic(auto, unfolding(crate::specs::Directions::types_of))]
pub fn types_of(alloc: Global, spec: Option<&Value>) -> Result<Vec<Dir>, NoMemory>
    ensures { IfOk result (λ v. v.items ≡ types_of (option_map (λ v. view v.now) spec.entry)) }
{
    types_among(alloc, items_in(inner(spec, "policyTypes")))
}

fn is_among(dir: Dir, types: &[Dir]) -> bool
    ensures { result ≡ list_any (dir_eq dir) types.now }
{
    types.iter().any(|t| dir.is(*t))
}

/// Whether a policy with these types has Ingress.
pub fn has_ingress(types: &[Dir]) -> bool
    ensures { result ≡ has_ingress types.now }
{
    match types {
        [] => true,
        _ => is_among(Dir::Ingress, types),
    }
}

/// Whether a policy with these types and these egress rules has Egress.
pub fn has_egress(types: &[Dir], rules: &[Value]) -> bool
    ensures { result ≡ has_egress types.now (map view rules.now) }
{
    match types {
        [] => !rules.is_empty(),
        _ => is_among(Dir::Egress, types),
    }
}

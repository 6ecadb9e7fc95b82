//! Fields of an object that none of some names names.
ghost use Rattle.std.specs.Prelude.{◌≡◌, IfOk, map, option_map, string_bytes, find};
ghost use Rattle.std.specs.List.{list_any};
ghost use Rattle.serde_json.specs.View.{view};
ghost use Rattle.cl_types.specs.Text.{text_eq};
ghost use Rattle.json_fields.specs.Faults.{least};
ghost use Rattle.json_fields.specs.Unknown.{is_other, other_field, unsupported, other_faults};

use crate::metadata::members_in;
use crate::refusal::ReadRefusal;
use cl_types::{NoMemory, Text};
use serde_json::Value;
use std::alloc::Global;
use std::collections::BTreeMap;

fn is_among(names: &[&str], key: &String) -> bool
    ensures { result ≡ list_any (text_eq (string_bytes key.now)) (map (λ s. s.now) names.now) }
{
    for name in names {
        if key.as_bytes() == name.as_bytes() {
            return true;
        }
    }
    false
}

fn first_other<'v>(names: &[&str], members: &'v BTreeMap<String, Value>) -> Option<&'v str>
    ensures { option_map (λ s. s.now) result ≡ option_map (λ m. m.0) (find (is_other (map (λ s. s.now) names.now)) (map (λ e. (string_bytes e.0, view e.1)) members.now.entries)) }
{
    for (key, value) in members {
        if !value.is_null() && !is_among(names, key) {
            return Some(key.as_str());
        }
    }
    None
}

/// The field of least name in bytes that is there, and has none of the names.
#[tactic(auto, unfolding(crate::specs::Unknown::other_field))]
pub fn other_field<'v>(names: &[&str], value: Option<&'v Value>) -> Option<&'v str>
    ensures { option_map (λ s. s.now) result ≡ other_field (map (λ s. s.now) names.now) (option_map (λ v. view v.now) value.entry) }
{
    match members_in(value) {
        Some(found) => first_other(names, found),
        None => None,
    }
}

/// The fault that a field isn't supported, where there is a name of one.
#[tactic(auto, unfolding(crate::specs::Faults::least, crate::specs::Faults::earlier))]
pub fn unsupported(alloc: Global, name: Option<&str>) -> Result<Option<ReadRefusal>, NoMemory>
    ensures { IfOk result (λ f. f ≡ least (unsupported (option_map (λ s. s.now) name.entry))) }
{
    let Some(name) = name else {
        return Ok(None);
    };
    let name = Text::of(Vec::from_slice(alloc, name.as_bytes())?);
    Ok(Some(ReadRefusal::Unsupported(name)))
}

/// The fault of an object that has a field beside those with the names.
#[tactic(auto, unfolding(crate::specs::Unknown::other_faults))]
pub fn other_fault(
    alloc: Global,
    names: &[&str],
    value: Option<&Value>,
) -> Result<Option<ReadRefusal>, NoMemory>
    ensures { IfOk result (λ f. f ≡ least (other_faults (map (λ s. s.now) names.now) (option_map (λ v. view v.now) value.entry))) }
{
    unsupported(alloc, other_field(names, value))
}

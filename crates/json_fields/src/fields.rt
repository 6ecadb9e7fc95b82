//! Values of JSON as objects with fields. A field that is null is as absent.
ghost use Rattle.std.specs.Prelude.{◌≡◌, List, option_map, Some, None, map, string_bytes};
ghost use Rattle.serde_json.specs.View.{view};
ghost use Rattle.json_fields.specs.Answer.{Gives};
ghost use Rattle.json_fields.specs.Fields.{data_of, is_null, field, inner, elements, members};

use crate::refusal::ReadRefusal;
use serde_json::Value;
use std::alloc::Global;
use std::collections::BTreeMap;

/// The value that the bytes are, where they are JSON in UTF-8. Of a key that stands twice in an object
/// `serde_json` keeps the last value.
#[tactic(auto, unfolding(crate::specs::Fields::data_of))]
pub fn parse(alloc: Global, bytes: &[u8]) -> Result<Value, ReadRefusal>
    ensures { Gives view result (data_of bytes.now) }
{
    match Value::from_slice(alloc, bytes) {
        Ok(value) => Ok(value),
        Err(error) => {
            if error.is_memory() {
                Err(ReadRefusal::NoMemory)
            } else {
                Err(ReadRefusal::NotJson)
            }
        }
    }
}

/// The field of a value, where it is an object that has the field.
#[tactic(auto, unfolding(crate::specs::Fields::field))]
pub fn field<'v>(value: &'v Value, name: &str) -> Option<&'v Value>
    ensures { option_map (λ v. view v.now) result ≡ field name.now (view value.now) }
{
    match value.get(name) {
        Some(found) => { if found.is_null() { None } else { Some(found) } }
        None => None,
    }
}

/// The field of a value that may itself be absent.
#[tactic(auto, unfolding(crate::specs::Fields::inner))]
pub fn inner<'v>(value: Option<&'v Value>, name: &str) -> Option<&'v Value>
    ensures { option_map (λ v. view v.now) result ≡ inner name.now (option_map (λ v. view v.now) value.entry) }
{
    match value {
        Some(value) => field(value, name),
        None => None,
    }
}

/// The items of an array.
#[tactic(auto, unfolding(crate::specs::Fields::elements))]
pub fn elements(value: &Value) -> Option<&[Value]>
    ensures { option_map (λ s. map view s.now) result ≡ elements (view value.now) }
{
    match value.as_array() {
        Some(items) => Some(items.as_slice()),
        None => None,
    }
}

/// The members of an object, by their keys in order.
#[tactic(auto, unfolding(crate::specs::Fields::members))]
pub fn members(value: &Value) -> Option<&BTreeMap<String, Value>>
    ensures { option_map (λ m. map (λ e. (string_bytes e.0, view e.1)) m.now.entries) result ≡ members (view value.now) }
{
    match value.as_object() {
        Some(members) => Some(members),
        None => None,
    }
}

//! Fields that are one value, each where it is there.
ghost use Rattle.std.specs.Prelude.{◌≡◌, List, IfOk, map, option_map, unwrap_or, codes};
ghost use Rattle.serde_json.specs.View.{view};
ghost use Rattle.json_fields.specs.Faults.{least};
ghost use Rattle.json_fields.specs.Fields.{is_object};
ghost use Rattle.json_fields.specs.Shapes.{in_field, required, object_faults, text_faults, truth_faults, text_of, text_value, truth_of, number_within};

use crate::faults::{bad_shape, in_field};
use crate::fields::inner;
use crate::refusal::ReadRefusal;
use cl_types::{NoMemory, Text};
use serde_json::Value;
use std::alloc::Global;

/// The fault of a field that is an object.
#[tactic(auto, unfolding(crate::specs::Shapes::object_faults, crate::specs::Faults::least, crate::specs::Faults::earlier))]
pub fn object_fault(alloc: Global, value: Option<&Value>) -> Option<ReadRefusal>
    ensures { result ≡ least (object_faults (option_map (λ v. view v.now) value.entry)) }
{
    match value {
        Some(value) => {
            if value.is_object() {
                None
            } else {
                Some(bad_shape(alloc))
            }
        }
        None => None,
    }
}

/// The fault of a field that is a text.
#[tactic(auto, unfolding(crate::specs::Shapes::text_faults, crate::specs::Faults::least, crate::specs::Faults::earlier))]
pub(crate) fn text_fault(alloc: Global, value: Option<&Value>) -> Option<ReadRefusal>
    ensures { result ≡ least (text_faults (option_map (λ v. view v.now) value.entry)) }
{
    match value {
        Some(value) => {
            if value.is_string() {
                None
            } else {
                Some(bad_shape(alloc))
            }
        }
        None => None,
    }
}

/// The fault of a field that is a truth value.
#[tactic(auto, unfolding(crate::specs::Shapes::truth_faults, crate::specs::Faults::least, crate::specs::Faults::earlier))]
fn truth_fault(alloc: Global, value: Option<&Value>) -> Option<ReadRefusal>
    ensures { result ≡ least (truth_faults (option_map (λ v. view v.now) value.entry)) }
{
    match value {
        Some(value) => {
            if value.is_boolean() {
                None
            } else {
                Some(bad_shape(alloc))
            }
        }
        None => None,
    }
}

/// The fault of the field with this name, which is a text where it is there.
#[tactic(auto, using(crate::specs::FaultLaws::least_at), unfolding(crate::specs::Shapes::in_field))]
pub fn text_field_fault(
    alloc: Global,
    name: &str,
    object: Option<&Value>,
) -> Result<Option<ReadRefusal>, NoMemory>
    ensures { IfOk result (λ f. f ≡ least (in_field name.now text_faults (option_map (λ v. view v.now) object.entry))) }
{
    in_field(alloc, name, text_fault(alloc, inner(object, name)))
}

#[tactic(auto, unfolding(crate::specs::Faults::least, crate::specs::Faults::earlier))]
fn needed_text_fault(alloc: Global, value: Option<&Value>) -> Option<ReadRefusal>
    ensures { result ≡ least (required text_faults (option_map (λ v. view v.now) value.entry)) }
{
    match value {
        Some(value) => text_fault(alloc, Some(value)),
        None => Some(bad_shape(alloc)),
    }
}

/// The fault of the field with this name, which must be a text.
#[tactic(auto, using(crate::specs::FaultLaws::least_at), unfolding(crate::specs::Shapes::in_field))]
pub fn required_text_fault(
    alloc: Global,
    name: &str,
    object: Option<&Value>,
) -> Result<Option<ReadRefusal>, NoMemory>
    ensures { IfOk result (λ f. f ≡ least (in_field name.now (required text_faults) (option_map (λ v. view v.now) object.entry))) }
{
    in_field(alloc, name, needed_text_fault(alloc, inner(object, name)))
}

/// The fault of the field with this name, which is a truth value where it is there.
#[tactic(auto, using(crate::specs::FaultLaws::least_at), unfolding(crate::specs::Shapes::in_field))]
pub fn truth_field_fault(
    alloc: Global,
    name: &str,
    object: Option<&Value>,
) -> Result<Option<ReadRefusal>, NoMemory>
    ensures { IfOk result (λ f. f ≡ least (in_field name.now truth_faults (option_map (λ v. view v.now) object.entry))) }
{
    in_field(alloc, name, truth_fault(alloc, inner(object, name)))
}

/// The text of a field.
#[tactic(auto, unfolding(crate::specs::Shapes::text_of))]
pub fn text_in(value: Option<&Value>) -> Option<&str>
    ensures { option_map (λ s. s.now) result ≡ text_of (option_map (λ v. view v.now) value.entry) }
{
    match value {
        Some(value) => value.as_str(),
        None => None,
    }
}

/// The text of a field, empty where there is none.
#[tactic(auto, unfolding(crate::specs::Shapes::text_value))]
pub fn text_or_empty(value: Option<&Value>) -> &[u8]
    ensures { result.now ≡ text_value (option_map (λ v. view v.now) value.entry) }
{
    match text_in(value) {
        Some(text) => text.as_bytes(),
        None => b"".as_slice(),
    }
}

/// A copy of the text of a field, empty where there is none.
pub fn text_copy(alloc: Global, value: Option<&Value>) -> Result<Text, NoMemory>
    ensures { IfOk result (λ (t : List _). t ≡ text_value (option_map (λ v. view v.now) value.entry)) }
{
    Ok(Text::of(Vec::from_slice(alloc, text_or_empty(value))?))
}

/// The truth value of a field, where there is one.
#[tactic(auto, unfolding(crate::specs::Shapes::truth_of))]
pub fn truth_in(value: Option<&Value>) -> Option<bool>
    ensures { result ≡ truth_of (option_map (λ v. view v.now) value.entry) }
{
    match value {
        Some(value) => value.as_bool(),
        None => None,
    }
}

/// The whole number of a field, where it is from `lo` to `hi`.
#[tactic(auto, unfolding(crate::specs::Shapes::number_within))]
pub fn number_within(lo: u64, hi: u64, value: Option<&Value>) -> Option<u64>
    ensures { result ≡ number_within lo hi (option_map (λ v. view v.now) value.entry) }
{
    let Some(value) = value else {
        return None;
    };
    let Some(number) = value.as_u64() else {
        return None;
    };
    if lo <= number && number <= hi {
        Some(number)
    } else {
        None
    }
}

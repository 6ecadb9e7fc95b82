//! The fields of control lines.
ghost use Rattle.std.specs.Prelude.{◌≡◌, ◌≤◌, List as Items, Some, None, IfOk, map, option_map};
ghost use Rattle.serde_json.specs.View.{view};
ghost use Rattle.cl_types.specs.ReadText.{read_address};
ghost use Rattle.json_fields.specs.Answer.{Gives};
ghost use Rattle.json_fields.specs.Fields.{field};
ghost use Rattle.control_lines.specs.Needed.{needed, checked, each, optional, text_of, address_of, number_of, text_at, text_if_there, address_at, address_if_there, number_at, truth_at, truth_or_false, texts_at};

use cl_types::{Addr, List, Text};
use json_fields::{ReadRefusal, elements, field};
use serde_json::Value;
use std::alloc::Global;

/// What must be there.
pub(crate) fn needed<T: Drop>(found: Option<T>) -> Result<T, ReadRefusal>
    ensures { result ≡ needed found }
{
    match found {
        Some(found) => Ok(found),
        None => Err(ReadRefusal::BadControl),
    }
}

/// The field of a control line that must be there.
pub(crate) fn field_at<'v>(value: &'v Value, name: &str) -> Result<&'v Value, ReadRefusal>
    ensures { Gives (λ v. view v.now) result (needed (field name.now (view value.now))) }
{
    match field(value, name) {
        Some(found) => Ok(found),
        None => Err(ReadRefusal::BadControl),
    }
}

/// A value that must be a text.
pub(crate) fn text_of(value: &Value) -> Result<&str, ReadRefusal>
    ensures { Gives (λ s. s.now) result (text_of (view value.now)) }
{
    match value.as_str() {
        Some(text) => Ok(text),
        None => Err(ReadRefusal::BadControl),
    }
}

/// A copy of a value that must be a text.
pub(crate) fn owned_text(alloc: Global, value: &Value) -> Result<Text, ReadRefusal>
    ensures { Gives (λ (t : Items _). t) result (text_of (view value.now)) }
{
    let text = text_of(value)?;
    Ok(Text::of(Vec::from_slice(alloc, text.as_bytes())?))
}

/// A value that must be the text of an address.
pub(crate) fn address_of(value: &Value) -> Result<Addr, ReadRefusal>
    ensures { Gives (λ (a : _). a) result (address_of (view value.now)) }
{
    needed(read_address(text_of(value)?.as_bytes()))
}

// The address that the text is a form of.
fn read_address(text: &[u8]) -> Option<Addr>
    ensures { result ≡ read_address text.now }
{
    cl_types::texts_are_read_as_functions();
    match cl_types::read_addr(text) {
        Ok(address) => Some(address),
        Err(_) => None,
    }
}

/// A value that must be a whole number from `low` to `high`.
pub(crate) fn number_of(value: &Value, low: u64, high: u64) -> Result<u64, ReadRefusal>
    ensures value { Gives (λ (n : _). n) result (number_of low high (view value.now)) }
    ensures high { IfOk result (λ n. n ≤ high) }
{
    match value.as_u64() {
        Some(n) if low <= n && n <= high => Ok(n),
        _ => Err(ReadRefusal::BadControl),
    }
}

/// A field that must be a text.
#[tactic(auto, unfolding(crate::specs::Needed::text_at))]
pub(crate) fn text_at<'v>(value: &'v Value, name: &str) -> Result<&'v str, ReadRefusal>
    ensures { Gives (λ s. s.now) result (text_at name.now (view value.now)) }
{
    text_of(field_at(value, name)?)
}

/// A copy of a field that must be a text.
pub(crate) fn owned_text_at(alloc: Global, value: &Value, name: &str) -> Result<Text, ReadRefusal>
    ensures { Gives (λ (t : Items _). t) result (text_at name.now (view value.now)) }
{
    let text = text_at(value, name)?;
    Ok(Text::of(Vec::from_slice(alloc, text.as_bytes())?))
}

/// A copy of a field that is a text where it is there.
#[tactic(auto, unfolding(crate::specs::Needed::text_if_there))]
pub(crate) fn text_if_there(
    alloc: Global,
    value: &Value,
    name: &str,
) -> Result<Option<Text>, ReadRefusal>
    ensures { Gives (λ (t : _). t) result (text_if_there name.now (view value.now)) }
{
    match field(value, name) {
        Some(found) => Ok(Some(owned_text(alloc, found)?)),
        None => Ok(None),
    }
}

/// A field that must be the text of an address.
#[tactic(auto, unfolding(crate::specs::Needed::address_at))]
pub(crate) fn address_at(value: &Value, name: &str) -> Result<Addr, ReadRefusal>
    ensures { Gives (λ (a : _). a) result (address_at name.now (view value.now)) }
{
    address_of(field_at(value, name)?)
}

/// A field that is the text of an address where it is there.
#[tactic(auto, unfolding(crate::specs::Needed::address_if_there))]
pub(crate) fn address_if_there(value: &Value, name: &str) -> Result<Option<Addr>, ReadRefusal>
    ensures { Gives (λ (a : _). a) result (address_if_there name.now (view value.now)) }
{
    match field(value, name) {
        Some(found) => Ok(Some(address_of(found)?)),
        None => Ok(None),
    }
}

/// A field that must be a whole number from `low` to `high`.
#[tactic(auto, unfolding(crate::specs::Needed::number_at))]
pub(crate) fn number_at(value: &Value, name: &str, low: u64, high: u64) -> Result<u64, ReadRefusal>
    ensures value { Gives (λ (n : _). n) result (number_at name.now low high (view value.now)) }
    ensures high { IfOk result (λ n. n ≤ high) }
{
    number_of(field_at(value, name)?, low, high)
}

/// A field that must be a truth value.
#[tactic(auto, unfolding(crate::specs::Needed::truth_at))]
pub(crate) fn truth_at(value: &Value, name: &str) -> Result<bool, ReadRefusal>
    ensures { Gives (λ (b : _). b) result (truth_at name.now (view value.now)) }
{
    needed(field_at(value, name)?.as_bool())
}

/// A field that is a truth value, and false where it is absent.
#[tactic(auto, unfolding(crate::specs::Needed::truth_or_false))]
pub(crate) fn truth_or_false(value: &Value, name: &str) -> Result<bool, ReadRefusal>
    ensures { Gives (λ (b : _). b) result (truth_or_false name.now (view value.now)) }
{
    match field(value, name) {
        Some(found) => needed(found.as_bool()),
        None => Ok(false),
    }
}

/// A field that must be a list of texts.
#[tactic(auto, unfolding(crate::specs::Needed::texts_at))]
pub(crate) fn texts_at(alloc: Global, value: &Value, name: &str) -> Result<List<Text>, ReadRefusal>
    ensures { Gives (λ (l : Items _). l) result (texts_at name.now (view value.now)) }
{
    match elements(field_at(value, name)?) {
        Some(items) => each_text(alloc, items),
        None => Err(ReadRefusal::BadControl),
    }
}

fn each_text(alloc: Global, items: &[Value]) -> Result<List<Text>, ReadRefusal>
    ensures { Gives (λ (l : Items _). l) result (each text_of (map view items.now)) }
{
    let mut texts = Vec::new(alloc);
    for item in items {
        texts.push(owned_text(alloc, item)?)?;
    }
    Ok(List::of(texts))
}

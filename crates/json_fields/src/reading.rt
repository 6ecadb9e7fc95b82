//! Lists whose elements are read alike.
ghost use Rattle.std.specs.Prelude.{◌≡◌, ◌++◌, List as Items, IfOk, Some, None, map, option_map};
ghost use Rattle.serde_json.specs.Data.{Data};
ghost use Rattle.std.specs.List.{filter_map};
ghost use Rattle.serde_json.specs.Find.{as_str};
ghost use Rattle.serde_json.specs.View.{view};
ghost use Rattle.json_fields.specs.Faults.{least, each_from};
ghost use Rattle.json_fields.specs.Shapes.{in_field, list_faults, items_of, element_faults, text_value, texts_of};
ghost use Rattle.json_fields.specs.declared.refusal.ReadRefusal.{ReadRefusal as Fault};

use crate::faults::{at_index, bad_shape, earlier, in_field};
use crate::fields::{elements, inner};
use crate::refusal::ReadRefusal;
use crate::shapes::{text_copy, text_fault};
use cl_types::{List, NoMemory, Text};
use serde_json::Value;
use std::alloc::Global;

/// How a value of JSON is read: the faults that it has, and what it means. A value with a fault may mean anything.
pub trait Reading {
    type Item: Drop;

    ghost faults: { Self → Data → Items Fault };

    ghost meaning: { Self → Data → Self.Item };

    /// The fault of the value that counts.
    fn fault(&self, alloc: Global, value: &Value) -> Result<Option<ReadRefusal>, NoMemory>
        ensures { IfOk result (λ f. f ≡ least (faults self.now (view value.now))) };

    /// What the value means.
    fn read(&self, alloc: Global, value: &Value) -> Result<Self::Item, NoMemory>
        ensures { IfOk result (λ x. x ≡ meaning self.now (view value.now)) };
}

/// The fault that counts of all elements.
#[tactic(auto, unfolding(crate::specs::Faults::earlier))]
pub fn elements_fault<R: Reading>(
    alloc: Global,
    reading: &R,
    items: &[Value],
) -> Result<Option<ReadRefusal>, NoMemory>
    ensures { IfOk result (λ f. f ≡ least (each_from (R.faults reading.now) 0 (map view items.now))) }
{
    let mut worst = None;
    for (index, item) in items.iter().enumerate() {
        let fault = at_index(alloc, index, reading.fault(alloc, item)?)?;
        worst = earlier(worst, fault);
    }
    Ok(worst)
}

/// What all elements mean, in order.
pub fn elements_value<R: Reading>(
    alloc: Global,
    reading: &R,
    items: &[Value],
) -> Result<List<R::Item>, NoMemory>
    ensures { IfOk result (λ (l : Items _). l ≡ map (R.meaning reading.now) (map view items.now)) }
{
    let mut read = Vec::new(alloc);
    for item in items {
        read.push(reading.read(alloc, item)?)?;
    }
    Ok(List::of(read))
}

/// The fault that counts of a field that is a list where it is there.
#[tactic(auto, unfolding(crate::specs::Shapes::list_faults, crate::specs::Faults::least, crate::specs::Faults::earlier))]
pub fn list_fault<R: Reading>(
    alloc: Global,
    reading: &R,
    value: Option<&Value>,
) -> Result<Option<ReadRefusal>, NoMemory>
    ensures { IfOk result (λ f. f ≡ least (list_faults (R.faults reading.now) (option_map (λ v. view v.now) value.entry))) }
{
    let Some(value) = value else {
        return Ok(None);
    };
    match elements(value) {
        Some(items) => elements_fault(alloc, reading, items),
        None => Ok(Some(bad_shape(alloc))),
    }
}

/// The fault that counts of the field with this name, which is a list where it is there.
#[tactic(auto, using(crate::specs::FaultLaws::least_at), unfolding(crate::specs::Shapes::in_field))]
pub fn list_field_fault<R: Reading>(
    alloc: Global,
    reading: &R,
    name: &str,
    object: Option<&Value>,
) -> Result<Option<ReadRefusal>, NoMemory>
    ensures { IfOk result (λ f. f ≡ least (in_field name.now (list_faults (R.faults reading.now)) (option_map (λ v. view v.now) object.entry))) }
{
    let fault = list_fault(alloc, reading, inner(object, name))?;
    in_field(alloc, name, fault)
}

/// What the elements of a list mean; of what is absent or no list there are none.
pub fn list_value<R: Reading>(
    alloc: Global,
    reading: &R,
    value: Option<&Value>,
) -> Result<List<R::Item>, NoMemory>
    ensures { IfOk result (λ (l : Items _). l ≡ map (R.meaning reading.now) (items_of (option_map (λ v. view v.now) value.entry))) }
{
    elements_value(alloc, reading, items_in(value))
}

/// The elements of a list; of what is absent or no list there are none.
#[tactic(auto, unfolding(crate::specs::Shapes::items_of))]
pub fn items_in(value: Option<&Value>) -> &[Value]
    ensures { map view result.now ≡ items_of (option_map (λ v. view v.now) value.entry) }
{
    let none: &[Value] = &[];
    match value {
        Some(value) => elements(value).unwrap_or(none),
        None => none,
    }
}

/// An element that is a text.
pub struct ElementText;

impl Reading for ElementText {
    type Item = Text;

    ghost faults = { λ _. element_faults };

    ghost meaning = { λ _ d. text_value (Some d) };

    fn fault(&self, alloc: Global, value: &Value) -> Result<Option<ReadRefusal>, NoMemory> {
        Ok(text_fault(alloc, Some(value)))
    }

    fn read(&self, alloc: Global, value: &Value) -> Result<Text, NoMemory> {
        text_copy(alloc, Some(value))
    }
}

/// The texts among the elements of a list.
#[tactic(auto, unfolding(crate::specs::Shapes::texts_of))]
pub fn texts_in(alloc: Global, value: Option<&Value>) -> Result<Vec<Text>, NoMemory>
    ensures { IfOk result (λ v. v.items ≡ texts_of (option_map (λ v. view v.now) value.entry)) }
{
    texts_among(alloc, items_in(value))
}

fn texts_among(alloc: Global, items: &[Value]) -> Result<Vec<Text>, NoMemory>
    ensures { IfOk result (λ v. v.items ≡ filter_map as_str (map view items.now)) }
{
    let mut texts = Vec::new(alloc);
    for item in items {
        if let Some(text) = item.as_str() {
            texts.push(Text::of(Vec::from_slice(alloc, text.as_bytes())?))?;
        }
    }
    Ok(texts)
}

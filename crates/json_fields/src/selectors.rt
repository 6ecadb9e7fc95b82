//! Selectors by labels.
ghost use Rattle.std.specs.Prelude.{◌≡◌, ◌++◌, ◌==◌, length, List, Some, None, map, option_map, string_bytes, codes, IfOk};
ghost use Rattle.std.specs.List.{list_all, filter_map};
ghost use Rattle.serde_json.specs.View.{view};
ghost use Rattle.label_select.specs.Forms.{is_label_key, is_label_value};
ghost use Rattle.json_fields.specs.Faults.{least};
ghost use Rattle.json_fields.specs.Fields.{inner};
ghost use Rattle.json_fields.specs.Shapes.{in_field, items_of};
ghost use Rattle.json_fields.specs.Selectors.{operator_of, key_faults, has_count, operator_text_faults, operator_faults, value_faults, expression_faults, element_text, need_from, expression_need, label_need, match_labels_faults, match_expressions_faults, selector_faults, label_needs, expression_needs, selector_value};

use crate::faults::{bad_shape, earlier, in_field};
use crate::fields::{field, inner};
use crate::metadata::{label_of, labels_field_fault, members_in};
use crate::reading::{Reading, items_in, list_field_fault, list_value};
use crate::refusal::ReadRefusal;
use crate::shapes::{object_fault, text_copy, text_or_empty};
use cl_types::{List, NoMemory, Text};
use label_select::{Need, Op, Selector, are_label_values, canon, is_label_key, is_label_value};
use serde_json::Value;
use std::alloc::Global;
use std::collections::BTreeMap;

fn operator_of(text: &[u8]) -> Option<Op>
    ensures { result ≡ operator_of text.now }
{
    if text == b"In".as_slice() {
        Some(Op::OneOf)
    } else if text == b"NotIn".as_slice() {
        Some(Op::NoneOf)
    } else if text == b"Exists".as_slice() {
        Some(Op::Present)
    } else if text == b"DoesNotExist".as_slice() {
        Some(Op::Missing)
    } else {
        None
    }
}

// Whether there are values where the operator takes some, and none where it takes none.
fn has_count(op: Op, count: usize) -> bool
    ensures { result ≡ has_count op count }
{
    if op.takes_values() {
        !(count == 0)
    } else {
        count == 0
    }
}

// The fault of a key, which must be there.
#[tactic(auto, unfolding(crate::specs::Selectors::key_faults, crate::specs::Faults::least, crate::specs::Faults::earlier))]
fn key_fault(alloc: Global, value: Option<&Value>) -> Option<ReadRefusal>
    ensures { result ≡ least (key_faults (option_map (λ v. view v.now) value.entry)) }
{
    let Some(value) = value else {
        return Some(bad_shape(alloc));
    };
    match value.as_str() {
        Some(text) => {
            if is_label_key(text.as_bytes()) {
                None
            } else {
                Some(ReadRefusal::BadLabel)
            }
        }
        None => Some(bad_shape(alloc)),
    }
}

// The fault of the text of an operator, beside so many values.
#[tactic(auto, unfolding(crate::specs::Faults::least, crate::specs::Faults::earlier))]
fn operator_text_fault(count: usize, text: &str) -> Option<ReadRefusal>
    ensures { result ≡ least (operator_text_faults count (Some text.now)) }
{
    match operator_of(text.as_bytes()) {
        Some(op) if has_count(op, count) => None,
        _ => Some(ReadRefusal::BadSelector),
    }
}

// The fault of an operator, which must be there, beside so many values.
#[tactic(auto, unfolding(crate::specs::Selectors::operator_faults, crate::specs::Faults::least, crate::specs::Faults::earlier))]
fn operator_fault(alloc: Global, count: usize, value: Option<&Value>) -> Option<ReadRefusal>
    ensures { result ≡ least (operator_faults count (option_map (λ v. view v.now) value.entry)) }
{
    let Some(value) = value else {
        return Some(bad_shape(alloc));
    };
    match value.as_str() {
        Some(text) => operator_text_fault(count, text),
        None => Some(bad_shape(alloc)),
    }
}

// One of an expression's values.
struct LabelValue;

impl Reading for LabelValue {
    type Item = Text;

    ghost faults = { λ _. value_faults };

    ghost meaning = { λ _. element_text };

    #[tactic(auto, unfolding(crate::specs::Selectors::value_faults, crate::specs::Faults::least, crate::specs::Faults::earlier))]
    fn fault(&self, alloc: Global, value: &Value) -> Result<Option<ReadRefusal>, NoMemory> {
        let Some(text) = value.as_str() else {
            return Ok(Some(bad_shape(alloc)));
        };
        if is_label_value(text.as_bytes()) {
            Ok(None)
        } else {
            Ok(Some(ReadRefusal::BadLabel))
        }
    }

    fn read(&self, alloc: Global, value: &Value) -> Result<Text, NoMemory> {
        text_copy(alloc, Some(value))
    }
}

// The need of these parts, where they have no fault.
fn need_from(key: Text, op: Option<Op>, values: List<Text>) -> Option<Need>
    ensures { result ≡ need_from key op values }
{
    let op = op?;
    let texts = values.as_slice();
    let formed = is_label_key(key.as_slice()) && are_label_values(texts);
    if formed && has_count(op, texts.len()) {
        Some(Need { key, op, values })
    } else {
        None
    }
}

#[tactic(auto, unfolding(crate::specs::Selectors::expression_need))]
fn expression_need(alloc: Global, value: &Value) -> Result<Option<Need>, NoMemory>
    ensures { IfOk result (λ (o : _). o ≡ expression_need (view value.now)) }
{
    let key = text_copy(alloc, field(value, "key"))?;
    let op = operator_of(text_or_empty(field(value, "operator")));
    let values = list_value(alloc, &LabelValue, field(value, "values"))?;
    Ok(need_from(key, op, values))
}

// How many elements a list has.
fn count_in(value: Option<&Value>) -> usize
    ensures { result ≡ length (items_of (option_map (λ v. view v.now) value.entry)) }
{
    items_in(value).len()
}

#[tactic(auto, using(crate::specs::FaultLaws::least_at), unfolding(crate::specs::Shapes::in_field))]
fn key_field_fault(alloc: Global, object: Option<&Value>) -> Result<Option<ReadRefusal>, NoMemory>
    ensures { IfOk result (λ f. f ≡ least (in_field (codes "key") key_faults (option_map (λ v. view v.now) object.entry))) }
{
    in_field(alloc, "key", key_fault(alloc, inner(object, "key")))
}

#[tactic(auto, using(crate::specs::FaultLaws::least_at), unfolding(crate::specs::Shapes::in_field))]
fn operator_field_fault(
    alloc: Global,
    object: Option<&Value>,
) -> Result<Option<ReadRefusal>, NoMemory>
    ensures { IfOk result (λ f. f ≡ least (in_field (codes "operator")
        (operator_faults (length (items_of (inner (codes "values") (option_map (λ v. view v.now) object.entry)))))
        (option_map (λ v. view v.now) object.entry))) }
{
    let count = count_in(inner(object, "values"));
    in_field(
        alloc,
        "operator",
        operator_fault(alloc, count, inner(object, "operator")),
    )
}

// One of a selector's expressions.
struct Expression;

impl Reading for Expression {
    type Item = Option<Need>;

    ghost faults = { λ _. expression_faults };

    ghost meaning = { λ _. expression_need };

    #[tactic(auto, using(crate::specs::FaultLaws::least_append), unfolding(crate::specs::Selectors::expression_faults))]
    fn fault(&self, alloc: Global, value: &Value) -> Result<Option<ReadRefusal>, NoMemory> {
        let key = key_field_fault(alloc, Some(value))?;
        let operator = operator_field_fault(alloc, Some(value))?;
        let values = list_field_fault(alloc, &LabelValue, "values", Some(value))?;
        let named = earlier(earlier(object_fault(alloc, Some(value)), key), operator);
        Ok(earlier(named, values))
    }

    fn read(&self, alloc: Global, value: &Value) -> Result<Option<Need>, NoMemory> {
        expression_need(alloc, value)
    }
}

// A label that is matched is a need for its value.
fn label_need(alloc: Global, key: &String, value: &Value) -> Result<Option<Need>, NoMemory>
    ensures { IfOk result (λ (o : _). o ≡ label_need (string_bytes key.now, view value.now)) }
{
    let Some(text) = label_of(key, value) else {
        return Ok(None);
    };
    let key = Text::of(Vec::from_slice(alloc, key.as_bytes())?);
    let mut values = Vec::with_capacity(alloc, 1)?;
    values.push(Text::of(Vec::from_slice(alloc, text.as_bytes())?))?;
    Ok(Some(Need {
        key,
        op: Op::OneOf,
        values: List::of(values),
    }))
}

#[tactic(auto, unfolding(crate::specs::Selectors::match_labels_faults))]
fn match_labels_fault(
    alloc: Global,
    selector: Option<&Value>,
) -> Result<Option<ReadRefusal>, NoMemory>
    ensures { IfOk result (λ f. f ≡ least (match_labels_faults (option_map (λ v. view v.now) selector.entry))) }
{
    labels_field_fault(alloc, "matchLabels", selector)
}

#[tactic(auto, unfolding(crate::specs::Selectors::match_expressions_faults))]
fn match_expressions_fault(
    alloc: Global,
    selector: Option<&Value>,
) -> Result<Option<ReadRefusal>, NoMemory>
    ensures { IfOk result (λ f. f ≡ least (match_expressions_faults (option_map (λ v. view v.now) selector.entry))) }
{
    list_field_fault(alloc, &Expression, "matchExpressions", selector)
}

/// The fault of a selector.
#[tactic(auto, using(crate::specs::FaultLaws::least_append), unfolding(crate::specs::Selectors::selector_faults))]
pub fn selector_fault(alloc: Global, value: Option<&Value>) -> Result<Option<ReadRefusal>, NoMemory>
    ensures { IfOk result (λ f. f ≡ least (selector_faults (option_map (λ v. view v.now) value.entry))) }
{
    let labels = match_labels_fault(alloc, value)?;
    let expressions = match_expressions_fault(alloc, value)?;
    Ok(earlier(earlier(object_fault(alloc, value), labels), expressions))
}

/// The fault of the field with this name, which is a selector where it is there.
#[tactic(auto, using(crate::specs::FaultLaws::least_at), unfolding(crate::specs::Shapes::in_field))]
pub fn selector_field_fault(
    alloc: Global,
    name: &str,
    object: Option<&Value>,
) -> Result<Option<ReadRefusal>, NoMemory>
    ensures { IfOk result (λ f. f ≡ least (in_field name.now selector_faults (option_map (λ v. view v.now) object.entry))) }
{
    let fault = selector_fault(alloc, inner(object, name))?;
    in_field(alloc, name, fault)
}

// The needs of the labels that are matched.
#[tactic(auto, unfolding(crate::specs::Selectors::label_needs))]
fn label_needs(alloc: Global, selector: Option<&Value>) -> Result<Vec<Need>, NoMemory>
    ensures { IfOk result (λ v. v.items ≡ label_needs (option_map (λ v. view v.now) selector.entry)) }
{
    match members_in(inner(selector, "matchLabels")) {
        Some(found) => each_label_need(alloc, found),
        None => Ok(Vec::new(alloc)),
    }
}

fn each_label_need(alloc: Global, members: &BTreeMap<String, Value>) -> Result<Vec<Need>, NoMemory>
    ensures { IfOk result (λ v. v.items ≡ filter_map label_need (map (λ e. (string_bytes e.0, view e.1)) members.now.entries)) }
{
    let mut needs = Vec::new(alloc);
    for (key, value) in members {
        if let Some(need) = label_need(alloc, key, value)? {
            needs.push(need)?;
        }
    }
    Ok(needs)
}

// The needs with those of the expressions after them.
#[tactic(auto, unfolding(crate::specs::Selectors::expression_needs))]
fn with_expressions(
    alloc: Global,
    needs: Vec<Need>,
    selector: Option<&Value>,
) -> Result<Vec<Need>, NoMemory>
    ensures { IfOk result (λ v. v.items ≡ needs.items ++ expression_needs (option_map (λ v. view v.now) selector.entry)) }
{
    add_expressions(alloc, needs, items_in(inner(selector, "matchExpressions")))
}

fn add_expressions(
    alloc: Global,
    mut needs: Vec<Need>,
    items: &[Value],
) -> Result<Vec<Need>, NoMemory>
    ensures { IfOk result (λ v. v.items ≡ needs.items ++ filter_map expression_need (map view items.now)) }
{
    for item in items {
        if let Some(need) = expression_need(alloc, item)? {
            needs.push(need)?;
        }
    }
    Ok(needs)
}

/// The selector that a field has; one that is absent selects everything.
#[tactic(auto, unfolding(crate::specs::Selectors::selector_value))]
pub fn selector_value(alloc: Global, value: Option<&Value>) -> Result<Selector, NoMemory>
    ensures { IfOk result (λ (s : _). s ≡ selector_value (option_map (λ v. view v.now) value.entry)) }
{
    let needs = label_needs(alloc, value)?;
    let needs = with_expressions(alloc, needs, value)?;
    canon(alloc, List::of(needs))
}

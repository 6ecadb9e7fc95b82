//! Reading lines of JSON.
ghost use Rattle.std.specs.Prelude.{◌≡◌, ◌==◌, ◌++◌, [], List as Items, Some, None, Ok, Result, map, option_map, IfOk, OnOk, codes};
ghost use Rattle.serde_json.specs.View.{view};
ghost use Rattle.serde_json.specs.Find.{as_str};
ghost use Rattle.json_fields.specs.Answer.{Gives};
ghost use Rattle.json_fields.specs.Faults.{index_step, under};
ghost use Rattle.json_fields.specs.Fields.{is_object, elements, field};
ghost use Rattle.policy_reader.specs.declared.reader.Found.{Found};
ghost use Rattle.policy_reader.specs.declared.reader.Found.TheVariants.{PassedOver};
ghost use Rattle.json_fields.specs.declared.refusal.ReadRefusal.{ReadRefusal};
ghost use Rattle.policy_reader.specs.ReadLine.{put_of, removed_of, found_put, found_removed, read_put, read_removed, line_of, kind_within, inner_kind, read_inner, item_at, kept, read_items, list_items, read_list, event_object, of_object, read_added, read_deleted, line_of_control, is_control, read_other, is_put, read_event, read_bare, read_typed, by_kind, read_value, is_blank, read_line, needed};

use crate::item::LineItem;
use crate::kinds::{
    ObjectKind, kind_of, misshapen, object_fault, object_value, removed_fault, removed_value,
};
use cl_types::{List, NoMemory, Text};
use cluster_types::RefItem;
use control_lines::{ControlLine, read_control};
use json_fields::{ReadRefusal, at_index, elements, field, in_field, parse};
use serde_json::Value;
use std::alloc::Global;

/// What is read of an object: what it says, or its kind where that isn't read.
#[derive(Debug, Drop)]
pub(crate) enum Found {
    Read(RefItem),
    PassedOver(Text),
}

/// What the bytes of a line, without its line feed, say. Of a key that stands twice in an object the last value
/// counts, as `serde_json` reads it. The refusal is the first in the order of [`ReadRefusal`] among those of the
/// whole line; in a List those of the first item that has any.
#[tactic(auto, unfolding(crate::specs::ReadLine::read_line))]
pub fn read_line(alloc: Global, bytes: &[u8]) -> Result<LineItem, ReadRefusal>
    ensures { Gives (λ (x : _). x) result (read_line bytes.now) }
{
    if is_blank(bytes) {
        return Ok(LineItem::Blank);
    }
    let value = parse(alloc, bytes)?;
    read_value(alloc, &value)
}

fn is_blank(bytes: &[u8]) -> bool
    ensures { result ≡ is_blank bytes.now }
{
    bytes
        .iter()
        .all(|b| *b == b' ' || *b == b'\t' || *b == b'\r')
}

#[tactic(auto, unfolding(crate::specs::ReadLine::read_value))]
fn read_value(alloc: Global, value: &Value) -> Result<LineItem, ReadRefusal>
    ensures { Gives (λ (x : _). x) result (read_value (view value.now)) }
{
    if value.is_object() {
        by_kind(alloc, field(value, "kind"), value)
    } else {
        Err(misshapen(alloc, b".")?)
    }
}

fn by_kind(alloc: Global, kind: Option<&Value>, value: &Value) -> Result<LineItem, ReadRefusal>
    ensures { Gives (λ (x : _). x) result (by_kind (option_map (λ v. view v.now) kind.entry) (view value.now)) }
{
    match kind {
        Some(kind) => read_bare(alloc, text_of(alloc, b"kind", kind)?, value),
        None => read_typed(alloc, value),
    }
}

// A text, or the fault of what stands at this path.
fn text_of<'v>(alloc: Global, path: &[u8], value: &'v Value) -> Result<&'v [u8], ReadRefusal>
    ensures { Gives (λ s. s.now) result (needed path.now (as_str (view value.now))) }
{
    match value.as_str() {
        Some(text) => Ok(text.as_bytes()),
        None => Err(misshapen(alloc, path)?),
    }
}

// An object that stands alone, or a List.
#[tactic(auto, unfolding(crate::specs::ReadLine::read_bare))]
fn read_bare(alloc: Global, name: &[u8], value: &Value) -> Result<LineItem, ReadRefusal>
    ensures { Gives (λ (x : _). x) result (read_bare name.now (view value.now)) }
{
    if name == b"List".as_slice() {
        read_list(alloc, value)
    } else {
        line_of(alloc, read_put(alloc, name, value)?)
    }
}

fn line_of(alloc: Global, found: Found) -> Result<LineItem, ReadRefusal>
    ensures { Gives (λ (x : _). x) result (Ok (line_of found)) }
{
    match found {
        Found::Read(item) => {
            let mut items = Vec::with_capacity(alloc, 1)?;
            items.push(item)?;
            Ok(LineItem::Objects(List::of(items)))
        }
        Found::PassedOver(name) => Ok(LineItem::Ignored(name)),
    }
}

// ---- objects

// An object that is put, whose kind has this name.
#[tactic(auto, unfolding(crate::specs::ReadLine::read_put))]
fn read_put(alloc: Global, name: &[u8], object: &Value) -> Result<Found, ReadRefusal>
    ensures { Gives (λ (x : _). x) result (read_put name.now (view object.now)) }
{
    let kind = kind_of(alloc, name, field(object, "apiVersion"))?;
    found_put(alloc, name, object, kind)
}

#[tactic(auto, unfolding(crate::specs::ReadLine::found_put))]
fn found_put(
    alloc: Global,
    name: &[u8],
    object: &Value,
    kind: Option<ObjectKind>,
) -> Result<Found, ReadRefusal>
    ensures { Gives (λ (x : _). x) result (found_put name.now (view object.now) kind) }
{
    match kind {
        Some(kind) => Ok(Found::Read(put_of(alloc, kind, object)?)),
        None => passed_over(alloc, name),
    }
}

fn passed_over(alloc: Global, name: &[u8]) -> Result<Found, ReadRefusal>
    ensures { Gives (λ (x : _). x) result (Ok (PassedOver name.now)) }
{
    Ok(Found::PassedOver(Text::of(Vec::from_slice(alloc, name)?)))
}

fn put_of(alloc: Global, kind: ObjectKind, object: &Value) -> Result<RefItem, ReadRefusal>
    ensures { Gives (λ (x : _). x) result (put_of kind (view object.now)) }
{
    match object_fault(alloc, kind, object)? {
        Some(fault) => Err(fault),
        None => Ok(object_value(alloc, kind, object)?),
    }
}

// An object that was deleted, whose kind has this name.
#[tactic(auto, unfolding(crate::specs::ReadLine::read_removed))]
fn read_removed(alloc: Global, name: &[u8], object: &Value) -> Result<Found, ReadRefusal>
    ensures { Gives (λ (x : _). x) result (read_removed name.now (view object.now)) }
{
    let kind = kind_of(alloc, name, field(object, "apiVersion"))?;
    found_removed(alloc, name, object, kind)
}

#[tactic(auto, unfolding(crate::specs::ReadLine::found_removed))]
fn found_removed(
    alloc: Global,
    name: &[u8],
    object: &Value,
    kind: Option<ObjectKind>,
) -> Result<Found, ReadRefusal>
    ensures { Gives (λ (x : _). x) result (found_removed name.now (view object.now) kind) }
{
    match kind {
        Some(kind) => Ok(Found::Read(removed_of(alloc, kind, object)?)),
        None => passed_over(alloc, name),
    }
}

fn removed_of(alloc: Global, kind: ObjectKind, object: &Value) -> Result<RefItem, ReadRefusal>
    ensures { Gives (λ (x : _). x) result (removed_of kind (view object.now)) }
{
    match removed_fault(alloc, kind, object)? {
        Some(fault) => Err(fault),
        None => Ok(removed_value(alloc, kind, object)?),
    }
}

// ---- lists

fn kind_within(alloc: Global, name: &[u8]) -> Result<&[u8], ReadRefusal>
    ensures { Gives (λ s. s.now) result (kind_within name.now) }
{
    if name == b"List".as_slice() {
        Err(misshapen(alloc, b"kind")?)
    } else {
        Ok(name)
    }
}

// The name of the kind of an object that stands in another value.
#[tactic(auto, unfolding(crate::specs::ReadLine::inner_kind))]
fn inner_kind(alloc: Global, object: &Value) -> Result<&[u8], ReadRefusal>
    ensures { Gives (λ s. s.now) result (inner_kind (view object.now)) }
{
    if !object.is_object() {
        return Err(misshapen(alloc, b"")?);
    }
    let kind = field_of(alloc, b"kind", object, "kind")?;
    kind_within(alloc, text_of(alloc, b"kind", kind)?)
}

// A field that must be there, or the fault at this path.
fn field_of<'v>(
    alloc: Global,
    path: &[u8],
    value: &'v Value,
    name: &str,
) -> Result<&'v Value, ReadRefusal>
    ensures { Gives (λ v. view v.now) result (needed path.now (field name.now (view value.now))) }
{
    match field(value, name) {
        Some(found) => Ok(found),
        None => Err(misshapen(alloc, path)?),
    }
}

#[tactic(auto, unfolding(crate::specs::ReadLine::read_inner))]
fn read_inner(alloc: Global, object: &Value) -> Result<Found, ReadRefusal>
    ensures { Gives (λ (x : _). x) result (read_inner (view object.now)) }
{
    let name = inner_kind(alloc, object)?;
    read_put(alloc, name, object)
}

fn told_of_list(alloc: Global, index: usize, fault: ReadRefusal) -> Result<ReadRefusal, NoMemory>
    ensures { IfOk result (λ f. f ≡ under (codes "items") (under (index_step index) fault)) }
{
    match in_field(alloc, "items", at_index(alloc, index, Some(fault))?)? {
        Some(fault) => Ok(fault),
        None => unreachable!(),
    }
}

// The item at this place of a list.
#[tactic(auto, unfolding(crate::specs::ReadLine::item_at))]
fn item_at(alloc: Global, index: usize, item: &Value) -> Result<Found, ReadRefusal>
    ensures { Gives (λ (x : _). x) result (item_at index (view item.now)) }
{
    match read_inner(alloc, item) {
        Ok(found) => Ok(found),
        Err(fault) => Err(told_of_list(alloc, index, fault)?),
    }
}

// Items that are passed over are left out.
fn keep(items: &mut Vec<RefItem>, found: Found) -> Result<(), NoMemory>
    ensures { OnOk result (items.new.items ≡ items.old.items ++ kept found []) }
{
    if let Found::Read(item) = found {
        items.push(item)?;
    }
    Ok(())
}

fn read_items(alloc: Global, items: &[Value]) -> Result<List<RefItem>, ReadRefusal>
    ensures { Gives (λ (x : _). x) result (read_items 0 (map view items.now)) }
{
    let mut read = Vec::new(alloc);
    for (index, item) in items.iter().enumerate() {
        keep(&mut read, item_at(alloc, index, item)?)?;
    }
    Ok(List::of(read))
}

#[tactic(auto, unfolding(crate::specs::ReadLine::list_items))]
fn list_items(alloc: Global, list: &Value) -> Result<&[Value], ReadRefusal>
    ensures { Gives (λ s. map view s.now) result (list_items (view list.now)) }
{
    match elements(field_of(alloc, b"items", list, "items")?) {
        Some(items) => Ok(items),
        None => Err(misshapen(alloc, b"items")?),
    }
}

#[tactic(auto, unfolding(crate::specs::ReadLine::read_list))]
fn read_list(alloc: Global, list: &Value) -> Result<LineItem, ReadRefusal>
    ensures { Gives (λ (x : _). x) result (read_list (view list.now)) }
{
    let items = list_items(alloc, list)?;
    Ok(LineItem::Objects(read_items(alloc, items)?))
}

// ---- events

// The object of an event.
#[tactic(auto, unfolding(crate::specs::ReadLine::event_object))]
fn event_object(alloc: Global, event: &Value) -> Result<&Value, ReadRefusal>
    ensures { Gives (λ v. view v.now) result (event_object (view event.now)) }
{
    let object = field_of(alloc, b"object", event, "object")?;
    if object.is_object() {
        Ok(object)
    } else {
        Err(misshapen(alloc, b"object")?)
    }
}

// The name of the kind of an event's object.
fn kind_in_event(alloc: Global, object: &Value) -> Result<&[u8], ReadRefusal>
    ensures { Gives (λ s. s.now) result (of_object (inner_kind (view object.now))) }
{
    match inner_kind(alloc, object) {
        Ok(name) => Ok(name),
        Err(fault) => match in_field(alloc, "object", Some(fault))? {
            Some(fault) => Err(fault),
            None => unreachable!(),
        },
    }
}

#[tactic(auto, unfolding(crate::specs::ReadLine::read_added))]
fn read_added(alloc: Global, event: &Value) -> Result<LineItem, ReadRefusal>
    ensures { Gives (λ (x : _). x) result (read_added (view event.now)) }
{
    let object = event_object(alloc, event)?;
    let name = kind_in_event(alloc, object)?;
    line_of(alloc, read_put(alloc, name, object)?)
}

#[tactic(auto, unfolding(crate::specs::ReadLine::read_deleted))]
fn read_deleted(alloc: Global, event: &Value) -> Result<LineItem, ReadRefusal>
    ensures { Gives (λ (x : _). x) result (read_deleted (view event.now)) }
{
    let object = event_object(alloc, event)?;
    let name = kind_in_event(alloc, object)?;
    line_of(alloc, read_removed(alloc, name, object)?)
}

fn is_control(kind: &[u8]) -> bool
    ensures { result ≡ is_control kind.now }
{
    matches!(kind, [b'X', b'-', ..])
}

#[tactic(auto, unfolding(crate::specs::ReadLine::read_other))]
fn read_other(alloc: Global, kind: &[u8], value: &Value) -> Result<LineItem, ReadRefusal>
    ensures { Gives (λ (x : _). x) result (read_other kind.now (view value.now)) }
{
    if !is_control(kind) {
        return Err(misshapen(alloc, b"type")?);
    }
    match read_control(alloc, kind, value)? {
        ControlLine::Control(control) => Ok(LineItem::Control(control)),
        ControlLine::Order(order) => Ok(LineItem::Order(order)),
    }
}

#[tactic(auto, unfolding(crate::specs::ReadLine::is_put))]
fn is_put(kind: &[u8]) -> bool
    ensures { result ≡ is_put kind.now }
{
    kind == b"ADDED".as_slice() || kind == b"MODIFIED".as_slice()
}

// An event or a control line, by its type.
#[tactic(auto, unfolding(crate::specs::ReadLine::read_event))]
fn read_event(alloc: Global, kind: &[u8], value: &Value) -> Result<LineItem, ReadRefusal>
    ensures { Gives (λ (x : _). x) result (read_event kind.now (view value.now)) }
{
    if is_put(kind) {
        read_added(alloc, value)
    } else if kind == b"DELETED".as_slice() {
        read_deleted(alloc, value)
    } else if kind == b"BOOKMARK".as_slice() {
        Ok(LineItem::Ignored(Text::of(Vec::from_slice(alloc, b"BOOKMARK")?)))
    } else {
        read_other(alloc, kind, value)
    }
}

#[tactic(auto, unfolding(crate::specs::ReadLine::read_typed))]
fn read_typed(alloc: Global, value: &Value) -> Result<LineItem, ReadRefusal>
    ensures { Gives (λ (x : _). x) result (read_typed (view value.now)) }
{
    let kind = field_of(alloc, b"kind", value, "type")?;
    read_event(alloc, text_of(alloc, b"type", kind)?, value)
}

//! How what belongs on a stream of a node changes.
ghost use Rattle.std.specs.Prelude.{◌≡◌, ◌++◌, map, IfOk, OnOk, option_copied, Some};
ghost use Rattle.std.specs.List.{flat_map};
ghost use Rattle.cl_types.specs.Ascending.{Ascends, found};
ghost use Rattle.cl_types.specs.Equality.{is_same};
ghost use Rattle.cl_types.specs.Text.{text_order};
ghost use Rattle.watch_streams.specs.declared.net.NetEgress as egress;
ghost use Rattle.watch_streams.specs.declared.net.NetPolicy as policy;
ghost use Rattle.watch_streams.specs.declared.message.StreamObject.TheVariants as object;
ghost use Rattle.watch_streams.specs.Difference.{all_texts, changed, difference, members_without, patch, replaced, unless_same};
ghost use Rattle.watch_streams.specs.Names.{AscendByName, at_text, name_of, object_text};

use crate::members::members_without;
use crate::named::{Named, name_all};
use cl_types::{Copies, List, NoMemory, Same, Text, find};
use label_select::GroupKey;
use std::alloc::Global;
use watch_streams::{
    Changes, HeldMember, NetEgress, NetPolicy, Objects, StreamChange, StreamName, StreamObject,
    sorted as sorted_items,
};

fn push_if_any(
    changes: &mut Vec<StreamChange>,
    group: &GroupKey,
    added: Vec<HeldMember>,
    removed: Vec<HeldMember>,
) -> Result<(), NoMemory>
    ensures { OnOk result (changes.new.items ≡ changes.old.items ++ patch group.now added.items removed.items) }
{
    if !added.is_empty() || !removed.is_empty() {
        changes.push(StreamChange::Patch {
            group: group.copy()?,
            added: List::of(added),
            removed: List::of(removed),
        })?;
    }
    Ok(())
}

// The change of a group's members, where there is one.
fn push_patch(
    changes: &mut Vec<StreamChange>,
    group: &GroupKey,
    old: &[HeldMember],
    new: &[HeldMember],
) -> Result<(), NoMemory>
    ensures { OnOk result (changes.new.items ≡ changes.old.items ++ patch group.now (members_without new.now old.now) (members_without old.now new.now)) }
{
    let alloc = *changes.allocator();
    let added = members_without(alloc, new, old)?;
    let removed = members_without(alloc, old, new)?;
    push_if_any(changes, group, added, removed)
}

fn is_same_policy(a: &NetPolicy, b: &NetPolicy) -> bool
    ensures { result ≡ is_same policy.the_code a.now b.now }
{
    a.same(b)
}

fn is_same_egress(a: &NetEgress, b: &NetEgress) -> bool
    ensures { result ≡ is_same egress.the_code a.now b.now }
{
    a.same(b)
}

fn push_unless(
    changes: &mut Vec<StreamChange>,
    same: bool,
    new: &StreamObject,
) -> Result<(), NoMemory>
    ensures { OnOk result (changes.new.items ≡ changes.old.items ++ unless_same same new.now) }
{
    if !same {
        changes.push(StreamChange::Put(new.copy()?))?;
    }
    Ok(())
}

// The change where one object took another's place.
fn push_replaced(
    changes: &mut Vec<StreamChange>,
    old: &StreamObject,
    new: &StreamObject,
) -> Result<(), NoMemory>
    ensures { OnOk result (changes.new.items ≡ changes.old.items ++ replaced old.now new.now) }
{
    match (old, new) {
        (StreamObject::Policy(a), StreamObject::Policy(b)) => {
            push_unless(changes, is_same_policy(a, b), new)
        }
        (StreamObject::Egress(a), StreamObject::Egress(b)) => {
            push_unless(changes, is_same_egress(a, b), new)
        }
        (StreamObject::Group { group, members: a }, StreamObject::Group { members: b, .. }) => {
            push_patch(changes, group, a.as_slice(), b.as_slice())
        }
        _ => push_unless(changes, false, new),
    }
}

fn name_of(object: &StreamObject) -> Result<StreamName, NoMemory>
    ensures { IfOk result (λ name. name ≡ name_of object.now) }
{
    match object {
        StreamObject::Policy(policy) => Ok(StreamName::Policy(policy.key.copy()?)),
        StreamObject::Egress(egress) => Ok(StreamName::Egress(egress.name.copy()?)),
        StreamObject::Group { group, .. } => Ok(StreamName::Group(group.copy()?)),
    }
}

/// Appends the change under one name, where there is one. The objects have the same name.
pub fn push_change(
    changes: &mut Vec<StreamChange>,
    old: Option<&StreamObject>,
    new: Option<&StreamObject>,
) -> Result<(), NoMemory>
    ensures { OnOk result (changes.new.items ≡ changes.old.items ++ changed (option_copied old.entry) (option_copied new.entry)) }
{
    match (old, new) {
        (None, None) => {}
        (Some(old), None) => changes.push(StreamChange::Remove(name_of(old)?))?,
        (None, Some(new)) => changes.push(StreamChange::Put(new.copy()?))?,
        (Some(old), Some(new)) => push_replaced(changes, old, new)?,
    }
    Ok(())
}

fn object_of<'a>(named: Option<&'a Named>) -> Option<&'a StreamObject>
    ensures { option_copied result ≡ option_copied named.entry }
{
    match named {
        Some(named) => Some(named.object()),
        None => None,
    }
}

fn push_texts(texts: &mut Vec<Text>, objects: &[Named]) -> Result<(), NoMemory>
    ensures { OnOk result (texts.new.items ≡ texts.old.items ++ map object_text objects.now) }
{
    for n in objects {
        texts.push(n.text().copy()?)?;
    }
    Ok(())
}

// The texts of the names of either, ascending.
fn all_texts(alloc: Global, old: &[Named], new: &[Named]) -> Result<Vec<Text>, NoMemory>
    ensures { IfOk result (λ texts. texts.items ≡ all_texts old.now new.now) }
{
    let mut texts = Vec::new(alloc);
    push_texts(&mut texts, old)?;
    push_texts(&mut texts, new)?;
    let sorted = sorted_items(alloc, texts)?;
    Ok(sorted)
}

fn push_changed_at(
    changes: &mut Vec<StreamChange>,
    text: &Text,
    old: &[Named],
    new: &[Named],
) -> Result<(), NoMemory>
    requires old { AscendByName old.now }
    requires new { AscendByName new.now }
    ensures { OnOk result (changes.new.items ≡ changes.old.items ++ changed (found (at_text text.now) old.now) (found (at_text text.now) new.now)) }
{
    push_change(
        changes,
        object_of(find(old, text)),
        object_of(find(new, text)),
    )
}

fn push_all_changed(
    changes: &mut Vec<StreamChange>,
    texts: &[Text],
    old: &[Named],
    new: &[Named],
) -> Result<(), NoMemory>
    requires old { AscendByName old.now }
    requires new { AscendByName new.now }
    ensures { OnOk result (changes.new.items ≡ changes.old.items ++ flat_map (λ text. changed (found (at_text text) old.now) (found (at_text text) new.now)) texts.now) }
{
    for text in texts {
        push_changed_at(changes, text, old, new)?;
    }
    Ok(())
}

// The objects with their texts.
fn named_objects(alloc: Global, objects: Objects) -> Result<Vec<Named>, NoMemory>
    ensures { IfOk result (λ named. named.items ≡ objects) }
{
    let mut list = objects.into_list();
    let mut items = Vec::new(alloc);
    items.append(list.vec_mut())?;
    name_all(alloc, items)
}

fn all_changed(alloc: Global, old: &[Named], new: &[Named]) -> Result<Vec<StreamChange>, NoMemory>
    requires old { AscendByName old.now }
    requires new { AscendByName new.now }
    ensures { IfOk result (λ changes. changes.items ≡ difference old.now new.now) }
{
    let texts = all_texts(alloc, old, new)?;
    let mut changes = Vec::new(alloc);
    push_all_changed(&mut changes, texts.as_slice(), old, new)?;
    Ok(changes)
}

/// The exact change from the one map to the other, in the order of names.
pub fn changes_between(alloc: Global, old: Objects, new: Objects) -> Result<Changes, NoMemory>
    requires old { AscendByName old }
    requires new { AscendByName new }
    ensures { IfOk result (λ changes. changes ≡ difference old new) }
{
    watch_streams::messages_name_once();
    let old = named_objects(alloc, old)?;
    let new = named_objects(alloc, new)?;
    let changes = all_changed(alloc, old.as_slice(), new.as_slice())?;
    Ok(Changes::of(List::of(changes)))
}

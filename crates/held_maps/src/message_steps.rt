ghost use Rattle.std.specs.Prelude.{◌≡◌, ◌++◌, IfOk, OnOk, reverse};
ghost use Rattle.std.specs.Option.{option_to_list};
ghost use Rattle.std.specs.List.{AllByRecursion};
ghost use Rattle.watch_streams.specs.Difference.{settled};
ghost use Rattle.held_maps.specs.Held.{maps_of, map_on};
ghost use Rattle.watch_streams.specs.Names.{object_text};
ghost use Rattle.held_maps.specs.Steps.{put_step, remove_step, patch_step, step_of, steps_of, put_steps, HasNameForm, HasChangeForm, HasObjectForm};

use crate::belonging::{belongs, name_belongs, settled};
use crate::held::Held;
use crate::steps::{Named, Step};
use crate::titles::{group_title, name_title, object_title};
use cl_types::{List, NoMemory, Stream, Text};
use label_select::{GroupKey, group_form};
use std::alloc::Global;
use watch_streams::{HeldMember, StreamChange, StreamName, StreamObject, patched_members};

// The step that puts an object with this text of its name.
fn put_titled(s: Stream, title: Text, object: StreamObject) -> Option<Step>
    requires { title ≡ object_text object }
    ensures { result ≡ put_step s object }
{
    if !belongs(s, &object) {
        return None;
    }
    Some(Step::Put(Named { title, object }))
}

fn put_step(alloc: Global, s: Stream, object: StreamObject) -> Result<Option<Step>, NoMemory>
    ensures { IfOk result (λ step. step ≡ put_step s object) }
{
    let title = object_title(alloc, &object)?;
    Ok(put_titled(s, title, object))
}

fn settled_step(alloc: Global, s: Stream, object: StreamObject) -> Result<Option<Step>, NoMemory>
    ensures { IfOk result (λ step. step ≡ put_step s (settled object)) }
{
    put_step(alloc, s, settled(object)?)
}

fn remove_step(alloc: Global, s: Stream, name: &StreamName) -> Result<Option<Step>, NoMemory>
    ensures { IfOk result (λ step. step ≡ remove_step s name.now) }
{
    if !name_belongs(s, name) {
        return Ok(None);
    }
    Ok(Some(Step::Remove(name_title(alloc, name)?)))
}

fn patch_step(
    alloc: Global,
    s: Stream,
    held: &Held,
    group: GroupKey,
    added: List<HeldMember>,
    removed: &[HeldMember],
) -> Result<Option<Step>, NoMemory>
    ensures { IfOk result (λ step. step ≡ patch_step s (map_on s (maps_of held.now)) group added removed.now) }
{
    let title = group_title(alloc, &group)?;
    let members = patched_members(alloc, held.group_titled(s, &title), added, removed)?;
    Ok(put_titled(s, title, StreamObject::Group { group, members }))
}

fn step_of(
    alloc: Global,
    s: Stream,
    held: &Held,
    change: StreamChange,
) -> Result<Option<Step>, NoMemory>
    ensures { IfOk result (λ step. step ≡ step_of s (map_on s (maps_of held.now)) change) }
{
    match change {
        StreamChange::Put(object) => settled_step(alloc, s, object),
        StreamChange::Remove(name) => remove_step(alloc, s, &name),
        StreamChange::Patch {
            group,
            added,
            removed,
        } => patch_step(alloc, s, held, group, added, removed.as_slice()),
    }
}

fn push_step(steps: &mut Vec<Step>, step: Option<Step>) -> Result<(), NoMemory>
    ensures { OnOk result (steps.new.items ≡ steps.old.items ++ option_to_list step) }
{
    if let Some(step) = step {
        steps.push(step)?;
    }
    Ok(())
}

/// The steps of the changes, the first of them last.
pub(crate) fn steps_of(
    alloc: Global,
    s: Stream,
    held: &Held,
    mut changes: List<StreamChange>,
) -> Result<Vec<Step>, NoMemory>
    ensures { IfOk result (λ steps. steps.items ≡ steps_of s (map_on s (maps_of held.now)) changes) }
{
    let mut steps = Vec::new(alloc);
    while let Some(change) = changes.vec_mut().pop() {
        push_step(&mut steps, step_of(alloc, s, held, change)?)?;
    }
    Ok(steps)
}

/// The steps that put the objects, the last of them last.
pub(crate) fn put_steps(
    alloc: Global,
    s: Stream,
    mut objects: List<StreamObject>,
) -> Result<Vec<Step>, NoMemory>
    ensures { IfOk result (λ steps. steps.items ≡ reverse (put_steps s objects)) }
{
    let mut steps = Vec::new(alloc);
    while let Some(object) = objects.vec_mut().pop() {
        push_step(&mut steps, settled_step(alloc, s, object)?)?;
    }
    steps.reverse();
    Ok(steps)
}

fn change_form(change: &StreamChange)
    ensures { HasChangeForm change.now }
{
    match change {
        StreamChange::Put(object) => object_form(object),
        StreamChange::Patch { group, .. } => group_form(group),
        StreamChange::Remove(name) => name_form(name),
    }
}

fn name_form(name: &StreamName)
    ensures { HasNameForm name.now }
{
    match name {
        StreamName::Policy(_) => {}
        StreamName::Egress(_) => {}
        StreamName::Group(group) => group_form(group),
    }
}

fn object_form(object: &StreamObject)
    ensures { HasObjectForm object.now }
{
    match object {
        StreamObject::Policy(_) => {}
        StreamObject::Egress(_) => {}
        StreamObject::Group { group, .. } => group_form(group),
    }
}

/// What the groups of changes keep. It does nothing.
pub(crate) fn changes_form(changes: &[StreamChange])
    ensures { AllByRecursion HasChangeForm changes.now }
{
    for i in (0..changes.len()).rev() {
        change_form(&changes[i]);
    }
}

/// What the groups of objects keep. It does nothing.
pub(crate) fn objects_form(objects: &[StreamObject])
    ensures { AllByRecursion HasObjectForm objects.now }
{
    for i in (0..objects.len()).rev() {
        object_form(&objects[i]);
    }
}

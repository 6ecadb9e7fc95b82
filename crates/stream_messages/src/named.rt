//! Things in the order of their texts, which are kept beside them.
ghost use Rattle.std.specs.Prelude.{◌≡◌, ◌++◌, map, IfOk, OnOk};
ghost use Rattle.cl_types.specs.Ascending.{sorted_by};
ghost use Rattle.cl_types.specs.Text.{text_order};
ghost use Rattle.cl_types.specs.Written.{policy_text};
ghost use Rattle.label_select.specs.Written.{group_text};
ghost use Rattle.watch_streams.specs.declared.message.StreamName.TheVariants as title;
ghost use Rattle.watch_streams.specs.Names.{by_name, name_text, name_of, object_text};
ghost use Rattle.watch_streams.specs.Projection.{groups_by_text};

use cl_types::{Keyed, List, NoMemory, PolicyKey, Text, write_bytes, write_policy};
use label_select::{GroupKey, write_group};
use std::alloc::Global;
use std::marker::Model;
use watch_streams::{StreamName, StreamObject, sorted as sorted_items};

/// An object with the text of its name.
#[derive(Drop)]
pub(crate) struct Named {
    text: Text,
    object: StreamObject,
}

impl Model for Named {
    ghost use Rattle.std.specs.Prelude.{◌≡◌};
    ghost use Rattle.watch_streams.specs.declared.message.StreamObject.{StreamObject as Object};
    ghost use Rattle.watch_streams.specs.Names.{object_text};

    ghost Value = { Object };

    ghost view = { λ n. n.object };

    ghost invariant = { λ n. n.text ≡ object_text n.object };
}

impl Keyed for Named {
    type Key = Text;

    ghost key = { object_text };

    fn key(&self) -> &Text {
        &self.text
    }
}

fn policy_title(alloc: Global, key: &PolicyKey) -> Result<Text, NoMemory>
    ensures { IfOk result (λ text. text ≡ policy_text key.now) }
{
    let mut text = Text::new(alloc);
    write_policy(&mut text, key)?;
    Ok(text)
}

fn egress_title(alloc: Global, name: &Text) -> Result<Text, NoMemory>
    ensures { IfOk result (λ text. text ≡ name_text (title.Egress name.now)) }
{
    let mut text = Text::new(alloc);
    write_bytes(&mut text, b"egress:")?;
    write_bytes(&mut text, name.as_slice())?;
    Ok(text)
}

fn group_title(alloc: Global, group: &GroupKey) -> Result<Text, NoMemory>
    ensures { IfOk result (λ text. text ≡ group_text group.now) }
{
    let mut text = Text::new(alloc);
    write_group(&mut text, group)?;
    Ok(text)
}

// The text of the object's name.
fn text_of(alloc: Global, object: &StreamObject) -> Result<Text, NoMemory>
    ensures { IfOk result (λ text. text ≡ object_text object.now) }
{
    match object {
        StreamObject::Policy(policy) => policy_title(alloc, &policy.key),
        StreamObject::Egress(egress) => egress_title(alloc, &egress.name),
        StreamObject::Group { group, .. } => group_title(alloc, group),
    }
}

fn title_of(alloc: Global, name: &StreamName) -> Result<Text, NoMemory>
    ensures { IfOk result (λ text. text ≡ name_text name.now) }
{
    match name {
        StreamName::Policy(key) => policy_title(alloc, key),
        StreamName::Egress(name) => egress_title(alloc, name),
        StreamName::Group(group) => group_title(alloc, group),
    }
}

impl Named {
    fn of(alloc: Global, object: StreamObject) -> Result<Named, NoMemory>
        ensures { IfOk result (λ named. named ≡ object) }
    {
        Ok(Named {
            text: text_of(alloc, &object)?,
            object,
        })
    }

    pub(crate) fn object(&self) -> &StreamObject
        ensures { result.now ≡ self.now }
    {
        &self.object
    }

    fn into_object(self) -> StreamObject
        ensures { result ≡ self }
    {
        self.object
    }

    pub(crate) fn text(&self) -> &Text
        ensures { result.now ≡ object_text self.now }
    {
        &self.text
    }
}

/// A group with its text.
#[derive(Drop)]
struct Titled {
    text: Text,
    group: GroupKey,
}

impl Model for Titled {
    ghost use Rattle.std.specs.Prelude.{◌≡◌};
    ghost use Rattle.label_select.specs.Group.{Group};
    ghost use Rattle.label_select.specs.Written.{group_text};

    ghost Value = { Group };

    ghost view = { λ t. t.group };

    ghost invariant = { λ t. t.text ≡ group_text t.group };
}

impl Keyed for Titled {
    type Key = Text;

    ghost key = { group_text };

    fn key(&self) -> &Text {
        &self.text
    }
}

impl Titled {
    fn of(alloc: Global, group: GroupKey) -> Result<Titled, NoMemory>
        ensures { IfOk result (λ titled. titled ≡ group) }
    {
        Ok(Titled {
            text: group_title(alloc, &group)?,
            group,
        })
    }

    fn into_group(self) -> GroupKey
        ensures { result ≡ self }
    {
        self.group
    }
}

fn with_texts(alloc: Global, groups: Vec<GroupKey>) -> Result<Vec<Titled>, NoMemory>
    ensures { IfOk result (λ titled. titled.items ≡ groups.items) }
{
    let mut titled = Vec::new(alloc);
    for g in groups {
        titled.push(Titled::of(alloc, g)?)?;
    }
    Ok(titled)
}

fn without_texts(alloc: Global, titled: Vec<Titled>) -> Result<Vec<GroupKey>, NoMemory>
    ensures { IfOk result (λ groups. groups.items ≡ titled.items) }
{
    let mut groups = Vec::new(alloc);
    for t in titled {
        groups.push(t.into_group())?;
    }
    Ok(groups)
}

/// The groups in the order of their texts, none twice.
pub fn groups_by_text(alloc: Global, groups: Vec<GroupKey>) -> Result<List<GroupKey>, NoMemory>
    ensures { IfOk result (λ sorted. sorted ≡ groups_by_text groups.items) }
{
    let titled = with_texts(alloc, groups)?;
    let sorted = sorted_items(alloc, titled)?;
    Ok(List::of(without_texts(alloc, sorted)?))
}

/// The objects with their texts.
pub(crate) fn name_all(alloc: Global, objects: Vec<StreamObject>) -> Result<Vec<Named>, NoMemory>
    ensures { IfOk result (λ named. named.items ≡ objects.items) }
{
    let mut named = Vec::new(alloc);
    for object in objects {
        named.push(Named::of(alloc, object)?)?;
    }
    Ok(named)
}

// The objects without their texts.
fn into_objects(alloc: Global, named: Vec<Named>) -> Result<Vec<StreamObject>, NoMemory>
    ensures { IfOk result (λ objects. objects.items ≡ named.items) }
{
    let mut objects = Vec::new(alloc);
    for n in named {
        objects.push(n.into_object())?;
    }
    Ok(objects)
}

/// The objects by name, of those with one name the first.
pub fn sorted_by_name(
    alloc: Global,
    objects: Vec<StreamObject>,
) -> Result<Vec<StreamObject>, NoMemory>
    ensures { IfOk result (λ sorted. sorted.items ≡ by_name objects.items) }
{
    let named = name_all(alloc, objects)?;
    into_objects(alloc, sorted_items(alloc, named)?)
}

/// A name with its text.
#[derive(Drop)]
pub struct TitledName {
    text: Text,
    name: StreamName,
}

impl Model for TitledName {
    ghost use Rattle.std.specs.Prelude.{◌≡◌};
    ghost use Rattle.watch_streams.specs.declared.message.StreamName.{StreamName as Name};
    ghost use Rattle.watch_streams.specs.Names.{name_text};

    ghost Value = { Name };

    ghost view = { λ t. t.name };

    ghost invariant = { λ t. t.text ≡ name_text t.name };
}

impl Keyed for TitledName {
    type Key = Text;

    ghost key = { name_text };

    fn key(&self) -> &Text {
        &self.text
    }
}

impl TitledName {
    fn of(alloc: Global, name: StreamName) -> Result<TitledName, NoMemory>
        ensures { IfOk result (λ titled. titled ≡ name) }
    {
        Ok(TitledName {
            text: title_of(alloc, &name)?,
            name,
        })
    }

    pub fn name(&self) -> &StreamName
        ensures { result.now ≡ self.now }
    {
        &self.name
    }
}

fn with_titles(alloc: Global, names: Vec<StreamName>) -> Result<Vec<TitledName>, NoMemory>
    ensures { IfOk result (λ titled. titled.items ≡ names.items) }
{
    let mut titled = Vec::new(alloc);
    for name in names {
        titled.push(TitledName::of(alloc, name)?)?;
    }
    Ok(titled)
}

/// The names in the order of their texts, none twice.
pub fn names_by_text(alloc: Global, names: Vec<StreamName>) -> Result<Vec<TitledName>, NoMemory>
    ensures { IfOk result (λ sorted. sorted.items ≡ sorted_by name_text text_order names.items) }
{
    let titled = with_titles(alloc, names)?;
    sorted_items(alloc, titled)
}

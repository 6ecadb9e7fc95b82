//! Names, namespaces and labels of objects.
ghost use Rattle.std.specs.Prelude.{◌≡◌, [], List, map, option_map, string_bytes, codes, IfOk, IfSome, IsTrue, OnOk};
ghost use Rattle.serde_json.specs.View.{view};
ghost use Rattle.json_fields.specs.Faults.{least};
ghost use Rattle.json_fields.specs.Shapes.{in_field};
ghost use Rattle.json_fields.specs.Names.{has_form, is_label, name_faults, name_value, given_or_default, namespace_faults, namespace_value, label_faults, each_label_faults, labels_faults, label_of, with_label, labels_from, given_members, members_of, labels_value, metadata_faults, namespaced_faults};

use crate::faults::{bad_shape, earlier, in_field};
use crate::fields::{inner, members};
use crate::refusal::ReadRefusal;
use crate::shapes::{object_fault, text_or_empty};
use cl_types::{NoMemory, Text};
use label_select::{Labels, is_label_key, is_label_value, is_namespace_name, is_object_name};
use serde_json::Value;
use std::alloc::Global;
use std::collections::BTreeMap;

/// The form that a name must have.
#[derive(Clone, Copy, Debug, PartialEq, Eq)]
pub enum NameForm {
    /// That of every object but namespaces.
    ObjectName,
    NamespaceName,
}

impl NameForm {
    ghost use Rattle.std.specs.Prelude.{◌≡◌};
    ghost use Rattle.json_fields.specs.Shapes.{in_field};
    ghost use Rattle.json_fields.specs.Names.{has_form};

    fn is_form_of(self, text: &[u8]) -> bool
        ensures { result ≡ has_form self text.now }
    {
        match self {
            NameForm::ObjectName => is_object_name(text),
            NameForm::NamespaceName => is_namespace_name(text),
        }
    }
}

// The fault of a name, which must be there.
#[tactic(auto, unfolding(crate::specs::Names::name_faults, crate::specs::Faults::least, crate::specs::Faults::earlier))]
fn name_fault(alloc: Global, form: NameForm, value: Option<&Value>) -> Option<ReadRefusal>
    ensures { result ≡ least (name_faults form (option_map (λ v. view v.now) value.entry)) }
{
    let Some(value) = value else {
        return Some(bad_shape(alloc));
    };
    match value.as_str() {
        Some(text) => {
            if form.is_form_of(text.as_bytes()) {
                None
            } else {
                Some(ReadRefusal::BadName)
            }
        }
        None => Some(bad_shape(alloc)),
    }
}

/// The name that a field has.
#[tactic(auto, unfolding(crate::specs::Names::name_value))]
pub fn name_value(alloc: Global, form: NameForm, value: Option<&Value>) -> Result<Text, NoMemory>
    ensures { IfOk result (λ (t : List _). t ≡ name_value form (option_map (λ v. view v.now) value.entry)) }
{
    let text = text_or_empty(value);
    if form.is_form_of(text) {
        Ok(Text::of(Vec::from_slice(alloc, text)?))
    } else {
        Ok(Text::new(alloc))
    }
}

fn given_or_default(text: &[u8]) -> &[u8]
    ensures { result.now ≡ given_or_default text.now }
{
    match text {
        [] => b"default",
        _ => text,
    }
}

// The fault of a namespace.
#[tactic(auto, unfolding(crate::specs::Names::namespace_faults, crate::specs::Faults::least, crate::specs::Faults::earlier))]
fn namespace_fault(alloc: Global, value: Option<&Value>) -> Option<ReadRefusal>
    ensures { result ≡ least (namespace_faults (option_map (λ v. view v.now) value.entry)) }
{
    let Some(value) = value else {
        return None;
    };
    match value.as_str() {
        Some(text) => {
            if is_namespace_name(given_or_default(text.as_bytes())) {
                None
            } else {
                Some(ReadRefusal::BadName)
            }
        }
        None => Some(bad_shape(alloc)),
    }
}

/// The namespace that a field has; absent or empty it is `default`.
#[tactic(auto, unfolding(crate::specs::Names::namespace_value))]
pub fn namespace_value(alloc: Global, value: Option<&Value>) -> Result<Text, NoMemory>
    ensures { IfOk result (λ (t : List _). t ≡ namespace_value (option_map (λ v. view v.now) value.entry)) }
{
    let name = given_or_default(text_or_empty(value));
    if is_namespace_name(name) {
        Ok(Text::of(Vec::from_slice(alloc, name)?))
    } else {
        Ok(Text::of(Vec::from_slice(alloc, b"default".as_slice())?))
    }
}

// The fault of a label; one that is null isn't there.
#[tactic(auto, unfolding(crate::specs::Names::label_faults, crate::specs::Faults::least, crate::specs::Faults::earlier))]
fn label_fault(alloc: Global, key: &String, value: &Value) -> Option<ReadRefusal>
    ensures { result ≡ least (label_faults (string_bytes key.now, view value.now)) }
{
    if value.is_null() {
        return None;
    }
    let Some(text) = value.as_str() else {
        return Some(bad_shape(alloc));
    };
    if is_label_key(key.as_bytes()) && is_label_value(text.as_bytes()) {
        None
    } else {
        Some(ReadRefusal::BadLabel)
    }
}

#[tactic(auto, using(crate::specs::FaultLaws::earlier_none), unfolding(crate::specs::Names::each_label_faults, crate::specs::Faults::least, crate::specs::Faults::earlier))]
fn each_label_fault(alloc: Global, members: &BTreeMap<String, Value>) -> Option<ReadRefusal>
    ensures { result ≡ least (each_label_faults (map (λ e. (string_bytes e.0, view e.1)) members.now.entries)) }
{
    let mut worst = None;
    for (key, value) in members {
        worst = earlier(worst, label_fault(alloc, key, value));
    }
    worst
}

/// The fault of an object of texts that have the forms of labels.
#[tactic(auto, unfolding(crate::specs::Names::labels_faults, crate::specs::Faults::least, crate::specs::Faults::earlier))]
pub(crate) fn labels_fault(alloc: Global, value: Option<&Value>) -> Option<ReadRefusal>
    ensures { result ≡ least (labels_faults (option_map (λ v. view v.now) value.entry)) }
{
    let Some(value) = value else {
        return None;
    };
    match members(value) {
        Some(found) => each_label_fault(alloc, found),
        None => Some(bad_shape(alloc)),
    }
}

/// The fault of a field that is an object of texts that have the forms of labels.
#[tactic(auto, using(crate::specs::FaultLaws::least_at), unfolding(crate::specs::Shapes::in_field))]
pub fn labels_field_fault(
    alloc: Global,
    name: &str,
    object: Option<&Value>,
) -> Result<Option<ReadRefusal>, NoMemory>
    ensures { IfOk result (λ f. f ≡ least (in_field name.now labels_faults (option_map (λ v. view v.now) object.entry))) }
{
    in_field(alloc, name, labels_fault(alloc, inner(object, name)))
}

// The text of a member that has the form of a label.
#[tactic(auto, unfolding(crate::specs::Names::label_of))]
pub(crate) fn label_of<'v>(key: &String, value: &'v Value) -> Option<&'v str>
    ensures value { option_map (λ s. s.now) result ≡ label_of (string_bytes key.now, view value.now) }
    ensures form { IfSome result (λ s. IsTrue (is_label (string_bytes key.now) s.now)) }
{
    let text = value.as_str()?;
    if is_label_key(key.as_bytes()) && is_label_value(text.as_bytes()) {
        Some(text)
    } else {
        None
    }
}

// Sets a label where it has the form of one.
fn put_label(
    alloc: Global,
    labels: &mut Labels,
    key: &String,
    value: &Value,
) -> Result<(), NoMemory>
    ensures { OnOk result (labels.new ≡ with_label labels.old (string_bytes key.now) (label_of (string_bytes key.now, view value.now))) }
{
    if let Some(text) = label_of(key, value) {
        let key = Text::of(Vec::from_slice(alloc, key.as_bytes())?);
        let value = Text::of(Vec::from_slice(alloc, text.as_bytes())?);
        labels.put(key, value)?;
    }
    Ok(())
}

#[tactic(auto, unfolding(crate::specs::Names::labels_from))]
fn labels_from(alloc: Global, members: &BTreeMap<String, Value>) -> Result<Labels, NoMemory>
    ensures { IfOk result (λ (l : List _). l ≡ labels_from (map (λ e. (string_bytes e.0, view e.1)) members.now.entries) []) }
{
    let mut labels = Labels::new(alloc);
    for (key, value) in members {
        put_label(alloc, &mut labels, key, value)?;
    }
    Ok(labels)
}

// The members of an object; of what is absent or no object there are none.
#[tactic(auto, unfolding(crate::specs::Names::members_of))]
pub(crate) fn members_in(value: Option<&Value>) -> Option<&BTreeMap<String, Value>>
    ensures { given_members (option_map (λ m. map (λ e. (string_bytes e.0, view e.1)) m.now.entries) result) ≡ members_of (option_map (λ v. view v.now) value.entry) }
{
    match value {
        Some(value) => members(value),
        None => None,
    }
}

/// The labels that a field has.
#[tactic(auto, unfolding(crate::specs::Names::labels_value, crate::specs::Names::labels_from))]
pub fn labels_value(alloc: Global, value: Option<&Value>) -> Result<Labels, NoMemory>
    ensures { IfOk result (λ (l : List _). l ≡ labels_value (option_map (λ v. view v.now) value.entry)) }
{
    match members_in(value) {
        Some(found) => labels_from(alloc, found),
        None => Ok(Labels::new(alloc)),
    }
}

#[tactic(auto, using(crate::specs::FaultLaws::least_at), unfolding(crate::specs::Shapes::in_field))]
fn name_field_fault(
    alloc: Global,
    form: NameForm,
    meta: Option<&Value>,
) -> Result<Option<ReadRefusal>, NoMemory>
    ensures { IfOk result (λ f. f ≡ least (in_field (codes "name") (name_faults form) (option_map (λ v. view v.now) meta.entry))) }
{
    in_field(alloc, "name", name_fault(alloc, form, inner(meta, "name")))
}

#[tactic(auto, using(crate::specs::FaultLaws::least_at), unfolding(crate::specs::Shapes::in_field))]
fn namespace_field_fault(
    alloc: Global,
    meta: Option<&Value>,
) -> Result<Option<ReadRefusal>, NoMemory>
    ensures { IfOk result (λ f. f ≡ least (in_field (codes "namespace") namespace_faults (option_map (λ v. view v.now) meta.entry))) }
{
    in_field(
        alloc,
        "namespace",
        namespace_fault(alloc, inner(meta, "namespace")),
    )
}

/// The fault of the metadata of an object that is in no namespace.
#[tactic(auto, using(crate::specs::FaultLaws::least_append), unfolding(crate::specs::Names::metadata_faults))]
pub fn metadata_fault(
    alloc: Global,
    form: NameForm,
    meta: Option<&Value>,
) -> Result<Option<ReadRefusal>, NoMemory>
    ensures { IfOk result (λ f. f ≡ least (metadata_faults form (option_map (λ v. view v.now) meta.entry))) }
{
    let name = name_field_fault(alloc, form, meta)?;
    let labels = labels_field_fault(alloc, "labels", meta)?;
    Ok(earlier(earlier(object_fault(alloc, meta), name), labels))
}

/// The fault of the metadata of an object that is in a namespace.
#[tactic(auto, using(crate::specs::FaultLaws::least_append), unfolding(crate::specs::Names::namespaced_faults))]
pub fn namespaced_fault(
    alloc: Global,
    meta: Option<&Value>,
) -> Result<Option<ReadRefusal>, NoMemory>
    ensures { IfOk result (λ f. f ≡ least (namespaced_faults (option_map (λ v. view v.now) meta.entry))) }
{
    let name = name_field_fault(alloc, NameForm::ObjectName, meta)?;
    let namespace = namespace_field_fault(alloc, meta)?;
    let labels = labels_field_fault(alloc, "labels", meta)?;
    let named = earlier(earlier(object_fault(alloc, meta), name), namespace);
    Ok(earlier(named, labels))
}

//! Reading nodes and namespaces.
ghost use Rattle.std.specs.Prelude.{◌≡◌, ◌++◌, List, IfOk, IfSome, map, option_map, option_copied, option_to_list, find, codes};
ghost use Rattle.std.specs.Option.{ForSome};
ghost use Rattle.serde_json.specs.View.{view};
ghost use Rattle.cluster_types.specs.Node.{IsNodeBlock, IsNodeBlock6};
ghost use Rattle.json_fields.specs.Faults.{least};
ghost use Rattle.json_fields.specs.Shapes.{in_field};
ghost use Rattle.object_reader.specs.Texts.{has_colon, has_no_colon};
ghost use Rattle.object_reader.specs.Nodes.{metadata_of, spec_of, named_faults, name_of, cidr_text_faults, cidr_texts_faults, cidr_texts, node_block, node_block6, block_faults, block6_faults, blocks_faults, node_spec_faults, node_faults, node_cidr, node_cidr6, node_value, namespace_faults, namespace_name, namespace_value};

use crate::texts::{has_colon, is_four, read_block};
use cl_types::{Addr, NoMemory, Prefix, Text};
use cluster_types::{Namespace, NodeInfo};
use json_fields::{
    ElementText, NameForm, ReadRefusal, earlier, field, in_field, inner, labels_value,
    list_field_fault, metadata_fault, name_value, object_fault, text_field_fault, text_in,
    texts_in,
};
use serde_json::Value;
use std::alloc::Global;

// ---- what every object has

/// The metadata of an object.
#[tactic(auto, unfolding(crate::specs::Nodes::metadata_of, json_fields::specs::Fields::inner))]
pub fn metadata_of(object: &Value) -> Option<&Value>
    ensures { option_map (λ v. view v.now) result ≡ metadata_of (view object.now) }
{
    field(object, "metadata")
}

/// The spec of an object.
#[tactic(auto, unfolding(crate::specs::Nodes::spec_of, json_fields::specs::Fields::inner))]
pub fn spec_of(object: &Value) -> Option<&Value>
    ensures { option_map (λ v. view v.now) result ≡ spec_of (view object.now) }
{
    field(object, "spec")
}

// The fault of the metadata of an object that is in no namespace.
#[tactic(auto, using(json_fields::specs::FaultLaws::least_at), unfolding(crate::specs::Nodes::named_faults, json_fields::specs::Shapes::in_field))]
pub(crate) fn named_fault(alloc: Global, object: &Value) -> Result<Option<ReadRefusal>, NoMemory>
    ensures { IfOk result (λ f. f ≡ least (named_faults (view object.now))) }
{
    let fault = metadata_fault(alloc, NameForm::ObjectName, inner(Some(object), "metadata"))?;
    in_field(alloc, "metadata", fault)
}

/// The name of an object that is no namespace.
#[tactic(auto, unfolding(crate::specs::Nodes::name_of))]
pub fn name_of(alloc: Global, object: &Value) -> Result<Text, NoMemory>
    ensures { IfOk result (λ (t : List _). t ≡ name_of (view object.now)) }
{
    name_value(
        alloc,
        NameForm::ObjectName,
        inner(metadata_of(object), "name"),
    )
}

// ---- nodes

#[tactic(auto, unfolding(crate::specs::Nodes::cidr_text_faults))]
fn cidr_text_fault(alloc: Global, spec: Option<&Value>) -> Result<Option<ReadRefusal>, NoMemory>
    ensures { IfOk result (λ f. f ≡ least (cidr_text_faults (option_map (λ v. view v.now) spec.entry))) }
{
    text_field_fault(alloc, "podCIDR", spec)
}

#[tactic(auto, unfolding(crate::specs::Nodes::cidr_texts_faults))]
fn cidr_texts_fault(alloc: Global, spec: Option<&Value>) -> Result<Option<ReadRefusal>, NoMemory>
    ensures { IfOk result (λ f. f ≡ least (cidr_texts_faults (option_map (λ v. view v.now) spec.entry))) }
{
    list_field_fault(alloc, &ElementText, "podCIDRs", spec)
}

// The texts with one before them, where it is there.
fn put_first(alloc: Global, one: Option<&str>, mut more: Vec<Text>) -> Result<Vec<Text>, NoMemory>
    ensures { IfOk result (λ v. v.items ≡ option_to_list (option_map (λ s. s.now) one.entry) ++ more.items) }
{
    if let Some(text) = one {
        more.insert(0, Text::of(Vec::from_slice(alloc, text.as_bytes())?))?;
    }
    Ok(more)
}

#[tactic(auto, unfolding(crate::specs::Nodes::cidr_texts))]
fn cidr_texts(alloc: Global, spec: Option<&Value>) -> Result<Vec<Text>, NoMemory>
    ensures { IfOk result (λ v. v.items ≡ cidr_texts (option_map (λ v. view v.now) spec.entry)) }
{
    let more = texts_in(alloc, inner(spec, "podCIDRs"))?;
    put_first(alloc, text_in(inner(spec, "podCIDR")), more)
}

fn first_four(texts: &[Text]) -> Option<&Text>
    ensures { option_copied result ≡ find has_no_colon texts.now }
{
    for text in texts {
        if !has_colon(text.as_slice()) {
            return Some(text);
        }
    }
    None
}

fn first_six(texts: &[Text]) -> Option<&Text>
    ensures { option_copied result ≡ find has_colon texts.now }
{
    for text in texts {
        if has_colon(text.as_slice()) {
            return Some(text);
        }
    }
    None
}

#[tactic(auto, using(crate::proofs::NodeBlocks::four_is_kept), unfolding(crate::specs::Nodes::node_block))]
fn node_block(text: &[u8]) -> Option<Prefix>
    ensures value { result ≡ node_block text.now }
    ensures kept { IfSome result (λ b. IsNodeBlock b.base b.len) }
{
    let Some(block) = read_block(text) else {
        return None;
    };
    if is_four(block.base) && (8 <= block.len && block.len <= 30) {
        Some(block)
    } else {
        None
    }
}

#[tactic(auto, using(crate::proofs::NodeBlocks::six_is_kept), unfolding(crate::specs::Nodes::node_block6))]
fn node_block6(text: &[u8]) -> Option<Prefix>
    ensures value { result ≡ node_block6 text.now }
    ensures kept { IfSome result (λ b. IsNodeBlock6 b.base b.len) }
{
    let Some(block) = read_block(text) else {
        return None;
    };
    if !is_four(block.base) && (16 <= block.len && block.len <= 126) {
        Some(block)
    } else {
        None
    }
}

// The fault of the block of IPv4, which must be there.
#[tactic(auto, unfolding(json_fields::specs::Faults::least, json_fields::specs::Faults::earlier))]
fn block_fault(alloc: Global, text: Option<&Text>) -> Result<Option<ReadRefusal>, NoMemory>
    ensures { IfOk result (λ f. f ≡ least (block_faults (option_copied text.entry))) }
{
    let Some(text) = text else {
        let path = Text::of(Vec::from_slice(alloc, b"podCIDR".as_slice())?);
        return Ok(Some(ReadRefusal::BadShape(path)));
    };
    match node_block(text.as_slice()) {
        Some(_) => Ok(None),
        None => Ok(Some(ReadRefusal::BadPrefix)),
    }
}

#[tactic(auto, unfolding(json_fields::specs::Faults::least, json_fields::specs::Faults::earlier))]
fn block6_fault(text: Option<&Text>) -> Option<ReadRefusal>
    ensures { result ≡ least (block6_faults (option_copied text.entry)) }
{
    let Some(text) = text else {
        return None;
    };
    match node_block6(text.as_slice()) {
        Some(_) => None,
        None => Some(ReadRefusal::BadPrefix),
    }
}

#[tactic(auto, using(json_fields::specs::FaultLaws::least_append), unfolding(crate::specs::Nodes::blocks_faults))]
fn blocks_fault(alloc: Global, texts: &[Text]) -> Result<Option<ReadRefusal>, NoMemory>
    ensures { IfOk result (λ f. f ≡ least (blocks_faults texts.now)) }
{
    let four = block_fault(alloc, first_four(texts))?;
    Ok(earlier(four, block6_fault(first_six(texts))))
}

fn texts_fault(alloc: Global, spec: Option<&Value>) -> Result<Option<ReadRefusal>, NoMemory>
    ensures { IfOk result (λ f. f ≡ least (blocks_faults (cidr_texts (option_map (λ v. view v.now) spec.entry)))) }
{
    let texts = cidr_texts(alloc, spec)?;
    blocks_fault(alloc, texts.as_slice())
}

#[tactic(auto, using(json_fields::specs::FaultLaws::least_append), unfolding(crate::specs::Nodes::node_spec_faults))]
fn node_spec_fault(alloc: Global, spec: Option<&Value>) -> Result<Option<ReadRefusal>, NoMemory>
    ensures { IfOk result (λ f. f ≡ least (node_spec_faults (option_map (λ v. view v.now) spec.entry))) }
{
    let one = cidr_text_fault(alloc, spec)?;
    let more = cidr_texts_fault(alloc, spec)?;
    let blocks = texts_fault(alloc, spec)?;
    Ok(earlier(
        earlier(earlier(object_fault(alloc, spec), one), more),
        blocks,
    ))
}

#[tactic(auto, using(json_fields::specs::FaultLaws::least_at), unfolding(json_fields::specs::Shapes::in_field))]
fn node_spec_field_fault(alloc: Global, object: &Value) -> Result<Option<ReadRefusal>, NoMemory>
    ensures { IfOk result (λ f. f ≡ least (in_field (codes "spec") node_spec_faults (Some (view object.now)))) }
{
    let fault = node_spec_fault(alloc, inner(Some(object), "spec"))?;
    in_field(alloc, "spec", fault)
}

/// The fault of a node.
#[tactic(auto, using(json_fields::specs::FaultLaws::least_append), unfolding(crate::specs::Nodes::node_faults))]
pub fn node_fault(alloc: Global, object: &Value) -> Result<Option<ReadRefusal>, NoMemory>
    ensures { IfOk result (λ f. f ≡ least (node_faults (view object.now))) }
{
    let named = named_fault(alloc, object)?;
    let spec = node_spec_field_fault(alloc, object)?;
    Ok(earlier(named, spec))
}

#[tactic(auto, unfolding(crate::specs::Nodes::node_cidr))]
fn node_cidr(texts: &[Text]) -> Prefix
    ensures value { result ≡ node_cidr texts.now }
    ensures kept { IsNodeBlock result.base result.len }
{
    let none = Prefix {
        base: Addr::V4(0),
        len: 8,
    };
    match first_four(texts) {
        Some(text) => match node_block(text.as_slice()) {
            Some(block) => block,
            None => none,
        },
        None => none,
    }
}

#[tactic(auto, unfolding(crate::specs::Nodes::node_cidr6))]
fn node_cidr6(texts: &[Text]) -> Option<Prefix>
    ensures value { result ≡ node_cidr6 texts.now }
    ensures kept { ForSome result (λ b. IsNodeBlock6 b.base b.len) }
{
    match first_six(texts) {
        Some(text) => node_block6(text.as_slice()),
        None => None,
    }
}

/// The node that an object is.
#[tactic(auto, unfolding(crate::specs::Nodes::node_value))]
pub fn node_value(alloc: Global, object: &Value) -> Result<NodeInfo, NoMemory>
    ensures { IfOk result (λ (n : _). n ≡ node_value (view object.now)) }
{
    let name = name_of(alloc, object)?;
    let texts = cidr_texts(alloc, spec_of(object))?;
    let cidr = node_cidr(texts.as_slice());
    let cidr6 = node_cidr6(texts.as_slice());
    Ok(NodeInfo { name, cidr, cidr6 })
}

// ---- namespaces

/// The fault of a namespace.
#[tactic(auto, using(json_fields::specs::FaultLaws::least_at), unfolding(crate::specs::Nodes::namespace_faults, json_fields::specs::Shapes::in_field))]
pub fn namespace_fault(alloc: Global, object: &Value) -> Result<Option<ReadRefusal>, NoMemory>
    ensures { IfOk result (λ f. f ≡ least (namespace_faults (view object.now))) }
{
    let fault = metadata_fault(
        alloc,
        NameForm::NamespaceName,
        inner(Some(object), "metadata"),
    )?;
    in_field(alloc, "metadata", fault)
}

/// The name of a namespace.
#[tactic(auto, unfolding(crate::specs::Nodes::namespace_name))]
pub fn namespace_name(alloc: Global, object: &Value) -> Result<Text, NoMemory>
    ensures { IfOk result (λ (t : List _). t ≡ namespace_name (view object.now)) }
{
    name_value(
        alloc,
        NameForm::NamespaceName,
        inner(metadata_of(object), "name"),
    )
}

/// The namespace that an object is.
#[tactic(auto, unfolding(crate::specs::Nodes::namespace_value))]
pub fn namespace_value(alloc: Global, object: &Value) -> Result<Namespace, NoMemory>
    ensures { IfOk result (λ (n : _). n ≡ namespace_value (view object.now)) }
{
    let name = namespace_name(alloc, object)?;
    let labels = labels_value(alloc, inner(metadata_of(object), "labels"))?;
    Ok(Namespace { name, labels })
}

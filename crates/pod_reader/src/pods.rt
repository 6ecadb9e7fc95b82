//! Reading pods.
ghost use Rattle.std.specs.Prelude.{◌≡◌, ◌++◌, ◌∷◌, [], List, IfOk, IfSome, Some, map, option_map, option_copied, option_to_list, option_and_then, find, codes};
ghost use Rattle.serde_json.specs.View.{view};
ghost use Rattle.json_fields.specs.Faults.{least};
ghost use Rattle.json_fields.specs.Shapes.{in_field};
ghost use Rattle.json_fields.specs.Fields.{inner};
ghost use Rattle.json_fields.specs.Shapes.{text_value};
ghost use Rattle.object_reader.specs.Nodes.{spec_of};
ghost use Rattle.object_reader.specs.Texts.{four_of, six_of, has_colon};
ghost use Rattle.pod_reader.specs.Containers.{containers_faults, pod_ports};
ghost use Rattle.pod_reader.specs.Pods.{pod_metadata_faults, node_name_faults, host_network_faults, pod_spec_faults, status_of, phase_faults, pod_ip_faults, ip_faults, pod_ips_faults, ip_of, ip_texts, is_four_text, bad_unless, addresses_faults, pod_status_faults, pod_addresses, is_ended, pod_faults, pod_key, pod_node, is_on_host, has_ended, addresses_of, pod_labels, pod_value};

use crate::containers::{containers_fault, pod_ports};
use cl_types::{Addr, List, NamedPort, NoMemory, PodKey, Text};
use cluster_types::Pod;
use json_fields::{
    NameForm, ReadRefusal, Reading, earlier, in_field, inner, items_in, labels_value,
    list_field_fault, name_value, namespace_value, namespaced_fault, object_fault, text_copy,
    text_field_fault, text_or_empty, truth_field_fault, truth_in,
};
use label_select::Labels;
use object_reader::{four_of, has_colon, metadata_of, six_of, spec_of};
use serde_json::Value;
use std::alloc::Global;

// ---- metadata and spec

#[tactic(auto, using(json_fields::specs::FaultLaws::least_at), unfolding(crate::specs::Pods::pod_metadata_faults, json_fields::specs::Shapes::in_field))]
fn pod_metadata_fault(alloc: Global, object: &Value) -> Result<Option<ReadRefusal>, NoMemory>
    ensures { IfOk result (λ f. f ≡ least (pod_metadata_faults (view object.now))) }
{
    let fault = namespaced_fault(alloc, inner(Some(object), "metadata"))?;
    in_field(alloc, "metadata", fault)
}

#[tactic(auto, unfolding(crate::specs::Pods::node_name_faults))]
fn node_name_fault(alloc: Global, spec: Option<&Value>) -> Result<Option<ReadRefusal>, NoMemory>
    ensures { IfOk result (λ f. f ≡ least (node_name_faults (option_map (λ v. view v.now) spec.entry))) }
{
    text_field_fault(alloc, "nodeName", spec)
}

#[tactic(auto, unfolding(crate::specs::Pods::host_network_faults))]
fn host_network_fault(alloc: Global, spec: Option<&Value>) -> Result<Option<ReadRefusal>, NoMemory>
    ensures { IfOk result (λ f. f ≡ least (host_network_faults (option_map (λ v. view v.now) spec.entry))) }
{
    truth_field_fault(alloc, "hostNetwork", spec)
}

#[tactic(auto, using(json_fields::specs::FaultLaws::least_append), unfolding(crate::specs::Pods::pod_spec_faults))]
fn pod_spec_fault(alloc: Global, spec: Option<&Value>) -> Result<Option<ReadRefusal>, NoMemory>
    ensures { IfOk result (λ f. f ≡ least (pod_spec_faults (option_map (λ v. view v.now) spec.entry))) }
{
    let node = node_name_fault(alloc, spec)?;
    let host = host_network_fault(alloc, spec)?;
    Ok(earlier(earlier(object_fault(alloc, spec), node), host))
}

// ---- status

#[tactic(auto, unfolding(crate::specs::Pods::phase_faults))]
fn phase_fault(alloc: Global, status: Option<&Value>) -> Result<Option<ReadRefusal>, NoMemory>
    ensures { IfOk result (λ f. f ≡ least (phase_faults (option_map (λ v. view v.now) status.entry))) }
{
    text_field_fault(alloc, "phase", status)
}

#[tactic(auto, unfolding(crate::specs::Pods::pod_ip_faults))]
fn pod_ip_fault(alloc: Global, status: Option<&Value>) -> Result<Option<ReadRefusal>, NoMemory>
    ensures { IfOk result (λ f. f ≡ least (pod_ip_faults (option_map (λ v. view v.now) status.entry))) }
{
    text_field_fault(alloc, "podIP", status)
}

// An entry of `podIPs`.
struct PodIp;

impl Reading for PodIp {
    type Item = Text;

    ghost faults = { λ _. ip_faults };

    ghost meaning = { λ _. ip_of };

    #[tactic(auto, using(json_fields::specs::FaultLaws::least_append), unfolding(crate::specs::Pods::ip_faults))]
    fn fault(&self, alloc: Global, value: &Value) -> Result<Option<ReadRefusal>, NoMemory> {
        let text = text_field_fault(alloc, "ip", Some(value))?;
        Ok(earlier(object_fault(alloc, Some(value)), text))
    }

    #[tactic(auto, unfolding(crate::specs::Pods::ip_of))]
    fn read(&self, alloc: Global, value: &Value) -> Result<Text, NoMemory> {
        text_copy(alloc, inner(Some(value), "ip"))
    }
}

#[tactic(auto, unfolding(crate::specs::Pods::pod_ips_faults))]
fn pod_ips_fault(alloc: Global, status: Option<&Value>) -> Result<Option<ReadRefusal>, NoMemory>
    ensures { IfOk result (λ f. f ≡ least (pod_ips_faults (option_map (λ v. view v.now) status.entry))) }
{
    list_field_fault(alloc, &PodIp, "podIPs", status)
}

fn add_ips(alloc: Global, mut texts: Vec<Text>, items: &[Value]) -> Result<Vec<Text>, NoMemory>
    ensures { IfOk result (λ v. v.items ≡ texts.items ++ map ip_of (map view items.now)) }
{
    for item in items {
        texts.push(PodIp.read(alloc, item)?)?;
    }
    Ok(texts)
}

fn first_ip(alloc: Global, status: Option<&Value>) -> Result<Vec<Text>, NoMemory>
    ensures { IfOk result (λ v. v.items ≡ text_value (inner (codes "podIP") (option_map (λ v. view v.now) status.entry)) ∷ []) }
{
    let mut texts = Vec::with_capacity(alloc, 1)?;
    texts.push(text_copy(alloc, inner(status, "podIP"))?)?;
    Ok(texts)
}

#[tactic(auto, unfolding(crate::specs::Pods::ip_texts))]
fn ip_texts(alloc: Global, status: Option<&Value>) -> Result<Vec<Text>, NoMemory>
    ensures { IfOk result (λ v. v.items ≡ ip_texts (option_map (λ v. view v.now) status.entry)) }
{
    let first = first_ip(alloc, status)?;
    add_ips(alloc, first, items_in(inner(status, "podIPs")))
}

fn is_four_text(text: &[u8]) -> bool
    ensures { result ≡ is_four_text text.now }
{
    !(text.len() == 0) && !has_colon(text)
}

fn first_four(texts: &[Text]) -> Option<&Text>
    ensures { option_copied result ≡ find is_four_text texts.now }
{
    for text in texts {
        if is_four_text(text.as_slice()) {
            return Some(text);
        }
    }
    None
}

fn first_six(texts: &[Text]) -> Option<&Text>
    ensures { option_copied result ≡ find has_colon texts.now }
{
    for text in texts {
        if has_colon(text.as_slice()) {
            return Some(text);
        }
    }
    None
}

#[tactic(auto, unfolding(json_fields::specs::Faults::least, json_fields::specs::Faults::earlier))]
fn four_fault(text: Option<&Text>) -> Option<ReadRefusal>
    ensures { result ≡ least (bad_unless (option_copied text.entry) four_of) }
{
    let Some(text) = text else {
        return None;
    };
    match four_of(text.as_slice()) {
        Some(_) => None,
        None => Some(ReadRefusal::BadAddr),
    }
}

#[tactic(auto, unfolding(json_fields::specs::Faults::least, json_fields::specs::Faults::earlier))]
fn six_fault(text: Option<&Text>) -> Option<ReadRefusal>
    ensures { result ≡ least (bad_unless (option_copied text.entry) six_of) }
{
    let Some(text) = text else {
        return None;
    };
    match six_of(text.as_slice()) {
        Some(_) => None,
        None => Some(ReadRefusal::BadAddr),
    }
}

#[tactic(auto, using(json_fields::specs::FaultLaws::least_append), unfolding(crate::specs::Pods::addresses_faults))]
fn addresses_fault(texts: &[Text]) -> Option<ReadRefusal>
    ensures { result ≡ least (addresses_faults texts.now) }
{
    earlier(four_fault(first_four(texts)), six_fault(first_six(texts)))
}

fn texts_fault(alloc: Global, status: Option<&Value>) -> Result<Option<ReadRefusal>, NoMemory>
    ensures { IfOk result (λ f. f ≡ least (addresses_faults (ip_texts (option_map (λ v. view v.now) status.entry)))) }
{
    let texts = ip_texts(alloc, status)?;
    Ok(addresses_fault(texts.as_slice()))
}

#[tactic(auto, using(json_fields::specs::FaultLaws::least_append), unfolding(crate::specs::Pods::pod_status_faults))]
fn pod_status_fault(alloc: Global, status: Option<&Value>) -> Result<Option<ReadRefusal>, NoMemory>
    ensures { IfOk result (λ f. f ≡ least (pod_status_faults (option_map (λ v. view v.now) status.entry))) }
{
    let phase = phase_fault(alloc, status)?;
    let one = pod_ip_fault(alloc, status)?;
    let more = pod_ips_fault(alloc, status)?;
    let texts = texts_fault(alloc, status)?;
    let kinds = earlier(
        earlier(earlier(object_fault(alloc, status), phase), one),
        more,
    );
    Ok(earlier(kinds, texts))
}

// ---- pods

#[tactic(auto, using(json_fields::specs::FaultLaws::least_at), unfolding(json_fields::specs::Shapes::in_field))]
fn pod_spec_field_fault(alloc: Global, object: &Value) -> Result<Option<ReadRefusal>, NoMemory>
    ensures { IfOk result (λ f. f ≡ least (in_field (codes "spec") pod_spec_faults (Some (view object.now)))) }
{
    let fault = pod_spec_fault(alloc, inner(Some(object), "spec"))?;
    in_field(alloc, "spec", fault)
}

#[tactic(auto, using(json_fields::specs::FaultLaws::least_at), unfolding(json_fields::specs::Shapes::in_field))]
fn pod_status_field_fault(alloc: Global, object: &Value) -> Result<Option<ReadRefusal>, NoMemory>
    ensures { IfOk result (λ f. f ≡ least (in_field (codes "status") pod_status_faults (Some (view object.now)))) }
{
    let fault = pod_status_fault(alloc, inner(Some(object), "status"))?;
    in_field(alloc, "status", fault)
}

#[tactic(auto, using(json_fields::specs::FaultLaws::least_at), unfolding(json_fields::specs::Shapes::in_field))]
fn containers_field_fault(alloc: Global, object: &Value) -> Result<Option<ReadRefusal>, NoMemory>
    ensures { IfOk result (λ f. f ≡ least (in_field (codes "spec") containers_faults (Some (view object.now)))) }
{
    let fault = containers_fault(alloc, inner(Some(object), "spec"))?;
    in_field(alloc, "spec", fault)
}

/// The fault of a pod.
#[tactic(auto, using(json_fields::specs::FaultLaws::least_append), unfolding(crate::specs::Pods::pod_faults))]
pub fn pod_fault(alloc: Global, object: &Value) -> Result<Option<ReadRefusal>, NoMemory>
    ensures { IfOk result (λ f. f ≡ least (pod_faults (view object.now))) }
{
    let named = pod_metadata_fault(alloc, object)?;
    let spec = pod_spec_field_fault(alloc, object)?;
    let status = pod_status_field_fault(alloc, object)?;
    let containers = containers_field_fault(alloc, object)?;
    Ok(earlier(earlier(earlier(named, spec), status), containers))
}

#[tactic(auto, unfolding(crate::specs::Pods::status_of))]
fn status_of(object: &Value) -> Option<&Value>
    ensures { option_map (λ v. view v.now) result ≡ status_of (view object.now) }
{
    inner(Some(object), "status")
}

/// The key of a pod.
#[tactic(auto, unfolding(crate::specs::Pods::pod_key))]
pub fn pod_key(alloc: Global, object: &Value) -> Result<PodKey, NoMemory>
    ensures { IfOk result (λ (k : _). k ≡ pod_key (view object.now)) }
{
    let namespace = namespace_value(alloc, inner(metadata_of(object), "namespace"))?;
    let name = name_value(
        alloc,
        NameForm::ObjectName,
        inner(metadata_of(object), "name"),
    )?;
    Ok(PodKey { namespace, name })
}

#[tactic(auto, unfolding(crate::specs::Pods::pod_node))]
fn pod_node(alloc: Global, object: &Value) -> Result<Text, NoMemory>
    ensures { IfOk result (λ (t : List _). t ≡ pod_node (view object.now)) }
{
    text_copy(alloc, inner(spec_of(object), "nodeName"))
}

#[tactic(auto, unfolding(crate::specs::Pods::is_on_host))]
fn is_on_host(object: &Value) -> bool
    ensures { result ≡ is_on_host (view object.now) }
{
    truth_in(inner(spec_of(object), "hostNetwork")).unwrap_or(false)
}

fn is_ended(phase: &[u8]) -> bool
    ensures { result ≡ is_ended phase.now }
{
    phase == b"Succeeded".as_slice() || phase == b"Failed".as_slice()
}

#[tactic(auto, unfolding(crate::specs::Pods::has_ended))]
fn has_ended(object: &Value) -> bool
    ensures { result ≡ has_ended (view object.now) }
{
    is_ended(text_or_empty(inner(status_of(object), "phase")))
}

fn four_address(texts: &[Text]) -> Option<Addr>
    ensures { result ≡ option_and_then four_of (find is_four_text texts.now) }
{
    match first_four(texts) {
        Some(text) => four_of(text.as_slice()),
        None => None,
    }
}

fn six_address(texts: &[Text]) -> Option<Addr>
    ensures { result ≡ option_and_then six_of (find has_colon texts.now) }
{
    match first_six(texts) {
        Some(text) => six_of(text.as_slice()),
        None => None,
    }
}

fn both(alloc: Global, four: Option<Addr>, six: Option<Addr>) -> Result<List<Addr>, NoMemory>
    ensures { IfOk result (λ (l : List _). l ≡ option_to_list four ++ option_to_list six) }
{
    let mut addresses = Vec::with_capacity(alloc, 2)?;
    if let Some(address) = four {
        addresses.push(address)?;
    }
    if let Some(address) = six {
        addresses.push(address)?;
    }
    Ok(List::of(addresses))
}

#[tactic(auto, unfolding(crate::specs::Pods::pod_addresses))]
fn pod_addresses(alloc: Global, texts: &[Text]) -> Result<List<Addr>, NoMemory>
    ensures { IfOk result (λ (l : List _). l ≡ pod_addresses texts.now) }
{
    both(alloc, four_address(texts), six_address(texts))
}

#[tactic(auto, unfolding(crate::specs::Pods::addresses_of))]
fn addresses_of(alloc: Global, object: &Value) -> Result<List<Addr>, NoMemory>
    ensures value { IfOk result (λ (l : List _). l ≡ addresses_of (view object.now)) }
{
    let texts = ip_texts(alloc, status_of(object))?;
    pod_addresses(alloc, texts.as_slice())
}

#[tactic(auto, unfolding(crate::specs::Pods::pod_labels))]
fn pod_labels(alloc: Global, object: &Value) -> Result<Labels, NoMemory>
    ensures { IfOk result (λ (l : List _). l ≡ pod_labels (view object.now)) }
{
    labels_value(alloc, inner(metadata_of(object), "labels"))
}

fn pod_with(
    key: PodKey,
    node: Text,
    addresses: List<Addr>,
    labels: Labels,
    ports: List<NamedPort>,
    object: &Value,
) -> Pod
    requires addresses { addresses ≡ addresses_of (view object.now) }
    requires ports { ports ≡ pod_ports (spec_of (view object.now)) }
    ensures { result ≡ record { key = key; node = node; addresses = addresses; host = is_on_host (view object.now); ended = has_ended (view object.now); labels = labels; ports = ports } }
{
    Pod {
        key,
        node,
        addresses,
        host: is_on_host(object),
        ended: has_ended(object),
        labels,
        ports,
    }
}

/// The pod that an object is.
#[tactic(auto, unfolding(crate::specs::Pods::pod_value))]
pub fn pod_value(alloc: Global, object: &Value) -> Result<Pod, NoMemory>
    ensures { IfOk result (λ (p : _). p ≡ pod_value (view object.now)) }
{
    let key = pod_key(alloc, object)?;
    let node = pod_node(alloc, object)?;
    let addresses = addresses_of(alloc, object)?;
    let labels = pod_labels(alloc, object)?;
    let ports = pod_ports(alloc, spec_of(object))?;
    Ok(pod_with(key, node, addresses, labels, ports, object))
}

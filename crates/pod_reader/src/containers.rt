//! Reading the ports that containers name.
ghost use Rattle.std.specs.Prelude.{◌≡◌, ◌++◌, List, IfOk, map, option_map};
ghost use Rattle.serde_json.specs.View.{view};
ghost use Rattle.json_fields.specs.Faults.{least};
ghost use Rattle.json_fields.specs.Shapes.{unless};
ghost use Rattle.json_fields.specs.declared.refusal.ReadRefusal.TheVariants.{BadPort};
ghost use Rattle.pod_reader.specs.Containers.{where_port_name, entry_name, entry_number, named, named_port, has_name, is_entry, entry_faults, entries_faults, container_faults, containers_faults, entries_of, ports_among, ports_in, named_ports, pod_ports};

use crate::entries::sorted_ports;
use cl_types::{List, NamedPort, NoMemory, Proto, Text};
use json_fields::{
    ReadRefusal, Reading, earlier, inner, items_in, list_field_fault, number_within, object_fault,
    text_in,
};
use policy_parts::{is_port_name, protocol_of};
use serde_json::Value;
use std::alloc::Global;

// The greatest port.
const LAST_PORT: u64 = 65535;

// ---- one entry

fn where_port_name(text: &[u8]) -> Option<&[u8]>
    ensures { option_map (λ s. s.now) result ≡ where_port_name text.now }
{
    if is_port_name(text) { Some(text) } else { None }
}

#[tactic(auto, unfolding(crate::specs::Containers::entry_name))]
fn entry_name(entry: &Value) -> Option<&[u8]>
    ensures { option_map (λ s. s.now) result ≡ entry_name (view entry.now) }
{
    match text_in(inner(Some(entry), "name")) {
        Some(text) => where_port_name(text.as_bytes()),
        None => None,
    }
}

#[tactic(auto, unfolding(crate::specs::Containers::entry_number, json_fields::specs::Shapes::number_within))]
fn entry_number(entry: &Value) -> Option<u16>
    ensures { result ≡ entry_number (view entry.now) }
{
    match number_within(1, LAST_PORT, inner(Some(entry), "containerPort")) {
        Some(number) => u16::try_from(number).ok(),
        None => None,
    }
}

fn named(
    alloc: Global,
    name: Option<&[u8]>,
    proto: Option<Proto>,
    port: Option<u16>,
) -> Result<Option<NamedPort>, NoMemory>
    ensures { IfOk result (λ p. p ≡ named (option_map (λ s. s.now) name.entry) proto port) }
{
    let (Some(name), Some(proto), Some(port)) = (name, proto, port) else {
        return Ok(None);
    };
    let name = Text::of(Vec::from_slice(alloc, name)?);
    Ok(Some(NamedPort { name, proto, port }))
}

#[tactic(auto, unfolding(crate::specs::Containers::named_port))]
fn named_port(alloc: Global, entry: &Value) -> Result<Option<NamedPort>, NoMemory>
    ensures { IfOk result (λ p. p ≡ named_port (view entry.now)) }
{
    named(
        alloc,
        entry_name(entry),
        protocol_of(entry),
        entry_number(entry),
    )
}

#[tactic(auto, unfolding(crate::specs::Containers::has_name))]
fn has_name(entry: &Value) -> bool
    ensures { result ≡ has_name (view entry.now) }
{
    inner(Some(entry), "name").is_some()
}

#[tactic(auto, unfolding(crate::specs::Containers::is_entry))]
fn is_entry(entry: &Value) -> bool
    ensures { result ≡ is_entry (view entry.now) }
{
    !has_name(entry)
        || (entry_name(entry).is_some()
            && (protocol_of(entry).is_some() && entry_number(entry).is_some()))
}

#[tactic(auto, unfolding(json_fields::specs::Faults::least, json_fields::specs::Faults::earlier))]
fn form_fault(entry: &Value) -> Option<ReadRefusal>
    ensures { result ≡ least (unless (is_entry (view entry.now)) BadPort) }
{
    if is_entry(entry) {
        None
    } else {
        Some(ReadRefusal::BadPort)
    }
}

// An entry of a container's `ports`.
struct ContainerPort;

impl Reading for ContainerPort {
    type Item = Option<NamedPort>;

    ghost faults = { λ _. entry_faults };

    ghost meaning = { λ _. named_port };

    #[tactic(auto, using(json_fields::specs::FaultLaws::least_append), unfolding(crate::specs::Containers::entry_faults))]
    fn fault(&self, alloc: Global, value: &Value) -> Result<Option<ReadRefusal>, NoMemory> {
        Ok(earlier(object_fault(alloc, Some(value)), form_fault(value)))
    }

    fn read(&self, alloc: Global, value: &Value) -> Result<Option<NamedPort>, NoMemory> {
        named_port(alloc, value)
    }
}

// ---- containers

#[tactic(auto, unfolding(crate::specs::Containers::entries_faults))]
fn entries_fault(alloc: Global, container: &Value) -> Result<Option<ReadRefusal>, NoMemory>
    ensures { IfOk result (λ f. f ≡ least (entries_faults (view container.now))) }
{
    list_field_fault(alloc, &ContainerPort, "ports", Some(container))
}

#[tactic(auto, unfolding(crate::specs::Containers::entries_of))]
fn entries_of(container: &Value) -> &[Value]
    ensures { map view result.now ≡ entries_of (view container.now) }
{
    items_in(inner(Some(container), "ports"))
}

fn add_ports(
    alloc: Global,
    mut ports: Vec<NamedPort>,
    entries: &[Value],
) -> Result<Vec<NamedPort>, NoMemory>
    ensures { IfOk result (λ v. v.items ≡ ports.items ++ ports_among (map view entries.now)) }
{
    for entry in entries {
        if let Some(port) = named_port(alloc, entry)? {
            ports.push(port)?;
        }
    }
    Ok(ports)
}

fn ports_in(alloc: Global, containers: &[Value]) -> Result<Vec<NamedPort>, NoMemory>
    ensures { IfOk result (λ v. v.items ≡ ports_in (map view containers.now)) }
{
    let mut ports = Vec::new(alloc);
    for container in containers {
        ports = add_ports(alloc, ports, entries_of(container))?;
    }
    Ok(ports)
}

// A container.
struct Container;

impl Reading for Container {
    type Item = List<NamedPort>;

    ghost faults = { λ _. container_faults };

    ghost meaning = { λ _ d. ports_among (entries_of d) };

    #[tactic(auto, using(json_fields::specs::FaultLaws::least_append), unfolding(crate::specs::Containers::container_faults))]
    fn fault(&self, alloc: Global, value: &Value) -> Result<Option<ReadRefusal>, NoMemory> {
        let ports = entries_fault(alloc, value)?;
        Ok(earlier(object_fault(alloc, Some(value)), ports))
    }

    fn read(&self, alloc: Global, value: &Value) -> Result<List<NamedPort>, NoMemory> {
        Ok(List::of(add_ports(alloc, Vec::new(alloc), entries_of(value))?))
    }
}

/// The fault of a pod's containers.
#[tactic(auto, unfolding(crate::specs::Containers::containers_faults))]
pub(crate) fn containers_fault(
    alloc: Global,
    spec: Option<&Value>,
) -> Result<Option<ReadRefusal>, NoMemory>
    ensures { IfOk result (λ f. f ≡ least (containers_faults (option_map (λ v. view v.now) spec.entry))) }
{
    list_field_fault(alloc, &Container, "containers", spec)
}

#[tactic(auto, unfolding(crate::specs::Containers::named_ports))]
fn named_ports(alloc: Global, spec: Option<&Value>) -> Result<Vec<NamedPort>, NoMemory>
    ensures { IfOk result (λ v. v.items ≡ named_ports (option_map (λ v. view v.now) spec.entry)) }
{
    ports_in(alloc, items_in(inner(spec, "containers")))
}

/// The ports that a pod's containers name.
#[tactic(auto, unfolding(crate::specs::Containers::pod_ports))]
pub(crate) fn pod_ports(alloc: Global, spec: Option<&Value>) -> Result<List<NamedPort>, NoMemory>
    ensures { IfOk result (λ (l : List _). l ≡ pod_ports (option_map (λ v. view v.now) spec.entry)) }
{
    let ports = named_ports(alloc, spec)?;
    sorted_ports(alloc, ports)
}

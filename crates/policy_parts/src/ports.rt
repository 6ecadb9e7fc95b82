//! Reading the ports of a rule: by number, by range and by name.
ghost use Rattle.std.specs.Prelude.{◌≡◌, List, IfOk, map, option_map};
ghost use Rattle.std.specs.List.{filter_map};
ghost use Rattle.serde_json.specs.View.{view};
ghost use Rattle.json_fields.specs.Faults.{least};
ghost use Rattle.policy_parts.specs.Ports.{protocol_named, protocol_in, protocol_of, is_port_name, has_letter, port_number, service_to, service_with, service_for, service_of, name_from, name_with, port_name_of, is_port, port_form_faults, port_names_faults, port_faults, ports_faults, port_items, services_value, names_value};

use cl_types::{List, NoMemory, PortName, Proto, Service, Text};
use json_fields::{
    ReadRefusal, Reading, earlier, inner, items_in, list_field_fault, number_within, object_fault,
    other_fault, text_in,
};
use label_select::is_namespace_name;
use serde_json::Value;
use std::alloc::Global;

// How many bytes the name of a port has at most.
const LONGEST_PORT_NAME: usize = 15;

// The greatest port.
const LAST_PORT: u64 = 65535;

fn protocol_named(text: &[u8]) -> Option<Proto>
    ensures { result ≡ protocol_named text.now }
{
    if text == b"TCP".as_slice() {
        Some(Proto::Tcp)
    } else if text == b"UDP".as_slice() {
        Some(Proto::Udp)
    } else if text == b"SCTP".as_slice() {
        Some(Proto::Sctp)
    } else {
        None
    }
}

fn protocol_in(value: Option<&Value>) -> Option<Proto>
    ensures { result ≡ protocol_in (option_map (λ v. view v.now) value.entry) }
{
    let Some(value) = value else {
        return Some(Proto::Tcp);
    };
    match value.as_str() {
        Some(text) => protocol_named(text.as_bytes()),
        None => None,
    }
}

#[tactic(auto, unfolding(crate::specs::Ports::protocol_of))]
fn protocol_of(entry: &Value) -> Option<Proto>
    ensures { result ≡ protocol_of (view entry.now) }
{
    protocol_in(inner(Some(entry), "protocol"))
}

fn has_letter(text: &[u8]) -> bool
    ensures { result ≡ has_letter text.now }
{
    text.iter().any(|b| b.is_ascii_lowercase())
}

#[tactic(auto, unfolding(crate::specs::Ports::is_port_name))]
fn is_port_name(text: &[u8]) -> bool
    ensures { result ≡ is_port_name text.now }
{
    text.len() <= LONGEST_PORT_NAME && (is_namespace_name(text) && has_letter(text))
}

// ---- one entry

#[tactic(auto, unfolding(crate::specs::Ports::port_number, json_fields::specs::Shapes::number_within))]
fn port_number(lo: u16, value: &Value) -> Option<u16>
    ensures { result ≡ port_number lo (view value.now) }
{
    match number_within(u64::from(lo), LAST_PORT, Some(value)) {
        Some(number) => u16::try_from(number).ok(),
        None => None,
    }
}

#[tactic(auto, unfolding(crate::specs::Ports::port_number, json_fields::specs::Shapes::number_within))]
fn service_to(proto: Proto, lo: u16, last: Option<&Value>) -> Option<Service>
    ensures { result ≡ service_to proto lo (option_map (λ v. view v.now) last.entry) }
{
    let Some(last) = last else {
        return Some(Service { proto, lo, hi: lo });
    };
    match port_number(lo, last) {
        Some(hi) => Some(Service { proto, lo, hi }),
        None => None,
    }
}

fn service_with(proto: Proto, port: Option<&Value>, last: Option<&Value>) -> Option<Service>
    ensures { result ≡ service_with proto (option_map (λ v. view v.now) port.entry) (option_map (λ v. view v.now) last.entry) }
{
    match port {
        Some(port) => match port_number(1, port) {
            Some(lo) => service_to(proto, lo, last),
            None => None,
        },
        None => match last {
            Some(_) => None,
            None => Some(Service {
                proto,
                lo: 0,
                hi: 65535,
            }),
        },
    }
}

#[tactic(auto, unfolding(crate::specs::Ports::service_for))]
fn service_for(proto: Proto, entry: &Value) -> Option<Service>
    ensures { result ≡ service_for proto (view entry.now) }
{
    service_with(
        proto,
        inner(Some(entry), "port"),
        inner(Some(entry), "endPort"),
    )
}

#[tactic(auto, unfolding(crate::specs::Ports::service_of))]
fn service_of(entry: &Value) -> Option<Service>
    ensures { result ≡ service_of (view entry.now) }
{
    service_for(protocol_of(entry)?, entry)
}

fn name_with<'v>(port: Option<&'v str>, last: Option<&Value>) -> Option<&'v str>
    ensures { option_map (λ s. s.now) result ≡ name_with (option_map (λ s. s.now) port.entry) (option_map (λ v. view v.now) last.entry) }
{
    let name = port?;
    if is_port_name(name.as_bytes()) && last.is_none() {
        Some(name)
    } else {
        None
    }
}

#[tactic(auto, unfolding(crate::specs::Ports::name_from))]
fn name_from(entry: &Value) -> Option<&str>
    ensures { option_map (λ s. s.now) result ≡ name_from (view entry.now) }
{
    name_with(
        text_in(inner(Some(entry), "port")),
        inner(Some(entry), "endPort"),
    )
}

#[tactic(auto, unfolding(crate::specs::Ports::port_name_of))]
fn port_name_of(alloc: Global, entry: &Value) -> Result<Option<PortName>, NoMemory>
    ensures { IfOk result (λ (o : _). o ≡ port_name_of (view entry.now)) }
{
    let Some(proto) = protocol_of(entry) else {
        return Ok(None);
    };
    match name_from(entry) {
        Some(name) => {
            let name = Text::of(Vec::from_slice(alloc, name.as_bytes())?);
            Ok(Some(PortName { name, proto }))
        }
        None => Ok(None),
    }
}

// Whether an entry says which ports it means.
#[tactic(auto, unfolding(crate::specs::Ports::is_port))]
fn is_port(entry: &Value) -> bool
    ensures { result ≡ is_port (view entry.now) }
{
    service_of(entry).is_some() || (protocol_of(entry).is_some() && name_from(entry).is_some())
}

#[tactic(auto, unfolding(crate::specs::Ports::port_form_faults, json_fields::specs::Faults::least, json_fields::specs::Faults::earlier))]
fn port_form_fault(entry: &Value) -> Option<ReadRefusal>
    ensures { result ≡ least (port_form_faults (view entry.now)) }
{
    if is_port(entry) {
        None
    } else {
        Some(ReadRefusal::BadPort)
    }
}

#[tactic(auto, unfolding(crate::specs::Ports::port_names_faults))]
fn port_names_fault(alloc: Global, entry: &Value) -> Result<Option<ReadRefusal>, NoMemory>
    ensures { IfOk result (λ f. f ≡ least (port_names_faults (view entry.now))) }
{
    other_fault(
        alloc,
        ["protocol", "port", "endPort"].as_slice(),
        Some(entry),
    )
}

#[tactic(auto, using(json_fields::specs::FaultLaws::least_append), unfolding(crate::specs::Ports::port_faults))]
fn port_fault(alloc: Global, entry: &Value) -> Result<Option<ReadRefusal>, NoMemory>
    ensures { IfOk result (λ f. f ≡ least (port_faults (view entry.now))) }
{
    let other = port_names_fault(alloc, entry)?;
    Ok(earlier(
        earlier(object_fault(alloc, Some(entry)), other),
        port_form_fault(entry),
    ))
}

// An entry of a rule's ports.
struct PortEntry;

impl Reading for PortEntry {
    type Item = Option<Service>;

    ghost faults = { λ _. port_faults };

    ghost meaning = { λ _. service_of };

    fn fault(&self, alloc: Global, value: &Value) -> Result<Option<ReadRefusal>, NoMemory> {
        port_fault(alloc, value)
    }

    fn read(&self, _alloc: Global, value: &Value) -> Result<Option<Service>, NoMemory> {
        Ok(service_of(value))
    }
}

// ---- the ports of a rule

/// The fault of a rule's ports.
#[tactic(auto, unfolding(crate::specs::Ports::ports_faults))]
pub fn ports_fault(alloc: Global, rule: &Value) -> Result<Option<ReadRefusal>, NoMemory>
    ensures { IfOk result (λ f. f ≡ least (ports_faults (view rule.now))) }
{
    list_field_fault(alloc, &PortEntry, "ports", Some(rule))
}

#[tactic(auto, unfolding(crate::specs::Ports::port_items))]
fn port_items(rule: &Value) -> &[Value]
    ensures { map view result.now ≡ port_items (view rule.now) }
{
    items_in(inner(Some(rule), "ports"))
}

fn services_among(alloc: Global, items: &[Value]) -> Result<List<Service>, NoMemory>
    ensures { IfOk result (λ (l : List _). l ≡ filter_map service_of (map view items.now)) }
{
    let mut services = Vec::new(alloc);
    for item in items {
        if let Some(service) = service_of(item) {
            services.push(service)?;
        }
    }
    Ok(List::of(services))
}

fn names_among(alloc: Global, items: &[Value]) -> Result<List<PortName>, NoMemory>
    ensures { IfOk result (λ (l : List _). l ≡ filter_map port_name_of (map view items.now)) }
{
    let mut names = Vec::new(alloc);
    for item in items {
        if let Some(name) = port_name_of(alloc, item)? {
            names.push(name)?;
        }
    }
    Ok(List::of(names))
}

fn some_services(alloc: Global, items: &[Value]) -> Result<Option<List<Service>>, NoMemory>
    ensures { IfOk result (λ (o : _). o ≡ services_value (map view items.now)) }
{
    match items {
        [] => Ok(None),
        _ => Ok(Some(services_among(alloc, items)?)),
    }
}

/// The ports of a rule that are given by number; none where the rule is for all traffic.
pub fn services_of(alloc: Global, rule: &Value) -> Result<Option<List<Service>>, NoMemory>
    ensures { IfOk result (λ (o : _). o ≡ services_value (port_items (view rule.now))) }
{
    some_services(alloc, port_items(rule))
}

/// The ports of a rule that are given by name.
pub fn names_of(alloc: Global, rule: &Value) -> Result<List<PortName>, NoMemory>
    ensures { IfOk result (λ (l : List _). l ≡ names_value (port_items (view rule.now))) }
{
    names_among(alloc, port_items(rule))
}

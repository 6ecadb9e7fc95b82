//! The words of ports: protocols, and names.
ghost use Rattle.std.specs.Prelude.{◌≡◌, map, option_map};
ghost use Rattle.serde_json.specs.View.{view};
ghost use Rattle.policy_parts.specs.PortWords.{protocol_named, protocol_in, protocol_of, has_letter, is_port_name};

use cl_types::Proto;
use json_fields::inner;
use label_select::is_namespace_name;
use serde_json::Value;

// How many bytes the name of a port has at most.
const LONGEST_PORT_NAME: usize = 15;

fn protocol_named(text: &[u8]) -> Option<Proto>
    ensures { result ≡ protocol_named text.now }
{
    if text == b"TCP".as_slice() {
        Some(Proto::Tcp)
    } else if text == b"UDP".as_slice() {
        Some(Proto::Udp)
    } else if text == b"SCTP".as_slice() {
        Some(Proto::Sctp)
    } else {
        None
    }
}

fn protocol_in(value: Option<&Value>) -> Option<Proto>
    ensures { result ≡ protocol_in (option_map (λ v. view v.now) value.entry) }
{
    let Some(value) = value else {
        return Some(Proto::Tcp);
    };
    match value.as_str() {
        Some(text) => protocol_named(text.as_bytes()),
        None => None,
    }
}

/// The protocol of an entry of ports, TCP where none is given.
#[tactic(auto, unfolding(crate::specs::PortWords::protocol_of))]
pub fn protocol_of(entry: &Value) -> Option<Proto>
    ensures { result ≡ protocol_of (view entry.now) }
{
    protocol_in(inner(Some(entry), "protocol"))
}

fn has_letter(text: &[u8]) -> bool
    ensures { result ≡ has_letter text.now }
{
    text.iter().any(|b| b.is_ascii_lowercase())
}

/// Whether a port can have this name: at most 15 bytes, in the form of a namespace's name, with a letter.
#[tactic(auto, unfolding(crate::specs::PortWords::is_port_name))]
pub fn is_port_name(text: &[u8]) -> bool
    ensures { result ≡ is_port_name text.now }
{
    text.len() <= LONGEST_PORT_NAME && (is_namespace_name(text) && has_letter(text))
}

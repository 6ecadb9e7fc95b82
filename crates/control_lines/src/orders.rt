//! Reading the orders to agents and the questions.
ghost use Rattle.std.specs.Prelude.{◌≡◌};
ghost use Rattle.serde_json.specs.View.{view};
ghost use Rattle.json_fields.specs.Answer.{Gives};
ghost use Rattle.control_lines.specs.Orders.{is_four, same_family, is_pair, has_tunnel, service_at, read_attach, read_detach, read_tick, Ends, ends_at, Traffic, traffic_at, tunnel_at, packet_of, read_packet, read_question};

use crate::needed::{address_at, address_if_there, number_at};
use crate::words::{direction_at, protocol_at};
use cl_types::{Addr, AgentOrder, Packet, Proto, Question};
use json_fields::ReadRefusal;
use serde_json::Value;

/// The port of a tunnel to other nodes. Port 2 is the gateway, and the others are of pods.
const TUNNEL_PORT: u64 = 1;

const FIRST_POD_PORT: u64 = 3;

const LAST_PORT: u64 = 65000;

/// The greatest port number of TCP, UDP and SCTP.
const GREATEST_SERVICE: u64 = 65535;

/// How far one order can move the clock.
const MOST_TICKS: u64 = 1_000_000;

// Where a packet comes from and goes to.
#[derive(Clone, Copy)]
struct Between {
    src: Addr,
    dst: Addr,
}

// The protocol of a packet and its ports.
#[derive(Clone, Copy)]
struct Services {
    proto: Proto,
    sport: u16,
    dport: u16,
}

fn is_four(a: Addr) -> bool
    ensures { result ≡ is_four a }
{
    match a {
        Addr::V4(_) => true,
        Addr::V6(_) => false,
    }
}

fn same_family(a: Addr, b: Addr) -> bool
    ensures { result ≡ same_family a b }
{
    match (a, b) {
        (Addr::V4(_), Addr::V4(_)) | (Addr::V6(_), Addr::V6(_)) => true,
        _ => false,
    }
}

// A second address is of IPv6, and the first one then of IPv4.
fn is_pair(address: Addr, address6: Option<Addr>) -> bool
    ensures { result ≡ is_pair address address6 }
{
    match (address, address6) {
        (_, None) | (Addr::V4(_), Some(Addr::V6(_))) => true,
        _ => false,
    }
}

// A packet has the address of a tunnel only where it came by the tunnel, and both are of IPv4.
fn has_tunnel(inport: u64, src: Addr, tunnel: Option<Addr>) -> bool
    ensures { result ≡ has_tunnel inport src tunnel }
{
    match tunnel {
        Some(tunnel) => inport == TUNNEL_PORT && is_four(tunnel) && is_four(src),
        None => true,
    }
}

// The port of a service. ICMP has none.
#[tactic(auto, unfolding(crate::specs::Orders::service_at))]
fn service_at(proto: Proto, value: &Value, name: &str) -> Result<u16, ReadRefusal>
    ensures { Gives (λ (n : _). n) result (service_at proto name.now (view value.now)) }
{
    match proto {
        Proto::Icmp => Ok(0),
        _ => Ok(number_at(value, name, 0, GREATEST_SERVICE)? as u16),
    }
}

/// The attachment of a pod to a port.
#[tactic(auto, unfolding(crate::specs::Orders::read_attach))]
pub(crate) fn read_attach(value: &Value) -> Result<AgentOrder, ReadRefusal>
    ensures { Gives (λ (x : _). x) result (read_attach (view value.now)) }
{
    let port = number_at(value, "port", FIRST_POD_PORT, LAST_PORT)? as u16;
    let address = address_at(value, "address")?;
    let address6 = address_if_there(value, "address6")?;
    if !is_pair(address, address6) {
        return Err(ReadRefusal::BadControl);
    }
    Ok(AgentOrder::Attach {
        port,
        address,
        address6,
    })
}

/// The detachment of a port.
#[tactic(auto, unfolding(crate::specs::Orders::read_detach))]
pub(crate) fn read_detach(value: &Value) -> Result<AgentOrder, ReadRefusal>
    ensures { Gives (λ (x : _). x) result (read_detach (view value.now)) }
{
    let port = number_at(value, "port", FIRST_POD_PORT, LAST_PORT)? as u16;
    Ok(AgentOrder::Detach { port })
}

/// A move of the clock.
#[tactic(auto, unfolding(crate::specs::Orders::read_tick))]
pub(crate) fn read_tick(value: &Value) -> Result<AgentOrder, ReadRefusal>
    ensures { Gives (λ (x : _). x) result (read_tick (view value.now)) }
{
    let count = number_at(value, "count", 1, MOST_TICKS)? as u32;
    Ok(AgentOrder::Tick { count })
}

#[tactic(auto, unfolding(crate::specs::Orders::ends_at))]
fn ends_at(value: &Value, from: &str, to: &str) -> Result<Between, ReadRefusal>
    ensures { Gives (λ b. record { src = b.src; dst = b.dst }) result (ends_at from.now to.now (view value.now)) }
{
    let src = address_at(value, from)?;
    let dst = address_at(value, to)?;
    if !same_family(src, dst) {
        return Err(ReadRefusal::BadControl);
    }
    Ok(Between { src, dst })
}

#[tactic(auto, unfolding(crate::specs::Orders::traffic_at))]
fn traffic_at(value: &Value) -> Result<Services, ReadRefusal>
    ensures { Gives (λ s. record { proto = s.proto; sport = s.sport; dport = s.dport }) result (traffic_at (view value.now)) }
{
    let proto = protocol_at(value)?;
    let sport = service_at(proto, value, "sport")?;
    let dport = service_at(proto, value, "dport")?;
    Ok(Services {
        proto,
        sport,
        dport,
    })
}

#[tactic(auto, unfolding(crate::specs::Orders::tunnel_at))]
fn tunnel_at(inport: u64, src: Addr, value: &Value) -> Result<Option<Addr>, ReadRefusal>
    ensures { Gives (λ (x : _). x) result (tunnel_at inport src (view value.now)) }
{
    let tunnel = address_if_there(value, "tunnel")?;
    if has_tunnel(inport, src, tunnel) {
        Ok(tunnel)
    } else {
        Err(ReadRefusal::BadControl)
    }
}

/// A packet as it arrives at a switch.
#[tactic(auto, unfolding(crate::specs::Orders::read_packet))]
pub(crate) fn read_packet(value: &Value) -> Result<Packet, ReadRefusal>
    ensures { Gives (λ (x : _). x) result (read_packet (view value.now)) }
{
    let inport = number_at(value, "port", TUNNEL_PORT, LAST_PORT)?;
    let ends = ends_at(value, "src", "dst")?;
    let traffic = traffic_at(value)?;
    let tunnel = tunnel_at(inport, ends.src, value)?;
    Ok(Packet {
        inport: inport as u16,
        src: ends.src,
        dst: ends.dst,
        proto: traffic.proto,
        sport: traffic.sport,
        dport: traffic.dport,
        tunnel,
    })
}

/// Traffic whose verdict is asked for.
#[tactic(auto, unfolding(crate::specs::Orders::read_question))]
pub(crate) fn read_question(value: &Value) -> Result<Question, ReadRefusal>
    ensures { Gives (λ (x : _). x) result (read_question (view value.now)) }
{
    let dir = direction_at(value)?;
    let ends = ends_at(value, "own", "peer")?;
    let proto = protocol_at(value)?;
    let port = service_at(proto, value, "port")?;
    Ok(Question {
        dir,
        own: ends.src,
        peer: ends.dst,
        proto,
        port,
    })
}

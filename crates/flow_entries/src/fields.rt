ghost use Rattle.std.proofs.Common.{rules};
ghost use Rattle.std.proofs.lemmas.Grind.{common_steps};
ghost use Rattle.std.specs.Prelude.{◌≡◌, IfOk};
ghost use Rattle.flow_entries.specs.Matching.{no_fields, with_port, port_matches, came_through, ends_match, service_matches, state_matches, matches};

use cl_types::{Addr, Copies, Masked, NoMemory, Packet, Prefix, Proto, Same};
use std::marker::Model;

/// The fields that a packet must match. A mask of 0 and a false truth value are no field: this type has
/// no mask of 0, and `Match::with_port` keeps one as absent. A prefix of length 0 is a field.
#[derive(Clone, Copy, Debug)]
pub struct Match {
    pub in_port: Option<u16>,
    pub src: Option<Prefix>,
    pub dst: Option<Prefix>,
    pub proto: Option<Proto>,
    pub dport: Option<Masked>,
    pub tunnel: Option<Addr>,
    pub known: bool,
    pub skip: bool,
    pub conj: Option<u32>,
}

impl Model for Match {
    ghost use Rattle.flow_entries.specs.Matching.{MatchFields, HasMask};

    ghost Value = { MatchFields };

    ghost view = { λ m. record {
      in_port = m.in_port;
      src = m.src;
      dst = m.dst;
      proto = m.proto;
      dport = m.dport;
      tunnel = m.tunnel;
      known = m.known;
      skip = m.skip;
      conj = m.conj;
    } };

    ghost invariant = { λ m. HasMask m.dport };

    ghost inverse = { λ m. record {
      in_port = m.in_port;
      src = m.src;
      dst = m.dst;
      proto = m.proto;
      dport = m.dport;
      tunnel = m.tunnel;
      known = m.known;
      skip = m.skip;
      conj = m.conj;
    } };
}

impl Match {
    /// No field is given: every packet matches.
    pub fn any() -> Match
        ensures { result ≡ no_fields }
    {
        Match {
            in_port: None,
            src: None,
            dst: None,
            proto: None,
            dport: None,
            tunnel: None,
            known: false,
            skip: false,
            conj: None,
        }
    }

    /// The same fields and this destination port. A mask of 0 is kept as absent.
    pub fn with_port(self, port: Masked) -> Match
        ensures { result ≡ with_port port self }
    {
        Match {
            dport: if port.mask == 0 { None } else { Some(port) },
            ..self
        }
    }

    /// Whether each given field but `conj` matches. `known` says that the packet's connection is known, and
    /// `skip` that the walk skips policy.
    pub fn matches(&self, p: &Packet, known: bool, skip: bool) -> bool
        ensures { result ≡ matches self.now p.now known skip }
    {
        ends_match(self, p) && service_matches(self, p) && state_matches(self, known, skip)
    }
}

impl Copies for Match {
    ghost exact = { λ x y h. Prim.search (rules, common_steps) };
}

fn port_matches(masked: Masked, port: u16) -> bool
    ensures { result ≡ port_matches masked port }
{
    port & masked.mask == masked.value
}

fn came_through(a: Addr, tunnel: Option<Addr>) -> bool
    ensures { result ≡ came_through a tunnel }
{
    match tunnel {
        None => false,
        Some(tunnel) => a.is(tunnel),
    }
}

fn ends_match(m: &Match, p: &Packet) -> bool
    ensures { result ≡ ends_match m.now p.now }
{
    m.in_port.is_none_or(|port| port == p.inport)
        && m.src.is_none_or(|block| block.holds(p.src))
        && m.dst.is_none_or(|block| block.holds(p.dst))
}

fn service_matches(m: &Match, p: &Packet) -> bool
    ensures { result ≡ service_matches m.now p.now }
{
    m.proto.is_none_or(|proto| proto.is(p.proto))
        && m.dport.is_none_or(|masked| port_matches(masked, p.dport))
        && m.tunnel.is_none_or(|a| came_through(a, p.tunnel))
}

fn state_matches(m: &Match, known: bool, skip: bool) -> bool
    ensures { result ≡ state_matches m.now known skip }
{
    (!m.known || known) && (!m.skip || skip)
}

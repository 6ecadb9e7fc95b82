ghost use Rattle.std.proofs.Common.{rules};
ghost use Rattle.std.proofs.lemmas.Grind.{common_steps};
ghost use Rattle.std.specs.Prelude.{◌≡◌, IfOk};

use crate::copies::Copies;
use crate::memory::NoMemory;
use crate::same::Same;
use crate::text::Text;
use std::marker::Model;

/// The protocol of a packet.
#[derive(Clone, Copy, Debug, PartialEq, Eq, PartialOrd, Ord, Hash)]
pub enum Proto {
    Tcp,
    Udp,
    Sctp,
    Icmp,
}

impl Proto {
    ghost use Rattle.std.specs.Prelude.{◌≡◌};
    ghost use Rattle.cl_types.specs.Proto.{proto_eq};

    /// Whether the two are one protocol.
    pub fn is(self, other: Proto) -> bool
        ensures { result ≡ proto_eq self other }
    {
        self == other
    }
}

/// Destination ports of one protocol, from `lo` to `hi`, both included.
#[derive(Clone, Copy, Debug, PartialEq, Eq)]
pub struct Service {
    pub proto: Proto,
    pub lo: u16,
    pub hi: u16,
}

impl Model for Service {
    ghost use Rattle.std.specs.Prelude.{◌≤◌};
    ghost use Rattle.cl_types.specs.Service.{PortRange};

    ghost Value = { PortRange };

    ghost view = { λ s. record { proto = s.proto; lo = s.lo; hi = s.hi } };

    ghost invariant = { λ s. s.lo ≤ s.hi };

    ghost inverse = { λ s. record { proto = s.proto; lo = s.lo; hi = s.hi } };
}

impl Same for Service {
    fn same(&self, other: &Service) -> bool {
        self.proto == other.proto && self.lo == other.lo && self.hi == other.hi
    }
}

impl Copies for Service {
    ghost exact = { λ x y h. Prim.search (rules, common_steps) };
}

/// A port and the bits of it that count: a port matches where `port & mask == value`.
#[derive(Clone, Copy, Debug, PartialEq, Eq)]
pub struct Masked {
    pub value: u16,
    pub mask: u16,
}

impl Copies for Masked {
    ghost exact = { λ x y h. Prim.search (rules, common_steps) };
}

/// A port by the name that the destination pod's containers give it.
#[derive(Clone, Debug, Drop)]
pub struct PortName {
    pub name: Text,
    pub proto: Proto,
}

impl Copies for PortName {
    ghost exact = { λ x y h. Prim.search (rules, common_steps) };
}

impl Same for PortName {
    fn same(&self, other: &PortName) -> bool {
        self.name.same(&other.name) && self.proto == other.proto
    }
}

/// A container's port with its name.
#[derive(Clone, Debug, Drop)]
pub struct NamedPort {
    pub name: Text,
    pub proto: Proto,
    pub port: u16,
}

impl Copies for NamedPort {
    ghost exact = { λ x y h. Prim.search (rules, common_steps) };
}

impl Same for NamedPort {
    fn same(&self, other: &NamedPort) -> bool {
        self.name.same(&other.name) && self.proto == other.proto && self.port == other.port
    }
}

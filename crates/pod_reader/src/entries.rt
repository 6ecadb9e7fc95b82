//! Named ports in their order.
ghost use Rattle.std.specs.Prelude.{◌≡◌, IfOk, List, refl};
ghost use Rattle.std.specs.Ordering.{as_partial_cmp, eq_by_cmp};
ghost use Rattle.std.specs.Cmp.{partial_order_from_agreeing_total, partial_equiv_from_equiv, eq_by_cmp_equiv};
ghost use Rattle.cl_types.specs.declared.service.NamedPort.{NamedPort as Port};
ghost use Rattle.cl_types.specs.Ascending.{sorted_by};
ghost use Rattle.cluster_types.specs.Pod.{port_order, proto_place};
ghost use Rattle.pod_reader.specs.PortOrder.{port_order_total, in_order};

use cl_types::{Keyed, List, NamedPort, NoMemory, Proto, put};
use std::alloc::Global;
use std::cmp::Ordering;
use std::marker::Model;

// A named port as its own key.
#[derive(Drop)]
struct PortEntry {
    port: NamedPort,
}

impl Model for PortEntry {
    ghost use Rattle.cl_types.specs.declared.service.NamedPort.{NamedPort};

    ghost Value = { NamedPort };

    ghost view = { λ e. e.port };

    ghost inverse = { λ p. record { port = p } };
}

fn place(proto: Proto) -> u8
    ensures { result ≡ proto_place proto }
{
    match proto {
        Proto::Tcp => 0,
        Proto::Udp => 1,
        Proto::Sctp => 2,
        Proto::Icmp => 3,
    }
}

/// By name, then by protocol.
impl Ord for PortEntry {
    ghost cmp = { port_order };

    ghost total = { port_order_total };

    ghost matches_partial_cmp = { λ a b. refl };

    ghost matches_eq = { λ a b. refl };

    fn cmp(&self, other: &PortEntry) -> Ordering {
        self.port
            .name
            .cmp(&other.port.name)
            .then(place(self.port.proto).cmp(&place(other.port.proto)))
    }
}

impl PartialOrd for PortEntry {
    ghost partial_cmp = { as_partial_cmp port_order };

    ghost laws = { partial_order_from_agreeing_total port_order port_order_total (λ a b. refl) (λ a b. refl) };

    fn partial_cmp(&self, other: &PortEntry) -> Option<Ordering> {
        Some(self.cmp(other))
    }
}

impl PartialEq for PortEntry {
    ghost eq = { eq_by_cmp port_order };

    ghost laws = { partial_equiv_from_equiv (eq_by_cmp_equiv port_order_total) };

    fn eq(&self, other: &PortEntry) -> bool {
        self.cmp(other).is_eq()
    }
}

impl Eq for PortEntry {
    ghost laws = { eq_by_cmp_equiv port_order_total };
}

impl Keyed for PortEntry {
    type Key = PortEntry;

    ghost key = { λ p. p };

    fn key(&self) -> &PortEntry {
        self
    }
}

// From the last on, so that of those with one name and protocol the first stays.
fn sorted_entries(alloc: Global, mut ports: Vec<NamedPort>) -> Result<Vec<PortEntry>, NoMemory>
    ensures { IfOk result (λ v. v.items ≡ sorted_by (λ (p : Port). p) port_order ports.items) }
{
    let mut sorted = Vec::new(alloc);
    while let Some(port) = ports.pop() {
        put(&mut sorted, PortEntry { port })?;
    }
    Ok(sorted)
}

/// The ports by name and protocol; of those with the same the first counts.
#[tactic(auto, unfolding(crate::specs::PortOrder::in_order))]
pub(crate) fn sorted_ports(
    alloc: Global,
    ports: Vec<NamedPort>,
) -> Result<List<NamedPort>, NoMemory>
    ensures { IfOk result (λ (l : List _). l ≡ in_order ports.items) }
{
    let entries = sorted_entries(alloc, ports)?;
    let mut sorted = Vec::with_capacity(alloc, entries.len())?;
    for entry in entries {
        sorted.push(entry.port)?;
    }
    Ok(List::of(sorted))
}

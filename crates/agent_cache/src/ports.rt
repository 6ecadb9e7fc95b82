//! The ports that named ports stand for.
ghost use Rattle.std.specs.Prelude.{◌≡◌, ◌++◌, [], filter, map, unwrap_or, IfOk, OnOk};
ghost use Rattle.std.specs.List.{flat_map};
ghost use Rattle.cl_types.specs.Ascending.{sorted_set};
ghost use Rattle.held_maps.specs.Held.{maps_of, map_on};
ghost use Rattle.watch_streams.specs.HeldEvaluation.{held_group};
ghost use Rattle.watch_streams.specs.InForce.{has_name, members_in, port_at, ports_named, resolved_ports};
ghost use Rattle.watch_streams.specs.PartOrders.{resolved_order};

use cl_types::{Addr, List, NamedPort, NoMemory, PortName, Same, Stream};
use held_maps::{Held, resolving_stream};
use label_select::GroupKey;
use std::alloc::Global;
use watch_streams::{HeldMember, NetPolicy, NetRule, Resolved, resolved_order_is_exact, sort_once};

fn has_name(name: &PortName, port: &NamedPort) -> bool
    ensures { result ≡ has_name name.now port.now }
{
    port.name == name.name && port.proto.is(name.proto)
}

fn push_ports(
    out: &mut Vec<Resolved>,
    address: Addr,
    ports: &[NamedPort],
    name: &PortName,
) -> Result<(), NoMemory>
    ensures { OnOk result (out.new.items ≡ out.old.items ++ map (port_at address) (filter (has_name name.now) ports.now)) }
{
    for port in ports {
        if has_name(name, port) {
            out.push(Resolved {
                address,
                proto: port.proto,
                port: port.port,
            })?;
        }
    }
    Ok(())
}

fn push_member(out: &mut Vec<Resolved>, m: &HeldMember, names: &[PortName]) -> Result<(), NoMemory>
    ensures { OnOk result (out.new.items ≡ out.old.items ++ ports_named names.now m.now) }
{
    for name in names {
        push_ports(out, m.address, m.ports.as_slice(), name)?;
    }
    Ok(())
}

fn push_members(
    out: &mut Vec<Resolved>,
    members: &[HeldMember],
    names: &[PortName],
) -> Result<(), NoMemory>
    ensures { OnOk result (out.new.items ≡ out.old.items ++ flat_map (ports_named names.now) members.now) }
{
    for m in members {
        push_member(out, m, names)?;
    }
    Ok(())
}

fn push_group(
    out: &mut Vec<Resolved>,
    held: &Held,
    s: Stream,
    g: &GroupKey,
    names: &[PortName],
) -> Result<(), NoMemory>
    ensures { OnOk result (out.new.items ≡ out.old.items ++ flat_map (ports_named names.now) (unwrap_or (held_group (map_on s (maps_of held.now)) g.now) [])) }
{
    if let Some(members) = held.group(s, g) {
        push_members(out, members.as_slice(), names)?;
    }
    Ok(())
}

fn push_groups(
    out: &mut Vec<Resolved>,
    held: &Held,
    s: Stream,
    groups: &[GroupKey],
    names: &[PortName],
) -> Result<(), NoMemory>
    ensures { OnOk result (out.new.items ≡ out.old.items ++ flat_map (ports_named names.now) (members_in (map_on s (maps_of held.now)) groups.now)) }
{
    for g in groups {
        push_group(out, held, s, g, names)?;
    }
    Ok(())
}

fn sorted_ports(mut ports: Vec<Resolved>) -> Result<List<Resolved>, NoMemory>
    ensures { IfOk result (λ sorted. sorted ≡ sorted_set resolved_order ports.items) }
{
    resolved_order_is_exact();
    sort_once(&mut ports)?;
    Ok(List::of(ports))
}

/// The ports that the rule's named ports stand for.
pub(crate) fn resolved_ports(
    alloc: Global,
    held: &Held,
    policy: &NetPolicy,
    rule: &NetRule,
) -> Result<List<Resolved>, NoMemory>
    ensures { IfOk result (λ ports. ports ≡ resolved_ports (maps_of held.now) policy.now rule.now) }
{
    let s = resolving_stream(rule.key.dir);
    let groups = held.resolving_groups(policy, rule);
    let mut ports = Vec::new(alloc);
    push_groups(&mut ports, held, s, groups, rule.named.as_slice())?;
    sorted_ports(ports)
}

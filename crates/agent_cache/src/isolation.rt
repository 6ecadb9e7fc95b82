//! The addresses that Kubernetes policies isolate.
ghost use Rattle.std.specs.Prelude.{◌≡◌, ◌++◌, ◌&&◌, map, true, IfOk, OnOk};
ghost use Rattle.std.specs.List.{flat_map};
ghost use Rattle.cl_types.specs.Addr.{addr_order};
ghost use Rattle.cl_types.specs.Ascending.{Ascends};
ghost use Rattle.cluster_types.specs.Steps.{is_kube};
ghost use Rattle.held_maps.specs.Held.{maps_of};
ghost use Rattle.watch_streams.specs.declared.rule_changes.IsolationChange.{IsolationChange};
ghost use Rattle.watch_streams.specs.HeldEvaluation.{held_policies};
ghost use Rattle.watch_streams.specs.InForce.{isolated_addresses, isolating_groups, member_address, members_in};
ghost use Rattle.watch_streams.specs.Net.{net_isolates};
ghost use Rattle.watch_streams.specs.RuleChanges.{isolation_changes, isolation_ended, isolations};

use crate::addresses::{push_groups, sorted_addresses};
use crate::differences::{Change, changes_of};
use cl_types::{Addr, Dir, List, NoMemory, Stream};
use cluster_types::is_kube;
use held_maps::Held;
use std::alloc::Global;
use watch_streams::{IsolationChange, NetPolicy};

fn has_direction(policy: &NetPolicy, dir: Dir) -> bool
    ensures { result ≡ net_isolates policy.now dir }
{
    match dir {
        Dir::Ingress => policy.isolates_in,
        Dir::Egress => policy.isolates_out,
    }
}

fn isolates(policy: &NetPolicy, dir: Dir) -> bool
    ensures { result ≡ (is_kube policy.now.key.kind && net_isolates policy.now dir) }
{
    is_kube(policy.key.kind) && has_direction(policy, dir)
}

fn push_isolated(
    out: &mut Vec<Addr>,
    held: &Held,
    policy: &NetPolicy,
    dir: Dir,
) -> Result<(), NoMemory>
    ensures { OnOk result (out.new.items ≡ out.old.items ++ map member_address (members_in (maps_of held.now).applied (isolating_groups dir policy.now))) }
{
    if isolates(policy, dir) {
        push_groups(out, held, Stream::Applied, policy.applied.as_slice())?;
    }
    Ok(())
}

fn push_all_isolated(
    out: &mut Vec<Addr>,
    held: &Held,
    policies: &[NetPolicy],
    dir: Dir,
) -> Result<(), NoMemory>
    ensures { OnOk result (out.new.items ≡ out.old.items ++ map member_address (members_in (maps_of held.now).applied (flat_map (isolating_groups dir) policies.now))) }
{
    for policy in policies {
        push_isolated(out, held, policy, dir)?;
    }
    Ok(())
}

fn isolated_addresses(alloc: Global, held: &Held, dir: Dir) -> Result<List<Addr>, NoMemory>
    ensures { IfOk result (λ addresses. addresses ≡ isolated_addresses (maps_of held.now) dir) }
{
    let mut addresses = Vec::new(alloc);
    push_all_isolated(&mut addresses, held, held.policies().as_slice(), dir)?;
    sorted_addresses(addresses)
}

fn as_changes(alloc: Global, addresses: &[Addr], dir: Dir) -> Result<Vec<IsolationChange>, NoMemory>
    ensures { IfOk result (λ changes. changes.items ≡ map (λ a. record { dir = dir; address = a; now = true }) addresses.now) }
{
    let mut changes = Vec::with_capacity(alloc, addresses.len())?;
    for address in addresses {
        changes.push(IsolationChange {
            dir,
            address: *address,
            now: true,
        })?;
    }
    Ok(changes)
}

fn isolations(alloc: Global, held: &Held, dir: Dir) -> Result<Vec<IsolationChange>, NoMemory>
    ensures value { IfOk result (λ changes. changes.items ≡ isolations dir (maps_of held.now)) }
    ensures ascend { IfOk result (λ changes. Ascends (λ (c : IsolationChange). c.address) addr_order changes.items) }
{
    let addresses = isolated_addresses(alloc, held, dir)?;
    let changes = as_changes(alloc, addresses.as_slice(), dir)?;
    Ok(changes)
}

impl Change for IsolationChange {
    ghost ended = { isolation_ended };

    fn ended(self) -> IsolationChange {
        IsolationChange {
            dir: self.dir,
            address: self.address,
            now: false,
        }
    }
}

fn changes_in(
    alloc: Global,
    before: &Held,
    after: &Held,
    dir: Dir,
) -> Result<Vec<IsolationChange>, NoMemory>
    ensures { IfOk result (λ changes. changes.items ≡ isolation_changes dir (maps_of before.now) (maps_of after.now)) }
{
    let old = isolations(alloc, before, dir)?;
    let new = isolations(alloc, after, dir)?;
    let changes = changes_of(alloc, old.as_slice(), new.as_slice())?;
    Ok(changes)
}

/// The changes of isolation, ingress first.
pub(crate) fn isolation_changes(
    alloc: Global,
    before: &Held,
    after: &Held,
) -> Result<List<IsolationChange>, NoMemory>
    ensures { IfOk result (λ changes. changes ≡ isolation_changes Dir.Ingress (maps_of before.now) (maps_of after.now) ++ isolation_changes Dir.Egress (maps_of before.now) (maps_of after.now)) }
{
    let mut changes = changes_in(alloc, before, after, Dir::Ingress)?;
    changes.append(&mut changes_in(alloc, before, after, Dir::Egress)?)?;
    Ok(List::of(changes))
}

//! Egresses of addresses, and addresses that need marks.
ghost use Rattle.std.specs.Prelude.{◌≡◌, ◌++◌, ◌∷◌, [], Some, filter, find, map, IfOk, OnOk, option_copied, true};
ghost use Rattle.cl_types.specs.Addr.{addr_order};
ghost use Rattle.cl_types.specs.Ascending.{Ascends};
ghost use Rattle.cl_types.specs.Text.{text_eq};
ghost use Rattle.held_maps.specs.Held.{maps_of};
ghost use Rattle.watch_streams.specs.declared.rule_changes.ChoiceChange.{ChoiceChange};
ghost use Rattle.watch_streams.specs.declared.rule_changes.MarkChange.{MarkChange};
ghost use Rattle.watch_streams.specs.HeldEvaluation.{held_egresses};
ghost use Rattle.watch_streams.specs.InForce.{chosen, egress_address, egress_group, egress_pods, held_choice, held_marks, member_address, members_in, selects_address};
ghost use Rattle.watch_streams.specs.RuleChanges.{choice_changes, choice_ended, choices, mark_changes, mark_ended, marks};

use crate::addresses::{push_groups, sorted_addresses};
use crate::differences::{Change, changes_of};
use cl_types::{Addr, Copies, List, NoMemory, Stream, Text};
use held_maps::Held;
use std::alloc::Global;
use watch_streams::{Choice, ChoiceChange, MarkChange, NetEgress};

fn push_pods(out: &mut Vec<Addr>, held: &Held, egress: &NetEgress) -> Result<(), NoMemory>
    ensures { OnOk result (out.new.items ≡ out.old.items ++ map member_address (members_in (maps_of held.now).applied (egress_group egress.now ∷ []))) }
{
    push_groups(
        out,
        held,
        Stream::Applied,
        std::slice::from_ref(&egress.applied),
    )
}

fn push_all_pods(out: &mut Vec<Addr>, held: &Held, egresses: &[NetEgress]) -> Result<(), NoMemory>
    ensures { OnOk result (out.new.items ≡ out.old.items ++ map member_address (members_in (maps_of held.now).applied (map egress_group egresses.now))) }
{
    for egress in egresses {
        push_pods(out, held, egress)?;
    }
    Ok(())
}

fn egress_pods(alloc: Global, held: &Held) -> Result<List<Addr>, NoMemory>
    ensures { IfOk result (λ pods. pods ≡ egress_pods (maps_of held.now)) }
{
    let mut pods = Vec::new(alloc);
    push_all_pods(&mut pods, held, held.egresses().as_slice())?;
    sorted_addresses(pods)
}

fn selects(held: &Held, a: Addr, egress: &NetEgress) -> bool
    ensures { result ≡ selects_address (maps_of held.now) a egress.now }
{
    held.has_member_at(Stream::Applied, a, &egress.applied)
}

fn egress_at<'a>(held: &'a Held, a: Addr) -> Option<&'a NetEgress>
    ensures { option_copied result ≡ find (selects_address (maps_of held.now) a) (held_egresses (maps_of held.now)) }
{
    held.egresses()
        .as_slice()
        .iter()
        .find(|egress| selects(held, a, egress))
}

fn chosen_by(node: &Text, egress: &NetEgress) -> Result<Choice, NoMemory>
    ensures { IfOk result (λ choice. choice ≡ chosen node.now (Some egress.now)) }
{
    if egress.node == *node {
        return Ok(Choice::Here(egress.address));
    }
    Ok(Choice::There {
        node: egress.node.copy()?,
        address: egress.address,
    })
}

fn chosen(node: &Text, egress: Option<&NetEgress>) -> Result<Choice, NoMemory>
    ensures { IfOk result (λ choice. choice ≡ chosen node.now (option_copied egress.entry)) }
{
    match egress {
        None => Ok(Choice::Plain),
        Some(egress) => chosen_by(node, egress),
    }
}

fn choice_of(node: &Text, held: &Held, pod: Addr) -> Result<ChoiceChange, NoMemory>
    ensures { IfOk result (λ choice. choice ≡ record { pod = pod; now = held_choice node.now (maps_of held.now) pod }) }
{
    Ok(ChoiceChange {
        pod,
        now: chosen(node, egress_at(held, pod))?,
    })
}

fn choices_of(
    alloc: Global,
    node: &Text,
    held: &Held,
    pods: &[Addr],
) -> Result<Vec<ChoiceChange>, NoMemory>
    ensures { IfOk result (λ choices. choices.items ≡ map (λ a. record { pod = a; now = held_choice node.now (maps_of held.now) a }) pods.now) }
{
    let mut choices = Vec::with_capacity(alloc, pods.len())?;
    for pod in pods {
        choices.push(choice_of(node, held, *pod)?)?;
    }
    Ok(choices)
}

fn choices(alloc: Global, node: &Text, held: &Held) -> Result<Vec<ChoiceChange>, NoMemory>
    ensures value { IfOk result (λ v. v.items ≡ choices node.now (maps_of held.now)) }
    ensures ascend { IfOk result (λ v. Ascends (λ (c : ChoiceChange). c.pod) addr_order v.items) }
{
    let pods = egress_pods(alloc, held)?;
    let choices = choices_of(alloc, node, held, pods.as_slice())?;
    Ok(choices)
}

impl Change for ChoiceChange {
    ghost ended = { choice_ended };

    fn ended(self) -> ChoiceChange {
        ChoiceChange {
            pod: self.pod,
            now: Choice::Plain,
        }
    }
}

/// The changes of Egresses, by the addresses of pods.
pub(crate) fn choice_changes(
    alloc: Global,
    node: &Text,
    before: &Held,
    after: &Held,
) -> Result<List<ChoiceChange>, NoMemory>
    ensures { IfOk result (λ changes. changes ≡ choice_changes node.now (maps_of before.now) (maps_of after.now)) }
{
    let old = choices(alloc, node, before)?;
    let new = choices(alloc, node, after)?;
    Ok(List::of(changes_of(alloc, old.as_slice(), new.as_slice())?))
}

fn is_here(node: &Text, egress: &NetEgress) -> bool
    ensures { result ≡ text_eq egress.now.node node.now }
{
    egress.node == *node
}

fn own_addresses(alloc: Global, node: &Text, egresses: &[NetEgress]) -> Result<Vec<Addr>, NoMemory>
    ensures { IfOk result (λ v. v.items ≡ map egress_address (filter (λ e. text_eq e.node node.now) egresses.now)) }
{
    let mut addresses = Vec::new(alloc);
    for egress in egresses {
        if is_here(node, egress) {
            addresses.push(egress.address)?;
        }
    }
    Ok(addresses)
}

fn as_changes(alloc: Global, addresses: &[Addr]) -> Result<Vec<MarkChange>, NoMemory>
    ensures { IfOk result (λ v. v.items ≡ map (λ a. record { address = a; now = true }) addresses.now) }
{
    let mut changes = Vec::with_capacity(alloc, addresses.len())?;
    for address in addresses {
        changes.push(MarkChange {
            address: *address,
            now: true,
        })?;
    }
    Ok(changes)
}

fn marks(alloc: Global, node: &Text, held: &Held) -> Result<Vec<MarkChange>, NoMemory>
    ensures value { IfOk result (λ v. v.items ≡ marks node.now (maps_of held.now)) }
    ensures ascend { IfOk result (λ v. Ascends (λ (c : MarkChange). c.address) addr_order v.items) }
{
    let own = own_addresses(alloc, node, held.egresses().as_slice())?;
    let addresses = sorted_addresses(own)?;
    let marks = as_changes(alloc, addresses.as_slice())?;
    Ok(marks)
}

impl Change for MarkChange {
    ghost ended = { mark_ended };

    fn ended(self) -> MarkChange {
        MarkChange {
            address: self.address,
            now: false,
        }
    }
}

/// The changes of marks, by address.
pub(crate) fn mark_changes(
    alloc: Global,
    node: &Text,
    before: &Held,
    after: &Held,
) -> Result<List<MarkChange>, NoMemory>
    ensures { IfOk result (λ changes. changes ≡ mark_changes node.now (maps_of before.now) (maps_of after.now)) }
{
    let old = marks(alloc, node, before)?;
    let new = marks(alloc, node, after)?;
    Ok(List::of(changes_of(alloc, old.as_slice(), new.as_slice())?))
}

//! What differs between what two held states put in force.
ghost use Rattle.std.specs.Prelude.{◌≡◌, map, IfOk};
ghost use Rattle.cl_types.specs.Ascending.{Ascends};
ghost use Rattle.cl_types.specs.RuleOrder.{rule_order};
ghost use Rattle.held_maps.specs.Held.{IsTaken, maps_of};
ghost use Rattle.watch_streams.specs.InForce.{AreRulesInForce};
ghost use Rattle.watch_streams.specs.RuleChanges.{AreChangesOfRules, AreRuleChanges, parts_key};
ghost use Rattle.touched_rules.specs.Touching.{AreOfTouched, maps_after};
ghost use Rattle.agent_cache.specs.ListsBetween.{AreBetween, AreChangesOfAddresses};

use crate::differences::{altered, lacking};
use crate::egresses::{choice_changes, mark_changes};
use crate::isolation::isolation_changes;
use crate::rules::rules_in_force;
use cl_types::{Copies, List, NoMemory, RuleKey, Stream, Text};
use held_maps::Held;
use std::alloc::Global;
use touched_rules::{held_form, held_rules, rules_touched};
use watch_streams::{
    ChoiceChange, IsolationChange, MarkChange, Msg, RuleChanges, RuleParts, StreamChange,
};

// The changes of the rules.
#[derive(Drop)]
struct ChangesOfRules {
    gone: List<RuleKey>,
    come: List<RuleParts>,
    altered: List<RuleParts>,
}

// The changes of what is told of addresses.
#[derive(Drop)]
struct ChangesOfAddresses {
    isolated: List<IsolationChange>,
    choices: List<ChoiceChange>,
    marked: List<MarkChange>,
}

fn keys_of(alloc: Global, parts: &[RuleParts]) -> Result<List<RuleKey>, NoMemory>
    ensures { IfOk result (λ keys. keys ≡ map parts_key parts.now) }
{
    let mut keys = Vec::with_capacity(alloc, parts.len())?;
    for p in parts {
        keys.push(p.key.copy()?)?;
    }
    Ok(List::of(keys))
}

// What the complete rules match, in the rule order.
fn parts_in_force(alloc: Global, held: &Held) -> Result<Vec<RuleParts>, NoMemory>
    ensures are { IfOk result (λ parts. AreRulesInForce (maps_of held.now) parts.items) }
    ensures ascend { IfOk result (λ parts. Ascends parts_key rule_order parts.items) }
{
    let rules = held_rules(alloc, held)?;
    let parts = rules_in_force(alloc, held, rules.as_slice())?;
    Ok(parts)
}

// What the complete rules of the touched policies match, in the rule order.
fn touched_parts(
    alloc: Global,
    held: &Held,
    s: Stream,
    changes: &[StreamChange],
) -> Result<Vec<RuleParts>, NoMemory>
    ensures are { IfOk result (λ parts. AreOfTouched s changes.now (maps_of held.now) parts.items) }
    ensures ascend { IfOk result (λ parts. Ascends parts_key rule_order parts.items) }
{
    let rules = rules_touched(alloc, held, s, changes)?;
    let parts = rules_in_force(alloc, held, rules.as_slice())?;
    Ok(parts)
}

fn lists_between(
    alloc: Global,
    old: &[RuleParts],
    new: &[RuleParts],
) -> Result<ChangesOfRules, NoMemory>
    requires old { Ascends parts_key rule_order old.now }
    requires new { Ascends parts_key rule_order new.now }
    ensures { IfOk result (λ c. AreBetween old.now new.now c.gone c.come c.altered) }
{
    let gone = lacking(alloc, old, new)?;
    let gone = keys_of(alloc, gone.as_slice())?;
    let come = List::of(lacking(alloc, new, old)?);
    let altered = List::of(altered(alloc, old, new)?);
    Ok(ChangesOfRules {
        gone,
        come,
        altered,
    })
}

// All rules are looked at.
fn changes_of_all(alloc: Global, before: &Held, after: &Held) -> Result<ChangesOfRules, NoMemory>
    ensures { IfOk result (λ c. AreChangesOfRules (maps_of before.now) (maps_of after.now) c.gone c.come c.altered) }
{
    let old = parts_in_force(alloc, before)?;
    let new = parts_in_force(alloc, after)?;
    let lists = lists_between(alloc, old.as_slice(), new.as_slice())?;
    Ok(lists)
}

// Only the rules of the touched policies are looked at.
fn changes_of_touched(
    alloc: Global,
    before: &Held,
    after: &Held,
    s: Stream,
    changes: &[StreamChange],
) -> Result<ChangesOfRules, NoMemory>
    requires { maps_of after.now ≡ maps_after s changes.now (maps_of before.now) }
    ensures { IfOk result (λ c. AreChangesOfRules (maps_of before.now) (maps_of after.now) c.gone c.come c.altered) }
{
    held_form(before);
    held_form(after);
    let old = touched_parts(alloc, before, s, changes)?;
    let new = touched_parts(alloc, after, s, changes)?;
    let lists = lists_between(alloc, old.as_slice(), new.as_slice())?;
    Ok(lists)
}

fn changes_of_rules(
    alloc: Global,
    before: &Held,
    after: &Held,
    s: Stream,
    m: &Msg,
) -> Result<ChangesOfRules, NoMemory>
    requires { IsTaken s m.now before.now after.now }
    ensures { IfOk result (λ c. AreChangesOfRules (maps_of before.now) (maps_of after.now) c.gone c.come c.altered) }
{
    match m {
        Msg::Delta(_, changes) => changes_of_touched(alloc, before, after, s, changes.as_slice()),
        Msg::Snapshot(_, _) => changes_of_all(alloc, before, after),
    }
}

// Groups of peers isolate no address, and no Egress applies to one; so a change of these alone changes nothing here.
fn changes_of_addresses(
    alloc: Global,
    node: &Text,
    before: &Held,
    after: &Held,
    s: Stream,
    m: &Msg,
) -> Result<ChangesOfAddresses, NoMemory>
    requires { IsTaken s m.now before.now after.now }
    ensures { IfOk result (λ c. AreChangesOfAddresses node.now (maps_of before.now) (maps_of after.now) c.isolated c.choices c.marked) }
{
    if let Stream::Addresses = s {
        return Ok(ChangesOfAddresses {
            isolated: List::new(alloc),
            choices: List::new(alloc),
            marked: List::new(alloc),
        });
    }
    let isolated = isolation_changes(alloc, before, after)?;
    let choices = choice_changes(alloc, node, before, after)?;
    let marked = mark_changes(alloc, node, before, after)?;
    Ok(ChangesOfAddresses {
        isolated,
        choices,
        marked,
    })
}

/// What differs between what the two put in force at the node, where the message leads from the one to the other.
pub(crate) fn changes_between(
    alloc: Global,
    node: &Text,
    before: &Held,
    after: &Held,
    s: Stream,
    m: &Msg,
) -> Result<RuleChanges, NoMemory>
    requires { IsTaken s m.now before.now after.now }
    ensures { IfOk result (AreRuleChanges node.now (maps_of before.now) (maps_of after.now)) }
{
    let rules = changes_of_rules(alloc, before, after, s, m)?;
    let addresses = changes_of_addresses(alloc, node, before, after, s, m)?;
    let ChangesOfRules {
        gone,
        come,
        altered,
    } = rules;
    let ChangesOfAddresses {
        isolated,
        choices,
        marked,
    } = addresses;
    Ok(RuleChanges {
        gone,
        come,
        altered,
        isolated,
        choices,
        marked,
    })
}

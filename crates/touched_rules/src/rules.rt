//! The rules of the policies that are held, in the rule order.
ghost use Rattle.std.specs.Prelude.{◌≡◌, ◌++◌, IfOk, OnOk};
ghost use Rattle.std.specs.List.{flat_map};
ghost use Rattle.cl_types.specs.Ascending.{Ascends, sorted_by};
ghost use Rattle.cl_types.specs.RuleOrder.{rule_order};
ghost use Rattle.held_maps.specs.Held.{maps_of};
ghost use Rattle.watch_streams.specs.HeldEvaluation.{held_policies};
ghost use Rattle.watch_streams.specs.InForce.{held_rule_key, held_rules, rules_of};
ghost use Rattle.touched_rules.specs.Touching.{policies_touched};

use crate::touching::touches;
use cl_types::{Keyed, NoMemory, RuleKey, Stream};
use held_maps::Held;
use std::alloc::Global;
use std::marker::Model;
use watch_streams::{NetPolicy, NetRule, StreamChange, sorted};

/// A rule with the policy that has it.
#[derive(Drop)]
pub struct HeldRule<'a> {
    pub policy: &'a NetPolicy,
    pub rule: &'a NetRule,
}

impl<'a> Model for HeldRule<'a> {
    ghost use Rattle.watch_streams.specs.InForce.{HeldRule as HeldRuleData};

    ghost Value = { HeldRuleData };

    ghost view = { λ r. record { policy = r.policy.now; rule = r.rule.now } };
}

impl<'a> Keyed for HeldRule<'a> {
    type Key = RuleKey;

    ghost key = { held_rule_key };

    fn key(&self) -> &RuleKey {
        &self.rule.key
    }
}

fn push_rules<'a>(out: &mut Vec<HeldRule<'a>>, policy: &'a NetPolicy) -> Result<(), NoMemory>
    ensures { OnOk result (out.new.items ≡ out.old.items ++ rules_of policy.now) }
{
    let rules = policy.rules.as_slice();
    for rule in rules {
        out.push(HeldRule { policy, rule })?;
    }
    Ok(())
}

fn all_rules<'a>(alloc: Global, held: &'a Held) -> Result<Vec<HeldRule<'a>>, NoMemory>
    ensures { IfOk result (λ rules. rules.items ≡ flat_map rules_of (held_policies (maps_of held.now))) }
{
    let policies = held.policies().as_slice();
    let mut rules = Vec::new(alloc);
    for policy in policies {
        push_rules(&mut rules, policy)?;
    }
    Ok(rules)
}

/// The rules of all policies that are held, in the rule order.
pub fn held_rules<'a>(alloc: Global, held: &'a Held) -> Result<Vec<HeldRule<'a>>, NoMemory>
    ensures value { IfOk result (λ rules. rules.items ≡ held_rules (maps_of held.now)) }
    ensures ascend { IfOk result (λ rules. Ascends held_rule_key rule_order rules.items) }
{
    let rules = all_rules(alloc, held)?;
    sorted(alloc, rules)
}

fn all_touched<'a>(
    alloc: Global,
    held: &'a Held,
    s: Stream,
    changes: &[StreamChange],
) -> Result<Vec<HeldRule<'a>>, NoMemory>
    ensures { IfOk result (λ rules. rules.items ≡ flat_map rules_of (policies_touched s changes.now (maps_of held.now))) }
{
    let policies = held.policies().as_slice();
    let mut rules = Vec::new(alloc);
    for policy in policies {
        if touches(s, changes, held, policy) {
            push_rules(&mut rules, policy)?;
        }
    }
    Ok(rules)
}

/// The rules of the held policies that the changes touch, in the rule order.
pub fn rules_touched<'a>(
    alloc: Global,
    held: &'a Held,
    s: Stream,
    changes: &[StreamChange],
) -> Result<Vec<HeldRule<'a>>, NoMemory>
    ensures value { IfOk result (λ rules. rules.items ≡ sorted_by held_rule_key rule_order (flat_map rules_of (policies_touched s changes.now (maps_of held.now)))) }
    ensures ascend { IfOk result (λ rules. Ascends held_rule_key rule_order rules.items) }
{
    let rules = all_touched(alloc, held, s, changes)?;
    sorted(alloc, rules)
}

//! What the rules match that are in force.
ghost use Rattle.std.specs.Prelude.{◌++◌, ◌∷◌, [], List as Items, filter, IfOk, OnOk};
ghost use Rattle.cl_types.specs.Ascending.{Ascends};
ghost use Rattle.cl_types.specs.RuleOrder.{rule_order};
ghost use Rattle.held_maps.specs.Held.{maps_of};
ghost use Rattle.watch_streams.specs.HeldEvaluation.{is_complete};
ghost use Rattle.watch_streams.specs.InForce.{ArePartsOf, HeldRule, held_rule_key};
ghost use Rattle.watch_streams.specs.RuleChanges.{parts_key};

use crate::parts::parts_of;
use cl_types::NoMemory;
use held_maps::Held;
use std::alloc::Global;
use touched_rules::HeldRule;
use watch_streams::RuleParts;

// Appends what the rule matches, where it is complete.
fn push_parts(out: &mut Vec<RuleParts>, held: &Held, r: &HeldRule) -> Result<(), NoMemory>
    ensures { OnOk result ((before : Items HeldRule) → ArePartsOf (maps_of held.now) before out.old.items
        → ArePartsOf (maps_of held.now) (before ++ filter (λ x. is_complete (maps_of held.now) x.policy x.rule) (r.now ∷ [])) out.new.items) }
{
    if held.is_complete(r.policy, r.rule) {
        let parts = parts_of(*out.allocator(), held, r.policy, r.rule)?;
        out.push(parts)?;
        return Ok(());
    }
    Ok(())
}

/// What the rules match that are complete.
pub(crate) fn rules_in_force(
    alloc: Global,
    held: &Held,
    rules: &[HeldRule],
) -> Result<Vec<RuleParts>, NoMemory>
    requires ascend { Ascends held_rule_key rule_order rules.now }
    ensures are { IfOk result (λ parts. ArePartsOf (maps_of held.now) (filter (λ x. is_complete (maps_of held.now) x.policy x.rule) rules.now) parts.items) }
    ensures ascend { IfOk result (λ parts. Ascends parts_key rule_order parts.items) }
{
    let mut parts = Vec::new(alloc);
    for r in rules {
        push_parts(&mut parts, held, r)?;
    }
    Ok(parts)
}

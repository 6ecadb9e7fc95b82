//! The states of all rules that are held.
ghost use Rattle.std.specs.Prelude.{◌≡◌, map, option_copied, IfOk};
ghost use Rattle.cl_types.specs.Ascending.{Ascends};
ghost use Rattle.cl_types.specs.RuleOrder.{rule_order};
ghost use Rattle.held_maps.specs.Held.{maps_of};
ghost use Rattle.watch_streams.specs.HeldEvaluation.{HeldMaps};
ghost use Rattle.agent_cache.specs.KnownRule.{KnownRule};
ghost use Rattle.agent_cache.specs.Standing.{IsStateOf, TellsRule, TellsState, standing, standings};

use crate::standing::{RuleState, Standing, missing_of};
use cl_types::{Copies, NoMemory, RuleKey, find};
use held_maps::Held;
use label_select::GroupKey;
use std::alloc::Global;
use touched_rules::{HeldRule, held_rules};

fn standing(alloc: Global, held: &Held, r: &HeldRule) -> Result<Standing, NoMemory>
    ensures { IfOk result (λ s. s ≡ standing (maps_of held.now) r.now) }
{
    Ok(Standing {
        key: r.rule.key.copy()?,
        missing: missing_of(alloc, held, r.policy, r.rule)?,
    })
}

fn standings_of(alloc: Global, held: &Held, rules: &[HeldRule]) -> Result<Vec<Standing>, NoMemory>
    ensures { IfOk result (λ v. v.items ≡ map (standing (maps_of held.now)) rules.now) }
{
    let mut out = Vec::with_capacity(alloc, rules.len())?;
    for r in rules {
        out.push(standing(alloc, held, r)?)?;
    }
    Ok(out)
}

/// What is known of each rule that is held.
pub(crate) fn standings(alloc: Global, held: &Held) -> Result<Vec<Standing>, NoMemory>
    ensures { IfOk result (λ v. v.items ≡ standings (maps_of held.now)) }
{
    let rules = held_rules(alloc, held)?;
    standings_of(alloc, held, rules.as_slice())
}

fn state_of_group<'a>(missing: &'a Option<GroupKey>) -> RuleState<'a>
    ensures { TellsState missing.now result }
{
    match missing {
        None => RuleState::Complete,
        Some(g) => RuleState::Waiting(g),
    }
}

fn state_of<'a>(known: Option<&'a Standing>) -> RuleState<'a>
    ensures { TellsRule (option_copied known.entry) result }
{
    match known {
        None => RuleState::Absent,
        Some(known) => state_of_group(&known.missing),
    }
}

/// The state of the rule with the key, by what is known of the rules.
pub(crate) fn state_at<'a>(known: &'a [Standing], k: &RuleKey) -> RuleState<'a>
    requires { Ascends (λ (s : KnownRule). s.key) rule_order known.now }
    ensures { (h : HeldMaps) → known.now ≡ standings h → IsStateOf h k.now result }
{
    let found = find(known, k);
    let state = state_of(found);
    state
}

//! Reading the tier and the priority of a policy of Antrea.
ghost use Rattle.std.specs.Prelude.{◌≡◌, IfOk, option_map};
ghost use Rattle.serde_json.specs.View.{view};
ghost use Rattle.json_fields.specs.Faults.{least};
ghost use Rattle.policy_parts.specs.Places.{tier_faults, given_tier, tier_name, is_baseline, is_in_baseline, priority_of, priority_faults, priority_value};

use cl_types::NoMemory;
use json_fields::{ReadRefusal, inner, number_within, text_field_fault, text_or_empty};
use serde_json::Value;
use std::alloc::Global;

// The least and the greatest priority of a policy.
const FIRST_PRIORITY: u64 = 1;

const LAST_PRIORITY: u64 = 10000;

/// The fault of the tier of a policy.
#[tactic(auto, unfolding(crate::specs::Places::tier_faults))]
pub fn tier_fault(alloc: Global, spec: Option<&Value>) -> Result<Option<ReadRefusal>, NoMemory>
    ensures { IfOk result (λ f. f ≡ least (tier_faults (option_map (λ v. view v.now) spec.entry))) }
{
    text_field_fault(alloc, "tier", spec)
}

fn given_tier(text: &[u8]) -> &[u8]
    ensures { result.now ≡ given_tier text.now }
{
    match text {
        [] => b"application",
        _ => text,
    }
}

/// The tier of a policy as it is written; `application` where none is.
#[tactic(auto, unfolding(crate::specs::Places::tier_name))]
pub fn tier_name(spec: Option<&Value>) -> &[u8]
    ensures { result.now ≡ tier_name (option_map (λ v. view v.now) spec.entry) }
{
    given_tier(text_or_empty(inner(spec, "tier")))
}

#[tactic(auto, unfolding(crate::specs::Places::is_baseline))]
fn is_baseline(alloc: Global, tier: &[u8]) -> Result<bool, NoMemory>
    ensures { IfOk result (λ b. b ≡ is_baseline tier.now) }
{
    let lower = tier.to_ascii_lowercase(alloc)?;
    Ok(lower.as_slice() == b"baseline".as_slice())
}

/// Whether the tier of a policy is Baseline, which is read without regard to case.
#[tactic(auto, unfolding(crate::specs::Places::is_in_baseline))]
pub fn is_in_baseline(alloc: Global, spec: Option<&Value>) -> Result<bool, NoMemory>
    ensures { IfOk result (λ b. b ≡ is_in_baseline (option_map (λ v. view v.now) spec.entry)) }
{
    is_baseline(alloc, tier_name(spec))
}

#[tactic(auto, unfolding(crate::specs::Places::priority_of, json_fields::specs::Shapes::number_within))]
fn priority_of(spec: Option<&Value>) -> Option<u16>
    ensures { result ≡ priority_of (option_map (λ v. view v.now) spec.entry) }
{
    match number_within(FIRST_PRIORITY, LAST_PRIORITY, inner(spec, "priority")) {
        Some(number) => u16::try_from(number).ok(),
        None => None,
    }
}

/// The fault of the priority of a policy.
#[tactic(auto, unfolding(crate::specs::Places::priority_faults, json_fields::specs::Faults::least, json_fields::specs::Faults::earlier))]
pub fn priority_fault(spec: Option<&Value>) -> Option<ReadRefusal>
    ensures { result ≡ least (priority_faults (option_map (λ v. view v.now) spec.entry)) }
{
    match priority_of(spec) {
        Some(_) => None,
        None => Some(ReadRefusal::BadPriority),
    }
}

/// The priority of a policy; 0 where it has a fault.
#[tactic(auto, unfolding(crate::specs::Places::priority_value))]
pub fn priority_value(spec: Option<&Value>) -> u16
    ensures { result ≡ priority_value (option_map (λ v. view v.now) spec.entry) }
{
    priority_of(spec).unwrap_or(0)
}

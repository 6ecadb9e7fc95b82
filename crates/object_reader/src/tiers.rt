//! Reading tiers.
ghost use Rattle.std.specs.Prelude.{◌≡◌, ◌≤◌, IfOk, IfSome, is_some, option_map, codes};
ghost use Rattle.serde_json.specs.View.{view};
ghost use Rattle.json_fields.specs.Faults.{least};
ghost use Rattle.json_fields.specs.Shapes.{in_field, unless};
ghost use Rattle.json_fields.specs.declared.refusal.ReadRefusal.TheVariants.{BadPriority};
ghost use Rattle.object_reader.specs.Tiers.{tier_priority, tier_spec_faults, tier_faults, tier_value};

use crate::nodes::{name_of, named_fault, spec_of};
use cl_types::NoMemory;
use cluster_types::Tier;
use json_fields::{ReadRefusal, earlier, in_field, inner, number_within, object_fault};
use serde_json::Value;
use std::alloc::Global;

// The least and the greatest priority of a tier.
const FIRST_PRIORITY: u64 = 1;

const LAST_PRIORITY: u64 = 253;

#[tactic(auto, unfolding(crate::specs::Tiers::tier_priority, json_fields::specs::Shapes::number_within))]
fn tier_priority(spec: Option<&Value>) -> Option<u16>
    ensures { result ≡ tier_priority (option_map (λ v. view v.now) spec.entry) }
{
    match number_within(FIRST_PRIORITY, LAST_PRIORITY, inner(spec, "priority")) {
        Some(number) => u16::try_from(number).ok(),
        None => None,
    }
}

#[tactic(auto, unfolding(json_fields::specs::Faults::least, json_fields::specs::Faults::earlier))]
fn priority_fault(spec: Option<&Value>) -> Option<ReadRefusal>
    ensures { result ≡ least (unless (is_some (tier_priority (option_map (λ v. view v.now) spec.entry))) BadPriority) }
{
    match tier_priority(spec) {
        Some(_) => None,
        None => Some(ReadRefusal::BadPriority),
    }
}

#[tactic(auto, using(json_fields::specs::FaultLaws::least_append), unfolding(crate::specs::Tiers::tier_spec_faults))]
fn tier_spec_fault(alloc: Global, spec: Option<&Value>) -> Option<ReadRefusal>
    ensures { result ≡ least (tier_spec_faults (option_map (λ v. view v.now) spec.entry)) }
{
    earlier(object_fault(alloc, spec), priority_fault(spec))
}

#[tactic(auto, using(json_fields::specs::FaultLaws::least_at), unfolding(json_fields::specs::Shapes::in_field))]
fn tier_spec_field_fault(alloc: Global, object: &Value) -> Result<Option<ReadRefusal>, NoMemory>
    ensures { IfOk result (λ f. f ≡ least (in_field (codes "spec") tier_spec_faults (Some (view object.now)))) }
{
    in_field(
        alloc,
        "spec",
        tier_spec_fault(alloc, inner(Some(object), "spec")),
    )
}

/// The fault of a tier.
#[tactic(auto, using(json_fields::specs::FaultLaws::least_append), unfolding(crate::specs::Tiers::tier_faults))]
pub fn tier_fault(alloc: Global, object: &Value) -> Result<Option<ReadRefusal>, NoMemory>
    ensures { IfOk result (λ f. f ≡ least (tier_faults (view object.now))) }
{
    let named = named_fault(alloc, object)?;
    let spec = tier_spec_field_fault(alloc, object)?;
    Ok(earlier(named, spec))
}

/// The tier that an object is.
#[tactic(auto, unfolding(crate::specs::Tiers::tier_value))]
pub fn tier_value(alloc: Global, object: &Value) -> Result<Tier, NoMemory>
    ensures { IfOk result (λ (t : _). t ≡ tier_value (view object.now)) }
{
    let name = name_of(alloc, object)?;
    let priority = tier_priority(spec_of(object)).unwrap_or(0);
    Ok(Tier { name, priority })
}

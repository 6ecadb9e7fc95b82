//! Reading Egresses, with an address of their own or one of a pool.
ghost use Rattle.std.specs.Prelude.{◌≡◌, ◌++◌, List, IfOk, Some, map, option_map, codes, if◌then◌else◌, []};
ghost use Rattle.serde_json.specs.View.{view};
ghost use Rattle.json_fields.specs.Faults.{least};
ghost use Rattle.json_fields.specs.Fields.{inner};
ghost use Rattle.json_fields.specs.Shapes.{in_field, unless};
ghost use Rattle.json_fields.specs.declared.refusal.ReadRefusal.TheVariants.{BadShape, BadAddr};
ghost use Rattle.object_reader.specs.Groups.{has_selector, cluster_group};
ghost use Rattle.object_reader.specs.Nodes.{spec_of};
ghost use Rattle.object_reader.specs.Egresses.{pool_name, is_pooled, pool_faults, address_text, has_address, address_faults, asks_six, plural_field, unsupported_field, wants_address, wanted_faults, is_address_text, is_address, whole_address_faults, applied_faults, applied_to_faults, egress_spec_faults, egress_status_faults, status_faults, egress_faults, asked_address, egress_node, egress_value, pooled_value, egress_item};

use crate::groups::{cluster_group, has_selector, selectors_fault};
use crate::nodes::{name_of, named_fault, spec_of};
use crate::texts::{four_of, has_colon};
use cl_types::{Addr, NoMemory, Text};
use cluster_types::{Change, EgressObj, Object, PooledEgress, RefItem};
use json_fields::{
    ReadRefusal, bad_shape, earlier, in_field, inner, object_fault, text_copy, text_field_fault,
    text_in, text_or_empty, unsupported,
};
use label_select::GroupKey;
use serde_json::Value;
use std::alloc::Global;

// ---- the pool and the address

#[tactic(auto, unfolding(crate::specs::Egresses::pool_name))]
fn pool_name(spec: Option<&Value>) -> &[u8]
    ensures { result.now ≡ pool_name (option_map (λ v. view v.now) spec.entry) }
{
    text_or_empty(inner(spec, "externalIPPool"))
}

#[tactic(auto, unfolding(crate::specs::Egresses::is_pooled))]
fn is_pooled(spec: Option<&Value>) -> bool
    ensures { result ≡ is_pooled (option_map (λ v. view v.now) spec.entry) }
{
    !pool_name(spec).is_empty()
}

#[tactic(auto, unfolding(crate::specs::Egresses::pool_faults))]
fn pool_field_fault(alloc: Global, spec: Option<&Value>) -> Result<Option<ReadRefusal>, NoMemory>
    ensures { IfOk result (λ f. f ≡ least (pool_faults (option_map (λ v. view v.now) spec.entry))) }
{
    text_field_fault(alloc, "externalIPPool", spec)
}

#[tactic(auto, unfolding(crate::specs::Egresses::address_text))]
fn address_text(spec: Option<&Value>) -> Option<&str>
    ensures { option_map (λ s. s.now) result ≡ address_text (option_map (λ v. view v.now) spec.entry) }
{
    text_in(inner(spec, "egressIP"))
}

#[tactic(auto, unfolding(crate::specs::Egresses::has_address))]
fn has_address(spec: Option<&Value>) -> bool
    ensures { result ≡ has_address (option_map (λ v. view v.now) spec.entry) }
{
    inner(spec, "egressIP").is_some()
}

#[tactic(auto, unfolding(crate::specs::Egresses::address_faults))]
fn address_fault(alloc: Global, spec: Option<&Value>) -> Result<Option<ReadRefusal>, NoMemory>
    ensures { IfOk result (λ f. f ≡ least (address_faults (option_map (λ v. view v.now) spec.entry))) }
{
    text_field_fault(alloc, "egressIP", spec)
}

#[tactic(auto, unfolding(crate::specs::Egresses::asks_six))]
fn asks_six(spec: Option<&Value>) -> bool
    ensures { result ≡ asks_six (option_map (λ v. view v.now) spec.entry) }
{
    match address_text(spec) {
        Some(text) => has_colon(text.as_bytes()),
        None => false,
    }
}

#[tactic(auto, unfolding(crate::specs::Egresses::plural_field))]
fn plural_field(spec: Option<&Value>) -> Option<&'static str>
    ensures { option_map (λ s. s.now) result ≡ plural_field (option_map (λ v. view v.now) spec.entry) }
{
    if inner(spec, "egressIPs").is_some() {
        Some("egressIPs")
    } else if inner(spec, "externalIPPools").is_some() {
        Some("externalIPPools")
    } else {
        None
    }
}

// The field of least name that isn't supported.
#[tactic(auto, unfolding(crate::specs::Egresses::unsupported_field))]
fn unsupported_field(spec: Option<&Value>) -> Option<&'static str>
    ensures { option_map (λ s. s.now) result ≡ unsupported_field (option_map (λ v. view v.now) spec.entry) }
{
    if inner(spec, "bandwidth").is_some() {
        Some("bandwidth")
    } else if asks_six(spec) {
        Some("egressIP")
    } else {
        plural_field(spec)
    }
}

#[tactic(auto, unfolding(crate::specs::Egresses::wants_address))]
fn wants_address(spec: Option<&Value>) -> bool
    ensures { result ≡ wants_address (option_map (λ v. view v.now) spec.entry) }
{
    !has_address(spec) && (!is_pooled(spec) && !unsupported_field(spec).is_some())
}

#[tactic(auto, unfolding(json_fields::specs::Faults::least, json_fields::specs::Faults::earlier))]
fn wanted_fault(alloc: Global, wanted: bool) -> Result<Option<ReadRefusal>, NoMemory>
    ensures { IfOk result (λ f. f ≡ least (wanted_faults wanted)) }
{
    if wanted {
        let path = Text::of(Vec::from_slice(alloc, b"egressIP".as_slice())?);
        Ok(Some(ReadRefusal::BadShape(path)))
    } else {
        Ok(None)
    }
}

fn is_address_text(text: &[u8]) -> bool
    ensures { result ≡ is_address_text text.now }
{
    if has_colon(text) {
        true
    } else {
        four_of(text).is_some()
    }
}

#[tactic(auto, unfolding(crate::specs::Egresses::is_address))]
fn is_address(spec: Option<&Value>) -> bool
    ensures { result ≡ is_address (option_map (λ v. view v.now) spec.entry) }
{
    match address_text(spec) {
        Some(text) => is_address_text(text.as_bytes()),
        None => true,
    }
}

#[tactic(auto, unfolding(json_fields::specs::Faults::least, json_fields::specs::Faults::earlier))]
fn form_fault(spec: Option<&Value>) -> Option<ReadRefusal>
    ensures { result ≡ least (unless (is_address (option_map (λ v. view v.now) spec.entry)) BadAddr) }
{
    if is_address(spec) {
        None
    } else {
        Some(ReadRefusal::BadAddr)
    }
}

#[tactic(auto, using(json_fields::specs::FaultLaws::least_append), unfolding(crate::specs::Egresses::whole_address_faults))]
fn whole_address_fault(alloc: Global, spec: Option<&Value>) -> Result<Option<ReadRefusal>, NoMemory>
    ensures { IfOk result (λ f. f ≡ least (whole_address_faults (option_map (λ v. view v.now) spec.entry))) }
{
    let kind = address_fault(alloc, spec)?;
    let other = unsupported(alloc, unsupported_field(spec))?;
    let wanted = wanted_fault(alloc, wants_address(spec))?;
    Ok(earlier(earlier(earlier(kind, other), wanted), form_fault(spec)))
}

// ---- Egresses

#[tactic(auto, unfolding(json_fields::specs::Faults::least, json_fields::specs::Faults::earlier))]
fn selector_wanted_fault(alloc: Global, value: Option<&Value>) -> Option<ReadRefusal>
    ensures { result ≡ least (unless (has_selector (option_map (λ v. view v.now) value.entry)) (BadShape [])) }
{
    if has_selector(value) {
        None
    } else {
        Some(bad_shape(alloc))
    }
}

#[tactic(auto, using(json_fields::specs::FaultLaws::least_append))]
fn applied_fault(alloc: Global, value: Option<&Value>) -> Result<Option<ReadRefusal>, NoMemory>
    ensures { IfOk result (λ f. f ≡ least (applied_faults (option_map (λ v. view v.now) value.entry))) }
{
    let selectors = selectors_fault(alloc, value)?;
    Ok(earlier(selector_wanted_fault(alloc, value), selectors))
}

#[tactic(auto, using(json_fields::specs::FaultLaws::least_at), unfolding(crate::specs::Egresses::applied_to_faults, json_fields::specs::Shapes::in_field))]
fn applied_to_fault(alloc: Global, spec: Option<&Value>) -> Result<Option<ReadRefusal>, NoMemory>
    ensures { IfOk result (λ f. f ≡ least (applied_to_faults (option_map (λ v. view v.now) spec.entry))) }
{
    let fault = applied_fault(alloc, inner(spec, "appliedTo"))?;
    in_field(alloc, "appliedTo", fault)
}

#[tactic(auto, using(json_fields::specs::FaultLaws::least_append), unfolding(crate::specs::Egresses::egress_spec_faults))]
fn egress_spec_fault(alloc: Global, spec: Option<&Value>) -> Result<Option<ReadRefusal>, NoMemory>
    ensures { IfOk result (λ f. f ≡ least (egress_spec_faults (option_map (λ v. view v.now) spec.entry))) }
{
    let pool = pool_field_fault(alloc, spec)?;
    let address = whole_address_fault(alloc, spec)?;
    let applied = applied_to_fault(alloc, spec)?;
    Ok(earlier(
        earlier(earlier(object_fault(alloc, spec), pool), address),
        applied,
    ))
}

#[tactic(auto, using(json_fields::specs::FaultLaws::least_at), unfolding(json_fields::specs::Shapes::in_field))]
fn egress_spec_field_fault(alloc: Global, object: &Value) -> Result<Option<ReadRefusal>, NoMemory>
    ensures { IfOk result (λ f. f ≡ least (in_field (codes "spec") egress_spec_faults (Some (view object.now)))) }
{
    let fault = egress_spec_fault(alloc, inner(Some(object), "spec"))?;
    in_field(alloc, "spec", fault)
}

#[tactic(auto, using(json_fields::specs::FaultLaws::least_append), unfolding(crate::specs::Egresses::egress_status_faults))]
fn egress_status_fault(
    alloc: Global,
    status: Option<&Value>,
) -> Result<Option<ReadRefusal>, NoMemory>
    ensures { IfOk result (λ f. f ≡ least (egress_status_faults (option_map (λ v. view v.now) status.entry))) }
{
    let node = text_field_fault(alloc, "egressNode", status)?;
    Ok(earlier(object_fault(alloc, status), node))
}

#[tactic(auto, using(json_fields::specs::FaultLaws::least_at), unfolding(crate::specs::Egresses::status_faults, json_fields::specs::Shapes::in_field))]
fn status_fault(alloc: Global, object: &Value) -> Result<Option<ReadRefusal>, NoMemory>
    ensures { IfOk result (λ f. f ≡ least (status_faults (view object.now))) }
{
    let fault = egress_status_fault(alloc, inner(Some(object), "status"))?;
    in_field(alloc, "status", fault)
}

// The status of an Egress with a pool isn't read.
#[tactic(auto, unfolding(json_fields::specs::Faults::least))]
fn read_status_fault(alloc: Global, object: &Value) -> Result<Option<ReadRefusal>, NoMemory>
    ensures { IfOk result (λ f. f ≡ least (if is_pooled (spec_of (view object.now)) then [] else status_faults (view object.now))) }
{
    if is_pooled(spec_of(object)) {
        Ok(None)
    } else {
        status_fault(alloc, object)
    }
}

/// The fault of an Egress.
#[tactic(auto, using(json_fields::specs::FaultLaws::least_append), unfolding(crate::specs::Egresses::egress_faults))]
pub fn egress_fault(alloc: Global, object: &Value) -> Result<Option<ReadRefusal>, NoMemory>
    ensures { IfOk result (λ f. f ≡ least (egress_faults (view object.now))) }
{
    let named = named_fault(alloc, object)?;
    let spec = egress_spec_field_fault(alloc, object)?;
    let status = read_status_fault(alloc, object)?;
    Ok(earlier(earlier(named, spec), status))
}

#[tactic(auto, unfolding(crate::specs::Egresses::asked_address))]
fn asked_address(spec: Option<&Value>) -> Option<Addr>
    ensures { result ≡ asked_address (option_map (λ v. view v.now) spec.entry) }
{
    match address_text(spec) {
        Some(text) => four_of(text.as_bytes()),
        None => None,
    }
}

#[tactic(auto, unfolding(crate::specs::Egresses::egress_node))]
fn egress_node(alloc: Global, object: &Value) -> Result<Text, NoMemory>
    ensures { IfOk result (λ (t : List _). t ≡ egress_node (view object.now)) }
{
    text_copy(alloc, inner(inner(Some(object), "status"), "egressNode"))
}

fn applied_group(alloc: Global, object: &Value) -> Result<GroupKey, NoMemory>
    ensures { IfOk result (λ (g : _). g ≡ cluster_group (inner (codes "appliedTo") (spec_of (view object.now)))) }
{
    cluster_group(alloc, inner(spec_of(object), "appliedTo"))
}

#[tactic(auto, unfolding(crate::specs::Egresses::egress_value))]
fn egress_value(alloc: Global, object: &Value) -> Result<EgressObj, NoMemory>
    ensures { IfOk result (λ (e : _). e ≡ egress_value (view object.now)) }
{
    let name = name_of(alloc, object)?;
    let address = asked_address(spec_of(object)).unwrap_or(Addr::V4(0));
    let node = egress_node(alloc, object)?;
    let applied = applied_group(alloc, object)?;
    Ok(EgressObj {
        name,
        address,
        node,
        applied,
    })
}

#[tactic(auto, unfolding(crate::specs::Egresses::pooled_value))]
fn pooled_value(alloc: Global, object: &Value) -> Result<PooledEgress, NoMemory>
    ensures { IfOk result (λ (e : _). e ≡ pooled_value (view object.now)) }
{
    let name = name_of(alloc, object)?;
    let pool = Text::of(Vec::from_slice(alloc, pool_name(spec_of(object)))?);
    let asked = asked_address(spec_of(object));
    let applied = applied_group(alloc, object)?;
    Ok(PooledEgress {
        name,
        pool,
        asked,
        applied,
    })
}

/// The Egress that an object is, with an address of its own or one of a pool.
#[tactic(auto, unfolding(crate::specs::Egresses::egress_item))]
pub fn egress_item(alloc: Global, object: &Value) -> Result<RefItem, NoMemory>
    ensures { IfOk result (λ (x : _). x ≡ egress_item (view object.now)) }
{
    if is_pooled(spec_of(object)) {
        Ok(RefItem::PutPooled(pooled_value(alloc, object)?))
    } else {
        let egress = egress_value(alloc, object)?;
        Ok(RefItem::Plain(Change::Put(Object::Egress(egress))))
    }
}

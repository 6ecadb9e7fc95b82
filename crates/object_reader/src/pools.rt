//! Reading pools of addresses for Egresses.
ghost use Rattle.std.specs.Prelude.{◌≡◌, ◌≤◌, [], List, IfOk, Some, map, option_map, option_and_then, codes};
ghost use Rattle.serde_json.specs.View.{view};
ghost use Rattle.json_fields.specs.Faults.{least};
ghost use Rattle.json_fields.specs.Fields.{inner};
ghost use Rattle.json_fields.specs.Shapes.{in_field, text_faults, unless};
ghost use Rattle.json_fields.specs.Unknown.{other_field};
ghost use Rattle.json_fields.specs.declared.refusal.ReadRefusal.TheVariants.{BadShape};
ghost use Rattle.object_reader.specs.Texts.{four_of};
ghost use Rattle.object_reader.specs.Pools.{six_faults, ranges_in, is_block_range, is_ends_range, block_text_faults, end_text_faults, block_range_faults, start_faults, end_faults, start_of, end_of, are_in_order, ends_range_faults, range_faults, ranges_of, ranges_faults, chooses_nodes, node_selector_faults, pool_spec_faults, pool_faults, last_from, last_of, range_block, range_value, ranges_value, pool_value};

use crate::nodes::{name_of, named_fault, spec_of};
use crate::texts::{four_of, has_colon, read_block};
use cl_types::{Addr, List, NoMemory, Prefix};
use cluster_types::{Pool, Range};
use json_fields::{
    ReadRefusal, Reading, bad_shape, earlier, elements, elements_fault, in_field, inner,
    list_value, object_fault, other_field, text_field_fault, text_in, unsupported,
};
use serde_json::Value;
use std::alloc::Global;

// The greatest address of IPv4, as a number.
const GREATEST: u64 = 4294967295;

// ---- one range

#[tactic(auto, unfolding(crate::specs::Pools::is_block_range))]
fn is_block_range(value: &Value) -> bool
    ensures { result ≡ is_block_range (view value.now) }
{
    inner(Some(value), "cidr").is_some() && !other_field(["cidr"].as_slice(), Some(value)).is_some()
}

#[tactic(auto, unfolding(crate::specs::Pools::is_ends_range))]
fn is_ends_range(value: &Value) -> bool
    ensures { result ≡ is_ends_range (view value.now) }
{
    inner(Some(value), "start").is_some()
        && (inner(Some(value), "end").is_some()
            && !other_field(["start", "end"].as_slice(), Some(value)).is_some())
}

fn six_fault(alloc: Global) -> Result<Option<ReadRefusal>, NoMemory>
    ensures { IfOk result (λ f. f ≡ least six_faults) }
{
    unsupported(alloc, Some("ipRanges"))
}

#[tactic(auto, unfolding(json_fields::specs::Faults::least, json_fields::specs::Faults::earlier))]
fn block_text_fault(alloc: Global, text: Option<&str>) -> Result<Option<ReadRefusal>, NoMemory>
    ensures { IfOk result (λ f. f ≡ least (block_text_faults (option_map (λ s. s.now) text.entry))) }
{
    let Some(text) = text else {
        return Ok(None);
    };
    if has_colon(text.as_bytes()) {
        return six_fault(alloc);
    }
    match read_block(text.as_bytes()) {
        Some(_) => Ok(None),
        None => Ok(Some(ReadRefusal::BadPrefix)),
    }
}

#[tactic(auto, unfolding(json_fields::specs::Faults::least, json_fields::specs::Faults::earlier))]
fn end_text_fault(alloc: Global, text: Option<&str>) -> Result<Option<ReadRefusal>, NoMemory>
    ensures { IfOk result (λ f. f ≡ least (end_text_faults (option_map (λ s. s.now) text.entry))) }
{
    let Some(text) = text else {
        return Ok(None);
    };
    if has_colon(text.as_bytes()) {
        return six_fault(alloc);
    }
    match four_of(text.as_bytes()) {
        Some(_) => Ok(None),
        None => Ok(Some(ReadRefusal::BadAddr)),
    }
}

#[tactic(auto, using(json_fields::specs::FaultLaws::least_append), unfolding(crate::specs::Pools::block_range_faults))]
fn block_range_fault(alloc: Global, value: &Value) -> Result<Option<ReadRefusal>, NoMemory>
    ensures { IfOk result (λ f. f ≡ least (block_range_faults (view value.now))) }
{
    let kind = text_field_fault(alloc, "cidr", Some(value))?;
    let form = block_text_fault(alloc, text_in(inner(Some(value), "cidr")))?;
    Ok(earlier(kind, form))
}

#[tactic(auto, using(json_fields::specs::FaultLaws::least_append), unfolding(crate::specs::Pools::start_faults))]
fn start_fault(alloc: Global, value: &Value) -> Result<Option<ReadRefusal>, NoMemory>
    ensures { IfOk result (λ f. f ≡ least (start_faults (view value.now))) }
{
    let kind = text_field_fault(alloc, "start", Some(value))?;
    let form = end_text_fault(alloc, text_in(inner(Some(value), "start")))?;
    Ok(earlier(kind, form))
}

#[tactic(auto, using(json_fields::specs::FaultLaws::least_append), unfolding(crate::specs::Pools::end_faults))]
fn end_fault(alloc: Global, value: &Value) -> Result<Option<ReadRefusal>, NoMemory>
    ensures { IfOk result (λ f. f ≡ least (end_faults (view value.now))) }
{
    let kind = text_field_fault(alloc, "end", Some(value))?;
    let form = end_text_fault(alloc, text_in(inner(Some(value), "end")))?;
    Ok(earlier(kind, form))
}

fn four_in(text: Option<&str>) -> Option<Addr>
    ensures { result ≡ option_and_then four_of (option_map (λ s. s.now) text.entry) }
{
    match text {
        Some(text) => four_of(text.as_bytes()),
        None => None,
    }
}

#[tactic(auto, unfolding(crate::specs::Pools::start_of))]
fn start_of(value: &Value) -> Option<Addr>
    ensures { result ≡ start_of (view value.now) }
{
    four_in(text_in(inner(Some(value), "start")))
}

#[tactic(auto, unfolding(crate::specs::Pools::end_of))]
fn end_of(value: &Value) -> Option<Addr>
    ensures { result ≡ end_of (view value.now) }
{
    four_in(text_in(inner(Some(value), "end")))
}

fn are_in_order(lo: Option<Addr>, hi: Option<Addr>) -> bool
    ensures { result ≡ are_in_order lo hi }
{
    match (lo, hi) {
        (Some(Addr::V4(lo)), Some(Addr::V4(hi))) => lo <= hi,
        _ => true,
    }
}

#[tactic(auto, unfolding(json_fields::specs::Faults::least, json_fields::specs::Faults::earlier))]
fn order_fault(alloc: Global, value: &Value) -> Option<ReadRefusal>
    ensures { result ≡ least (unless (are_in_order (start_of (view value.now)) (end_of (view value.now))) (BadShape [])) }
{
    if are_in_order(start_of(value), end_of(value)) {
        None
    } else {
        Some(bad_shape(alloc))
    }
}

#[tactic(auto, using(json_fields::specs::FaultLaws::least_append), unfolding(crate::specs::Pools::ends_range_faults))]
fn ends_range_fault(alloc: Global, value: &Value) -> Result<Option<ReadRefusal>, NoMemory>
    ensures { IfOk result (λ f. f ≡ least (ends_range_faults (view value.now))) }
{
    let start = start_fault(alloc, value)?;
    let end = end_fault(alloc, value)?;
    Ok(earlier(earlier(start, end), order_fault(alloc, value)))
}

#[tactic(auto, unfolding(crate::specs::Pools::range_faults, json_fields::specs::Faults::least, json_fields::specs::Faults::earlier))]
fn range_fault(alloc: Global, value: &Value) -> Result<Option<ReadRefusal>, NoMemory>
    ensures { IfOk result (λ f. f ≡ least (range_faults (view value.now))) }
{
    if is_block_range(value) {
        block_range_fault(alloc, value)
    } else if is_ends_range(value) {
        ends_range_fault(alloc, value)
    } else {
        Ok(Some(bad_shape(alloc)))
    }
}

fn last_from(n: u32, len: u8) -> Addr
    requires { len ≤ 32 }
    ensures { result ≡ last_from n len }
{
    let size = 2u64.pow(u32::from(32 - len));
    let end = u64::from(n) + size;
    if end <= GREATEST {
        Addr::V4((end - 1) as u32)
    } else {
        Addr::V4(u32::MAX)
    }
}

fn last_of(block: &Prefix) -> Addr
    ensures { result ≡ last_of block.now block.now.base }
{
    match block.base {
        Addr::V4(n) => last_from(n, block.len),
        Addr::V6(_) => block.base,
    }
}

#[tactic(auto, unfolding(crate::specs::Pools::range_block))]
fn range_block(value: &Value) -> Prefix
    ensures { result ≡ range_block (view value.now) }
{
    let none = Prefix {
        base: Addr::V4(0),
        len: 32,
    };
    match text_in(inner(Some(value), "cidr")) {
        Some(text) => read_block(text.as_bytes()).unwrap_or(none),
        None => none,
    }
}

#[tactic(auto, unfolding(crate::specs::Pools::range_value))]
fn range_value(value: &Value) -> Range
    ensures { result ≡ range_value (view value.now) }
{
    if is_block_range(value) {
        let block = range_block(value);
        Range {
            lo: block.base,
            hi: last_of(&block),
        }
    } else {
        Range {
            lo: start_of(value).unwrap_or(Addr::V4(0)),
            hi: end_of(value).unwrap_or(Addr::V4(0)),
        }
    }
}

// A range of a pool.
struct PoolRange;

impl Reading for PoolRange {
    type Item = Range;

    ghost faults = { λ _. range_faults };

    ghost meaning = { λ _. range_value };

    fn fault(&self, alloc: Global, value: &Value) -> Result<Option<ReadRefusal>, NoMemory> {
        range_fault(alloc, value)
    }

    fn read(&self, _alloc: Global, value: &Value) -> Result<Range, NoMemory> {
        Ok(range_value(value))
    }
}

// ---- pools

#[tactic(auto, unfolding(crate::specs::Pools::ranges_of, json_fields::specs::Faults::least, json_fields::specs::Faults::earlier))]
fn ranges_of(alloc: Global, value: Option<&Value>) -> Result<Option<ReadRefusal>, NoMemory>
    ensures { IfOk result (λ f. f ≡ least (ranges_of (option_map (λ v. view v.now) value.entry))) }
{
    let Some(value) = value else {
        return Ok(Some(bad_shape(alloc)));
    };
    match elements(value) {
        Some(items) => some_ranges(alloc, items),
        None => Ok(Some(bad_shape(alloc))),
    }
}

#[tactic(auto, unfolding(json_fields::specs::Faults::least, json_fields::specs::Faults::earlier))]
fn some_ranges(alloc: Global, items: &[Value]) -> Result<Option<ReadRefusal>, NoMemory>
    ensures { IfOk result (λ f. f ≡ least (ranges_in (Some (map view items.now)))) }
{
    match items {
        [] => Ok(Some(bad_shape(alloc))),
        _ => elements_fault(alloc, &PoolRange, items),
    }
}

#[tactic(auto, using(json_fields::specs::FaultLaws::least_at), unfolding(crate::specs::Pools::ranges_faults, json_fields::specs::Shapes::in_field))]
fn ranges_fault(alloc: Global, spec: Option<&Value>) -> Result<Option<ReadRefusal>, NoMemory>
    ensures { IfOk result (λ f. f ≡ least (ranges_faults (option_map (λ v. view v.now) spec.entry))) }
{
    let fault = ranges_of(alloc, inner(spec, "ipRanges"))?;
    in_field(alloc, "ipRanges", fault)
}

fn chooses_nodes(value: Option<&Value>) -> bool
    ensures { result ≡ chooses_nodes (option_map (λ v. view v.now) value.entry) }
{
    let none: &[&str] = &[];
    match value {
        Some(value) => {
            if value.is_object() {
                other_field(none, Some(value)).is_some()
            } else {
                true
            }
        }
        None => false,
    }
}

#[tactic(auto, unfolding(crate::specs::Pools::node_selector_faults, json_fields::specs::Faults::least))]
fn node_selector_fault(alloc: Global, spec: Option<&Value>) -> Result<Option<ReadRefusal>, NoMemory>
    ensures { IfOk result (λ f. f ≡ least (node_selector_faults (option_map (λ v. view v.now) spec.entry))) }
{
    if chooses_nodes(inner(spec, "nodeSelector")) {
        unsupported(alloc, Some("nodeSelector"))
    } else {
        Ok(None)
    }
}

#[tactic(auto, using(json_fields::specs::FaultLaws::least_append), unfolding(crate::specs::Pools::pool_spec_faults))]
fn pool_spec_fault(alloc: Global, spec: Option<&Value>) -> Result<Option<ReadRefusal>, NoMemory>
    ensures { IfOk result (λ f. f ≡ least (pool_spec_faults (option_map (λ v. view v.now) spec.entry))) }
{
    let ranges = ranges_fault(alloc, spec)?;
    let nodes = node_selector_fault(alloc, spec)?;
    Ok(earlier(earlier(object_fault(alloc, spec), ranges), nodes))
}

#[tactic(auto, using(json_fields::specs::FaultLaws::least_at), unfolding(json_fields::specs::Shapes::in_field))]
fn pool_spec_field_fault(alloc: Global, object: &Value) -> Result<Option<ReadRefusal>, NoMemory>
    ensures { IfOk result (λ f. f ≡ least (in_field (codes "spec") pool_spec_faults (Some (view object.now)))) }
{
    let fault = pool_spec_fault(alloc, inner(Some(object), "spec"))?;
    in_field(alloc, "spec", fault)
}

/// The fault of a pool.
#[tactic(auto, using(json_fields::specs::FaultLaws::least_append), unfolding(crate::specs::Pools::pool_faults))]
pub fn pool_fault(alloc: Global, object: &Value) -> Result<Option<ReadRefusal>, NoMemory>
    ensures { IfOk result (λ f. f ≡ least (pool_faults (view object.now))) }
{
    let named = named_fault(alloc, object)?;
    let spec = pool_spec_field_fault(alloc, object)?;
    Ok(earlier(named, spec))
}

#[tactic(auto, unfolding(crate::specs::Pools::ranges_value))]
fn ranges_value(alloc: Global, spec: Option<&Value>) -> Result<List<Range>, NoMemory>
    ensures { IfOk result (λ (l : List _). l ≡ ranges_value (option_map (λ v. view v.now) spec.entry)) }
{
    list_value(alloc, &PoolRange, inner(spec, "ipRanges"))
}

/// The pool that an object is.
#[tactic(auto, unfolding(crate::specs::Pools::pool_value))]
pub fn pool_value(alloc: Global, object: &Value) -> Result<Pool, NoMemory>
    ensures { IfOk result (λ (p : _). p ≡ pool_value (view object.now)) }
{
    let name = name_of(alloc, object)?;
    let ranges = ranges_value(alloc, spec_of(object))?;
    Ok(Pool { name, ranges })
}

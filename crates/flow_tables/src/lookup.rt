//! The search for the flow that a packet hits, among those that the index lists.
ghost use Rattle.std.specs.Prelude.{◌≡◌, ◌<◌, length, true, false, None, Some, option_copied};
ghost use Rattle.std.specs.List.{list_any, slice_get};
ghost use Rattle.std.specs.Option.{option_map_or};
ghost use Rattle.flow_tables.specs.Lookup.{meets, is_clauses, clauses_of, is_clause, gives, is_complete, conj_holds, can_be_hit, rule_of, hit_rule, hit_rank, rules_order, hit_order, hit_of};
ghost use Rattle.cl_types.specs.Ascending.{Ascends};
ghost use Rattle.cl_types.specs.First.{earlier};
ghost use Rattle.flow_tables.specs.declared.class.Role.TheVariants.{Start, Giving};
ghost use Rattle.flow_tables.specs.Index.{clause_order, IsDimension, IsInOrder, Covers};
ghost use Rattle.flow_tables.specs.Search.{is_before, is_shared_at, found_of, best_of, found_order, considered_flow, considered, all_considered, is_shared, places_if, shared_places, common_places, partner_places, pair_places, does_places, outranks, visited, all_visited, in_role, gives_at};

use crate::class::{Role, class_at, conj_class, scope_of};
use crate::index::{Index, clauses_of, listed, noted};
use cl_types::{Packet, RuleKey, rule_cmp, search};
use flow_entries::{Clause, Does, Flow, Table};
use std::cmp::Ordering;

// About so many clauses are passed in the time of one search.
const CLAUSES_A_SEARCH: usize = 16;

/// A packet as it comes to a table.
#[derive(Clone, Copy)]
pub(crate) struct Arrival {
    pub table: Table,
    pub packet: Packet,
    pub known: bool,
    pub skip: bool,
}

fn meets(a: &Arrival, flow: &Flow) -> bool
    ensures { result ≡ meets a.now flow.now }
{
    flow.table.is(a.table) && flow.fields.matches(&a.packet, a.known, a.skip)
}

fn is_clauses(does: &Does) -> bool
    ensures { result ≡ is_clauses does.now }
{
    matches!(does, Does::Clauses(_))
}

fn is_clause(c: &Clause, id: u32, k: u8) -> bool
    ensures { result ≡ is_clause id k c.now }
{
    c.id == id && c.k == k
}

fn has_clause_in_order(clauses: &[Clause], id: u32, k: u8) -> bool
    requires { Ascends (λ c. c) clause_order clauses.now }
    ensures { result ≡ list_any (is_clause id k) clauses.now }
{
    search(clauses, &Clause { id, k }).is_ok()
}

// `in_order` says that the clauses ascend.
fn has_clause(clauses: &[Clause], in_order: bool, id: u32, k: u8) -> bool
    requires { in_order ≡ true → Ascends (λ c. c) clause_order clauses.now }
    ensures { result ≡ list_any (is_clause id k) clauses.now }
{
    if in_order {
        return has_clause_in_order(clauses, id, k);
    }
    clauses.iter().any(|c| is_clause(c, id, k))
}

// A clause stands at the place, and is before dimension k of the id.
fn is_before(clauses: &[Clause], at: usize, id: u32, k: u8) -> bool
    ensures before { result ≡ is_before id k clauses.now at }
    ensures within { result ≡ true → at < length clauses.now }
{
    match clauses.get(at) {
        Some(c) => c.cmp(&Clause { id, k }).is_lt(),
        None => false,
    }
}

fn stands_at(clauses: &[Clause], at: usize, id: u32, k: u8) -> bool
    ensures { result ≡ option_map_or (is_clause id k) (slice_get clauses.now at) false }
{
    match clauses.get(at) {
        Some(c) => is_clause(c, id, k),
        None => false,
    }
}

fn gives(a: &Arrival, in_order: bool, priority: u16, id: u32, k: u8, flow: &Flow) -> bool
    requires { in_order ≡ true → Ascends (λ c. c) clause_order (clauses_of flow.now.does) }
    ensures { result ≡ gives a.now priority id k flow.now }
{
    meets(a, flow)
        && flow.priority == priority
        && flow.fields.conj.is_none()
        && has_clause(clauses_of(&flow.does), in_order, id, k)
}

fn gives_at(
    flows: &[Flow],
    index: &Index,
    a: &Arrival,
    priority: u16,
    id: u32,
    k: u8,
    place: usize,
) -> bool
    requires { Covers index.now flows.now }
    ensures { result ≡ gives_at flows.now a.now priority id k place }
{
    match flows.get(place) {
        Some(flow) => gives(a, index.in_order, priority, id, k, flow),
        None => false,
    }
}

fn any_gives(
    flows: &[Flow],
    index: &Index,
    a: &Arrival,
    priority: u16,
    id: u32,
    k: u8,
    places: &[usize],
) -> bool
    requires { Covers index.now flows.now }
    ensures { result ≡ list_any (gives_at flows.now a.now priority id k) places.now }
{
    for place in places {
        if gives_at(flows, index, a, priority, id, k, *place) {
            return true;
        }
    }
    false
}

// Some flow of the packet's classes gives the dimension.
fn is_in_classes(flows: &[Flow], index: &Index, a: &Arrival, priority: u16, id: u32, k: u8) -> bool
    requires { Covers index.now flows.now }
    ensures { result ≡ list_any (gives_at flows.now a.now priority id k) (in_role index.now a.now (Giving priority k)) }
{
    let role = Role::Giving { priority, k };
    for shape in noted(index, scope_of(a.table, role)) {
        let places = listed(index, class_at(a, role, *shape));
        if any_gives(flows, index, a, priority, id, k, places) {
            return true;
        }
    }
    false
}

fn is_given(flows: &[Flow], index: &Index, a: &Arrival, priority: u16, id: u32, k: u8) -> bool
    requires covers { Covers index.now flows.now }
    requires dimension { IsDimension k }
    ensures { result ≡ list_any (gives a.now priority id k) flows.now }
{
    is_in_classes(flows, index, a, priority, id, k)
}

fn is_complete(flows: &[Flow], index: &Index, a: &Arrival, priority: u16, id: u32) -> bool
    requires { Covers index.now flows.now }
    ensures { result ≡ is_complete flows.now a.now priority id }
{
    // a search comes with ids whose first two dimensions are given
    is_given(flows, index, a, priority, id, 3)
        && is_given(flows, index, a, priority, id, 2)
        && is_given(flows, index, a, priority, id, 1)
}

fn conj_holds(flows: &[Flow], index: &Index, a: &Arrival, flow: &Flow) -> bool
    requires { Covers index.now flows.now }
    ensures { result ≡ conj_holds flows.now a.now flow.now.priority flow.now.fields.conj }
{
    match flow.fields.conj {
        None => true,
        Some(id) => is_complete(flows, index, a, flow.priority, id),
    }
}

fn can_be_hit(flows: &[Flow], index: &Index, a: &Arrival, flow: &Flow) -> bool
    requires { Covers index.now flows.now }
    ensures { result ≡ can_be_hit flows.now a.now flow.now }
{
    !is_clauses(&flow.does) && meets(a, flow) && conj_holds(flows, index, a, flow)
}

fn rule_of(does: &Does) -> Option<&RuleKey>
    ensures { option_copied result ≡ rule_of does.now }
{
    match does {
        Does::Verdict { rule, .. } => Some(rule),
        _ => None,
    }
}

fn hit_rule(flow: &Flow) -> Option<&RuleKey>
    ensures { option_copied result ≡ hit_rule flow.now }
{
    if flow.fields.conj.is_none() {
        return None;
    }
    rule_of(&flow.does)
}

fn hit_rank(flow: &Flow) -> u8
    ensures { result ≡ hit_rank flow.now }
{
    if flow.fields.conj.is_none() { 0 } else { 1 }
}

fn rules_cmp(a: Option<&RuleKey>, b: Option<&RuleKey>) -> Ordering
    ensures { result ≡ rules_order (option_copied a.entry) (option_copied b.entry) }
{
    match (a, b) {
        (Some(a), Some(b)) => rule_cmp(a, b),
        (Some(_), None) => Ordering::Less,
        (None, Some(_)) => Ordering::Greater,
        (None, None) => Ordering::Equal,
    }
}

fn hit_cmp(f: &Flow, g: &Flow) -> Ordering
    ensures { result ≡ hit_order f.now g.now }
{
    g.priority
        .cmp(&f.priority)
        .then(hit_rank(f).cmp(&hit_rank(g)))
        .then(rules_cmp(hit_rule(f), hit_rule(g)))
}

/// A flow with its place in the listing.
#[derive(Clone, Copy)]
pub(crate) struct Hit<'t> {
    pub place: usize,
    pub flow: &'t Flow,
}

fn found_cmp(a: &Hit, b: &Hit) -> Ordering
    ensures { result ≡ found_order (found_of a.now) (found_of b.now) }
{
    hit_cmp(a.flow, b.flow).then(a.place.cmp(&b.place))
}

fn earlier<'t>(hit: Hit<'t>, best: Option<Hit<'t>>) -> Hit<'t>
    ensures { found_of result ≡ earlier found_order (found_of hit.entry) (best_of best.entry) }
{
    match best {
        Some(best) if found_cmp(&hit, &best).is_gt() => best,
        _ => hit,
    }
}

// The best so far is hit before this one.
fn is_behind(hit: &Hit, best: Option<Hit>) -> bool
    ensures { result ≡ true → Some (earlier found_order (found_of hit.now) (best_of best.entry)) ≡ best_of best.entry }
{
    match best {
        Some(best) => found_cmp(hit, &best).is_gt(),
        None => false,
    }
}

// The better of the best so far and the flow, where that can be hit.
fn consider_flow<'t>(
    flows: &'t [Flow],
    index: &Index,
    a: &Arrival,
    best: Option<Hit<'t>>,
    hit: Hit<'t>,
) -> Option<Hit<'t>>
    requires { Covers index.now flows.now }
    ensures { best_of result ≡ considered_flow flows.now a.now (best_of best.entry) hit.entry.place (Some hit.entry.flow.now) }
{
    if !is_behind(&hit, best) && can_be_hit(flows, index, a, hit.flow) {
        return Some(earlier(hit, best));
    }
    best
}

// The better of the best so far and the flow at the place.
fn consider<'t>(
    flows: &'t [Flow],
    index: &Index,
    a: &Arrival,
    best: Option<Hit<'t>>,
    place: usize,
) -> Option<Hit<'t>>
    requires { Covers index.now flows.now }
    ensures { best_of result ≡ considered flows.now a.now (best_of best.entry) place }
{
    match flows.get(place) {
        Some(flow) => consider_flow(flows, index, a, best, Hit { place, flow }),
        None => best,
    }
}

fn consider_all<'t>(
    flows: &'t [Flow],
    index: &Index,
    a: &Arrival,
    best: Option<Hit<'t>>,
    places: &[usize],
) -> Option<Hit<'t>>
    requires { Covers index.now flows.now }
    ensures { best_of result ≡ all_considered flows.now a.now (best_of best.entry) places.now }
{
    let mut best = best;
    for place in places {
        best = consider(flows, index, a, best, *place);
    }
    best
}

// The clause has dimension k of an id whose dimension l is among the others.
fn is_shared(index: &Index, clause: &Clause, k: u8, others: &[Clause], l: u8) -> bool
    requires { IsInOrder index.now others.now }
    ensures { result ≡ is_shared k l others.now clause.now }
{
    clause.k == k && has_clause(others, index.in_order, clause.id, l)
}

// The clause has dimension k of an id whose dimension l stands at the place.
fn is_shared_at(clause: &Clause, k: u8, others: &[Clause], l: u8, at: usize) -> bool
    ensures { result ≡ is_shared_at k l others.now at clause.now }
{
    clause.k == k && stands_at(others, at, clause.id, l)
}

// The places of the conj flows of the clause's id, where it is shared.
fn places_if<'i>(shared: bool, index: &'i Index, flow: &Flow, clause: &Clause) -> &'i [usize]
    ensures { result.now ≡ places_if shared index.now flow.now clause.now }
{
    if !shared {
        return &[];
    }
    listed(index, conj_class(flow.table, flow.priority, clause.id))
}

// Clauses of which those of a dimension are meant.
#[derive(Clone, Copy)]
struct Side<'c> {
    clauses: &'c [Clause],
    k: u8,
}

// The conj flows of the ids that are on both sides.
fn consider_shared<'t>(
    flows: &'t [Flow],
    index: &Index,
    a: &Arrival,
    best: Option<Hit<'t>>,
    flow: &Flow,
    mine: Side,
    other: Side,
) -> Option<Hit<'t>>
    requires covers { Covers index.now flows.now }
    requires order { IsInOrder index.now other.clauses.now }
    ensures { best_of result ≡ all_considered flows.now a.now (best_of best.entry) (shared_places index.now flow.now mine.entry.k other.entry.k other.entry.clauses.now mine.entry.clauses.now) }
{
    let mut best = best;
    for clause in mine.clauses {
        let shared = is_shared(index, clause, mine.k, other.clauses, other.k);
        let places = places_if(shared, index, flow, clause);
        best = consider_all(flows, index, a, best, places);
    }
    best
}

// The same as `consider_shared` in one pass over both sides.
fn consider_met<'t>(
    flows: &'t [Flow],
    index: &Index,
    a: &Arrival,
    best: Option<Hit<'t>>,
    flow: &Flow,
    mine: Side,
    other: Side,
) -> Option<Hit<'t>>
    requires covers { Covers index.now flows.now }
    requires mine { Ascends (λ c. c) clause_order mine.clauses.now }
    requires other { Ascends (λ c. c) clause_order other.clauses.now }
    ensures { best_of result ≡ all_considered flows.now a.now (best_of best.entry) (shared_places index.now flow.now mine.entry.k other.entry.k other.entry.clauses.now mine.entry.clauses.now) }
{
    let mut best = best;
    let mut i = 0;
    let mut at = 0;
    while i < mine.clauses.len() {
        let clause = mine.clauses[i];
        let before = is_before(other.clauses, at, clause.id, other.k);
        let shared = is_shared_at(&clause, mine.k, other.clauses, other.k, at);
        best = consider_all(
            flows,
            index,
            a,
            best,
            places_if(shared, index, flow, &clause),
        );
        if before {
            at += 1;
        } else {
            i += 1;
        }
    }
    best
}

// The conj flows of the ids that are on both sides.
fn consider_among<'t>(
    flows: &'t [Flow],
    index: &Index,
    a: &Arrival,
    best: Option<Hit<'t>>,
    flow: &Flow,
    mine: Side,
    other: Side,
) -> Option<Hit<'t>>
    requires covers { Covers index.now flows.now }
    requires mine { IsInOrder index.now mine.clauses.now }
    requires other { IsInOrder index.now other.clauses.now }
    ensures { best_of result ≡ all_considered flows.now a.now (best_of best.entry) (shared_places index.now flow.now mine.entry.k other.entry.k other.entry.clauses.now mine.entry.clauses.now) }
{
    // one pass over the other side costs less than so many searches in it
    if index.in_order && other.clauses.len() / CLAUSES_A_SEARCH <= mine.clauses.len() {
        consider_met(flows, index, a, best, flow, mine, other)
    } else {
        consider_shared(flows, index, a, best, flow, mine, other)
    }
}

// The conj flows of the ids of which the flow gives the first dimension, and its partner the second.
fn consider_common<'t>(
    flows: &'t [Flow],
    index: &Index,
    a: &Arrival,
    best: Option<Hit<'t>>,
    flow: &Flow,
    partner: &Flow,
) -> Option<Hit<'t>>
    requires covers { Covers index.now flows.now }
    requires order { IsInOrder index.now (clauses_of flow.now.does) }
    requires partner { IsInOrder index.now (clauses_of partner.now.does) }
    ensures { best_of result ≡ all_considered flows.now a.now (best_of best.entry) (common_places index.now flow.now (clauses_of flow.now.does) (clauses_of partner.now.does)) }
{
    let first = Side {
        clauses: clauses_of(&flow.does),
        k: 1,
    };
    let second = Side {
        clauses: clauses_of(&partner.does),
        k: 2,
    };
    // the fewer are looked for among the more
    if first.clauses.len() <= second.clauses.len() {
        consider_among(flows, index, a, best, flow, first, second)
    } else {
        consider_among(flows, index, a, best, flow, second, first)
    }
}

fn consider_partner<'t>(
    flows: &'t [Flow],
    index: &Index,
    a: &Arrival,
    best: Option<Hit<'t>>,
    flow: &Flow,
    place: usize,
) -> Option<Hit<'t>>
    requires covers { Covers index.now flows.now }
    requires order { IsInOrder index.now (clauses_of flow.now.does) }
    ensures { best_of result ≡ all_considered flows.now a.now (best_of best.entry) (partner_places index.now flows.now a.now flow.now place) }
{
    match flows.get(place) {
        Some(partner) if meets(a, partner) => {
            consider_common(flows, index, a, best, flow, partner)
        }
        _ => best,
    }
}

fn consider_partners<'t>(
    flows: &'t [Flow],
    index: &Index,
    a: &Arrival,
    best: Option<Hit<'t>>,
    flow: &Flow,
    places: &[usize],
) -> Option<Hit<'t>>
    requires covers { Covers index.now flows.now }
    requires order { IsInOrder index.now (clauses_of flow.now.does) }
    ensures { best_of result ≡ all_considered flows.now a.now (best_of best.entry) (pair_places index.now flows.now a.now flow.now places.now) }
{
    let mut best = best;
    for place in places {
        best = consider_partner(flows, index, a, best, flow, *place);
    }
    best
}

// The conj flows of the ids of which the flow gives the first dimension, and others the second.
fn consider_conj<'t>(
    flows: &'t [Flow],
    index: &Index,
    a: &Arrival,
    best: Option<Hit<'t>>,
    flow: &Flow,
) -> Option<Hit<'t>>
    requires covers { Covers index.now flows.now }
    requires order { IsInOrder index.now (clauses_of flow.now.does) }
    ensures { best_of result ≡ all_considered flows.now a.now (best_of best.entry) (pair_places index.now flows.now a.now flow.now (in_role index.now a.now (Giving flow.now.priority 2))) }
{
    let role = Role::Giving {
        priority: flow.priority,
        k: 2,
    };
    let mut best = best;
    for shape in noted(index, scope_of(a.table, role)) {
        let places = listed(index, class_at(a, role, *shape));
        best = consider_partners(flows, index, a, best, flow, places);
    }
    best
}

fn visit_flow<'t>(
    flows: &'t [Flow],
    index: &Index,
    a: &Arrival,
    best: Option<Hit<'t>>,
    place: usize,
    flow: &Flow,
) -> Option<Hit<'t>>
    requires covers { Covers index.now flows.now }
    requires order { IsInOrder index.now (clauses_of flow.now.does) }
    ensures { best_of result ≡ all_considered flows.now a.now (best_of best.entry) (does_places index.now flows.now a.now place flow.now flow.now.does) }
{
    match &flow.does {
        Does::Clauses(_) if meets(a, flow) => consider_conj(flows, index, a, best, flow),
        Does::Clauses(_) => best,
        _ => consider(flows, index, a, best, place),
    }
}

fn outranks(best: Option<Hit>, priority: u16) -> bool
    ensures { result ≡ outranks (best_of best.entry) priority }
{
    match best {
        Some(hit) => priority < hit.flow.priority,
        None => false,
    }
}

// What the flow at the place leads to: itself, or the conj flows of its ids.
fn visit<'t>(
    flows: &'t [Flow],
    index: &Index,
    a: &Arrival,
    best: Option<Hit<'t>>,
    place: usize,
) -> Option<Hit<'t>>
    requires { Covers index.now flows.now }
    ensures { best_of result ≡ visited index.now flows.now a.now (best_of best.entry) place }
{
    match flows.get(place) {
        Some(flow) if !outranks(best, flow.priority) => {
            visit_flow(flows, index, a, best, place, flow)
        }
        _ => best,
    }
}

fn visit_all<'t>(
    flows: &'t [Flow],
    index: &Index,
    a: &Arrival,
    best: Option<Hit<'t>>,
    places: &[usize],
) -> Option<Hit<'t>>
    requires { Covers index.now flows.now }
    ensures { best_of result ≡ all_visited index.now flows.now a.now (best_of best.entry) places.now }
{
    let mut best = best;
    for place in places {
        best = visit(flows, index, a, best, *place);
    }
    best
}

// The best of the flows to which those lead with which a search starts.
fn visit_classes<'t>(flows: &'t [Flow], index: &Index, a: &Arrival) -> Option<Hit<'t>>
    requires { Covers index.now flows.now }
    ensures { best_of result ≡ all_visited index.now flows.now a.now None (in_role index.now a.now Start) }
{
    let mut best = None;
    for shape in noted(index, scope_of(a.table, Role::Start)) {
        best = visit_all(
            flows,
            index,
            a,
            best,
            listed(index, class_at(a, Role::Start, *shape)),
        );
    }
    best
}

/// The flow that is hit.
pub(crate) fn hit_of<'t>(flows: &'t [Flow], index: &Index, a: &Arrival) -> Option<&'t Flow>
    requires { Covers index.now flows.now }
    ensures { option_copied result ≡ hit_of flows.now a.now }
{
    match visit_classes(flows, index, a) {
        Some(hit) => Some(hit.flow),
        None => None,
    }
}

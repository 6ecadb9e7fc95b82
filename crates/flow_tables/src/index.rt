//! The places of flows by their classes.
ghost use Rattle.std.specs.Prelude.{◌≡◌, true, false, IfOk, OnOk, None};
ghost use Rattle.flow_tables.specs.declared.class.Class.{Class};
ghost use Rattle.flow_tables.specs.declared.class.Scope.{Scope};
ghost use Rattle.flow_tables.specs.declared.class.Role.TheVariants.{Start};
ghost use Rattle.std.specs.Ordering.{is_lt};
ghost use Rattle.cl_types.specs.Ascending.{Ascends};
ghost use Rattle.flow_tables.specs.Lookup.{clauses_of};
ghost use Rattle.flow_tables.specs.Index.{clause_order, class_eq, scope_eq, listed_in, listed, noted_in, noted, Adds, has_shape, Notes, Lists, Has, IsListed, Enters, has_dimension, is_start, IsListedTo, IsFree, Learns, Covers};

use crate::class::{Class, Role, Scope, Shape, class_of, conj_class, scope_of, shape_of};
use cl_types::NoMemory;
use flow_entries::{Clause, Does, Flow};
use indexmap::IndexMap;
use smallvec::SmallVec;
use std::alloc::Global;

/// The places of the flows of a class. Most classes have one flow.
type Places = SmallVec<usize, 1>;

/// The places of the flows of each class.
type Classes = IndexMap<Class, Places>;

/// The shapes of the flows of each scope.
type Shapes = IndexMap<Scope, Vec<Shape>>;

/// The places in a list of the flows of each class, the shapes of the flows of each scope, and whether the
/// clauses of each flow ascend.
#[derive(Debug, Drop)]
pub(crate) struct Index {
    pub classes: IndexMap<Class, SmallVec<usize, 1>>,
    pub shapes: IndexMap<Scope, Vec<Shape>>,
    pub in_order: bool,
}

/// The places of the flows of the class.
pub(crate) fn listed(index: &Index, class: Class) -> &[usize]
    ensures { result.now ≡ listed index.now class }
{
    match index.classes.get(&class) {
        Some(places) => places.as_slice(),
        None => &[],
    }
}

/// The shapes of the flows of the scope.
pub(crate) fn noted(index: &Index, scope: Scope) -> &[Shape]
    ensures { result.now ≡ noted index.now scope }
{
    match index.shapes.get(&scope) {
        Some(shapes) => shapes.as_slice(),
        None => &[],
    }
}

// ---- classes and shapes

// Takes out the places of the class.
fn take_places(classes: &mut Classes, class: Class) -> Places
    ensures places { result.items ≡ listed_in classes.old class }
    ensures others { (c : Class) → class_eq class c ≡ false → listed_in classes.new c ≡ listed_in classes.old c }
{
    match classes.swap_remove(&class) {
        Some(places) => places,
        None => SmallVec::new(*classes.allocator()),
    }
}

// Lists the place under the class.
fn add(classes: &mut Classes, class: Class, place: usize) -> Result<(), NoMemory>
    ensures { OnOk result (Adds class place classes.old classes.new) }
{
    let mut places = take_places(classes, class);
    places.push(place)?;
    classes.insert(class, places)?;
    Ok(())
}

fn has_shape(shapes: &[Shape], shape: Shape) -> bool
    ensures { result ≡ has_shape shape shapes.now }
{
    shapes.iter().any(|s| s.is(shape))
}

fn is_noted(shapes: &Shapes, scope: Scope, shape: Shape) -> bool
    ensures { result ≡ has_shape shape (noted_in shapes.now scope) }
{
    match shapes.get(&scope) {
        Some(noted) => has_shape(noted.as_slice(), shape),
        None => false,
    }
}

// Takes out the shapes of the scope.
fn take_shapes(shapes: &mut Shapes, scope: Scope) -> Vec<Shape>
    ensures noted { result.items ≡ noted_in shapes.old scope }
    ensures others { (s : Scope) → scope_eq scope s ≡ false → noted_in shapes.new s ≡ noted_in shapes.old s }
{
    match shapes.swap_remove(&scope) {
        Some(noted) => noted,
        None => Vec::new(*shapes.allocator()),
    }
}

// Adds the shape to those of the scope.
fn add_shape(shapes: &mut Shapes, scope: Scope, shape: Shape) -> Result<(), NoMemory>
    ensures { OnOk result (Notes scope shape shapes.old shapes.new) }
{
    let mut noted = take_shapes(shapes, scope);
    noted.push(shape)?;
    shapes.insert(scope, noted)?;
    Ok(())
}

// The same, where it isn't there.
fn note(shapes: &mut Shapes, scope: Scope, shape: Shape) -> Result<(), NoMemory>
    ensures { OnOk result (Notes scope shape shapes.old shapes.new) }
{
    if is_noted(shapes, scope, shape) {
        return Ok(());
    }
    add_shape(shapes, scope, shape)
}

// ---- flows

// Lists the flow at the place in the role.
fn enter(
    classes: &mut Classes,
    shapes: &mut Shapes,
    place: usize,
    flow: &Flow,
    role: Role,
) -> Result<(), NoMemory>
    ensures { OnOk result (Enters role place flow.now classes.old classes.new shapes.old shapes.new) }
{
    add(classes, class_of(flow, role), place)?;
    note(shapes, scope_of(flow.table, role), shape_of(flow))
}

fn has_dimension(clauses: &[Clause], k: u8) -> bool
    ensures { result ≡ has_dimension k clauses.now }
{
    clauses.iter().any(|c| c.k == k)
}

fn is_start(does: &Does) -> bool
    ensures { result ≡ is_start does.now }
{
    match does {
        Does::Clauses(clauses) => has_dimension(clauses.as_slice(), 1),
        _ => true,
    }
}

/// The clauses, where the flow has some.
pub(crate) fn clauses_of(does: &Does) -> &[Clause]
    ensures { result.now ≡ clauses_of does.now }
{
    match does {
        Does::Clauses(clauses) => clauses.as_slice(),
        _ => &[],
    }
}

// Lists the flow in its dimensions.
fn enter_dimensions(
    classes: &mut Classes,
    shapes: &mut Shapes,
    place: usize,
    flow: &Flow,
) -> Result<(), NoMemory>
    ensures at { OnOk result (IsListedTo classes.new shapes.new place flow.now 4) }
    ensures lists { OnOk result (Lists classes.old classes.new) }
    ensures has { OnOk result (Has shapes.old shapes.new) }
{
    for k in 1..4u8 {
        if has_dimension(clauses_of(&flow.does), k) {
            let role = Role::Giving {
                priority: flow.priority,
                k,
            };
            enter(classes, shapes, place, flow, role)?;
        }
    }
    Ok(())
}

// Lists the flow where a search starts with it.
fn enter_start(
    classes: &mut Classes,
    shapes: &mut Shapes,
    place: usize,
    flow: &Flow,
) -> Result<(), NoMemory>
    ensures start { OnOk result (is_start flow.now.does ≡ true → IsListed classes.new shapes.new Start place flow.now) }
    ensures lists { OnOk result (Lists classes.old classes.new) }
    ensures has { OnOk result (Has shapes.old shapes.new) }
{
    if !is_start(&flow.does) {
        return Ok(());
    }
    enter(classes, shapes, place, flow, Role::Start)
}

// Lists a flow without the field `conj`.
fn enter_free(
    classes: &mut Classes,
    shapes: &mut Shapes,
    place: usize,
    flow: &Flow,
) -> Result<(), NoMemory>
    ensures free { OnOk result (IsFree classes.new shapes.new place flow.now) }
    ensures lists { OnOk result (Lists classes.old classes.new) }
    ensures has { OnOk result (Has shapes.old shapes.new) }
{
    enter_dimensions(classes, shapes, place, flow)?;
    enter_start(classes, shapes, place, flow)
}

// Lists the flow in all its roles.
fn learn(
    classes: &mut Classes,
    shapes: &mut Shapes,
    place: usize,
    flow: &Flow,
) -> Result<(), NoMemory>
    ensures { OnOk result (Learns place flow.now classes.old classes.new shapes.old shapes.new) }
{
    match flow.fields.conj {
        Some(id) => add(classes, conj_class(flow.table, flow.priority, id), place),
        None => enter_free(classes, shapes, place, flow),
    }
}

// ---- the order of clauses

fn ascend(clauses: &[Clause]) -> bool
    ensures { result ≡ true → Ascends (λ c. c) clause_order clauses.now }
{
    clauses.is_sorted_by(
        |c: &Clause, d: &Clause| -> bool
            ensures { result ≡ is_lt (clause_order c.now d.now) }
        { c.cmp(d).is_lt() },
    )
}

fn stay_in_order(in_order: bool, does: &Does) -> bool
    ensures { result ≡ true → (in_order ≡ true) × Ascends (λ c. c) clause_order (clauses_of does.now) }
{
    in_order && ascend(clauses_of(does))
}

/// The index of the flows.
pub(crate) fn index_of(alloc: Global, flows: &[Flow]) -> Result<Index, NoMemory>
    ensures { IfOk result (λ index. Covers index flows.now) }
{
    let mut classes = IndexMap::new(alloc);
    let mut shapes = IndexMap::new(alloc);
    let mut in_order = true;
    for (i, flow) in flows.iter().enumerate() {
        learn(&mut classes, &mut shapes, i, flow)?;
        in_order = stay_in_order(in_order, &flow.does);
    }
    Ok(Index {
        classes,
        shapes,
        in_order,
    })
}

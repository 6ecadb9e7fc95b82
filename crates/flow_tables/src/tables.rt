ghost use Rattle.std.specs.Prelude.{◌≡◌, ◌<◌, ◌≤◌, [], length, vec_len, insert, remove, slice_set, All, IfOk, OnOk, OnErr, option_copied};
ghost use Rattle.flow_tables.specs.Lookup.{lookup};
ghost use Rattle.flow_entries.specs.Forward.{GoesForward, IsForward};
ghost use Rattle.flow_tables.specs.Order.{IsPlaced, place_of, without_place, without, with_flow, with_flows, applied};

use crate::index::{Index, index_of};
use crate::lookup::{Arrival, hit_of};
use crate::place::Place;
use cl_types::{Copies, List, NoMemory, Packet, search};
use flow_entries::{Bundle, Flow, Table};
use indexmap::IndexMap;
use std::alloc::{AllocError, Global};
use std::marker::Model;

/// The flows of a switch, in the order of their listing: by table, then priority falling, then by the
/// bytes of the match's text. No two of them have the same table, priority and match, and each `Goto`
/// leads to a later table.
#[derive(Debug, Drop)]
pub struct Tables {
    flows: List<Flow>,
    // where each flow stands, in the same order
    places: Vec<Place>,
    // the flows by their classes
    index: Index,
}

impl Model for Tables {
    ghost use Rattle.std.specs.Prelude.{List};
    ghost use Rattle.flow_entries.specs.declared.flow.Flow.{Flow};
    ghost use Rattle.flow_tables.specs.Order.{IsPlaced};
    ghost use Rattle.flow_tables.specs.Index.{Covers};

    ghost Value = { List Flow };

    ghost view = { λ t. t.flows };

    ghost invariant = { λ t. IsPlaced t.flows t.places.items × Covers t.index t.flows };
}

impl Tables {
    /// No flows.
    pub fn new(alloc: Global) -> Result<Tables, NoMemory>
        ensures { IfOk result (λ tables. tables ≡ []) }
    {
        Ok(Tables {
            flows: List::new(alloc),
            places: Vec::new(alloc),
            index: Index {
                classes: IndexMap::new(alloc),
                shapes: IndexMap::new(alloc),
                in_order: true,
            },
        })
    }

    /// The flows in the order of their listing.
    pub fn flows(&self) -> &List<Flow>
        ensures { result.now ≡ self.now }
    {
        &self.flows
    }

    /// The flow of the table that the packet hits. `known` says that the packet's connection is known, and
    /// `skip` that the walk skips policy.
    #[tactic(auto, unfolding(crate::specs::Lookup::lookup))]
    pub fn lookup<'t>(
        &'t self,
        table: Table,
        p: &Packet,
        known: bool,
        skip: bool,
    ) -> Option<&'t Flow>
        ensures { option_copied result ≡ lookup self.now table p.now known skip }
    {
        let arrival = Arrival {
            table,
            packet: *p,
            known,
            skip,
        };
        hit_of(self.flows.as_slice(), &self.index, &arrival)
    }

    /// Removes, changes and adds flows. Where a flow has the table, priority and match of one that is there,
    /// it takes its place; a removed flow that isn't there is passed over.
    pub fn apply(&mut self, b: &Bundle) -> Result<(), NoMemory>
        requires { IsForward b.now }
        ensures ok { OnOk result (self.new ≡ applied b.now self.old) }
        ensures err { OnErr result (self.new ≡ self.old) }
    {
        let mut flows = self.flows.copy()?;
        let mut places = copy_places(*self.places.allocator(), self.places.as_slice())?;
        edit(&mut flows, &mut places, b)?;
        *self = indexed(flows, places)?;
        Ok(())
    }
}

impl Clone for Tables {
    ghost is_clone = { λ tables copy. copy ≡ tables };

    fn clone(&self) -> Result<Tables, AllocError> {
        match copied(&self.flows, &self.places) {
            Ok(tables) => Ok(tables),
            Err(NoMemory) => Err(AllocError),
        }
    }
}

impl Copies for Tables {
    ghost exact = { λ x y h. h };
}

// Tables of copies of these flows.
fn copied(flows: &List<Flow>, places: &Vec<Place>) -> Result<Tables, NoMemory>
    requires { IsPlaced flows.now places.now.items }
    ensures { IfOk result (λ tables. tables ≡ flows.now) }
{
    let copies = copy_places(*places.allocator(), places.as_slice())?;
    indexed(flows.copy()?, copies)
}

// Tables of these flows.
fn indexed(flows: List<Flow>, places: Vec<Place>) -> Result<Tables, NoMemory>
    requires { IsPlaced flows places.items }
    ensures { IfOk result (λ tables. tables ≡ flows) }
{
    let index = index_of(*places.allocator(), flows.as_slice())?;
    Ok(Tables {
        flows,
        places,
        index,
    })
}

fn copy_places(alloc: Global, places: &[Place]) -> Result<Vec<Place>, NoMemory>
    ensures { IfOk result (λ copy. copy.items ≡ places.now) }
{
    let mut copies = Vec::with_capacity(alloc, places.len())?;
    for place in places {
        copies.push(place.copy()?)?;
    }
    Ok(copies)
}

// ---- edits of the flows, with the places beside them

#[tactic(auto, unfolding(crate::specs::Order::applied))]
fn edit(flows: &mut List<Flow>, places: &mut Vec<Place>, b: &Bundle) -> Result<(), NoMemory>
    requires placed { IsPlaced flows.old places.old.items }
    requires forward { IsForward b.now }
    ensures flows { OnOk result (flows.new ≡ applied b.now flows.old) }
    ensures places { OnOk result (IsPlaced flows.new places.new.items) }
{
    remove_flows(flows, places, b.removed.as_slice())?;
    put_flows(flows, places, b.changed.as_slice())?;
    put_flows(flows, places, b.added.as_slice())
}

fn remove_flows(
    flows: &mut List<Flow>,
    places: &mut Vec<Place>,
    removed: &[Flow],
) -> Result<(), NoMemory>
    requires { IsPlaced flows.old places.old.items }
    ensures flows { OnOk result (flows.new ≡ without removed.now flows.old) }
    ensures places { IsPlaced flows.new places.new.items }
{
    for flow in removed {
        let place = Place::of(*places.allocator(), flow)?;
        remove_at(flows, places, &place);
    }
    Ok(())
}

fn put_flows(flows: &mut List<Flow>, places: &mut Vec<Place>, more: &[Flow]) -> Result<(), NoMemory>
    requires placed { IsPlaced flows.old places.old.items }
    requires forward { All GoesForward more.now }
    ensures flows { OnOk result (flows.new ≡ with_flows more.now flows.old) }
    ensures places { IsPlaced flows.new places.new.items }
{
    for flow in more {
        let place = Place::of(*places.allocator(), flow)?;
        put_at(flows, places, place, flow.copy()?)?;
    }
    Ok(())
}

fn remove_at(flows: &mut List<Flow>, places: &mut Vec<Place>, place: &Place)
    requires { IsPlaced flows.old places.old.items }
    ensures flows { flows.new ≡ without_place place.now flows.old }
    ensures places { IsPlaced flows.new places.new.items }
{
    match search(places.as_slice(), place) {
        Ok(i) => {
            places.remove(i);
            remove_flow(flows, i);
        }
        Err(_) => {}
    }
}

fn remove_flow(flows: &mut List<Flow>, i: usize)
    requires { i < length flows.old }
    ensures { flows.new ≡ remove flows.old i }
{
    flows.vec_mut().remove(i);
}

fn write_flow_at(flows: &mut List<Flow>, i: usize, flow: Flow)
    requires { i < length flows.old }
    ensures { flows.new ≡ slice_set flows.old i flow }
{
    flows.vec_mut()[i] = flow;
}

fn put_at(
    flows: &mut List<Flow>,
    places: &mut Vec<Place>,
    place: Place,
    flow: Flow,
) -> Result<(), NoMemory>
    requires placed { IsPlaced flows.old places.old.items }
    requires place { place ≡ place_of flow }
    requires forward { GoesForward flow }
    ensures flows { OnOk result (flows.new ≡ with_flow flow flows.old) }
    ensures places { IsPlaced flows.new places.new.items }
{
    match search(places.as_slice(), &place) {
        Ok(i) => {
            places[i] = place;
            write_flow_at(flows, i, flow);
            Ok(())
        }
        Err(i) => insert_at(flows, places, i, place, flow),
    }
}

// Inserts the flow and its place, or neither.
fn insert_at(
    flows: &mut List<Flow>,
    places: &mut Vec<Place>,
    i: usize,
    place: Place,
    flow: Flow,
) -> Result<(), NoMemory>
    requires flows { i ≤ length flows.old }
    requires places { i ≤ vec_len places.old }
    ensures ok { OnOk result ((flows.new ≡ insert flows.old i flow) × (places.new.items ≡ insert places.old.items i place)) }
    ensures err { OnErr result ((flows.new ≡ flows.old) × (places.new.items ≡ places.old.items)) }
{
    places.insert(i, place)?;
    if flows.vec_mut().insert(i, flow).is_err() {
        places.remove(i);
        return Err(NoMemory);
    }
    Ok(())
}

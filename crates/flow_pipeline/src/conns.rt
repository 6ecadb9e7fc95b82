ghost use Rattle.std.specs.Prelude.{◌≡◌, ◌+◌, ◌^◌, ◌<◌, ◌≤◌, [], ◌∷◌, ◌++◌, false, length, map, vec_capacity, IfOk};
ghost use Rattle.std.specs.List.{list_any};
ghost use Rattle.indexmap.specs.IndexSet.{index_set_len, spare};
ghost use Rattle.flow_pipeline.specs.Connections.{Tracked, no_connections, goes_forth, comes_back, is_of, is_known, conn_of, seen, is_full, renewed, added, noted, note, is_fresh, tick};
ghost use Rattle.flow_pipeline.specs.ConnectionIndex.{forth, back, tuple_of, tuple_eq, seen_by, AreApart};

use cl_types::{Addr, Copies, NoMemory, Packet, Proto};
use indexmap::IndexSet;
use std::alloc::{AllocError, Global};
use std::hash::{Hash, Hasher};
use std::marker::Model;

/// As many connections as a switch knows at most.
pub const MAX_CONNECTIONS: usize = 16_384;

/// After so many ticks without a packet a connection is forgotten.
pub const IDLE_TICKS: u64 = 600;

/// A connection: source and destination as in its first packet, and the clock at its last packet.
#[derive(Clone, Copy, Debug, PartialEq, Eq)]
pub struct Conn {
    pub src: Addr,
    pub dst: Addr,
    pub proto: Proto,
    pub sport: u16,
    pub dport: u16,
    pub last: u64,
}

/// What tells connections apart: protocol, source and destination.
#[derive(Clone, Copy, Debug)]
pub(crate) struct Tuple {
    pub proto: Proto,
    pub src: Addr,
    pub dst: Addr,
    pub sport: u16,
    pub dport: u16,
}

impl PartialEq for Tuple {
    ghost use Rattle.std.specs.Cmp.{partial_equiv_from_equiv};
    ghost use Rattle.flow_pipeline.specs.ConnectionIndex.{tuple_eq};
    ghost use Rattle.flow_pipeline.specs.TupleLaws.{tuple_eq_equiv};

    ghost eq = { tuple_eq };

    ghost laws = { partial_equiv_from_equiv tuple_eq_equiv };

    fn eq(&self, other: &Tuple) -> bool {
        self.proto.is(other.proto)
            && self.src.is(other.src)
            && self.dst.is(other.dst)
            && self.sport == other.sport
            && self.dport == other.dport
    }
}

impl Eq for Tuple {
    ghost use Rattle.flow_pipeline.specs.TupleLaws.{tuple_eq_equiv};

    ghost laws = { tuple_eq_equiv };
}

impl Hash for Tuple {
    ghost use Rattle.std.specs.Prelude.{◌++◌};
    ghost use Rattle.std.specs.Hash as fed;
    ghost use Rattle.std.proofs.Common.{ap};
    ghost use Rattle.flow_pipeline.specs.TupleLaws.{tuple_eq-one};

    ghost hash_input = { λ t. ⟦<Proto as Hash>⟧.hash_input t.proto ++ ⟦<Addr as Hash>⟧.hash_input t.src ++ ⟦<Addr as Hash>⟧.hash_input t.dst ++ fed.u16 t.sport ++ fed.u16 t.dport };

    ghost respects_eq = { λ a b h. ap (λ t. ⟦<Proto as Hash>⟧.hash_input t.proto ++ ⟦<Addr as Hash>⟧.hash_input t.src ++ ⟦<Addr as Hash>⟧.hash_input t.dst ++ fed.u16 t.sport ++ fed.u16 t.dport) (tuple_eq-one a b h) };

    fn hash<H: Hasher>(&self, state: &mut H) {
        self.proto.hash(state);
        self.src.hash(state);
        self.dst.hash(state);
        self.sport.hash(state);
        self.dport.hash(state);
    }
}

/// The connections that a switch knows, in the order in which they were first seen, and its clock.
/// The room for all of them is there from the start.
#[derive(Debug, Drop)]
pub struct Conns {
    clock: u64,
    list: Vec<Conn>,
    // the tuples of the list, in its order
    index: IndexSet<Tuple>,
}

impl Model for Conns {
    ghost use Rattle.std.specs.Prelude.{vec_capacity};
    ghost use Rattle.indexmap.specs.IndexSet.{spare};
    ghost use Rattle.flow_pipeline.specs.Connections.{Tracked};
    ghost use Rattle.flow_pipeline.specs.ConnectionIndex.{IsIndexed};

    ghost Value = { Tracked };

    ghost view = { λ k. record { clock = k.clock; list = k.list.items } };

    ghost invariant = { λ k. IsIndexed k.list.items (vec_capacity k.list) k.index.keys (spare k.index) };
}

fn forth(p: &Packet) -> Tuple
    ensures { result ≡ forth p.now }
{
    Tuple {
        proto: p.proto,
        src: p.src,
        dst: p.dst,
        sport: p.sport,
        dport: p.dport,
    }
}

// The tuple of a reply.
fn back(p: &Packet) -> Tuple
    ensures { result ≡ back p.now }
{
    Tuple {
        proto: p.proto,
        src: p.dst,
        dst: p.src,
        sport: p.dport,
        dport: p.sport,
    }
}

fn tuple_of(c: &Conn) -> Tuple
    ensures { result ≡ tuple_of c.now }
{
    Tuple {
        proto: c.proto,
        src: c.src,
        dst: c.dst,
        sport: c.sport,
        dport: c.dport,
    }
}

fn conn_of(p: &Packet, now: u64) -> Conn
    ensures { result ≡ conn_of p.now now }
{
    Conn {
        src: p.src,
        dst: p.dst,
        proto: p.proto,
        sport: p.sport,
        dport: p.dport,
        last: now,
    }
}

// The connection of this tuple, where there is one, is seen now.
fn see(list: &mut Vec<Conn>, index: &IndexSet<Tuple>, t: Tuple, now: u64)
    requires tuples { index.now.keys ≡ map tuple_of list.old.items }
    requires apart { AreApart index.now.keys }
    ensures items { list.new.items ≡ map (seen_by t now) list.old.items }
    ensures room { vec_capacity list.new ≡ vec_capacity list.old }
{
    if let Some(i) = index.get_index_of(&t) {
        let c = list[i];
        list[i] = Conn { last: now, ..c };
    }
}

// Puts a new tuple at the end of the index.
fn put(index: &mut IndexSet<Tuple>, t: Tuple)
    requires room { 0 < spare index.old }
    requires absent { list_any (tuple_eq t) index.old.keys ≡ false }
    ensures tuples { index.new.keys ≡ index.old.keys ++ t ∷ [] }
    ensures apart { AreApart index.new.keys }
    ensures room { spare index.old ≤ spare index.new + 1 }
{
    let _ = index.insert(t);
}

// Fills the index with the tuples of the list.
fn refill(index: &mut IndexSet<Tuple>, list: &[Conn])
    requires room { length list.now ≤ index_set_len index.old + spare index.old }
    requires apart { AreApart (map tuple_of list.now) }
    ensures tuples { index.new.keys ≡ map tuple_of list.now }
    ensures apart { AreApart index.new.keys }
    ensures room { index_set_len index.old + spare index.old ≤ length list.now + spare index.new }
{
    index.clear();
    for c in list {
        put(index, tuple_of(c));
    }
}

impl Conns {
    /// No connections, at clock 0, with room for all that are ever known.
    pub fn new(alloc: Global) -> Result<Conns, NoMemory>
        ensures { IfOk result (λ k. k ≡ no_connections) }
    {
        Ok(Conns {
            clock: 0,
            list: Vec::with_capacity(alloc, MAX_CONNECTIONS)?,
            index: IndexSet::with_capacity(alloc, MAX_CONNECTIONS)?,
        })
    }

    /// Whether the packet is one of a known connection, in either direction.
    pub fn known(&self, p: &Packet) -> bool
        ensures { result ≡ is_known self.now p.now }
    {
        self.index.contains(&forth(p)) || self.index.contains(&back(p))
    }

    /// The connections, in the order in which they were first seen.
    pub fn list(&self) -> &[Conn]
        ensures connections { result.now ≡ self.now.list }
        ensures at_most { length self.now.list ≤ MAX_CONNECTIONS }
    {
        self.list.as_slice()
    }

    /// The number of ticks so far.
    pub fn clock(&self) -> u64
        ensures { result ≡ self.now.clock }
    {
        self.clock
    }

    /// Takes note of a packet that was let through or wasn't. It does not allocate.
    pub fn note(&mut self, p: &Packet, through: bool)
        ensures { self.new ≡ note self.old p.now through }
    {
        if through {
            self.note_through(p);
        }
    }

    fn note_through(&mut self, p: &Packet)
        ensures { self.new ≡ noted self.old p.now }
    {
        if self.known(p) {
            self.renew(p);
        } else if self.list.len() < MAX_CONNECTIONS {
            self.add(p);
        }
    }

    // The packet's connection, where it is known, is seen now.
    fn renew(&mut self, p: &Packet)
        ensures { self.new ≡ renewed self.old p.now }
    {
        see(&mut self.list, &self.index, forth(p), self.clock);
        see(&mut self.list, &self.index, back(p), self.clock);
    }

    // The packet's connection stands at the end.
    fn add(&mut self, p: &Packet)
        requires unknown { is_known self.old p.now ≡ false }
        requires room { length self.old.list < MAX_CONNECTIONS }
        ensures { self.new ≡ added self.old p.now }
    {
        put(&mut self.index, forth(p));
        let _ = self.list.push(conn_of(p, self.clock));
    }

    /// Lets time go on, and forgets the connections that were idle for `IDLE_TICKS`. It does not allocate.
    pub fn tick(&mut self, count: u32)
        requires { self.old.clock + count < 2 ^ 63 }
        ensures { self.new ≡ tick self.old count }
    {
        self.clock += u64::from(count);
        let clock = self.clock;
        self.list
            .retain(|c| clock.saturating_sub(c.last) < IDLE_TICKS);
        refill(&mut self.index, self.list.as_slice());
    }
}

impl Clone for Conns {
    ghost is_clone = { λ k copy. copy ≡ k };

    fn clone(&self) -> Result<Conns, AllocError> {
        let alloc = *self.list.allocator();
        let mut list = Vec::with_capacity(alloc, MAX_CONNECTIONS)?;
        list.extend_from_slice(self.list.as_slice())?;
        let mut index = IndexSet::with_capacity(alloc, MAX_CONNECTIONS)?;
        refill(&mut index, list.as_slice());
        Ok(Conns {
            clock: self.clock,
            list,
            index,
        })
    }
}

impl Copies for Conns {
    ghost exact = { λ x y h. h };
}

//! The classes by which an index tells the flows of a table apart.
ghost use Rattle.std.specs.Prelude.{◌≡◌, ◌≤◌, ◌/◌, ◌^◌};
ghost use Rattle.cl_types.specs.Addr.{number_of, width_of};
ghost use Rattle.flow_tables.specs.Class.{first_bits, bits_of, shape_eq, shape_of, block_of, block_at, scope_of, class_of, class_at, conj_class};

use crate::lookup::Arrival;
use cl_types::Addr;
use flow_entries::{Flow, Table};

/// What a search looks for in a flow.
#[derive(Clone, Copy, Debug, PartialEq, Eq, Hash)]
pub(crate) enum Role {
    /// A search starts with the flow: it is plain, or it has the first dimension of some id.
    Start,
    /// It has this priority, and this dimension of some id.
    Giving { priority: u16, k: u8 },
    /// It has this priority, and is hit where this id is complete.
    Conj { priority: u16, id: u32 },
}

/// A table's flows of a role.
#[derive(Clone, Copy, Debug, PartialEq, Eq, Hash)]
pub(crate) struct Scope {
    pub table: u8,
    pub role: Role,
}

/// The addresses to which flows are limited: a block of sources, a block of destinations, or neither.
#[derive(Clone, Copy, Debug, PartialEq, Eq, Hash)]
pub(crate) enum Block {
    Source(Bits),
    Destination(Bits),
    Any,
}

/// The first bits of addresses of a family.
#[derive(Clone, Copy, Debug, PartialEq, Eq, Hash)]
pub(crate) struct Bits {
    pub width: u8,
    pub len: u8,
    pub bits: u128,
}

/// What flows of a table have in common.
#[derive(Clone, Copy, Debug, PartialEq, Eq, Hash)]
pub(crate) struct Class {
    pub scope: Scope,
    pub block: Block,
}

/// What tells the flows of a scope apart: so many first bits of the source, of the destination, or nothing.
#[derive(Clone, Copy, Debug)]
pub(crate) enum Shape {
    Source(u8),
    Destination(u8),
    Any,
}

impl Shape {
    /// Whether the two are one shape.
    pub fn is(self, other: Shape) -> bool
        ensures { result ≡ shape_eq self other }
    {
        match (self, other) {
            (Shape::Source(a), Shape::Source(b)) => a == b,
            (Shape::Destination(a), Shape::Destination(b)) => a == b,
            (Shape::Any, Shape::Any) => true,
            _ => false,
        }
    }
}

// The number without its lowest bits.
fn above(n: u128, bits: u8) -> u128
    requires { bits ≤ 128 }
    ensures { result ≡ n / 2 ^ bits }
{
    if bits == 128 { 0 } else { n >> bits }
}

fn first_bits(a: Addr, len: u8) -> u128
    ensures { result ≡ first_bits a len }
{
    match a {
        Addr::V4(n) => above(u128::from(n), 32u8.saturating_sub(len)),
        Addr::V6(n) => above(n, 128u8.saturating_sub(len)),
    }
}

fn width(a: Addr) -> u8
    ensures { result ≡ width_of a }
{
    match a {
        Addr::V4(_) => 32,
        Addr::V6(_) => 128,
    }
}

fn bits_of(a: Addr, len: u8) -> Bits
    ensures { result ≡ bits_of a len }
{
    Bits {
        width: width(a),
        len,
        bits: first_bits(a, len),
    }
}

/// The shape of a flow.
pub(crate) fn shape_of(flow: &Flow) -> Shape
    ensures { result ≡ shape_of flow.now.fields.src flow.now.fields.dst }
{
    match (flow.fields.src, flow.fields.dst) {
        (Some(block), _) => Shape::Source(block.len),
        (None, Some(block)) => Shape::Destination(block.len),
        (None, None) => Shape::Any,
    }
}

fn block_of(flow: &Flow) -> Block
    ensures { result ≡ block_of flow.now.fields.src flow.now.fields.dst }
{
    match (flow.fields.src, flow.fields.dst) {
        (Some(block), _) => Block::Source(bits_of(block.base, block.len)),
        (None, Some(block)) => Block::Destination(bits_of(block.base, block.len)),
        (None, None) => Block::Any,
    }
}

/// The flows of the table that have the role.
pub(crate) fn scope_of(table: Table, role: Role) -> Scope
    ensures { result ≡ scope_of table role }
{
    Scope {
        table: table.place(),
        role,
    }
}

/// The class of a flow in a role.
pub(crate) fn class_of(flow: &Flow, role: Role) -> Class
    ensures { result ≡ class_of role flow.now }
{
    Class {
        scope: scope_of(flow.table, role),
        block: block_of(flow),
    }
}

/// The class of an id's conj flows.
pub(crate) fn conj_class(table: Table, priority: u16, id: u32) -> Class
    ensures { result ≡ conj_class table priority id }
{
    Class {
        scope: scope_of(table, Role::Conj { priority, id }),
        block: Block::Any,
    }
}

fn block_at(a: &Arrival, shape: Shape) -> Block
    ensures { result ≡ block_at a.now shape }
{
    match shape {
        Shape::Source(len) => Block::Source(bits_of(a.packet.src, len)),
        Shape::Destination(len) => Block::Destination(bits_of(a.packet.dst, len)),
        Shape::Any => Block::Any,
    }
}

/// The class of the packet's flows of a role and a shape.
pub(crate) fn class_at(a: &Arrival, role: Role, shape: Shape) -> Class
    ensures { result ≡ class_at a.now role shape }
{
    Class {
        scope: scope_of(a.table, role),
        block: block_at(a, shape),
    }
}

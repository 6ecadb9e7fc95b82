//! Objects that refer to others by name, and are written out before they come into the cluster: policies with
//! cluster groups, and Egresses with a pool of addresses.
ghost use Rattle.std.proofs.Common.{rules};
ghost use Rattle.std.proofs.lemmas.Grind.{common_steps};
ghost use Rattle.std.specs.Prelude.{◌≡◌, IfOk};

use crate::change::Change;
use crate::policy::{Block, Policy};
use cl_types::{Addr, Copies, List, NoMemory, Text};
use label_select::GroupKey;

/// What a cluster group has: the pods of a group, some blocks, or what other cluster groups have.
#[derive(Clone, Debug, Drop)]
pub enum GroupBody {
    Selected(GroupKey),
    Blocks(List<Block>),
    Children(List<Text>),
}

impl Copies for GroupBody {
    ghost exact = { λ x y h. Prim.search (rules, common_steps) };
}

/// A ClusterGroup of Antrea.
#[derive(Clone, Debug, Drop)]
pub struct ClusterGroup {
    pub name: Text,
    pub body: GroupBody,
}

impl Copies for ClusterGroup {
    ghost exact = { λ x y h. Prim.search (rules, common_steps) };
}

/// A policy and the cluster groups to which it refers: `policy` has all but the references, `applied_refs`
/// the groups to which it applies, and `rule_refs` the peers of each rule, a list for each. A rule whose peers
/// are references alone has an empty list of peers.
#[derive(Clone, Debug, Drop)]
pub struct RefPolicy {
    pub policy: Policy,
    pub applied_refs: List<Text>,
    pub rule_refs: List<List<Text>>,
}

impl Copies for RefPolicy {
    ghost exact = { λ x y h. Prim.search (rules, common_steps) };
}

/// The addresses from `lo` to `hi`, both among them.
#[derive(Clone, Copy, Debug)]
pub struct Range {
    pub lo: Addr,
    pub hi: Addr,
}

impl Copies for Range {
    ghost exact = { λ x y h. Prim.search (rules, common_steps) };
}

/// An ExternalIPPool of Antrea: addresses for Egresses.
#[derive(Clone, Debug, Drop)]
pub struct Pool {
    pub name: Text,
    pub ranges: List<Range>,
}

impl Copies for Pool {
    ghost exact = { λ x y h. Prim.search (rules, common_steps) };
}

/// An Egress whose address comes from a pool. It may ask for one address of it.
#[derive(Clone, Debug, Drop)]
pub struct PooledEgress {
    pub name: Text,
    pub pool: Text,
    pub asked: Option<Addr>,
    pub applied: GroupKey,
}

impl Copies for PooledEgress {
    ghost exact = { λ x y h. Prim.search (rules, common_steps) };
}

/// What an object of the input asks for.
#[derive(Clone, Debug, Drop)]
pub enum RefItem {
    Plain(Change),
    PutGroup(ClusterGroup),
    RemoveGroup(Text),
    PutPolicy(RefPolicy),
    PutPool(Pool),
    RemovePool(Text),
    PutPooled(PooledEgress),
}

impl Copies for RefItem {
    ghost exact = { λ x y h. Prim.search (rules, common_steps) };
}

//! The peers of a rule as blocks.
ghost use Rattle.std.specs.Prelude.{◌≡◌, ◌++◌, List as Items, map, IfOk, OnOk, refl};
ghost use Rattle.std.specs.Cmp.{partial_order_from_agreeing_total, partial_equiv_from_equiv, eq_by_cmp_equiv};
ghost use Rattle.std.specs.Ordering.{as_partial_cmp, eq_by_cmp};
ghost use Rattle.cl_types.specs.Ascending.{sorted_set};
ghost use Rattle.cl_types.specs.Prefix.{PrefixData, block_of};
ghost use Rattle.held_maps.specs.Held.{maps_of};
ghost use Rattle.watch_streams.specs.InForce.{AreBlocksOf, AreLargestBlocks, ArePeers, ArePeersOf};
ghost use Rattle.watch_streams.specs.PartOrders.{block_order, block_order_total};

use crate::addresses::addresses_in;
use cl_types::{Addr, List, NoMemory, Prefix, Stream, blocks_without};
use cluster_types::Block;
use held_maps::Held;
use std::alloc::Global;
use std::cmp::Ordering;
use std::marker::Model;
use watch_streams::{NetPeers, block_order_is_exact, sort_once};

/// A block of peers, in the order of blocks.
#[derive(Drop)]
struct PeerBlock {
    block: Prefix,
}

impl Model for PeerBlock {
    ghost use Rattle.cl_types.specs.Prefix.{PrefixData};

    ghost Value = { PrefixData };

    ghost view = { λ p. p.block };
}

/// By base, then by length.
impl Ord for PeerBlock {
    ghost cmp = { block_order };

    ghost total = { block_order_total };

    ghost matches_partial_cmp = { λ a b. refl };

    ghost matches_eq = { λ a b. refl };

    fn cmp(&self, other: &PeerBlock) -> Ordering {
        self.block
            .base
            .cmp(&other.block.base)
            .then(self.block.len.cmp(&other.block.len))
    }
}

impl PartialOrd for PeerBlock {
    ghost partial_cmp = { as_partial_cmp block_order };

    ghost laws = { partial_order_from_agreeing_total block_order block_order_total (λ a b. refl) (λ a b. refl) };

    fn partial_cmp(&self, other: &PeerBlock) -> Option<Ordering> {
        Some(self.cmp(other))
    }
}

impl PartialEq for PeerBlock {
    ghost eq = { eq_by_cmp block_order };

    ghost laws = { partial_equiv_from_equiv (eq_by_cmp_equiv block_order_total) };

    fn eq(&self, other: &PeerBlock) -> bool {
        self.cmp(other).is_eq()
    }
}

impl Eq for PeerBlock {
    ghost laws = { eq_by_cmp_equiv block_order_total };
}

fn push_addresses(out: &mut Vec<PeerBlock>, addresses: &[Addr]) -> Result<(), NoMemory>
    ensures { OnOk result (out.new.items ≡ out.old.items ++ map block_of addresses.now) }
{
    for a in addresses {
        out.push(PeerBlock {
            block: Prefix::of(*a),
        })?;
    }
    Ok(())
}

fn push_blocks(out: &mut Vec<PeerBlock>, blocks: &[Prefix]) -> Result<(), NoMemory>
    ensures { OnOk result (out.new.items ≡ out.old.items ++ blocks.now) }
{
    for block in blocks {
        out.push(PeerBlock { block: *block })?;
    }
    Ok(())
}

// Appends the largest blocks of what the block contains.
fn push_largest(out: &mut Vec<PeerBlock>, block: &Block) -> Result<(), NoMemory>
    ensures { OnOk result ((own : Items PrefixData) × AreLargestBlocks block.now own × (out.new.items ≡ out.old.items ++ own)) }
{
    let largest = blocks_without(*out.allocator(), block.cidr, &block.excepts)?;
    push_blocks(out, largest.as_slice())?;
    Ok(())
}

fn push_all_largest(out: &mut Vec<PeerBlock>, blocks: &[Block]) -> Result<(), NoMemory>
    ensures { OnOk result ((own : Items PrefixData) × AreBlocksOf blocks.now own × (out.new.items ≡ out.old.items ++ own)) }
{
    for block in blocks {
        push_largest(out, block)?;
    }
    Ok(())
}

fn prefixes(alloc: Global, blocks: &[PeerBlock]) -> Result<List<Prefix>, NoMemory>
    ensures { IfOk result (λ prefixes. prefixes ≡ blocks.now) }
{
    let mut prefixes = Vec::with_capacity(alloc, blocks.len())?;
    for b in blocks {
        prefixes.push(b.block)?;
    }
    Ok(List::of(prefixes))
}

fn sorted_blocks(alloc: Global, mut blocks: Vec<PeerBlock>) -> Result<List<Prefix>, NoMemory>
    ensures { IfOk result (λ sorted. sorted ≡ sorted_set block_order blocks.items) }
{
    block_order_is_exact();
    sort_once(&mut blocks)?;
    prefixes(alloc, blocks.as_slice())
}

fn peers_of(alloc: Global, held: &Held, peers: &NetPeers) -> Result<List<Prefix>, NoMemory>
    ensures { IfOk result (ArePeers (maps_of held.now) peers.now) }
{
    let addresses = addresses_in(alloc, held, Stream::Addresses, peers.groups.as_slice())?;
    let mut blocks = Vec::new(alloc);
    push_addresses(&mut blocks, addresses.as_slice())?;
    push_all_largest(&mut blocks, peers.blocks.as_slice())?;
    sorted_blocks(alloc, blocks)
}

/// The peers of a rule as blocks, where it has peers.
pub(crate) fn rule_peers(
    alloc: Global,
    held: &Held,
    peers: &Option<NetPeers>,
) -> Result<Option<List<Prefix>>, NoMemory>
    ensures { IfOk result (ArePeersOf (maps_of held.now) peers.now) }
{
    match peers {
        None => Ok(None),
        Some(peers) => Ok(Some(peers_of(alloc, held, peers)?)),
    }
}

ghost use Rattle.std.specs.Prelude.{◌≡◌};
ghost use Rattle.std.specs.List.{list_any};
ghost use Rattle.cl_types.specs.Prefix.{holds};
ghost use Rattle.cluster_types.specs.Evaluation.{block_contains};
ghost use Rattle.held_maps.specs.Held.{maps_of};
ghost use Rattle.watch_streams.specs.HeldEvaluation.{held_peers_contain};

use crate::groups::any_member_at;
use crate::held::Held;
use cl_types::{Addr, Prefix, Stream};
use cluster_types::Block;
use watch_streams::NetPeers;

fn any_block_holds(blocks: &[Prefix], a: Addr) -> bool
    ensures { result ≡ list_any (λ b. holds b a) blocks.now }
{
    blocks.iter().any(|block| block.holds(a))
}

fn block_contains(block: &Block, a: Addr) -> bool
    ensures { result ≡ block_contains block.now a }
{
    block.cidr.holds(a) && !any_block_holds(block.excepts.as_slice(), a)
}

fn any_block_contains(blocks: &[Block], a: Addr) -> bool
    ensures { result ≡ list_any (λ b. block_contains b a) blocks.now }
{
    blocks.iter().any(|block| block_contains(block, a))
}

/// Whether the peers of a rule contain the address, by what is held.
pub(crate) fn peers_contain(held: &Held, a: Addr, peers: &Option<NetPeers>) -> bool
    ensures { result ≡ held_peers_contain (maps_of held.now) a peers.now }
{
    match peers {
        None => true,
        Some(peers) => any_member_at(held, Stream::Addresses, a, peers.groups.as_slice())
            || any_block_contains(peers.blocks.as_slice(), a),
    }
}

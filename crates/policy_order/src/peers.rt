ghost use Rattle.std.specs.Prelude.{◌≡◌, ◌↔◌, ◌&&◌, IsTrue};
ghost use Rattle.std.specs.List.{list_any};
ghost use Rattle.cluster_types.specs.Evaluation.{block_contains, group_contains, peer_contains, peers_contain, peer_contains_pod, peers_contain_pod};
ghost use Rattle.cluster_types.specs.Pod.{has_address};
ghost use Rattle.cluster_types.specs.Groups.{in_group};
ghost use Rattle.cluster_types.specs.Pod.{counts};
ghost use Rattle.cl_types.specs.Prefix.{holds};

use crate::asked::Asked;
use cl_types::{Addr, List, Prefix};
use cluster_objects::{Block, Cluster, Peer, Pod};
use label_select::GroupKey;

fn block_contains(block: &Block, a: Addr) -> bool
    ensures { result ≡ block_contains block.now a }
{
    block.cidr.holds(a) && !any_block_holds(block.excepts.as_slice(), a)
}

fn any_block_holds(blocks: &[Prefix], a: Addr) -> bool
    ensures { result ≡ list_any (λ b. holds b a) blocks.now }
{
    blocks.iter().any(|block| block.holds(a))
}

// Whether the group contains the peer's address: the one counting pod that has it is in the group.
fn group_contains(asked: &Asked, group: &GroupKey) -> bool
    ensures { result ≡ group_contains asked.now.cluster.now.cluster group.now asked.now.question.now.peer }
{
    match asked.peer {
        Some(pod) => asked.cluster.in_group(group, pod),
        None => false,
    }
}

fn peer_contains(asked: &Asked, peer: &Peer) -> bool
    ensures { result ≡ peer_contains asked.now.cluster.now.cluster asked.now.question.now.peer peer.now }
{
    match peer {
        Peer::Group(group) => group_contains(asked, group),
        Peer::Block(block) => block_contains(block, asked.question.peer),
        Peer::Never => false,
    }
}

/// Whether the peers of a rule contain the peer's address.
pub(crate) fn peers_contain(asked: &Asked, peers: &Option<List<Peer>>) -> bool
    ensures { result ≡ peers_contain asked.now.cluster.now.cluster asked.now.question.now.peer peers.now }
{
    match peers {
        None => true,
        Some(peers) => any_contains(asked, peers.as_slice()),
    }
}

fn any_contains(asked: &Asked, peers: &[Peer]) -> bool
    ensures { result ≡ list_any (peer_contains asked.now.cluster.now.cluster asked.now.question.now.peer) peers.now }
{
    peers.iter().any(|peer| peer_contains(asked, peer))
}

fn peer_contains_pod(c: &Cluster, pod: &Pod, peer: &Peer) -> bool
    ensures { result ≡ peer_contains_pod c.now.cluster pod.now peer.now }
{
    match peer {
        Peer::Group(group) => c.in_group(group, pod),
        Peer::Block(_) => false,
        Peer::Never => false,
    }
}

/// Whether the peers of a rule contain the counting pod, by a group.
pub(crate) fn peers_contain_pod(c: &Cluster, pod: &Pod, peers: &Option<List<Peer>>) -> bool
    ensures { result ≡ peers_contain_pod c.now.cluster pod.now peers.now }
{
    match peers {
        None => pod.counts(),
        Some(peers) => any_contains_pod(c, pod, peers.as_slice()),
    }
}

fn any_contains_pod(c: &Cluster, pod: &Pod, peers: &[Peer]) -> bool
    ensures { result ≡ list_any (peer_contains_pod c.now.cluster pod.now) peers.now }
{
    peers.iter().any(|peer| peer_contains_pod(c, pod, peer))
}

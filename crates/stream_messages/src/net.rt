//! Policies and Egresses as agents are told them.
ghost use Rattle.std.specs.Prelude.{◌≡◌, ◌++◌, map, option_map, option_copied, IfOk, OnOk};
ghost use Rattle.std.specs.List.{flat_map};
ghost use Rattle.cl_types.specs.Ascending.{sorted_by};
ghost use Rattle.watch_streams.specs.Net.{IsNetPolicy};
ghost use Rattle.watch_streams.specs.Projection.{groups_by_text, net_egress, net_peers, net_policy, net_rule, peer_blocks, peer_groups};

use crate::named::groups_by_text;
use cl_types::{Copies, List, NoMemory};
use cluster_types::{Block, EgressObj, Peer, Policy, Rule};
use label_select::GroupKey;
use std::alloc::Global;
use watch_streams::{NetEgress, NetPeers, NetPolicy, NetRule};

fn push_group(groups: &mut Vec<GroupKey>, peer: &Peer) -> Result<(), NoMemory>
    ensures { OnOk result (groups.new.items ≡ groups.old.items ++ peer_groups peer.now) }
{
    if let Peer::Group(g) = peer {
        groups.push(g.copy()?)?;
    }
    Ok(())
}

/// The groups among the peers.
pub(crate) fn peer_groups(alloc: Global, peers: &[Peer]) -> Result<Vec<GroupKey>, NoMemory>
    ensures { IfOk result (λ groups. groups.items ≡ flat_map peer_groups peers.now) }
{
    let mut groups = Vec::new(alloc);
    for peer in peers {
        push_group(&mut groups, peer)?;
    }
    Ok(groups)
}

fn push_block(blocks: &mut Vec<Block>, peer: &Peer) -> Result<(), NoMemory>
    ensures { OnOk result (blocks.new.items ≡ blocks.old.items ++ peer_blocks peer.now) }
{
    if let Peer::Block(b) = peer {
        blocks.push(b.copy()?)?;
    }
    Ok(())
}

fn peer_blocks(alloc: Global, peers: &[Peer]) -> Result<Vec<Block>, NoMemory>
    ensures { IfOk result (λ blocks. blocks.items ≡ flat_map peer_blocks peers.now) }
{
    let mut blocks = Vec::new(alloc);
    for peer in peers {
        push_block(&mut blocks, peer)?;
    }
    Ok(blocks)
}

fn net_peers(alloc: Global, peers: &[Peer]) -> Result<NetPeers, NoMemory>
    ensures { IfOk result (λ net. net ≡ net_peers peers.now) }
{
    let groups = peer_groups(alloc, peers)?;
    Ok(NetPeers {
        groups: groups_by_text(alloc, groups)?,
        blocks: List::of(peer_blocks(alloc, peers)?),
    })
}

fn peers_told(alloc: Global, peers: Option<&List<Peer>>) -> Result<Option<NetPeers>, NoMemory>
    ensures { IfOk result (λ net. net ≡ option_map net_peers (option_copied peers.entry)) }
{
    match peers {
        Some(peers) => Ok(Some(net_peers(alloc, peers.as_slice())?)),
        None => Ok(None),
    }
}

fn net_rule(alloc: Global, rule: &Rule) -> Result<NetRule, NoMemory>
    ensures { IfOk result (λ net. net ≡ net_rule rule.now) }
{
    Ok(NetRule {
        key: rule.key.copy()?,
        action: rule.action,
        peers: peers_told(alloc, rule.peers.as_ref())?,
        services: rule.services.copy()?,
        named: rule.named.copy()?,
    })
}

fn net_rules(alloc: Global, rules: &[Rule]) -> Result<Vec<NetRule>, NoMemory>
    ensures { IfOk result (λ net. net.items ≡ map net_rule rules.now) }
{
    let mut net = Vec::new(alloc);
    for rule in rules {
        net.push(net_rule(alloc, rule)?)?;
    }
    Ok(net)
}

/// The policy with groups in place of selectors.
pub fn net_policy(alloc: Global, policy: &Policy) -> Result<NetPolicy, NoMemory>
    requires { IsNetPolicy (net_policy policy.now) }
    ensures { IfOk result (λ net. net ≡ net_policy policy.now) }
{
    Ok(NetPolicy {
        key: policy.key.copy()?,
        applied: policy.applied.copy()?,
        isolates_in: policy.isolates_in,
        isolates_out: policy.isolates_out,
        rules: List::of(net_rules(alloc, policy.rules.as_slice())?),
    })
}

/// The Egress as agents are told it.
pub fn net_egress(egress: &EgressObj) -> Result<NetEgress, NoMemory>
    ensures { IfOk result (λ net. net ≡ net_egress egress.now) }
{
    Ok(NetEgress {
        name: egress.name.copy()?,
        address: egress.address,
        node: egress.node.copy()?,
        applied: egress.applied.copy()?,
    })
}

ghost use Rattle.std.specs.Prelude.{◌≡◌};
ghost use Rattle.std.specs.List.{list_all};
ghost use Rattle.held_maps.specs.Held.{maps_of, map_on};
ghost use Rattle.watch_streams.specs.HeldEvaluation.{HeldMaps, is_held, groups_of, resolving_groups, resolving_map, resolves, is_complete};
ghost use Rattle.watch_streams.specs.Projection.{has_names};

use crate::groups::all_held;
use crate::held::Held;
use cl_types::{Dir, PortName, Stream};
use label_select::GroupKey;
use watch_streams::{NetPeers, NetPolicy, NetRule};

fn peers_held(held: &Held, peers: &Option<NetPeers>) -> bool
    ensures { result ≡ list_all (is_held (maps_of held.now).addresses) (groups_of peers.now) }
{
    match peers {
        None => true,
        Some(peers) => all_held(held, Stream::Addresses, peers.groups.as_slice()),
    }
}

/// The groups among whose members a rule's named ports are looked up.
pub(crate) fn resolving_groups<'a>(
    held: &'a Held,
    policy: &'a NetPolicy,
    rule: &'a NetRule,
    dir: Dir,
) -> &'a [GroupKey]
    ensures { result.now ≡ resolving_groups policy.now rule.now dir }
{
    match dir {
        Dir::Ingress => policy.applied.as_slice(),
        Dir::Egress => match &rule.peers {
            None => held.every_pod(),
            Some(peers) => peers.groups.as_slice(),
        },
    }
}

/// The stream on which these groups are held.
pub fn resolving_stream(dir: Dir) -> Stream
    ensures { (maps : HeldMaps) → map_on result maps ≡ resolving_map maps dir }
{
    match dir {
        Dir::Ingress => Stream::Applied,
        Dir::Egress => Stream::Addresses,
    }
}

fn resolves(held: &Held, policy: &NetPolicy, rule: &NetRule) -> bool
    ensures { result ≡ resolves (maps_of held.now) policy.now rule.now }
{
    let dir = rule.key.dir;
    let groups = resolving_groups(held, policy, rule, dir);
    all_held(held, resolving_stream(dir), groups)
}

fn has_names(names: &[PortName]) -> bool
    ensures { result ≡ has_names names.now }
{
    !names.is_empty()
}

/// Whether all groups that the rule needs are held.
pub(crate) fn is_complete(held: &Held, policy: &NetPolicy, rule: &NetRule) -> bool
    ensures { result ≡ is_complete (maps_of held.now) policy.now rule.now }
{
    peers_held(held, &rule.peers)
        && all_held(held, Stream::Applied, policy.applied.as_slice())
        && (!has_names(rule.named.as_slice()) || resolves(held, policy, rule))
}

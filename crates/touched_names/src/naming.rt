//! Which policies and Egresses name a group.
ghost use Rattle.std.specs.Prelude.{◌≡◌, ◌&&◌};
ghost use Rattle.std.specs.List.{list_any};
ghost use Rattle.touched_names.specs.AllPods.{is_all_namespaces, selects_all};
ghost use Rattle.touched_names.specs.Standing.{has_group, is_group};
ghost use Rattle.watch_streams.specs.Projection.{all_pods, peer_groups, policy_groups, rule_groups};

use cl_types::{Dir, Same};
use cluster_types::{Peer, Policy, Rule};
use label_select::{GroupKey, Scope, Selector, group_form, group_texts_differ};

/// Whether the two are one group. It does not allocate.
pub fn is_group(g: &GroupKey, other: &GroupKey) -> bool
    ensures { result ≡ is_group g.now other.now }
{
    group_form(g);
    group_form(other);
    group_texts_differ();
    g.same(other)
}

/// Whether the group is among these. It does not allocate.
pub fn has_group(groups: &[GroupKey], g: &GroupKey) -> bool
    ensures { result ≡ has_group groups.now g.now }
{
    groups.iter().any(|other| is_group(g, other))
}

fn selects_all(selector: &Selector) -> bool
    ensures { result ≡ selects_all selector.now }
{
    selector.needs.as_slice().is_empty()
}

fn is_all_namespaces(scope: &Scope) -> bool
    ensures { result ≡ is_all_namespaces scope.now }
{
    match scope {
        Scope::Namespace(_) => false,
        Scope::Namespaces(selector) => selects_all(selector),
    }
}

fn has_all_pods(g: &GroupKey) -> bool
    ensures { result ≡ (is_all_namespaces g.now.scope && selects_all g.now.pods) }
{
    is_all_namespaces(&g.scope) && selects_all(&g.pods)
}

fn is_all_pods(g: &GroupKey) -> bool
    ensures { result ≡ is_group g.now all_pods }
{
    group_form(g);
    group_texts_differ();
    has_all_pods(g)
}

fn is_peer(g: &GroupKey, peer: &Peer) -> bool
    ensures { result ≡ has_group (peer_groups peer.now) g.now }
{
    match peer {
        Peer::Group(other) => is_group(g, other),
        _ => false,
    }
}

fn has_peer(peers: &[Peer], g: &GroupKey) -> bool
    ensures { result ≡ list_any (λ peer. has_group (peer_groups peer) g.now) peers.now }
{
    peers.iter().any(|peer| is_peer(g, peer))
}

fn is_named_by(g: &GroupKey, rule: &Rule) -> bool
    ensures { result ≡ has_group (rule_groups rule.now rule.now.peers) g.now }
{
    match &rule.peers {
        Some(peers) => has_peer(peers.as_slice(), g),
        None => {
            rule.key.dir == Dir::Egress && !rule.named.as_slice().is_empty() && is_all_pods(g)
        }
    }
}

fn is_named_by_any(g: &GroupKey, rules: &[Rule]) -> bool
    ensures { result ≡ list_any (λ r. has_group (rule_groups r r.peers) g.now) rules.now }
{
    rules.iter().any(|rule| is_named_by(g, rule))
}

/// Whether the group is one of the peers of the policy. It does not allocate.
pub fn names_peer(policy: &Policy, g: &GroupKey) -> bool
    ensures { result ≡ has_group (policy_groups policy.now) g.now }
{
    is_named_by_any(g, policy.rules.as_slice())
}

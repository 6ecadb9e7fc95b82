//! Which held policies the changes of a stream touch.
ghost use Rattle.std.specs.Prelude.{◌≡◌, ◌||◌};
ghost use Rattle.std.specs.List.{list_any};
ghost use Rattle.std.specs.Ordering.{is_eq};
ghost use Rattle.cl_types.specs.PolicyName.{IsPolicyName};
ghost use Rattle.cl_types.specs.Text.{text_order};
ghost use Rattle.cl_types.specs.Written.{policy_text};
ghost use Rattle.label_select.specs.Written.{group_text};
ghost use Rattle.watch_streams.specs.HeldEvaluation.{groups_of};
ghost use Rattle.watch_streams.specs.Names.{changed_name, name_of};
ghost use Rattle.touched_rules.specs.Touching.{egress_groups, group_changed, may_change_group, may_name_group, may_name_policy, policy_changed, reads_changed, some_changed, touches};

use cl_types::{Dir, PolicyKey, Same, Stream, texts_tell_names_apart};
use held_maps::Held;
use label_select::{GroupKey, group_form, group_texts_differ};
use watch_streams::{NetPeers, NetPolicy, NetRule, StreamChange, StreamName, StreamObject};

fn is_group(g: &GroupKey, other: &GroupKey) -> bool
    ensures { result ≡ is_eq (text_order (group_text other.now) (group_text g.now)) }
{
    group_form(g);
    group_form(other);
    group_texts_differ();
    g.same(other)
}

// What the type of keys keeps. It does nothing.
fn key_form(key: &PolicyKey)
    ensures { IsPolicyName key.now.kind key.now.namespace key.now.name }
{
    let _kind = key.kind;
}

fn is_policy(key: &PolicyKey, other: &PolicyKey) -> bool
    ensures { result ≡ is_eq (text_order (policy_text other.now) (policy_text key.now)) }
{
    key_form(key);
    key_form(other);
    texts_tell_names_apart();
    key.same(other)
}

fn may_be_group(g: &GroupKey, object: &StreamObject) -> bool
    ensures { result ≡ may_name_group g.now (name_of object.now) }
{
    match object {
        StreamObject::Group { group, .. } => is_group(g, group),
        StreamObject::Policy(_) => true,
        StreamObject::Egress(_) => true,
    }
}

fn may_change_group(g: &GroupKey, change: &StreamChange) -> bool
    ensures { result ≡ may_change_group g.now change.now }
{
    match change {
        StreamChange::Put(object) => may_be_group(g, object),
        StreamChange::Patch { group, .. } => is_group(g, group),
        StreamChange::Remove(_) => true,
    }
}

fn group_changed(changes: &[StreamChange], g: &GroupKey) -> bool
    ensures { result ≡ group_changed changes.now g.now }
{
    changes.iter().any(|change| may_change_group(g, change))
}

fn some_changed(changes: &[StreamChange], groups: &[GroupKey]) -> bool
    ensures { result ≡ some_changed changes.now groups.now }
{
    groups.iter().any(|g| group_changed(changes, g))
}

fn may_name_policy(key: &PolicyKey, name: &StreamName) -> bool
    ensures { result ≡ may_name_policy key.now name.now }
{
    match name {
        StreamName::Policy(other) => is_policy(key, other),
        StreamName::Egress(_) => false,
        StreamName::Group(_) => true,
    }
}

fn may_be_policy(key: &PolicyKey, object: &StreamObject) -> bool
    ensures { result ≡ may_name_policy key.now (name_of object.now) }
{
    match object {
        StreamObject::Policy(policy) => is_policy(key, &policy.key),
        StreamObject::Egress(_) => false,
        StreamObject::Group { .. } => true,
    }
}

fn may_change_policy(key: &PolicyKey, change: &StreamChange) -> bool
    ensures { result ≡ may_name_policy key.now (changed_name change.now) }
{
    match change {
        StreamChange::Put(object) => may_be_policy(key, object),
        StreamChange::Patch { .. } => true,
        StreamChange::Remove(name) => may_name_policy(key, name),
    }
}

fn policy_changed(changes: &[StreamChange], key: &PolicyKey) -> bool
    ensures { result ≡ policy_changed changes.now key.now }
{
    changes.iter().any(|change| may_change_policy(key, change))
}

/// The groups among the peers of a rule; none where it has no peers.
pub fn peer_groups(peers: &Option<NetPeers>) -> &[GroupKey]
    ensures { result.now ≡ groups_of peers.now }
{
    match peers {
        None => &[],
        Some(peers) => peers.groups.as_slice(),
    }
}

fn egress_changed(changes: &[StreamChange], held: &Held, policy: &NetPolicy, rule: &NetRule) -> bool
    ensures { result ≡ some_changed changes.now (egress_groups policy.now rule.now rule.now.key.dir) }
{
    match rule.key.dir {
        Dir::Ingress => false,
        Dir::Egress => some_changed(changes, held.resolving_groups(policy, rule)),
    }
}

// Whether one of the groups is changed that the rule reads among its peers.
fn reads_changed(changes: &[StreamChange], held: &Held, policy: &NetPolicy, rule: &NetRule) -> bool
    ensures { result ≡ reads_changed changes.now policy.now rule.now }
{
    some_changed(changes, peer_groups(&rule.peers)) || egress_changed(changes, held, policy, rule)
}

fn rules_read_changed(changes: &[StreamChange], held: &Held, policy: &NetPolicy) -> bool
    ensures { result ≡ list_any (reads_changed changes.now policy.now) policy.now.rules }
{
    let rules = policy.rules.as_slice();
    rules
        .iter()
        .any(|rule| reads_changed(changes, held, policy, rule))
}

/// Whether the policy itself is changed, or a group that one of its rules reads. It compares keys alone.
pub fn touches(s: Stream, changes: &[StreamChange], held: &Held, policy: &NetPolicy) -> bool
    ensures { result ≡ touches s changes.now policy.now }
{
    match s {
        Stream::Policies => policy_changed(changes, &policy.key),
        Stream::Addresses => rules_read_changed(changes, held, policy),
        Stream::Applied => some_changed(changes, policy.applied.as_slice()),
    }
}

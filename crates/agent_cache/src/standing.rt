//! The states of rules.
ghost use Rattle.std.specs.Prelude.{◌≡◌, ◌++◌, List as Items, not, IfOk, option_copied};
ghost use Rattle.std.specs.Ordering.{is_gt};
ghost use Rattle.cl_types.specs.First.{earlier, first};
ghost use Rattle.label_select.specs.Group.{Group};
ghost use Rattle.label_select.specs.Written.{group_text};
ghost use Rattle.held_maps.specs.Held.{maps_of, map_on};
ghost use Rattle.watch_streams.specs.HeldEvaluation.{is_held};
ghost use Rattle.agent_cache.specs.Missing.{by_text, missing_group, named_groups, not_held};

use cl_types::{Copies, Keyed, NoMemory, RuleKey, Stream, Text};
use held_maps::{Held, resolving_stream};
use label_select::{GroupKey, write_group};
use std::alloc::Global;
use std::marker::Model;
use touched_rules::peer_groups;
use watch_streams::{NetPolicy, NetRule};

fn title(alloc: Global, g: &GroupKey) -> Result<Text, NoMemory>
    ensures { IfOk result (λ title. title ≡ group_text g.now) }
{
    let mut title = Text::new(alloc);
    write_group(&mut title, g)?;
    Ok(title)
}

fn is_later(alloc: Global, a: &GroupKey, b: &GroupKey) -> Result<bool, NoMemory>
    ensures { IfOk result (λ later. later ≡ is_gt (by_text a.now b.now)) }
{
    let a = title(alloc, a)?;
    let b = title(alloc, b)?;
    Ok(a.cmp(&b).is_gt())
}

// Of a group and the least of some others the one whose text is less.
fn earlier<'a>(
    alloc: Global,
    g: &'a GroupKey,
    other: Option<&'a GroupKey>,
) -> Result<&'a GroupKey, NoMemory>
    ensures { IfOk result (λ r. r.now ≡ earlier by_text g.now (option_copied other.entry)) }
{
    match other {
        None => Ok(g),
        Some(other) => {
            if is_later(alloc, g, other)? {
                Ok(other)
            } else {
                Ok(g)
            }
        }
    }
}

fn lacks(held: &Held, s: Stream, g: &GroupKey) -> bool
    ensures { result ≡ not (is_held (map_on s (maps_of held.now)) g.now) }
{
    !held.has_group(s, g)
}

// The least of those of the groups that aren't held and of the groups after them.
fn least_of<'a>(
    alloc: Global,
    held: &Held,
    s: Stream,
    groups: &'a [GroupKey],
    after: Option<&'a GroupKey>,
) -> Result<Option<&'a GroupKey>, NoMemory>
    ensures { IfOk result (λ r. (later : Items Group) → option_copied after.entry ≡ first by_text later
        → option_copied r ≡ first by_text (not_held (map_on s (maps_of held.now)) groups.now ++ later)) }
{
    let mut least = after;
    for i in (0..groups.len()).rev() {
        let g = &groups[i];
        if lacks(held, s, g) {
            least = Some(earlier(alloc, g, least)?);
        }
    }
    Ok(least)
}

// The groups at which the rule's named ports are looked up, where it has some.
fn named_groups<'a>(held: &'a Held, policy: &'a NetPolicy, rule: &'a NetRule) -> &'a [GroupKey]
    ensures { result.now ≡ named_groups policy.now rule.now }
{
    if rule.named.as_slice().is_empty() {
        &[]
    } else {
        held.resolving_groups(policy, rule)
    }
}

// The missing group of the rule whose text is least.
fn missing_group<'a>(
    alloc: Global,
    held: &'a Held,
    policy: &'a NetPolicy,
    rule: &'a NetRule,
) -> Result<Option<&'a GroupKey>, NoMemory>
    ensures { IfOk result (λ r. option_copied r ≡ missing_group (maps_of held.now) policy.now rule.now) }
{
    let named = named_groups(held, policy, rule);
    let s = resolving_stream(rule.key.dir);
    let for_ports = least_of(alloc, held, s, named, None)?;
    let pods = policy.applied.as_slice();
    let for_pods = least_of(alloc, held, Stream::Applied, pods, for_ports)?;
    let peers = peer_groups(&rule.peers);
    let least = least_of(alloc, held, Stream::Addresses, peers, for_pods)?;
    Ok(least)
}

fn copied(group: Option<&GroupKey>) -> Result<Option<GroupKey>, NoMemory>
    ensures { IfOk result (λ copy. copy ≡ option_copied group.entry) }
{
    match group {
        None => Ok(None),
        Some(group) => Ok(Some(group.copy()?)),
    }
}

/// The missing group of the rule whose text is least.
pub(crate) fn missing_of(
    alloc: Global,
    held: &Held,
    policy: &NetPolicy,
    rule: &NetRule,
) -> Result<Option<GroupKey>, NoMemory>
    ensures { IfOk result (λ g. g ≡ missing_group (maps_of held.now) policy.now rule.now) }
{
    copied(missing_group(alloc, held, policy, rule)?)
}

/// A rule, and the group for which it waits.
#[derive(Drop)]
pub(crate) struct Standing {
    pub(crate) key: RuleKey,
    pub(crate) missing: Option<GroupKey>,
}

impl Model for Standing {
    ghost use Rattle.agent_cache.specs.KnownRule.{KnownRule};

    ghost Value = { KnownRule };

    ghost view = { λ s. record { key = s.key; missing = s.missing } };
}

impl Keyed for Standing {
    type Key = RuleKey;

    ghost key = { λ s. s.key };

    fn key(&self) -> &RuleKey {
        &self.key
    }
}

/// Whether a rule is complete, or waits for a group, or is not held.
#[derive(Drop)]
pub enum RuleState<'a> {
    Complete,
    Waiting(&'a GroupKey),
    Absent,
}

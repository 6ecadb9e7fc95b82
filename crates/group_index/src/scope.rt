//! Where the groups of a scope stand among the groups in use, which are in the order of their texts.
ghost use Rattle.std.specs.Prelude.{◌≡◌, ◌++◌, [], ◌∷◌, false, IfOk, option_copied};
ghost use Rattle.group_index.specs.Index.{EntryData, IsIndex};
ghost use Rattle.group_index.specs.Settled.{AreStretches, IsStretch, can_contain, follows_labels, is_named, is_of_pods};

use crate::entry::Entry;
use crate::stretch::{Stretch, Stretches, in_order, place_from};
use cl_types::{Copies, NoMemory, Text, write_bytes};
use cluster_objects::Pod;
use std::alloc::Global;

// The text with a byte behind it.
fn followed(text: &Text, byte: u8) -> Result<Text, NoMemory>
    ensures { IfOk result (λ t. t ≡ text.now ++ byte ∷ []) }
{
    let mut followed = text.copy()?;
    write_bytes(&mut followed, &[byte])?;
    Ok(followed)
}

/// The groups whose scope is the namespace: their texts begin with its name and `/`.
pub(crate) fn named(entries: &[Entry], name: &Text) -> Result<Stretch, NoMemory>
    requires { IsIndex entries.now }
    ensures { IfOk result (IsStretch (λ (e : EntryData). is_named name.now e.group.scope ≡ false) entries.now) }
{
    let low = followed(name, b'/')?;
    let high = followed(name, b'0')?;
    Ok(Stretch {
        start: place_from(entries, &low),
        end: place_from(entries, &high),
    })
}

/// The groups whose scope is a selector: their texts begin with `[`.
pub(crate) fn following(alloc: Global, entries: &[Entry]) -> Result<Stretch, NoMemory>
    requires { IsIndex entries.now }
    ensures { IfOk result (IsStretch (λ (e : EntryData). follows_labels e.group ≡ false) entries.now) }
{
    let none = Text::new(alloc);
    let low = followed(&none, b'[')?;
    let high = followed(&none, b'\\')?;
    Ok(Stretch {
        start: place_from(entries, &low),
        end: place_from(entries, &high),
    })
}

// The groups whose scope is the namespace of the pod as it was or, where it was none, of the pod as it is.
fn of_namespace(
    entries: &[Entry],
    old: Option<&Pod>,
    now: Option<&Pod>,
) -> Result<Stretch, NoMemory>
    requires { IsIndex entries.now }
    ensures { IfOk result (IsStretch (λ (e : EntryData). is_of_pods (option_copied old.entry) (option_copied now.entry) e.group.scope ≡ false) entries.now) }
{
    match (old, now) {
        (Some(pod), _) => named(entries, &pod.key.namespace),
        (None, Some(pod)) => named(entries, &pod.key.namespace),
        (None, None) => Ok(Stretch { start: 0, end: 0 }),
    }
}

/// The groups that can contain a pod, by their scopes, of a pod as it was and as it is.
pub(crate) fn of_pods(
    alloc: Global,
    entries: &[Entry],
    old: Option<&Pod>,
    now: Option<&Pod>,
) -> Result<Stretches, NoMemory>
    requires { IsIndex entries.now }
    ensures { IfOk result (AreStretches (λ (e : EntryData). can_contain (option_copied old.entry) (option_copied now.entry) e.group.scope ≡ false) entries.now) }
{
    let named = of_namespace(entries, old, now)?;
    let following = following(alloc, entries)?;
    Ok(in_order(named, following))
}

//! What differs between lists that ascend by their keys.
ghost use Rattle.std.specs.Prelude.{◌≡◌, is_none, map, not, option_copied, IfOk};
ghost use Rattle.cl_types.specs.Ascending.{Ascends};
ghost use Rattle.cl_types.specs.Equality.{is_same};
ghost use Rattle.watch_streams.specs.KeyedChanges.{altered, beside, changes_of, is_other, lacking};

use cl_types::{Copies, Keyed, NoMemory, Same, find};
use std::alloc::Global;
use watch_streams::sorted;

fn lacks<T: Keyed>(others: &[T], item: &T) -> bool
    requires { Ascends T.key T.Key.cmp others.now }
    ensures { result ≡ is_none (beside T.key T.Key.cmp others.now item.now) }
{
    find(others, item.key()).is_none()
}

/// The items at whose keys the others have nothing.
pub(crate) fn lacking<T: Keyed + Copies + Drop>(
    alloc: Global,
    items: &[T],
    others: &[T],
) -> Result<Vec<T>, NoMemory>
    requires { Ascends T.key T.Key.cmp others.now }
    ensures { IfOk result (λ v. v.items ≡ lacking T.key T.Key.cmp items.now others.now) }
{
    let mut out = Vec::new(alloc);
    for item in items {
        if lacks(others, item) {
            out.push(item.copy()?)?;
        }
    }
    Ok(out)
}

fn differs<T: Same>(a: &T, b: &T) -> bool
    ensures { result ≡ not (is_same T.row.coded a.now b.now) }
{
    !a.same(b)
}

fn is_other_than<T: Same>(old: Option<&T>, item: &T) -> bool
    ensures { result ≡ is_other T.row.coded (option_copied old.entry) item.now }
{
    match old {
        None => false,
        Some(old) => differs(old, item),
    }
}

// Whether another item stood at the key.
fn is_other<T: Keyed + Same>(old: &[T], item: &T) -> bool
    requires { Ascends T.key T.Key.cmp old.now }
    ensures { result ≡ is_other T.row.coded (beside T.key T.Key.cmp old.now item.now) item.now }
{
    is_other_than(find(old, item.key()), item)
}

/// The new items that took the place of other ones.
pub(crate) fn altered<T: Keyed + Same + Copies + Drop>(
    alloc: Global,
    old: &[T],
    new: &[T],
) -> Result<Vec<T>, NoMemory>
    requires { Ascends T.key T.Key.cmp old.now }
    ensures { IfOk result (λ v. v.items ≡ altered T.row.coded T.key T.Key.cmp old.now new.now) }
{
    let mut out = Vec::new(alloc);
    for item in new {
        if is_other(old, item) {
            out.push(item.copy()?)?;
        }
    }
    Ok(out)
}

/// A change from nothing, which can be taken back.
pub(crate) trait Change: Keyed {
    ghost ended: { Self → Self };

    /// The change that takes it back.
    fn ended(self) -> Self
        ensures { result ≡ ended self };
}

fn all_ended<T: Change + Drop>(alloc: Global, changes: Vec<T>) -> Result<Vec<T>, NoMemory>
    ensures { IfOk result (λ v. v.items ≡ map T.ended changes.items) }
{
    let mut out = Vec::new(alloc);
    for change in changes {
        out.push(change.ended())?;
    }
    Ok(out)
}

/// The changes that lead from the old ones to the new ones, in the order of their keys.
pub(crate) fn changes_of<T: Change + Same + Copies + Drop>(
    alloc: Global,
    old: &[T],
    new: &[T],
) -> Result<Vec<T>, NoMemory>
    requires old { Ascends T.key T.Key.cmp old.now }
    requires new { Ascends T.key T.Key.cmp new.now }
    ensures { IfOk result (λ v. v.items ≡ changes_of T.row.coded T.key T.Key.cmp T.ended old.now new.now) }
{
    let gone = lacking(alloc, old, new)?;
    let mut changes = all_ended(alloc, gone)?;
    changes.append(&mut lacking(alloc, new, old)?)?;
    changes.append(&mut altered(alloc, old, new)?)?;
    sorted(alloc, changes)
}

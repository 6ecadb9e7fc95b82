//! The objects of one kind: a vector in ascending order of their keys, whose places in memory contracts see.
ghost use Rattle.std.specs.Prelude.{◌≡◌, ◌≤◌, ◌<◌, length, IfOk, OnOk, OnErr, IsOk, not, nat_lt, vec_capacity};
ghost use Rattle.std.specs.Option.{is_some};
ghost use Rattle.cl_types.specs.Ascending.{Ascends, found, put, without};
ghost use Rattle.cl_types.specs.Equality.{is_same};
ghost use Rattle.cluster_objects.specs.Apply.{is_there, difference};

use crate::change::Applied;
use cl_types::{Copies, Keyed, NoMemory, Same, search};
use std::alloc::Global;
use std::mem;

/// Whether the very thing stands at its key.
pub(crate) fn is_there<T: Keyed + Same>(items: &[T], item: &T) -> bool
    requires { Ascends T.key T.Key.cmp items.now }
    ensures { result ≡ is_there (is_same T.row.coded) item.now (found (λ x. T.Key.cmp (T.key x) (T.key item.now)) items.now) }
{
    match cl_types::find(items, item.key()) {
        Some(there) => there.same(item),
        None => false,
    }
}

/// Whether a put of the item makes a difference.
pub(crate) fn put_difference<T: Keyed + Same>(items: &[T], item: &T) -> Applied
    requires { Ascends T.key T.Key.cmp items.now }
    ensures { result ≡ difference (not (is_there (is_same T.row.coded) item.now (found (λ x. T.Key.cmp (T.key x) (T.key item.now)) items.now))) }
{
    if is_there(items, item) {
        Applied::Unchanged
    } else {
        Applied::Changed
    }
}

/// Whether there are more than the limit once the item is put.
pub(crate) fn is_full<T: Keyed>(items: &[T], item: &T, limit: u32) -> bool
    requires { Ascends T.key T.Key.cmp items.now }
    ensures { result ≡ nat_lt limit (length (put (λ x. T.Key.cmp (T.key x) (T.key item.now)) item.now items.now)) }
{
    let limit = limit as usize;
    match search(items, item.key()) {
        Ok(_) => limit < items.len(),
        Err(_) => limit <= items.len(),
    }
}

/// Whether a removal of what was handed out made a difference.
pub(crate) fn removal_difference<T>(old: &Option<T>) -> Applied
    ensures { result ≡ difference (is_some old.now) }
{
    match old {
        Some(_) => Applied::Changed,
        None => Applied::Unchanged,
    }
}

/// Inserts the item at its key, and hands out the one that stood there. It needs no memory where there is a place
/// for it.
pub(crate) fn put<T: Keyed + Drop>(items: &mut Vec<T>, item: T) -> Result<Option<T>, NoMemory>
    requires ascends { Ascends T.key T.Key.cmp items.old.items }
    requires places { length items.old.items ≤ vec_capacity items.old }
    ensures ok { OnOk result (items.new.items ≡ put (λ x. T.Key.cmp (T.key x) (T.key item)) item items.old.items) }
    ensures old { IfOk result (λ old. old ≡ found (λ x. T.Key.cmp (T.key x) (T.key item)) items.old.items) }
    ensures err { OnErr result (items.new.items ≡ items.old.items) }
    ensures ascends { Ascends T.key T.Key.cmp items.new.items }
    ensures places { length items.new.items ≤ vec_capacity items.new }
    ensures kept { vec_capacity items.old ≤ vec_capacity items.new }
    ensures succeeds { length (put (λ x. T.Key.cmp (T.key x) (T.key item)) item items.old.items) ≤ vec_capacity items.old → IsOk result }
{
    match search(items, item.key()) {
        Ok(i) => Ok(Some(mem::replace(&mut items[i], item))),
        Err(i) => {
            items.reserve(1)?;
            items.insert(i, item)?;
            Ok(None)
        }
    }
}

/// Inserts the item at its key, for which there is a place, in place of what stood there.
pub(crate) fn restore<T: Keyed + Drop>(items: &mut Vec<T>, item: T)
    requires ascends { Ascends T.key T.Key.cmp items.old.items }
    requires places { length items.old.items ≤ vec_capacity items.old }
    requires room { length (put (λ x. T.Key.cmp (T.key x) (T.key item)) item items.old.items) ≤ vec_capacity items.old }
    ensures items { items.new.items ≡ put (λ x. T.Key.cmp (T.key x) (T.key item)) item items.old.items }
    ensures places { length items.new.items ≤ vec_capacity items.new }
    ensures kept { vec_capacity items.old ≤ vec_capacity items.new }
{
    let _ = put(items, item);
}

/// Removes the item with the key, and hands it out.
pub(crate) fn remove<T: Keyed>(items: &mut Vec<T>, key: &T::Key) -> Option<T>
    requires ascends { Ascends T.key T.Key.cmp items.old.items }
    requires places { length items.old.items ≤ vec_capacity items.old }
    ensures item { result ≡ found (λ x. T.Key.cmp (T.key x) key.now) items.old.items }
    ensures items { items.new.items ≡ without (λ x. T.Key.cmp (T.key x) key.now) items.old.items }
    ensures ascends { Ascends T.key T.Key.cmp items.new.items }
    ensures places { length items.new.items ≤ vec_capacity items.new }
    ensures kept { vec_capacity items.old ≤ vec_capacity items.new }
{
    match search(items, key) {
        Ok(i) => Some(items.remove(i)),
        Err(_) => None,
    }
}

/// Equal items, in a vector of its own.
pub(crate) fn copied<T: Copies + Drop>(alloc: Global, items: &[T]) -> Result<Vec<T>, NoMemory>
    ensures items { IfOk result (λ copy. copy.items ≡ items.now) }
    ensures places { IfOk result (λ copy. length copy.items ≤ vec_capacity copy) }
{
    let mut copy = Vec::with_capacity(alloc, items.len())?;
    for item in items {
        copy.push(item.copy()?)?;
    }
    Ok(copy)
}

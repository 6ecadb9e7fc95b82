//! Edits of sorted lists that say how much room is left.
ghost use Rattle.std.specs.Prelude.{◌≡◌, ◌<◌, ◌≤◌, length, vec_len, vec_capacity};
ghost use Rattle.std.specs.List.{insert};
ghost use Rattle.cl_types.specs.Ascending.{Ascends, found, put, without};

use cl_types::{Keyed, search};

/// Inserts the item at its key, in place of the item that had it. The room for it is there.
pub(crate) fn put_in_room<T: Keyed + Drop>(items: &mut Vec<T>, item: T)
    requires ascends { Ascends T.key T.Key.cmp items.old.items }
    requires room { length (put (λ x. T.Key.cmp (T.key x) (T.key item)) item items.old.items) ≤ vec_capacity items.old }
    ensures items { items.new.items ≡ put (λ x. T.Key.cmp (T.key x) (T.key item)) item items.old.items }
    ensures ascends { Ascends T.key T.Key.cmp items.new.items }
    ensures capacity { vec_capacity items.new ≡ vec_capacity items.old }
{
    match search(items, item.key()) {
        Ok(i) => items[i] = item,
        Err(i) => insert_in_room(items, i, item),
    }
}

/// Inserts at an index. The room for it is there.
pub(crate) fn insert_in_room<T: Drop>(items: &mut Vec<T>, i: usize, item: T)
    requires index { i ≤ vec_len items.old }
    requires room { vec_len items.old < vec_capacity items.old }
    ensures items { items.new.items ≡ insert items.old.items i item }
    ensures capacity { vec_capacity items.new ≡ vec_capacity items.old }
{
    match items.insert(i, item) {
        Ok(()) => {}
        Err(_) => unreachable!(),
    }
}

/// Removes the item with the key and hands it out. The room stays.
pub(crate) fn remove_at_key<T: Keyed>(items: &mut Vec<T>, key: &T::Key) -> Option<T>
    requires { Ascends T.key T.Key.cmp items.old.items }
    ensures item { result ≡ found (λ x. T.Key.cmp (T.key x) key.now) items.old.items }
    ensures items { items.new.items ≡ without (λ x. T.Key.cmp (T.key x) key.now) items.old.items }
    ensures ascends { Ascends T.key T.Key.cmp items.new.items }
    ensures capacity { vec_capacity items.new ≡ vec_capacity items.old }
{
    match search(items, key) {
        Ok(i) => Some(items.remove(i)),
        Err(_) => None,
    }
}

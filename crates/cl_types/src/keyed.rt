//! Lists of items that ascend by their keys.
ghost use Rattle.std.specs.Prelude.{◌≡◌, IfOk, IfErr, OnOk, OnErr, option_copied};
ghost use Rattle.cl_types.specs.Ascending.{Ascends, IsPlace, IsGap, found, put, without};

use crate::memory::NoMemory;
use crate::text::Text;
use std::cmp::Ordering;

/// An item with a unique key.
pub trait Keyed {
    type Key: Ord;

    ghost key: { Self → Self.Key };

    fn key(&self) -> &Self::Key
        ensures { result.now ≡ key self.now };
}

/// The index of the item with the key, or where to insert one.
pub fn search<T: Keyed>(items: &[T], key: &T::Key) -> Result<usize, usize>
    requires { Ascends T.key T.Key.cmp items.now }
    ensures found { IfOk result (IsPlace (λ x. T.Key.cmp (T.key x) key.now) items.now) }
    ensures absent { IfErr result (IsGap (λ x. T.Key.cmp (T.key x) key.now) items.now) }
{
    items.binary_search_by(
        |item: &T| -> Ordering
            ensures { result ≡ T.Key.cmp (T.key item.now) key.entry.now }
        { item.key().cmp(key) },
    )
}

/// The item with the key.
pub fn find<'a, T: Keyed>(items: &'a [T], key: &T::Key) -> Option<&'a T>
    requires { Ascends T.key T.Key.cmp items.now }
    ensures { option_copied result ≡ found (λ x. T.Key.cmp (T.key x) key.now) items.now }
{
    match search(items, key) {
        Ok(i) => Some(&items[i]),
        Err(_) => None,
    }
}

/// Inserts the item at its key, in place of the item that had it.
pub fn put<T: Keyed + Drop>(items: &mut Vec<T>, item: T) -> Result<(), NoMemory>
    requires { Ascends T.key T.Key.cmp items.old.items }
    ensures ok { OnOk result (items.new.items ≡ put (λ x. T.Key.cmp (T.key x) (T.key item)) item items.old.items) }
    ensures err { OnErr result (items.new.items ≡ items.old.items) }
    ensures ascends { Ascends T.key T.Key.cmp items.new.items }
{
    match search(items, item.key()) {
        Ok(i) => items[i] = item,
        Err(i) => items.insert(i, item)?,
    }
    Ok(())
}

/// Removes the item with the key, and hands it out.
pub fn remove<T: Keyed>(items: &mut Vec<T>, key: &T::Key) -> Option<T>
    requires { Ascends T.key T.Key.cmp items.old.items }
    ensures item { result ≡ found (λ x. T.Key.cmp (T.key x) key.now) items.old.items }
    ensures items { items.new.items ≡ without (λ x. T.Key.cmp (T.key x) key.now) items.old.items }
    ensures ascends { Ascends T.key T.Key.cmp items.new.items }
{
    match search(items, key) {
        Ok(i) => Some(items.remove(i)),
        Err(_) => None,
    }
}

/// A text is its own key.
impl Keyed for Text {
    type Key = Text;

    ghost key = { λ t. t };

    fn key(&self) -> &Text {
        self
    }
}

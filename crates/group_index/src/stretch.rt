//! Items of an ascending list that stand together.
ghost use Rattle.std.specs.Prelude.{◌≡◌, ◌<◌, ◌≤◌, ◌≢◌, ℕ, length};
ghost use Rattle.std.specs.List.{AllWithin};
ghost use Rattle.std.specs.declared.cmp.Ordering.TheVariants.{Less};
ghost use Rattle.cl_types.specs.Ascending.{Ascends};
ghost use Rattle.group_index.specs.Settled.{AreInOrder};

use cl_types::{Keyed, search};

/// The places from `start` up to `end`.
#[derive(Clone, Copy)]
pub(crate) struct Stretch {
    pub(crate) start: usize,
    pub(crate) end: usize,
}

/// Two stretches, of which the second begins where the first ends or behind it.
#[derive(Clone, Copy)]
pub(crate) struct Stretches {
    pub(crate) first: Stretch,
    pub(crate) second: Stretch,
}

/// The first place whose item isn't less than the key. It does not allocate.
pub(crate) fn place_from<T: Keyed>(items: &[T], key: &T::Key) -> usize
    requires { Ascends T.key T.Key.cmp items.now }
    ensures within { result ≤ length items.now }
    ensures before { AllWithin (λ x. T.Key.cmp (T.key x) key.now ≡ Less) items.now 0 result }
    ensures after { AllWithin (λ x. T.Key.cmp (T.key x) key.now ≢ Less) items.now result (length items.now) }
{
    match search(items, key) {
        Ok(i) => i,
        Err(i) => i,
    }
}

// The later one of two places.
fn later(a: usize, b: usize) -> usize
    ensures first { a ≤ result }
    ensures second { b ≤ result }
    ensures one { (k : ℕ) → a ≤ k → k < result → k < b }
{
    if a <= b { b } else { a }
}

// The first stretch, and what of the second stands behind it.
fn behind(first: Stretch, second: Stretch) -> Stretches
    requires { first.start ≤ second.start }
    ensures { AreInOrder first second result }
{
    Stretches {
        first,
        second: Stretch {
            start: later(first.end, second.start),
            end: later(first.end, second.end),
        },
    }
}

/// The two stretches in the order of their places.
pub(crate) fn in_order(a: Stretch, b: Stretch) -> Stretches
    ensures { AreInOrder a b result }
{
    if a.start <= b.start {
        behind(a, b)
    } else {
        behind(b, a)
    }
}

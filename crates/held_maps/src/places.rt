ghost use Rattle.std.specs.Prelude.{◌≡◌, ℕ, ◌≤◌, IfOk};
ghost use Rattle.held_maps.specs.Rows.{IsRoom};

use crate::rows::Rows;
use crate::shelf::Titled;
use cl_types::NoMemory;
use std::alloc::Global;
use std::marker::Model;

/// Places that are reserved for so many objects and their texts.
#[derive(Drop)]
pub(crate) struct Places<T> {
    rows: Rows<T>,
    count: usize,
}

impl<T> Model for Places<T> {
    ghost use Rattle.std.specs.Prelude.{ℕ};
    ghost use Rattle.held_maps.specs.Rows.{IsRoom};

    ghost Value = { ℕ };

    ghost view = { λ p. p.count };

    ghost invariant = { λ p. IsRoom p.count p.rows };
}

impl<T: Titled + Drop> Places<T> {
    pub(crate) fn reserve(alloc: Global, count: usize) -> Result<Places<T>, NoMemory>
        ensures { IfOk result (λ places. places ≡ count) }
    {
        let rows = Rows::with_places(alloc, count)?;
        Ok(Places { rows, count })
    }

    /// The rows to be filled. It does not allocate.
    pub(crate) fn into_rows(self) -> Rows<T>
        ensures { (count : ℕ) → count ≤ self → IsRoom count result }
    {
        let Places { rows, count: _ } = self;
        rows
    }
}

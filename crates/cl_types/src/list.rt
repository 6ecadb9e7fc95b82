ghost use Rattle.std.specs.Prelude.{◌≡◌, [], ◌↔◌, IsTrue};

use crate::copies::Copies;
use crate::same::Same;
use std::alloc::{AllocError, Global};
use std::marker::Model;

/// Items in order.
#[derive(Debug, Drop)]
pub struct List<T> {
    items: Vec<T>,
}

impl<T> Model for List<T> {
    ghost use Rattle.std.specs.Prelude.{List as Items};
    ghost use Rattle.std.specs.Coded.{coded_list};

    ghost Value = { Items T };

    ghost coded = { coded_list T.code };

    ghost view = { λ l. l.items.items };
}

impl<T> List<T> {
    ghost use Rattle.std.specs.Borrow.{Lends, sem};
    ghost use Rattle.cl_types.specs.contracts.list.List.{the_row};
    ghost use Rattle.cl_types.specs.Rows.{vec_row};

    /// The list of these items.
    pub fn of(items: Vec<T>) -> List<T>
        ensures { result ≡ items.items }
    {
        List { items }
    }

    /// The empty list. It does not allocate.
    pub fn new(alloc: Global) -> List<T>
        ensures { result ≡ [] }
    {
        List {
            items: Vec::new(alloc),
        }
    }

    pub fn as_slice(&self) -> &[T]
        ensures { result.now ≡ self.now }
    {
        self.items.as_slice()
    }

    /// The vector of the items, to be edited.
    pub fn vec_mut(&mut self) -> &mut Vec<T>
        ensures* writes_back { sem 𝓛 (Lends (the_row T.row) (vec_row T.row) self.entry result (λ w. w.items)) }
        ensures value { result.now.items ≡ self.old }
    {
        &mut self.items
    }
}

impl<T: Copies> Clone for List<T> {
    ghost is_clone = { λ items copy. copy ≡ items };

    fn clone(&self) -> Result<List<T>, AllocError> {
        let mut items = Vec::with_capacity(*self.items.allocator(), self.items.len())?;
        for item in self.items.iter() {
            items.push(item.clone()?)?;
        }
        Ok(List { items })
    }
}

impl<T: Copies> Copies for List<T> {
    ghost exact = { λ x y h. h };
}

impl<T: Same> Same for List<T> {
    fn same(&self, other: &List<T>) -> bool {
        if self.items.len() != other.items.len() {
            return false;
        }
        for i in 0..self.items.len() {
            if !self.items[i].same(&other.items[i]) {
                return false;
            }
        }
        true
    }
}

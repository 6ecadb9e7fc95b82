ghost use Rattle.std.specs.Prelude.{◌≡◌, IfOk};
ghost use Rattle.std.proofs.Common.{rules};
ghost use Rattle.std.proofs.lemmas.Grind.{common_steps};

use crate::memory::NoMemory;

/// A value whose clone is an equal value. A collection's copy keeps its source's allocator.
pub trait Copies: Clone {
    ghost exact: { (x y : Self) → Self.is_clone x y → y ≡ x };

    /// An equal value.
    final fn copy(&self) -> Result<Self, NoMemory>
        ensures { IfOk result (λ copy. copy ≡ self.now) }
    {
        Ok(self.clone()?)
    }
}

impl<T: Copies> Copies for Option<T> {
    ghost exact = { λ x y h. Prim.search (rules, common_steps, T.exact) };
}

#[cfg(test)]
mod tests;

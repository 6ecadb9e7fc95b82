ghost use Rattle.std.specs.Prelude.{◌≡◌, IfOk};
ghost use Rattle.cl_types.specs.Ascending.{Ascends, sorted_by};

use cl_types::{Keyed, NoMemory, put};
use std::alloc::Global;

/// The items by their keys, of those with one key the first. They go in from the last on.
pub fn sorted<T: Keyed + Drop>(alloc: Global, mut items: Vec<T>) -> Result<Vec<T>, NoMemory>
    ensures sorted { IfOk result (λ v. v.items ≡ sorted_by T.key T.Key.cmp items.items) }
    ensures ascends { IfOk result (λ v. Ascends T.key T.Key.cmp v.items) }
{
    let mut sorted = Vec::new(alloc);
    while let Some(item) = items.pop() {
        put(&mut sorted, item)?;
    }
    Ok(sorted)
}

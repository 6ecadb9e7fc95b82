ghost use Rattle.std.specs.Prelude.{◌≡◌, List as Items, IfOk, OnOk};
ghost use Rattle.std.specs.List.{list_all};
ghost use Rattle.std.specs.declared.cmp.Ordering.TheVariants.{Equal};
ghost use Rattle.cl_types.specs.Ascending.{sorted_set};
ghost use Rattle.label_select.specs.declared.labels.Label.{Label};
ghost use Rattle.label_select.specs.Selection.{IsNeed, meets, selects};
ghost use Rattle.label_select.specs.Canonical.{IsSelection, with_sorted_values, canonical};

use crate::selector::{Need, Selector};
use cl_types::{List, NoMemory};
use std::alloc::Global;

/// The selector that asks what all these needs ask.
pub fn canon(alloc: Global, mut needs: List<Need>) -> Result<Selector, NoMemory>
    ensures same { IfOk result (λ s. (labels : Items Label) → selects s labels ≡ list_all (meets labels) needs) }
    ensures sorted { IfOk result (λ s. s.needs ≡ canonical needs) }
    ensures form { IfOk result IsSelection }
{
    let mut sorted = Vec::new(alloc);
    while let Some(need) = needs.vec_mut().pop() {
        sorted.push(sort_values(need)?)?;
    }
    sort_once(&mut sorted)?;
    Ok(Selector {
        needs: List::of(sorted),
    })
}

fn sort_values(need: Need) -> Result<Need, NoMemory>
    ensures sorted { IfOk result (λ sorted. sorted ≡ with_sorted_values need) }
    ensures form { IfOk result IsNeed }
{
    let Need {
        key,
        op,
        mut values,
    } = need;
    sort_once(values.vec_mut())?;
    Ok(Need { key, op, values })
}

/// Sorts the items and keeps each once.
fn sort_once<T: Ord + Drop>(items: &mut Vec<T>) -> Result<(), NoMemory>
    requires { (x y : T) → T.cmp x y ≡ Equal → x ≡ y }
    ensures { OnOk result (items.new.items ≡ sorted_set T.cmp items.old.items) }
{
    items.sort()?;
    items.dedup();
    Ok(())
}

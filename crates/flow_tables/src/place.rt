//! Where a flow stands in the listing.
ghost use Rattle.std.proofs.Common.{rules};
ghost use Rattle.std.proofs.lemmas.Grind.{common_steps};
ghost use Rattle.std.specs.Prelude.{◌≡◌, IfOk, refl};
ghost use Rattle.std.specs.Ordering.{as_partial_cmp, eq_by_cmp};
ghost use Rattle.std.specs.Cmp.{partial_order_from_agreeing_total, partial_equiv_from_equiv, eq_by_cmp_equiv};
ghost use Rattle.flow_tables.specs.Order.{place_order, place_order_total, place_of};

use cl_types::{Copies, Keyed, NoMemory, Text};
use flow_entries::{Flow, Table, write_match};
use std::alloc::Global;
use std::cmp::Ordering;

/// A flow's table and priority, and the text of its match.
#[derive(Clone, Debug, Drop)]
pub(crate) struct Place {
    pub table: Table,
    pub priority: u16,
    pub text: Text,
}

impl Place {
    /// Where the flow stands.
    pub fn of(alloc: Global, flow: &Flow) -> Result<Place, NoMemory>
        ensures { IfOk result (λ place. place ≡ place_of flow.now) }
    {
        let mut text = Text::new(alloc);
        write_match(&mut text, &flow.fields)?;
        Ok(Place {
            table: flow.table,
            priority: flow.priority,
            text,
        })
    }
}

/// By table, then priority falling, then by the text's bytes.
impl Ord for Place {
    ghost cmp = { place_order };

    ghost total = { place_order_total };

    ghost matches_partial_cmp = { λ a b. refl };

    ghost matches_eq = { λ a b. refl };

    fn cmp(&self, other: &Place) -> Ordering {
        self.table
            .place()
            .cmp(&other.table.place())
            .then(other.priority.cmp(&self.priority))
            .then(self.text.cmp(&other.text))
    }
}

impl PartialOrd for Place {
    ghost partial_cmp = { as_partial_cmp place_order };

    ghost laws = { partial_order_from_agreeing_total place_order place_order_total (λ a b. refl) (λ a b. refl) };

    fn partial_cmp(&self, other: &Place) -> Option<Ordering> {
        Some(self.cmp(other))
    }
}

impl PartialEq for Place {
    ghost eq = { eq_by_cmp place_order };

    ghost laws = { partial_equiv_from_equiv (eq_by_cmp_equiv place_order_total) };

    fn eq(&self, other: &Place) -> bool {
        self.cmp(other).is_eq()
    }
}

impl Eq for Place {
    ghost laws = { eq_by_cmp_equiv place_order_total };
}

/// A place is its own key.
impl Keyed for Place {
    type Key = Place;

    ghost key = { λ place. place };

    fn key(&self) -> &Place {
        self
    }
}

impl Copies for Place {
    ghost exact = { λ x y h. Prim.search (rules, common_steps) };
}

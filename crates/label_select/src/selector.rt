ghost use Rattle.std.proofs.Common.{rules};
ghost use Rattle.std.proofs.lemmas.Grind.{common_steps};
ghost use Rattle.std.specs.Prelude.{◌≡◌, refl, option_copied};
ghost use Rattle.std.specs.List.{list_any};
ghost use Rattle.std.specs.Ordering.{as_partial_cmp, eq_by_cmp};
ghost use Rattle.std.specs.Cmp.{partial_order_from_agreeing_total, partial_equiv_from_equiv, eq_by_cmp_equiv};
ghost use Rattle.cl_types.specs.Text.{text_eq};
ghost use Rattle.label_select.specs.Selection.{meets_op, takes_values, has_one_of, meets, selects};
ghost use Rattle.label_select.specs.Canonical.{op_place, need_order, need_order_total};

use crate::labels::Labels;
use cl_types::{Copies, List, NoMemory, Same, Text};
use std::cmp::Ordering;
use std::marker::Model;

/// What a need asks of a label: In, NotIn, Exists and DoesNotExist of Kubernetes.
#[derive(Clone, Copy, Debug, PartialEq, Eq, PartialOrd, Ord)]
pub enum Op {
    OneOf,
    NoneOf,
    Present,
    Missing,
}

impl Op {
    /// Whether a need with this operator has values.
    pub fn takes_values(self) -> bool
        ensures { result ≡ takes_values self }
    {
        match self {
            Op::OneOf | Op::NoneOf => true,
            Op::Present | Op::Missing => false,
        }
    }

    fn place(self) -> u8
        ensures { result ≡ op_place self }
    {
        match self {
            Op::OneOf => 0,
            Op::NoneOf => 1,
            Op::Present => 2,
            Op::Missing => 3,
        }
    }
}

/// One requirement of a selector. Key and values have the forms of labels; `OneOf` and `NoneOf` have a
/// value, `Present` and `Missing` have none.
#[derive(Clone, Debug, Drop)]
pub struct Need {
    pub key: Text,
    pub op: Op,
    pub values: List<Text>,
}

impl Model for Need {
    ghost use Rattle.label_select.specs.Selection.{Requirement, IsNeed};

    ghost Value = { Requirement };

    ghost view = { λ n. record { key = n.key; op = n.op; values = n.values } };

    ghost invariant = { λ n. IsNeed (record { key = n.key; op = n.op; values = n.values }) };
}

impl Need {
    fn is_met(&self, labels: &Labels) -> bool
        ensures { result ≡ meets labels.now self.now }
    {
        self.allows(labels.get(&self.key))
    }

    // Whether the value of its key, where the key is there, is as the need asks.
    pub(crate) fn allows(&self, value: Option<&Text>) -> bool
        ensures { result ≡ meets_op self.now.op (option_copied value.entry) self.now.values }
    {
        match self.op {
            Op::OneOf => is_one_of(value, self.values.as_slice()),
            Op::NoneOf => !is_one_of(value, self.values.as_slice()),
            Op::Present => value.is_some(),
            Op::Missing => value.is_none(),
        }
    }
}

fn is_one_of(value: Option<&Text>, values: &[Text]) -> bool
    ensures { result ≡ has_one_of (option_copied value.entry) values.now }
{
    match value {
        Some(value) => is_among(value, values),
        None => false,
    }
}

fn is_among(value: &Text, values: &[Text]) -> bool
    ensures { result ≡ list_any (text_eq value.now) values.now }
{
    values.iter().any(|v| value == v)
}

/// By key, then operator, then values.
impl Ord for Need {
    ghost cmp = { need_order };

    ghost total = { need_order_total };

    ghost matches_partial_cmp = { λ a b. refl };

    ghost matches_eq = { λ a b. refl };

    fn cmp(&self, other: &Need) -> Ordering {
        self.key
            .cmp(&other.key)
            .then(self.op.place().cmp(&other.op.place()))
            .then(self.values.as_slice().cmp(other.values.as_slice()))
    }
}

impl PartialOrd for Need {
    ghost partial_cmp = { as_partial_cmp need_order };

    ghost laws = { partial_order_from_agreeing_total need_order need_order_total (λ a b. refl) (λ a b. refl) };

    fn partial_cmp(&self, other: &Need) -> Option<Ordering> {
        Some(self.cmp(other))
    }
}

impl PartialEq for Need {
    ghost eq = { eq_by_cmp need_order };

    ghost laws = { partial_equiv_from_equiv (eq_by_cmp_equiv need_order_total) };

    fn eq(&self, other: &Need) -> bool {
        self.cmp(other).is_eq()
    }
}

impl Eq for Need {
    ghost laws = { eq_by_cmp_equiv need_order_total };
}

impl Copies for Need {
    ghost exact = { λ x y h. Prim.search (rules, common_steps) };
}

impl Same for Need {
    fn same(&self, other: &Need) -> bool {
        self.key.same(&other.key) && self.op == other.op && self.values.same(&other.values)
    }
}

/// Needs that hold together, in canonical form: sorted by key, operator and values, none twice, and the
/// values of each sorted, none twice. [`crate::canon`] makes one. Without needs it selects everything.
#[derive(Clone, Debug, Drop)]
pub struct Selector {
    pub needs: List<Need>,
}

impl Model for Selector {
    ghost use Rattle.label_select.specs.Selection.{Selection};
    ghost use Rattle.label_select.specs.Canonical.{IsSelection};

    ghost Value = { Selection };

    ghost view = { λ s. record { needs = s.needs } };

    ghost invariant = { λ s. IsSelection (record { needs = s.needs }) };
}

impl Selector {
    /// Whether it selects what has these labels.
    pub fn selects(&self, labels: &Labels) -> bool
        ensures { result ≡ selects self.now labels.now }
    {
        self.needs.as_slice().iter().all(|need| need.is_met(labels))
    }
}

impl Copies for Selector {
    ghost exact = { λ x y h. Prim.search (rules, common_steps) };
}

impl Same for Selector {
    fn same(&self, other: &Selector) -> bool {
        self.needs.same(&other.needs)
    }
}

ghost use Rattle.std.proofs.Common.{rules};
ghost use Rattle.std.proofs.lemmas.Grind.{common_steps};
ghost use Rattle.std.specs.Prelude.{◌≡◌, ◌^◌, ◌<◌, ◌↔◌, IsTrue, IfOk, refl};
ghost use Rattle.std.specs.Ordering.{as_partial_cmp};
ghost use Rattle.std.specs.Cmp.{partial_order_from_agreeing_total, partial_equiv_from_equiv};

use crate::copies::Copies;
use crate::memory::NoMemory;
use crate::same::Same;
use std::cmp::Ordering;

/// An address of either family. `V4` comes before `V6`.
#[derive(Clone, Copy, Debug, Hash)]
pub enum Addr {
    V4(u32),
    V6(u128),
}

impl Addr {
    ghost use Rattle.cl_types.specs.Addr.{width_of, number_of};

    // How many bits an address of this family has.
    pub(crate) fn width(self) -> u8
        ensures { result ≡ width_of self }
    {
        match self {
            Addr::V4(_) => 32,
            Addr::V6(_) => 128,
        }
    }

    pub(crate) fn number(self) -> u128
        ensures value { result ≡ number_of self }
        ensures small { result < 2 ^ width_of self }
    {
        match self {
            Addr::V4(n) => u128::from(n),
            Addr::V6(n) => n,
        }
    }
}

impl Addr {
    ghost use Rattle.std.specs.Prelude.{◌≡◌};
    ghost use Rattle.cl_types.specs.Addr.{addr_eq};

    /// Whether the two are one address.
    pub fn is(self, other: Addr) -> bool
        ensures { result ≡ addr_eq self other }
    {
        self == other
    }
}

impl PartialEq for Addr {
    ghost use Rattle.cl_types.specs.Addr.{addr_eq};
    ghost use Rattle.cl_types.specs.AddrEq.{addr_eq_equiv};

    ghost eq = { addr_eq };

    ghost laws = { partial_equiv_from_equiv addr_eq_equiv };

    fn eq(&self, other: &Addr) -> bool {
        match (*self, *other) {
            (Addr::V4(a), Addr::V4(b)) => a == b,
            (Addr::V6(a), Addr::V6(b)) => a == b,
            _ => false,
        }
    }
}

impl Eq for Addr {
    ghost use Rattle.cl_types.specs.AddrEq.{addr_eq_equiv};

    ghost laws = { addr_eq_equiv };
}

/// IPv4 before IPv6, then by number.
impl Ord for Addr {
    ghost use Rattle.cl_types.specs.Addr.{addr_order, addr_order_total};
    ghost use Rattle.cl_types.specs.AddrEq.{addr_eq_by_order};

    ghost cmp = { addr_order };

    ghost total = { addr_order_total };

    ghost matches_partial_cmp = { λ a b. refl };

    ghost matches_eq = { addr_eq_by_order };

    fn cmp(&self, other: &Addr) -> Ordering {
        self.width()
            .cmp(&other.width())
            .then(self.number().cmp(&other.number()))
    }
}

impl PartialOrd for Addr {
    ghost use Rattle.cl_types.specs.Addr.{addr_order, addr_order_total};
    ghost use Rattle.cl_types.specs.AddrEq.{addr_eq_by_order};

    ghost partial_cmp = { as_partial_cmp addr_order };

    ghost laws = { partial_order_from_agreeing_total addr_order addr_order_total (λ a b. refl) addr_eq_by_order };

    fn partial_cmp(&self, other: &Addr) -> Option<Ordering> {
        Some(self.cmp(other))
    }
}

impl Copies for Addr {
    ghost exact = { λ x y h. Prim.search (rules, common_steps) };
}

impl Same for Addr {
    fn same(&self, other: &Addr) -> bool {
        self == other
    }
}

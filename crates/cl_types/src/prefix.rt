ghost use Rattle.std.proofs.Common.{rules};
ghost use Rattle.std.proofs.lemmas.Grind.{common_steps};
ghost use Rattle.std.specs.Prelude.{◌≡◌, ◌≤◌, ◌*◌, ◌/◌, ◌^◌, ◌↔◌, IsTrue, IfOk};

use crate::addr::Addr;
use crate::copies::Copies;
use crate::memory::NoMemory;
use crate::same::Same;
use std::marker::Model;

/// A block of addresses: those that agree with `base` in the first `len` bits.
#[derive(Clone, Copy, Debug, PartialEq, Eq)]
pub struct Prefix {
    pub base: Addr,
    pub len: u8,
}

impl Model for Prefix {
    ghost use Rattle.std.specs.Prelude.{◌≡◌};
    ghost use Rattle.cl_types.specs.Prefix.{PrefixData, IsBlock};

    ghost Value = { PrefixData };

    ghost view = { λ p. record { base = p.base; len = p.len } };

    ghost invariant = { λ p. IsBlock p.base p.len };

    ghost inverse = { λ b. record { base = b.base; len = b.len } };
}

impl Prefix {
    ghost use Rattle.cl_types.specs.Prefix.{Holds, holds, block_of};

    /// Whether the block contains `a`.
    pub fn holds(&self, a: Addr) -> bool
        ensures meaning { IsTrue result ↔ Holds self.now a }
        ensures test { result ≡ holds self.now a }
    {
        match (self.base, a) {
            (Addr::V4(base), Addr::V4(n)) => {
                let free = 32 - self.len;
                above(n.into(), free) == above(base.into(), free)
            }
            (Addr::V6(base), Addr::V6(n)) => {
                let free = 128 - self.len;
                above(n, free) == above(base, free)
            }
            _ => false,
        }
    }

    /// The block that contains `a` alone.
    pub fn of(a: Addr) -> Prefix
        ensures { result ≡ block_of a }
    {
        match a {
            Addr::V4(_) => Prefix { base: a, len: 32 },
            Addr::V6(_) => Prefix { base: a, len: 128 },
        }
    }
}

// The number without its lowest bits.
pub(crate) fn above(n: u128, bits: u8) -> u128
    requires { bits ≤ 128 }
    ensures { result ≡ n / 2 ^ bits }
{
    if bits == 128 { 0 } else { n >> bits }
}

// The number with its lowest bits cleared.
pub(crate) fn without_low(n: u128, bits: u8) -> u128
    requires { bits ≤ 128 }
    ensures { result ≡ n / 2 ^ bits * 2 ^ bits }
{
    if bits == 128 { 0 } else { n >> bits << bits }
}

impl Copies for Prefix {
    ghost exact = { λ x y h. Prim.search (rules, common_steps) };
}

impl Same for Prefix {
    fn same(&self, other: &Prefix) -> bool {
        self == other
    }
}

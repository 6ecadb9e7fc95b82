ghost use Rattle.std.specs.Prelude.{◌≡◌, ◌≢◌, ℕ, ◌+◌, ◌-◌, ◌*◌, ◌/◌, ◌^◌, ◌<◌, ◌≤◌, ◌↔◌, IfOk, OnOk, All, map};
ghost use Rattle.std.specs.List.{Any, AllPairs, Contains};
ghost use Rattle.cl_types.specs.declared.addr.Addr.{Addr};
ghost use Rattle.cl_types.specs.declared.service.Masked.{Masked};
ghost use Rattle.cl_types.specs.Addr.{width_of, number_of, with_number};
ghost use Rattle.cl_types.specs.Prefix.{PrefixData, Holds};
ghost use Rattle.cl_types.specs.Blocks.{Matches, IsMaximalPorts, PortsPrecede, Remains, IsMaximalBlock, AddressesPrecede, Within, wider, Overshoots, StandsAs, IsSubspan, AppendsSpansOf, mask_of, IsPortSpan, span_of, block_at, FitsWidth};

use crate::addr::Addr;
use crate::list::List;
use crate::memory::NoMemory;
use crate::prefix::{Prefix, above};
use crate::service::Masked;
use std::alloc::Global;

// The numbers that have the bits of `index` above their lowest `height` bits.
#[derive(Clone, Copy)]
struct Span {
    height: u8,
    index: u128,
}

// How a span lies to a set of numbers.
#[derive(Clone, Copy, PartialEq, Eq)]
enum Standing {
    Inside,
    Outside,
    Mixed,
}

// A set of numbers, all of one span, whose spans can be tested.
trait Region {
    ghost use Rattle.cl_types.specs.declared.blocks.Span.{Span};

    ghost has: { Self → ℕ → Type 0 };

    ghost whole: { Self → Span };

    fn standing(&self, span: Span) -> Standing
        requires low { span.height ≤ 128 }
        requires fits { span.index < 2 ^ (128 - span.height) }
        requires part { IsSubspan (whole self.now) span }
        ensures { StandsAs (has self.now) span result };
}

// Appends the maximal spans of what the region has of the span.
fn add_spans<R: Region>(spans: &mut Vec<Span>, region: &R, span: Span) -> Result<(), NoMemory>
    requires low { span.height ≤ 128 }
    requires fits { span.index < 2 ^ (128 - span.height) }
    requires part { IsSubspan (R.whole region.now) span }
    requires larger { Overshoots (R.has region.now) (wider span) }
    ensures { OnOk result (AppendsSpansOf (R.has region.now) span spans.old.items spans.new.items) }
{
    match region.standing(span) {
        Standing::Outside => {}
        Standing::Inside => spans.push(span)?,
        Standing::Mixed => {
            let height = span.height - 1;
            let index = span.index * 2;
            add_spans(spans, region, Span { height, index })?;
            let index = index + 1;
            add_spans(spans, region, Span { height, index })?;
        }
    }
    Ok(())
}

// The least number of the span.
fn first(span: Span) -> u128
    requires low { span.height ≤ 128 }
    requires fits { span.index < 2 ^ (128 - span.height) }
    ensures { result ≡ span.index * 2 ^ span.height }
{
    if span.height == 128 {
        0
    } else {
        span.index << span.height
    }
}

// The greatest number of the span.
fn last(span: Span) -> u128
    requires low { span.height ≤ 128 }
    requires fits { span.index < 2 ^ (128 - span.height) }
    ensures { result + 1 ≡ (span.index + 1) * 2 ^ span.height }
{
    if span.height == 128 {
        u128::MAX
    } else {
        first(span) + ((1 << span.height) - 1)
    }
}

// The ports from `lo` to `hi`.
#[derive(Clone, Copy)]
struct PortRange {
    lo: u16,
    hi: u16,
}

impl Region for PortRange {
    ghost use Rattle.std.specs.Prelude.{◌≤◌};

    ghost has = { λ r n. (r.lo ≤ n) × (n ≤ r.hi) };

    ghost whole = { λ _. record { height = 16; index = 0 } };

    fn standing(&self, span: Span) -> Standing {
        let lo = u128::from(self.lo);
        let hi = u128::from(self.hi);
        let least = first(span);
        let greatest = last(span);
        if greatest < lo || hi < least {
            return Standing::Outside;
        }
        if lo <= least && greatest <= hi {
            Standing::Inside
        } else {
            Standing::Mixed
        }
    }
}

fn masked(span: Span) -> Masked
    requires low { span.height ≤ 16 }
    requires fits { span.index * 2 ^ span.height < 2 ^ 16 }
    ensures { result ≡ mask_of span }
{
    if span.height == 16 {
        Masked { value: 0, mask: 0 }
    } else {
        Masked {
            value: (span.index << span.height) as u16,
            mask: u16::MAX << span.height,
        }
    }
}

fn masks(alloc: Global, spans: &[Span]) -> Result<List<Masked>, NoMemory>
    requires { All IsPortSpan spans.now }
    ensures { IfOk result (λ blocks. blocks ≡ map mask_of spans.now) }
{
    let mut blocks = Vec::with_capacity(alloc, spans.len())?;
    for span in spans {
        blocks.push(masked(*span))?;
    }
    Ok(List::of(blocks))
}

/// The maximal aligned blocks of the ports from `lo` to `hi`, ascending.
pub fn blocks_of_range(alloc: Global, lo: u16, hi: u16) -> Result<List<Masked>, NoMemory>
    requires { lo ≤ hi }
    ensures exact { IfOk result (λ blocks. (port : ℕ) → port < 2 ^ 16
        → (((lo ≤ port) × (port ≤ hi)) ↔ Any (λ b. Matches b port) blocks)) }
    ensures maximal { IfOk result (λ blocks. (b : Masked) → (IsMaximalPorts lo hi b ↔ Contains blocks b)) }
    ensures ascending { IfOk result (λ blocks. AllPairs PortsPrecede blocks) }
{
    let mut spans = Vec::new(alloc);
    let whole = Span {
        height: 16,
        index: 0,
    };
    add_spans(&mut spans, &PortRange { lo, hi }, whole)?;
    masks(alloc, spans.as_slice())
}

// How the span lies to what an except leaves, in the family of `base`.
fn beside(span: Span, base: Addr, except: &Prefix) -> Standing
    requires low { span.height ≤ 128 }
    ensures { StandsAs (λ n. ¬ Holds except.now (with_number base n)) span result }
{
    if except.base.width() != base.width() {
        return Standing::Inside;
    }
    let taken = whole_of(except);
    if span.height <= taken.height {
        if above(span.index, taken.height - span.height) == taken.index {
            Standing::Outside
        } else {
            Standing::Inside
        }
    } else if above(taken.index, span.height - taken.height) == span.index {
        Standing::Mixed
    } else {
        Standing::Inside
    }
}

// How the span lies to what the excepts leave, in the family of `base`.
fn left_of(span: Span, base: Addr, excepts: &[Prefix]) -> Standing
    requires low { span.height ≤ 128 }
    ensures { StandsAs (λ n. All (λ e. ¬ Holds e (with_number base n)) excepts.now) span result }
{
    let mut standing = Standing::Inside;
    for except in excepts {
        match beside(span, base, except) {
            Standing::Outside => return Standing::Outside,
            Standing::Mixed => standing = Standing::Mixed,
            Standing::Inside => {}
        }
    }
    standing
}

// The addresses of a block that no except contains.
#[derive(Clone, Copy)]
struct Remaining<'a> {
    block: Prefix,
    excepts: &'a [Prefix],
}

impl<'a> Region for Remaining<'a> {
    ghost use Rattle.cl_types.specs.Addr.{with_number};
    ghost use Rattle.cl_types.specs.Blocks.{Remains, span_of};

    ghost has = { λ r n. Remains r.block r.excepts.now (with_number r.block.base n) };

    ghost whole = { λ r. span_of r.block };

    fn standing(&self, span: Span) -> Standing {
        left_of(span, self.block.base, self.excepts)
    }
}

fn whole_of(p: &Prefix) -> Span
    ensures value { result ≡ span_of p.now }
    ensures low { result.height ≤ width_of p.now.base }
    ensures fits { result.index < 2 ^ (width_of p.now.base - result.height) }
{
    let height = p.base.width() - p.len;
    Span {
        height,
        index: above(p.base.number(), height),
    }
}

fn prefix_at(span: Span, base: Addr) -> Prefix
    requires low { span.height ≤ width_of base }
    requires fits { span.index < 2 ^ (width_of base - span.height) }
    ensures { result ≡ block_at base span }
{
    match base {
        Addr::V4(_) => Prefix {
            base: Addr::V4(first(span) as u32),
            len: 32 - span.height,
        },
        Addr::V6(_) => Prefix {
            base: Addr::V6(first(span)),
            len: 128 - span.height,
        },
    }
}

fn prefixes(alloc: Global, spans: &[Span], base: Addr) -> Result<List<Prefix>, NoMemory>
    requires { All (FitsWidth (width_of base)) spans.now }
    ensures { IfOk result (λ blocks. blocks ≡ map (block_at base) spans.now) }
{
    let mut blocks = Vec::with_capacity(alloc, spans.len())?;
    for span in spans {
        blocks.push(prefix_at(*span, base))?;
    }
    Ok(List::of(blocks))
}

/// The maximal blocks of the addresses that `p` contains and no except does, ascending. An except of the
/// other family removes nothing. The work grows with the lengths of the blocks and the number of excepts, and
/// not with the number of addresses.
pub fn blocks_without(
    alloc: Global,
    p: Prefix,
    excepts: &List<Prefix>,
) -> Result<List<Prefix>, NoMemory>
    ensures exact { IfOk result (λ blocks. (a : Addr) → (Remains p excepts.now a ↔ Any (λ b. Holds b a) blocks)) }
    ensures maximal { IfOk result (λ blocks. (b : PrefixData) → (IsMaximalBlock p excepts.now b ↔ Contains blocks b)) }
    ensures ascending { IfOk result (λ blocks. AllPairs AddressesPrecede blocks) }
{
    let mut spans = Vec::new(alloc);
    let region = Remaining {
        block: p,
        excepts: excepts.as_slice(),
    };
    add_spans(&mut spans, &region, whole_of(&p))?;
    prefixes(alloc, spans.as_slice(), p.base)
}

#[cfg(test)]
mod tests;

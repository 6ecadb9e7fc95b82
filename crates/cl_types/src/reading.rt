ghost use Rattle.std.specs.Prelude.{◌≡◌, ◌≢◌, ℕ, ◌+◌, ◌-◌, ◌*◌, ◌^◌, ◌<◌, ◌≤◌, List, [], ◌∷◌, ◌++◌, length, IfSome, IfNone, IfOk, IfErr, codes};
ghost use Rattle.std.specs.Int.Digits.{number_from_digits};
ghost use Rattle.std.specs.Str.Parse.{AllDigits, digits_value};
ghost use Rattle.cl_types.specs.declared.addr.Addr.{Addr};
ghost use Rattle.cl_types.specs.Prefix.{PrefixData, cleared};
ghost use Rattle.cl_types.specs.Addr.{width_of};
ghost use Rattle.cl_types.specs.Bytes.{colon};
ghost use Rattle.cl_types.specs.Reading.{separator_of, base_of, IsHexGroup, IsOctet, IsPart, IsParts, IsNumber, IsFull, IsShortened, IsDotted, IsAddress, IsPrefix, Lacks, HasNoGap, Continues};

use crate::addr::Addr;
use crate::prefix::{Prefix, without_low};

/// A text that is no address.
#[derive(Clone, Copy, Debug, PartialEq, Eq)]
pub struct BadAddr;

/// A text that is no prefix.
#[derive(Clone, Copy, Debug, PartialEq, Eq)]
pub struct BadPrefix;

// How the parts of an address are written.
#[derive(Clone, Copy, Debug, PartialEq, Eq)]
enum Family {
    Dotted,
    Colons,
}

// Parts of an address, as one number, and how many they are.
#[derive(Clone, Copy)]
struct Parts {
    number: u128,
    count: u8,
}

// The text before the first such byte, and the text after it.
fn cut(text: &[u8], byte: u8) -> Option<(&[u8], &[u8])>
    ensures found { IfSome result (λ parts. text.now ≡ parts.0.now ++ (byte ∷ parts.1.now)) }
    ensures first { IfSome result (λ parts. Lacks byte parts.0.now) }
    ensures none { IfNone result (Lacks byte text.now) }
{
    for (i, b) in text.iter().enumerate() {
        if *b == byte {
            return Some((&text[..i], &text[i + 1..]));
        }
    }
    None
}

// The text before the first two colons, and the text after them.
fn cut_gap(text: &[u8]) -> Option<(&[u8], &[u8])>
    ensures found { IfSome result (λ parts. text.now ≡ parts.0.now ++ (codes "::" ++ parts.1.now)) }
    ensures first { IfSome result (λ parts. HasNoGap (parts.0.now ++ (colon ∷ []))) }
    ensures none { IfNone result (HasNoGap text.now) }
{
    for i in 1..text.len() {
        if text[i - 1] == b':' && text[i] == b':' {
            return Some((&text[..i - 1], &text[i + 1..]));
        }
    }
    None
}

// The number that the digits write.
fn numeral(text: &[u8], base: u32) -> Option<u32>
    requires low { 2 ≤ base }
    requires high { base ≤ 16 }
    requires short { length text.now ≤ 4 }
    ensures found { IfSome result (λ n. AllDigits base text.now × (n ≡ digits_value base text.now)) }
    ensures none { IfNone result (AllDigits base text.now → ⊥) }
{
    let mut n = 0;
    for b in text {
        n = n * base + char::from(*b).to_digit(base)?;
    }
    Some(n)
}

fn octet(text: &[u8]) -> Option<u16>
    ensures found { IfSome result (λ n. IsOctet text.now n) }
    ensures none { IfNone result ((n : ℕ) → IsOctet text.now n → ⊥) }
{
    if text.is_empty() || text.len() > 3 || (text.len() > 1 && text[0] == b'0') {
        return None;
    }
    let n = numeral(text, 10)?;
    if n < 256 { Some(n as u16) } else { None }
}

fn group(text: &[u8]) -> Option<u16>
    ensures found { IfSome result (λ n. IsHexGroup text.now n) }
    ensures none { IfNone result ((n : ℕ) → IsHexGroup text.now n → ⊥) }
{
    if text.is_empty() || text.len() > 4 {
        return None;
    }
    let n = numeral(text, 16)?;
    Some(n as u16)
}

impl Family {
    fn separator(self) -> u8
        ensures { result ≡ separator_of self }
    {
        match self {
            Family::Dotted => b'.',
            Family::Colons => b':',
        }
    }

    fn base(self) -> u128
        ensures { result ≡ base_of self }
    {
        match self {
            Family::Dotted => 256,
            Family::Colons => 65536,
        }
    }

    fn part(self, text: &[u8]) -> Option<u16>
        ensures found { IfSome result (λ n. IsPart self text.now n × (n < base_of self)) }
        ensures none { IfNone result ((n : ℕ) → IsPart self text.now n → ⊥) }
    {
        match self {
            Family::Dotted => octet(text),
            Family::Colons => group(text),
        }
    }
}

// One part more.
fn with_part(family: Family, before: Parts, part: u16) -> Parts
    requires few { before.count < 8 }
    requires below { before.number < base_of family ^ before.count }
    requires small { part < base_of family }
    ensures count { result.count ≡ before.count + 1 }
    ensures number { result.number ≡ before.number * base_of family + part }
    ensures below { result.number < base_of family ^ result.count }
{
    Parts {
        number: before.number * family.base() + u128::from(part),
        count: before.count + 1,
    }
}

// The parts before, followed by those of the text: at least one, and eight in all at most.
fn read_parts(family: Family, text: &[u8], before: Parts) -> Option<Parts>
    requires few { before.count ≤ 8 }
    requires below { before.number < base_of family ^ before.count }
    ensures found { IfSome result (Continues family before text.now) }
    ensures none { IfNone result ((ns : List ℕ) → 1 ≤ length ns
        → before.count + length ns ≤ 8 → IsParts family text.now ns → ⊥) }
{
    if before.count == 8 {
        return None;
    }
    match cut(text, family.separator()) {
        None => Some(with_part(family, before, family.part(text)?)),
        Some((first, rest)) => {
            let before = with_part(family, before, family.part(first)?);
            read_parts(family, rest, before)
        }
    }
}

// The parts of the text, eight at most.
fn all_parts(family: Family, text: &[u8]) -> Option<Parts>
    ensures found { IfSome result (λ parts. (ns : List ℕ) × IsParts family text.now ns × IsNumber family parts ns) }
    ensures none { IfNone result ((ns : List ℕ) → length ns ≤ 8 → IsParts family text.now ns → ⊥) }
{
    let none = Parts {
        number: 0,
        count: 0,
    };
    if text.is_empty() {
        return Some(none);
    }
    read_parts(family, text, none)
}

fn read_dotted(text: &[u8]) -> Option<u32>
    ensures found { IfSome result (λ n. IsDotted text.now n) }
    ensures none { IfNone result ((n : ℕ) → IsDotted text.now n → ⊥) }
{
    let octets = all_parts(Family::Dotted, text)?;
    if octets.count == 4 {
        Some(octets.number as u32)
    } else {
        None
    }
}

fn read_full(text: &[u8]) -> Option<u128>
    ensures found { IfSome result (λ n. IsFull text.now n) }
    ensures none { IfNone result ((n : ℕ) → IsFull text.now n → ⊥) }
{
    let groups = all_parts(Family::Colons, text)?;
    if groups.count == 8 {
        Some(groups.number)
    } else {
        None
    }
}

fn read_shortened(text: &[u8]) -> Option<u128>
    ensures found { IfSome result (λ n. IsShortened text.now n) }
    ensures none { IfNone result ((n : ℕ) → IsShortened text.now n → ⊥) }
{
    let (front, back) = cut_gap(text)?;
    let front = all_parts(Family::Colons, front)?;
    let back = all_parts(Family::Colons, back)?;
    if front.count + back.count < 8 {
        Some(around_gap(front, back))
    } else {
        None
    }
}

// The groups in front highest, the groups behind lowest, and zeros between.
fn around_gap(front: Parts, back: Parts) -> u128
    requires gap { front.count + back.count < 8 }
    requires front_below { front.number < 65536 ^ front.count }
    requires back_below { back.number < 65536 ^ back.count }
    ensures { result ≡ front.number * 65536 ^ (8 - front.count) + back.number }
{
    // The gap is one group at least.
    let high = front.number << (16 * (7 - front.count)) << 16;
    high + back.number
}

fn address_of(text: &[u8]) -> Option<Addr>
    ensures found { IfSome result (λ a. IsAddress text.now a) }
    ensures none { IfNone result ((a : Addr) → IsAddress text.now a → ⊥) }
{
    if let Some(n) = read_dotted(text) {
        return Some(Addr::V4(n));
    }
    if let Some(n) = read_full(text) {
        return Some(Addr::V6(n));
    }
    match read_shortened(text) {
        Some(n) => Some(Addr::V6(n)),
        None => None,
    }
}

/// The address that the text is a form of, else `BadAddr`.
pub fn read_addr(text: &[u8]) -> Result<Addr, BadAddr>
    ensures found { IfOk result (λ a. IsAddress text.now a) }
    ensures bad { IfErr result (λ _. (a : Addr) → IsAddress text.now a → ⊥) }
{
    address_of(text).ok_or(BadAddr)
}

// The address with the bits past the length cleared.
fn clear_past(a: Addr, len: u8) -> Option<Prefix>
    ensures found { IfSome result (λ p. (p.len ≡ len) × (p.base ≡ cleared a len) × (len ≤ width_of a)) }
    ensures none { IfNone result (width_of a < len) }
{
    match a {
        Addr::V4(n) if len <= 32 => {
            let base = without_low(u128::from(n), 32 - len) as u32;
            Some(Prefix {
                base: Addr::V4(base),
                len,
            })
        }
        Addr::V6(n) if len <= 128 => {
            let base = without_low(n, 128 - len);
            Some(Prefix {
                base: Addr::V6(base),
                len,
            })
        }
        _ => None,
    }
}

fn prefix_of(text: &[u8]) -> Option<Prefix>
    ensures found { IfSome result (λ p. IsPrefix text.now p) }
    ensures none { IfNone result ((p : PrefixData) → IsPrefix text.now p → ⊥) }
{
    let (address, len) = cut(text, b'/')?;
    let a = address_of(address)?;
    let len = octet(len)?;
    clear_past(a, len as u8)
}

/// The block that the text is a form of, else `BadPrefix`.
pub fn read_prefix(text: &[u8]) -> Result<Prefix, BadPrefix>
    ensures found { IfOk result (λ p. IsPrefix text.now p) }
    ensures bad { IfErr result (λ _. (p : PrefixData) → IsPrefix text.now p → ⊥) }
{
    prefix_of(text).ok_or(BadPrefix)
}

#[cfg(test)]
mod tests;

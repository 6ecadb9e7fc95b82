//! Which members of a group others lack.
ghost use Rattle.std.specs.Prelude.{◌≡◌, ◌<◌, ◌++◌, ◌∷◌, [], cond, is_some, length, not, IfOk, IfSome, OnOk};
ghost use Rattle.std.specs.Ordering.{is_eq};
ghost use Rattle.watch_streams.specs.Difference.{has_member, members_without};
ghost use Rattle.watch_streams.specs.Net.{member_order};

use cl_types::{Copies, NoMemory};
use std::alloc::Global;
use watch_streams::HeldMember;

fn is_member(n: &HeldMember, m: &HeldMember) -> bool
    ensures { result ≡ is_eq (member_order n.now m.now) }
{
    n.cmp(m).is_eq()
}

// Where the member stands. All places are looked at.
fn search_member(members: &[HeldMember], m: &HeldMember) -> Option<usize>
    ensures found { is_some result ≡ has_member members.now m.now }
    ensures place { IfSome result (λ i. i < length members.now) }
{
    for i in 0..members.len() {
        if is_member(&members[i], m) {
            return Some(i);
        }
    }
    None
}

// The same, where a place is tried first.
fn place_of(members: &[HeldMember], first: usize, m: &HeldMember) -> Option<usize>
    ensures found { is_some result ≡ has_member members.now m.now }
    ensures place { IfSome result (λ i. i < length members.now) }
{
    if first < members.len() && is_member(&members[first], m) {
        return Some(first);
    }
    search_member(members, m)
}

// Appends the member, where the others lack it, and tells the place to try for the next one: the one behind its own.
fn push_lacking(
    lacking: &mut Vec<HeldMember>,
    m: &HeldMember,
    others: &[HeldMember],
    first: usize,
) -> Result<usize, NoMemory>
    ensures { OnOk result (lacking.new.items ≡ lacking.old.items ++ cond (not (has_member others.now m.now)) (m.now ∷ []) []) }
{
    match place_of(others, first, m) {
        Some(i) => Ok(i + 1),
        None => {
            lacking.push(m.copy()?)?;
            Ok(first)
        }
    }
}

/// The members that the others lack. Where both ascend, each is found at the place that is tried first but for those that
/// stand behind one that the other list lacks.
pub(crate) fn members_without(
    alloc: Global,
    members: &[HeldMember],
    others: &[HeldMember],
) -> Result<Vec<HeldMember>, NoMemory>
    ensures { IfOk result (λ lacking. lacking.items ≡ members_without members.now others.now) }
{
    let mut lacking = Vec::new(alloc);
    let mut first = 0;
    for m in members {
        first = push_lacking(&mut lacking, m, others, first)?;
    }
    Ok(lacking)
}

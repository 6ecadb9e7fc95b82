ghost use Rattle.std.proofs.Common.{rules};
ghost use Rattle.std.proofs.lemmas.Grind.{common_steps};
ghost use Rattle.std.specs.Prelude.{◌≡◌, ◌++◌, [], ◌∷◌, not, filter, cond, IfOk, OnOk};
ghost use Rattle.cl_types.specs.Equality.{is_same};
ghost use Rattle.group_index.specs.declared.member.Member as member;
ghost use Rattle.group_index.specs.Changes.{has_member, members_without, group_change};

use crate::member::Member;
use cl_types::{Copies, List, NoMemory, Same};
use label_select::GroupKey;
use std::alloc::Global;

/// What changed in a group: the members that came and those that went, each by address. A member whose node or named
/// ports changed is in both.
#[derive(Clone, Debug, Drop)]
pub struct GroupChange {
    pub group: GroupKey,
    pub added: List<Member>,
    pub removed: List<Member>,
}

impl Copies for GroupChange {
    ghost exact = { λ x y h. Prim.search (rules, common_steps) };
}

fn is_same(a: &Member, b: &Member) -> bool
    ensures { result ≡ is_same member.the_code a.now b.now }
{
    a.same(b)
}

fn has_member(members: &[Member], m: &Member) -> bool
    ensures { result ≡ has_member members.now m.now }
{
    members.iter().any(|other| is_same(m, other))
}

// The member, where the others lack it.
fn push_lacking(lacking: &mut Vec<Member>, m: &Member, others: &[Member]) -> Result<(), NoMemory>
    ensures { OnOk result (lacking.new.items ≡ lacking.old.items ++ cond (not (has_member others.now m.now)) (m.now ∷ []) []) }
{
    if !has_member(others, m) {
        lacking.push(m.copy()?)?;
    }
    Ok(())
}

fn members_without(
    alloc: Global,
    members: &[Member],
    others: &[Member],
) -> Result<Vec<Member>, NoMemory>
    ensures { IfOk result (λ v. v.items ≡ members_without members.now others.now) }
{
    let mut lacking = Vec::new(alloc);
    for m in members {
        push_lacking(&mut lacking, m, others)?;
    }
    Ok(lacking)
}

/// Appends the change of a group from the old members to the new ones, where they differ.
#[tactic(auto, unfolding(crate::specs::Changes::group_change))]
pub(crate) fn push_change(
    changes: &mut Vec<GroupChange>,
    g: &GroupKey,
    old: &List<Member>,
    new: &List<Member>,
) -> Result<(), NoMemory>
    ensures { OnOk result (changes.new.items ≡ changes.old.items ++ group_change g.now old.now new.now) }
{
    if old.same(new) {
        return Ok(());
    }
    let alloc = *changes.allocator();
    let added = members_without(alloc, new.as_slice(), old.as_slice())?;
    let removed = members_without(alloc, old.as_slice(), new.as_slice())?;
    if !added.is_empty() || !removed.is_empty() {
        changes.push(GroupChange {
            group: g.copy()?,
            added: List::of(added),
            removed: List::of(removed),
        })?;
    }
    Ok(())
}

ghost use Rattle.std.specs.Prelude.{◌≡◌, [], option_copied, unwrap_or};
ghost use Rattle.std.specs.List.{list_any, list_all};
ghost use Rattle.cl_types.specs.Addr.{addr_order};
ghost use Rattle.cl_types.specs.Ascending.{Ascends, found};
ghost use Rattle.held_maps.specs.Held.{maps_of, map_on};
ghost use Rattle.watch_streams.specs.HeldEvaluation.{held_group, group_in, held_member, is_held, is_at};
ghost use Rattle.watch_streams.specs.Names.{at_text};
ghost use Rattle.watch_streams.specs.Net.{member_order};

use crate::held::Held;
use cl_types::{Addr, List, Stream, Text};
use label_select::GroupKey;
use std::cmp::Ordering;
use watch_streams::{HeldMember, StreamObject};

fn group_members(object: Option<&StreamObject>) -> Option<&List<HeldMember>>
    ensures { option_copied result ≡ group_in (option_copied object.entry) }
{
    match object {
        Some(StreamObject::Group { members, .. }) => Some(members),
        _ => None,
    }
}

impl Held {
    /// The members of a group that is held on the stream, by their addresses.
    pub fn group(&self, s: Stream, g: &GroupKey) -> Option<&List<HeldMember>>
        ensures members { option_copied result ≡ held_group (map_on s (maps_of self.now)) g.now }
        ensures ascend { Ascends (λ m. m) member_order (unwrap_or (option_copied result) []) }
    {
        match s {
            Stream::Policies => None,
            Stream::Addresses => group_members(self.addresses.find_group(g)),
            Stream::Applied => group_members(self.applied.find_group(g)),
        }
    }
}

impl Held {
    /// The members of the group with the text that is held on the stream.
    pub(crate) fn group_titled(&self, s: Stream, title: &Text) -> Option<&List<HeldMember>>
        ensures members { option_copied result ≡ group_in (found (at_text title.now) (map_on s (maps_of self.now))) }
        ensures ascend { Ascends (λ m. m) member_order (unwrap_or (option_copied result) []) }
    {
        match s {
            Stream::Policies => None,
            Stream::Addresses => group_members(self.addresses.find(title)),
            Stream::Applied => group_members(self.applied.find(title)),
        }
    }
}

fn is_held(held: &Held, s: Stream, g: &GroupKey) -> bool
    ensures { result ≡ is_held (map_on s (maps_of held.now)) g.now }
{
    held.group(s, g).is_some()
}

/// Whether all of the groups are held on the stream.
pub(crate) fn all_held(held: &Held, s: Stream, groups: &[GroupKey]) -> bool
    ensures { result ≡ list_all (is_held (map_on s (maps_of held.now))) groups.now }
{
    groups.iter().all(|g| is_held(held, s, g))
}

/// Whether the member has the address.
pub(crate) fn is_at(a: Addr, member: &HeldMember) -> bool
    ensures { result ≡ is_at a member.now }
{
    member.address.is(a)
}

// Whether a member has the address, where the members ascend by their addresses.
fn any_at(a: Addr, members: &[HeldMember]) -> bool
    requires { Ascends (λ m. m) member_order members.now }
    ensures { result ≡ list_any (is_at a) members.now }
{
    let found = members.binary_search_by(
        |member: &HeldMember| -> Ordering
            ensures { result ≡ addr_order member.now.address a }
        { member.address.cmp(&a) },
    );
    found.is_ok()
}

/// Whether a member of the group, as it is held on the stream, has the address.
pub(crate) fn member_at(held: &Held, s: Stream, a: Addr, g: &GroupKey) -> bool
    ensures { result ≡ held_member (is_at a) (map_on s (maps_of held.now)) g.now }
{
    match held.group(s, g) {
        Some(members) => any_at(a, members.as_slice()),
        None => false,
    }
}

/// Whether a member of one of the groups, as they are held on the stream, has the address.
pub(crate) fn any_member_at(held: &Held, s: Stream, a: Addr, groups: &[GroupKey]) -> bool
    ensures { result ≡ list_any (held_member (is_at a) (map_on s (maps_of held.now))) groups.now }
{
    groups.iter().any(|g| member_at(held, s, a, g))
}

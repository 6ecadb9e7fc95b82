//! Edits of a group's members, which take no memory once they are there.
ghost use Rattle.std.specs.Prelude.{◌≡◌, ◌+◌, ◌≤◌, ℕ, [], length, vec_capacity, vec_len, IfOk};
ghost use Rattle.cl_types.specs.Ascending.{put, without};
ghost use Rattle.group_index.specs.Settled.{AscendByAddress, Fits, at_address, edited_by, with_at};

use crate::member::Member;
use cl_types::{Addr, List, NoMemory, search};
use std::alloc::Global;

/// What a group is to have at an address.
#[derive(Drop)]
pub(crate) struct Edit {
    pub(crate) address: Addr,
    pub(crate) member: Option<Member>,
}

/// The edits of a group's members, and places for the members.
#[derive(Drop)]
pub(crate) struct Moves {
    edits: Vec<Edit>,
    places: Vec<Member>,
}

// Inserts the member at its address, in place of the one that had it. It does not allocate.
fn put_in_place(members: &mut Vec<Member>, m: Member)
    requires ascends { AscendByAddress members.old.items }
    requires places { vec_len members.old + 1 ≤ vec_capacity members.old }
    ensures items { members.new.items ≡ put (at_address m.address) m members.old.items }
    ensures places { (more : ℕ) → vec_len members.old + (more + 1) ≤ vec_capacity members.old → vec_len members.new + more ≤ vec_capacity members.new }
{
    match search(members.as_slice(), &m.address) {
        Ok(i) => members[i] = m,
        Err(i) => {
            let _ = members.insert(i, m);
        }
    }
}

// Removes the member at the address.
fn take_out(members: &mut Vec<Member>, a: &Addr)
    requires { AscendByAddress members.old.items }
    ensures items { members.new.items ≡ without (at_address a.now) members.old.items }
    ensures places { (more : ℕ) → vec_len members.old + more ≤ vec_capacity members.old → vec_len members.new + more ≤ vec_capacity members.new }
{
    if let Ok(i) = search(members.as_slice(), a) {
        let _ = members.remove(i);
    }
}

// Puts the member at its address, or removes the one at the address. It does not allocate.
fn edit_at(members: &mut Vec<Member>, a: &Addr, m: Option<Member>)
    requires ascends { AscendByAddress members.old.items }
    requires places { vec_len members.old + 1 ≤ vec_capacity members.old }
    ensures items { members.new.items ≡ with_at a.now m members.old.items }
    ensures places { (more : ℕ) → vec_len members.old + (more + 1) ≤ vec_capacity members.old → vec_len members.new + more ≤ vec_capacity members.new }
{
    match m {
        Some(m) => put_in_place(members, m),
        None => take_out(members, a),
    }
}

// Makes the edits, the last one first. It does not allocate.
fn edit_all(members: &mut Vec<Member>, mut edits: Vec<Edit>)
    requires ascends { AscendByAddress members.old.items }
    requires places { vec_len members.old + length edits.items ≤ vec_capacity members.old }
    ensures { members.new.items ≡ edited_by edits.items members.old.items }
{
    while let Some(edit) = edits.pop() {
        let Edit { address, member } = edit;
        edit_at(members, &address, member);
    }
}

// Moves all members to the places. It does not allocate.
fn move_all(members: &mut List<Member>, places: &mut Vec<Member>)
    requires empty { places.old.items ≡ [] }
    requires places { length members.old ≤ vec_capacity places.old }
    ensures items { places.new.items ≡ members.old }
    ensures places { (more : ℕ) → length members.old + more ≤ vec_capacity places.old → vec_len places.new + more ≤ vec_capacity places.new }
{
    let _ = places.append(members.vec_mut());
}

impl Moves {
    /// The edits, with places for the members.
    pub(crate) fn of(alloc: Global, edits: Vec<Edit>, members: &[Member]) -> Result<Moves, NoMemory>
        requires { AscendByAddress members.now }
        ensures edits { IfOk result (λ m. m.edits.items ≡ edits.items) }
        ensures places { IfOk result (λ m. Fits m members.now) }
    {
        let places = Vec::with_capacity(alloc, members.len() + edits.len())?;
        Ok(Moves { edits, places })
    }

    /// Moves the members to the places and edits them there. It does not allocate.
    pub(crate) fn settle(self, members: &mut List<Member>)
        requires { Fits self members.old }
        ensures { members.new ≡ edited_by self.edits.items members.old }
    {
        let Moves { edits, mut places } = self;
        move_all(members, &mut places);
        edit_all(&mut places, edits);
        *members = List::of(places);
    }
}

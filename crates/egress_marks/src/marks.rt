ghost use Rattle.std.specs.Prelude.{◌≡◌, ◌≢◌, ◌+◌, ◌≤◌, ◌<◌, ℕ, length, None, Some, IfOk, IfSome, IsNone, IsSome, is_some, count_by, position, is_none, if◌then◌else◌};
ghost use Rattle.std.specs.List.{position_or_len};
ghost use Rattle.cl_types.specs.declared.addr.Addr.{Addr};
ghost use Rattle.egress_marks.specs.Places.{greatest_mark, no_marks, IsFree, IsHeld, IsMarks, is_held_by, mark_of, least_free, marked, freed};

use cl_types::{Addr, Copies, NoMemory};
use std::alloc::{AllocError, Global};
use std::marker::Model;

// A place for each mark.
const PLACES: usize = 255;

/// The marks of addresses, from 1 to 255. Each mark is held by one address at most, and each address holds
/// one mark at most.
#[derive(Debug, Drop)]
pub struct Marks {
    places: Vec<Option<Addr>>,
}

impl Model for Marks {
    ghost use Rattle.std.specs.Prelude.{List, Option};
    ghost use Rattle.cl_types.specs.declared.addr.Addr.{Addr};
    ghost use Rattle.egress_marks.specs.Places.{IsMarks};

    ghost Value = { List (Option Addr) };

    ghost view = { λ m. m.places.items };

    ghost invariant = { λ m. IsMarks m.places.items };
}

fn is_held_by(place: &Option<Addr>, a: Addr) -> bool
    ensures { result ≡ is_held_by a place.now }
{
    match (place, a) {
        (Some(Addr::V4(x)), Addr::V4(y)) => *x == y,
        (Some(Addr::V6(x)), Addr::V6(y)) => *x == y,
        _ => false,
    }
}

impl Marks {
    /// All marks are free. The places of all marks are allocated here.
    pub fn new(alloc: Global) -> Result<Marks, NoMemory>
        ensures places { IfOk result (λ marks. marks ≡ no_marks) }
        ensures none { IfOk result (λ marks. (a : Addr) → mark_of marks a ≡ None) }
        ensures empty { IfOk result (λ marks. count_by is_some marks ≡ 0) }
    {
        Ok(Marks {
            places: vec![in alloc; None; PLACES]?,
        })
    }

    /// Gives the least free mark to an address that has none.
    pub fn take(&mut self, a: Addr) -> u8
        requires none { IsNone (mark_of self.old a) }
        requires few { count_by is_some self.old < greatest_mark }
        ensures free { IsFree self.old result }
        ensures smaller_held { (m : ℕ) → 1 ≤ m → m < result → IsHeld self.old m }
        ensures answer { result ≡ least_free self.old }
        ensures marks { self.new ≡ marked self.old a }
        ensures own { mark_of self.new a ≡ Some result }
        ensures others { (b : Addr) → b ≢ a → mark_of self.new b ≡ mark_of self.old b }
        ensures count { count_by is_some self.new ≡ count_by is_some self.old + 1 }
    {
        let place = first_free(self.places.as_slice());
        self.places[place] = Some(a);
        (place + 1) as u8
    }

    /// Frees the mark of an address.
    pub fn give(&mut self, a: Addr)
        requires held { IsSome (mark_of self.old a) }
        ensures marks { self.new ≡ freed self.old a }
        ensures own { mark_of self.new a ≡ None }
        ensures others { (b : Addr) → b ≢ a → mark_of self.new b ≡ mark_of self.old b }
        ensures count { count_by is_some self.new + 1 ≡ count_by is_some self.old }
    {
        free_places(&mut self.places, a);
    }

    /// The mark of an address.
    pub fn mark_of(&self, a: Addr) -> Option<u8>
        ensures answer { result ≡ mark_of self.now a }
        ensures distinct { IfSome result (λ m. (b : Addr) → mark_of self.now b ≡ Some m → b ≡ a) }
        ensures in_range { IfSome result (λ m. (1 ≤ m) × (m ≤ greatest_mark)) }
        ensures kept { IsMarks self.now }
    {
        let place = place_of(self.places.as_slice(), a)?;
        Some((place + 1) as u8)
    }
}

impl Clone for Marks {
    ghost is_clone = { λ marks copy. copy ≡ marks };

    fn clone(&self) -> Result<Marks, AllocError> {
        Ok(Marks {
            places: Vec::from_slice(*self.places.allocator(), self.places.as_slice())?,
        })
    }
}

impl Copies for Marks {
    ghost exact = { λ x y h. h };
}

fn first_free(places: &[Option<Addr>]) -> usize
    requires { count_by is_some places.now < length places.now }
    ensures first { result ≡ position_or_len is_none places.now }
    ensures within { result < length places.now }
{
    place_of_none(places).unwrap()
}

fn place_of_none(places: &[Option<Addr>]) -> Option<usize>
    ensures { result ≡ position is_none places.now }
{
    places.iter().position(|place| place.is_none())
}

fn place_of(places: &[Option<Addr>], a: Addr) -> Option<usize>
    ensures { result ≡ position (is_held_by a) places.now }
{
    places.iter().position(|place| is_held_by(place, a))
}

/// A place, free if the address held it.
fn given_back(place: Option<Addr>, a: Addr) -> Option<Addr>
    ensures { result ≡ (if is_held_by a place then None else place) }
{
    if is_held_by(&place, a) { None } else { place }
}

fn free_places(places: &mut Vec<Option<Addr>>, a: Addr)
    ensures { places.new.items ≡ freed places.old.items a }
{
    for place in places.iter_mut() {
        *place = given_back(*place, a);
    }
}

#[cfg(test)]
mod tests;

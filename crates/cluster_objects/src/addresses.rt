//! The counting pods by address.
ghost use Rattle.std.specs.Prelude.{◌≡◌, ◌+◌, ◌^◌, ◌<◌, ◌≤◌, List, [], length, vec_capacity};
ghost use Rattle.std.specs.List.{AllByRecursion, insert};
ghost use Rattle.cl_types.specs.Addr.{addr_order};
ghost use Rattle.cl_types.specs.Ascending.{Ascends};
ghost use Rattle.cluster_objects.specs.declared.addresses.AddressEntry.{AddressEntry};
ghost use Rattle.cl_types.specs.declared.addr.Addr.{Addr};
ghost use Rattle.cluster_types.specs.Cluster.{AllApart};
ghost use Rattle.cluster_types.specs.Pod.{PodData, AreAddresses};
ghost use Rattle.cluster_objects.specs.Addresses.{addresses_held, pod_at, IsOnlyPodAt, place_of, IsIndex, after_insert, after_remove, with_places, entered, without_addresses};

use crate::room::{put_in_room, remove_at_key};
use cl_types::{Addr, Keyed};
use cluster_types::Pod;

/// An address that a counting pod has, and the pod's place among all pods.
#[derive(Clone, Copy, Debug, Drop)]
pub(crate) struct AddressEntry {
    pub(crate) address: Addr,
    pub(crate) place: usize,
}

impl Keyed for AddressEntry {
    type Key = Addr;

    ghost key = { λ e. e.address };

    fn key(&self) -> &Addr {
        &self.address
    }
}

/// The place of the pod that holds the address.
pub(crate) fn place_of(entries: &[AddressEntry], a: Addr) -> Option<usize>
    requires { Ascends (λ (e : AddressEntry). e.address) addr_order entries.now }
    ensures { result ≡ place_of a entries.now }
{
    match cl_types::find(entries, &a) {
        Some(entry) => Some(entry.place),
        None => None,
    }
}

fn after_insert(k: usize, place: usize) -> usize
    requires { place + 1 < 2 ^ 64 }
    ensures { result ≡ after_insert k place }
{
    if k <= place { place + 1 } else { place }
}

fn after_remove(k: usize, place: usize) -> usize
    ensures { result ≡ after_remove k place }
{
    if k < place { place - 1 } else { place }
}

// Changes the places for a pod that comes in at place `k`.
fn open_place(entries: &mut Vec<AddressEntry>, k: usize, count: usize)
    requires { AllByRecursion (λ (e : AddressEntry). e.place < count) entries.old.items }
    ensures items { entries.new.items ≡ with_places (after_insert k) entries.old.items }
    ensures capacity { vec_capacity entries.new ≡ vec_capacity entries.old }
{
    for i in 0..entries.len() {
        let entry = &mut entries[i];
        entry.place = after_insert(k, entry.place);
    }
}

/// Makes an empty place at `k`, where so far there are `count` places.
pub(crate) fn make_place(entries: &mut Vec<AddressEntry>, k: usize, count: usize)
    requires within { AllByRecursion (λ (e : AddressEntry). e.place < count) entries.old.items }
    requires place { k ≤ count }
    ensures index { (held : List (List Addr)) → length held ≡ count → IsIndex held entries.old.items → IsIndex (insert held k []) entries.new.items }
    ensures capacity { vec_capacity entries.new ≡ vec_capacity entries.old }
{
    if k < count {
        open_place(entries, k, count);
    }
}

/// Changes the places once the pod at place `k` has gone.
pub(crate) fn close_place(entries: &mut Vec<AddressEntry>, k: usize)
    ensures items { entries.new.items ≡ with_places (after_remove k) entries.old.items }
    ensures capacity { vec_capacity entries.new ≡ vec_capacity entries.old }
{
    for i in 0..entries.len() {
        let entry = &mut entries[i];
        entry.place = after_remove(k, entry.place);
    }
}

/// The addresses that a pod holds: those that it has, where it counts.
pub(crate) fn addresses_held(pod: &Pod) -> &[Addr]
    ensures value { result.now ≡ addresses_held pod.now }
    ensures families { AreAddresses (addresses_held pod.now) }
{
    if pod.counts() {
        pod.addresses.as_slice()
    } else {
        &[]
    }
}

/// Enters the addresses that the pod at a place holds now. The room for them is there.
pub(crate) fn enter(entries: &mut Vec<AddressEntry>, place: usize, addresses: &[Addr])
    requires ascends { Ascends (λ (e : AddressEntry). e.address) addr_order entries.old.items }
    requires room { length entries.old.items + length addresses.now ≤ vec_capacity entries.old }
    ensures items { entries.new.items ≡ entered place addresses.now entries.old.items }
    ensures capacity { vec_capacity entries.new ≡ vec_capacity entries.old }
{
    for i in (0..addresses.len()).rev() {
        let entry = AddressEntry {
            address: addresses[i],
            place,
        };
        put_in_room(entries, entry);
    }
}

/// Removes the entries of the addresses. The room stays.
pub(crate) fn leave(entries: &mut Vec<AddressEntry>, addresses: &[Addr])
    requires ascends { Ascends (λ (e : AddressEntry). e.address) addr_order entries.old.items }
    ensures items { entries.new.items ≡ without_addresses addresses.now entries.old.items }
    ensures capacity { vec_capacity entries.new ≡ vec_capacity entries.old }
{
    for address in addresses {
        remove_at_key(entries, address);
    }
}

/// Where no two counting pods share an address, the counting pod at it is the only one with the address that
/// can pass a test which counting pods alone pass.
pub fn address_has_one_pod()
    ensures { (pods : List PodData) (a : Addr) → AllApart pods → IsOnlyPodAt pods a (pod_at pods a) }
{}

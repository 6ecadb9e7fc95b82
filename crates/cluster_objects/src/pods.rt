//! The pods of a cluster, in order of their keys and by address.
ghost use Rattle.std.specs.Prelude.{◌≡◌, ◌+◌, ◌*◌, ◌^◌, ◌<◌, ◌≤◌, ◌&&◌, ◌∷◌, [], length, map, Some, None, find, option_copied, if◌then◌else◌, OnOk, OnErr, IfOk, IsOk, vec_len, vec_capacity};
ghost use Rattle.std.specs.Ordering.{is_eq};
ghost use Rattle.cl_types.specs.Ascending.{Ascends, IsPlace, IsGap, found, put, without};
ghost use Rattle.cl_types.specs.RuleOrder.{pod_order};
ghost use Rattle.cluster_objects.specs.Addresses.{addresses_held, shares_address, IsFirst, least_place, IsIndex, IsPods};
ghost use Rattle.cluster_objects.specs.Apply.{at_pod};
ghost use Rattle.cluster_types.specs.Cluster.{AllApart};
ghost use Rattle.cluster_types.specs.Pod.{counts, has_address};
ghost use Rattle.cluster_objects.specs.Refusals.{takes_address};

use crate::addresses::{
    AddressEntry, addresses_held, close_place, enter, leave, make_place, place_of,
};
use crate::kinds::copied;
use crate::room::insert_in_room;
use cl_types::{Addr, NoMemory, PodKey};
use cluster_types::Pod;
use std::alloc::Global;
use std::marker::Model;
use std::mem;

/// The pods in ascending order of their keys, and the counting ones by address.
#[derive(Debug, Drop)]
pub(crate) struct Pods {
    pods: Vec<Pod>,
    entries: Vec<AddressEntry>,
}

impl Model for Pods {
    ghost use Rattle.std.specs.Prelude.{vec_capacity};
    ghost use Rattle.cluster_objects.specs.Addresses.{PodsData, IsPods};

    ghost Value = { PodsData };

    ghost view = { λ p. record { pods = p.pods.items; places = vec_capacity p.pods } };

    ghost invariant = { λ p. IsPods p.pods.items (vec_capacity p.pods) p.entries.items (vec_capacity p.entries) };
}

// The lesser of two places, where there are both.
fn least_place(a: Option<usize>, b: Option<usize>) -> Option<usize>
    ensures { result ≡ least_place a b }
{
    match (a, b) {
        (Some(i), Some(j)) => Some(i.min(j)),
        (Some(i), None) => Some(i),
        (None, other) => other,
    }
}

fn has_key(pod: &Pod, key: &PodKey) -> bool
    ensures { result ≡ is_eq (pod_order pod.now.key key.now) }
{
    pod.key.cmp(key).is_eq()
}

// The place of the pod at another key that holds the address.
fn other_place(pods: &[Pod], entries: &[AddressEntry], key: &PodKey, a: Addr) -> Option<usize>
    requires { IsIndex (map addresses_held pods.now) entries.now }
    ensures { IsFirst (shares_address key.now (a ∷ [])) pods.now result }
{
    match place_of(entries, a) {
        Some(i) => if has_key(&pods[i], key) {
            None
        } else {
            Some(i)
        },
        None => None,
    }
}

// The place of the first pod at another key that holds an address of the pod.
fn taking_place(pods: &[Pod], entries: &[AddressEntry], pod: &Pod) -> Option<usize>
    requires { IsIndex (map addresses_held pods.now) entries.now }
    ensures { IsFirst (shares_address pod.now.key (addresses_held pod.now)) pods.now result }
{
    let mut first = None;
    for a in addresses_held(pod) {
        first = least_place(first, other_place(pods, entries, &pod.key, *a));
    }
    first
}

// Replaces the pod at the key of this one, and hands it out.
fn replace_at(pods: &mut Vec<Pod>, entries: &mut Vec<AddressEntry>, k: usize, pod: Pod) -> Pod
    requires kept { IsPods pods.old.items (vec_capacity pods.old) entries.old.items (vec_capacity entries.old) }
    requires place { IsPlace (at_pod pod.key) pods.old.items k }
    requires free { (if counts pod then find (takes_address pod) pods.old.items else None) ≡ None }
    ensures item { found (at_pod pod.key) pods.old.items ≡ Some result }
    ensures items { pods.new.items ≡ put (at_pod pod.key) pod pods.old.items }
    ensures kept { IsPods pods.new.items (vec_capacity pods.new) entries.new.items (vec_capacity entries.new) }
    ensures capacity { vec_capacity pods.new ≡ vec_capacity pods.old }
{
    leave(entries, addresses_held(&pods[k]));
    enter(entries, k, addresses_held(&pod));
    mem::replace(&mut pods[k], pod)
}

// Inserts a pod where its key is missing. The room for it is there.
fn insert_at(pods: &mut Vec<Pod>, entries: &mut Vec<AddressEntry>, k: usize, pod: Pod)
    requires kept { IsPods pods.old.items (vec_capacity pods.old) entries.old.items (vec_capacity entries.old) }
    requires gap { IsGap (at_pod pod.key) pods.old.items k }
    requires free { (if counts pod then find (takes_address pod) pods.old.items else None) ≡ None }
    requires room { vec_len pods.old < vec_capacity pods.old }
    ensures items { pods.new.items ≡ put (at_pod pod.key) pod pods.old.items }
    ensures kept { IsPods pods.new.items (vec_capacity pods.new) entries.new.items (vec_capacity entries.new) }
    ensures capacity { vec_capacity pods.new ≡ vec_capacity pods.old }
{
    make_place(entries, k, pods.len());
    enter(entries, k, addresses_held(&pod));
    insert_in_room(pods, k, pod);
}

// Removes the pod at a key.
fn remove_at(pods: &mut Vec<Pod>, entries: &mut Vec<AddressEntry>, key: &PodKey, k: usize) -> Pod
    requires kept { IsPods pods.old.items (vec_capacity pods.old) entries.old.items (vec_capacity entries.old) }
    requires place { IsPlace (at_pod key.now) pods.old.items k }
    ensures item { found (at_pod key.now) pods.old.items ≡ Some result }
    ensures items { pods.new.items ≡ without (at_pod key.now) pods.old.items }
    ensures kept { IsPods pods.new.items (vec_capacity pods.new) entries.new.items (vec_capacity entries.new) }
    ensures capacity { vec_capacity pods.new ≡ vec_capacity pods.old }
{
    leave(entries, addresses_held(&pods[k]));
    close_place(entries, k);
    pods.remove(k)
}

/// The most places that are doubled.
const MOST_PLACES: usize = usize::MAX / 8;

// For how many pods to have room where so many have no more.
fn more_places(full: usize) -> Result<usize, NoMemory>
    ensures { IfOk result (λ n. (full < n) × (2 * n < 2 ^ 64)) }
{
    if full > MOST_PLACES {
        return Err(NoMemory);
    }
    Ok(2 * full + 4)
}

// Makes room for one more pod and its addresses.
fn reserve_one(pods: &mut Vec<Pod>, entries: &mut Vec<AddressEntry>) -> Result<(), NoMemory>
    requires { 2 * vec_capacity pods.old ≤ vec_capacity entries.old }
    ensures pods { pods.new.items ≡ pods.old.items }
    ensures entries { entries.new.items ≡ entries.old.items }
    ensures enough { 2 * vec_capacity pods.new ≤ vec_capacity entries.new }
    ensures capacity { vec_capacity pods.old ≤ vec_capacity pods.new }
    ensures room { OnOk result (vec_len pods.new < vec_capacity pods.new) }
    ensures succeeds { vec_len pods.old < vec_capacity pods.old → IsOk result }
{
    if pods.len() < pods.capacity() {
        return Ok(());
    }
    let places = more_places(pods.capacity())?;
    entries.reserve_exact((2 * places).saturating_sub(entries.len()))?;
    pods.reserve_exact(places - pods.len())?;
    Ok(())
}

// Equal entries, with room for the addresses of as many pods.
fn copied_entries(
    alloc: Global,
    entries: &[AddressEntry],
    pods: usize,
) -> Result<Vec<AddressEntry>, NoMemory>
    ensures items { IfOk result (λ copy. copy.items ≡ entries.now) }
    ensures room { IfOk result (λ copy. 2 * pods ≤ vec_capacity copy) }
{
    if pods > MOST_PLACES {
        return Err(NoMemory);
    }
    let mut copy = Vec::with_capacity(alloc, 2 * pods)?;
    copy.extend_from_slice(entries)?;
    Ok(copy)
}

impl Pods {
    /// No pods. It does not allocate.
    pub(crate) fn new(alloc: Global) -> Pods
        ensures { result.pods ≡ [] }
    {
        Pods {
            pods: Vec::new(alloc),
            entries: Vec::new(alloc),
        }
    }

    /// The same pods. They may have fewer places.
    pub(crate) fn copy(&self, alloc: Global) -> Result<Pods, NoMemory>
        ensures pods { IfOk result (λ copy. copy.pods ≡ self.now.pods) }
        ensures places { IfOk result (λ copy. length copy.pods ≤ copy.places) }
    {
        let pods = copied(alloc, self.pods.as_slice())?;
        let entries = copied_entries(alloc, self.entries.as_slice(), pods.capacity())?;
        Ok(Pods { pods, entries })
    }

    /// The pods in ascending order of their keys.
    pub(crate) fn as_slice(&self) -> &[Pod]
        ensures value { result.now ≡ self.now.pods }
    {
        self.pods.as_slice()
    }

    /// The counting pod that has the address.
    pub(crate) fn at(&self, a: Addr) -> Option<&Pod>
        ensures { option_copied result ≡ find (λ p. counts p && has_address a p) self.now.pods }
    {
        match place_of(self.entries.as_slice(), a) {
            Some(i) => Some(&self.pods[i]),
            None => None,
        }
    }

    /// The first other counting pod that has an address of the pod, which counts too.
    pub(crate) fn taker(&self, pod: &Pod) -> Option<&Pod>
        ensures { option_copied result ≡ (if counts pod.now then find (takes_address pod.now) self.now.pods else None) }
    {
        match taking_place(self.pods.as_slice(), self.entries.as_slice(), pod) {
            Some(i) => Some(&self.pods[i]),
            None => None,
        }
    }

    /// Inserts the pod at its key, and hands out the one that stood there. It needs no memory where there is a
    /// place for it.
    pub(crate) fn put(&mut self, pod: Pod) -> Result<Option<Pod>, NoMemory>
        requires free { (if counts pod then find (takes_address pod) self.old.pods else None) ≡ None }
        ensures ok { OnOk result (self.new.pods ≡ put (at_pod pod.key) pod self.old.pods) }
        ensures old { IfOk result (λ old. old ≡ found (at_pod pod.key) self.old.pods) }
        ensures err { OnErr result (self.new.pods ≡ self.old.pods) }
        ensures ascends { Ascends (λ p. p.key) pod_order self.new.pods }
        ensures places { length self.new.pods ≤ self.new.places }
        ensures kept { self.old.places ≤ self.new.places }
        ensures succeeds { length (put (at_pod pod.key) pod self.old.pods) ≤ self.old.places → IsOk result }
    {
        match cl_types::search(self.pods.as_slice(), &pod.key) {
            Ok(k) => Ok(Some(replace_at(&mut self.pods, &mut self.entries, k, pod))),
            Err(k) => {
                reserve_one(&mut self.pods, &mut self.entries)?;
                insert_at(&mut self.pods, &mut self.entries, k, pod);
                Ok(None)
            }
        }
    }

    /// Inserts the pod at its key, for which there is a place, in place of what stood there.
    pub(crate) fn restore(&mut self, pod: Pod)
        requires apart { AllApart (put (at_pod pod.key) pod self.old.pods) }
        requires room { length (put (at_pod pod.key) pod self.old.pods) ≤ self.old.places }
        ensures items { self.new.pods ≡ put (at_pod pod.key) pod self.old.pods }
        ensures places { length self.new.pods ≤ self.new.places }
        ensures kept { self.old.places ≤ self.new.places }
    {
        let _ = self.put(pod);
    }

    /// Removes the pod with the key, and hands it out. The room stays.
    pub(crate) fn remove(&mut self, key: &PodKey) -> Option<Pod>
        ensures item { result ≡ found (at_pod key.now) self.old.pods }
        ensures items { self.new.pods ≡ without (at_pod key.now) self.old.pods }
        ensures ascends { Ascends (λ p. p.key) pod_order self.new.pods }
        ensures places { length self.new.pods ≤ self.new.places }
        ensures kept { self.old.places ≤ self.new.places }
    {
        match cl_types::search(self.pods.as_slice(), key) {
            Ok(k) => Some(remove_at(&mut self.pods, &mut self.entries, key, k)),
            Err(_) => None,
        }
    }
}

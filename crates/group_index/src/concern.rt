//! The addresses that a change of a pod or of a namespace concerns.
ghost use Rattle.std.specs.Prelude.{◌≡◌, ◌++◌, ◌||◌, [], ◌∷◌, false, not, IfOk, OnOk, option_copied};
ghost use Rattle.std.specs.List.{flat_map};
ghost use Rattle.cl_types.specs.Ascending.{Ascends};
ghost use Rattle.cl_types.specs.RuleOrder.{pod_order};
ghost use Rattle.cl_types.specs.Text.{text_eq};
ghost use Rattle.cluster_types.specs.Groups.{in_group};
ghost use Rattle.cluster_types.specs.Pod.{PodData};
ghost use Rattle.group_index.specs.Settled.{IsStretch, addresses_if, addresses_of, contains, has_either, is_stray, namespace_addresses, pod_addresses, pod_now};

use crate::stretch::{Stretch, place_from};
use cl_types::{Addr, Copies, NoMemory, PodKey, Text, find, write_bytes};
use cluster_objects::{Cluster, Namespace, Pod};
use label_select::{GroupKey, Scope};
use std::alloc::Global;

fn push_addresses(addresses: &mut Vec<Addr>, pod: &Pod) -> Result<(), NoMemory>
    ensures { OnOk result (addresses.new.items ≡ addresses.old.items ++ pod.now.addresses) }
{
    addresses.extend_from_slice(pod.addresses.as_slice())?;
    Ok(())
}

/// The pod that is there now at the key of the one that changed.
pub(crate) fn pod_now<'a>(c: &'a Cluster, old: Option<&Pod>, new: Option<&Pod>) -> Option<&'a Pod>
    ensures { option_copied result ≡ pod_now (option_copied old.entry) (option_copied new.entry) c.now.cluster.pods }
{
    c.keeps_its_form();
    match (old, new) {
        (Some(pod), _) => find(c.pods(), &pod.key),
        (None, Some(pod)) => find(c.pods(), &pod.key),
        (None, None) => None,
    }
}

fn push_addresses_of(addresses: &mut Vec<Addr>, pod: Option<&Pod>) -> Result<(), NoMemory>
    ensures { OnOk result (addresses.new.items ≡ addresses.old.items ++ addresses_of (option_copied pod.entry)) }
{
    match pod {
        Some(pod) => push_addresses(addresses, pod),
        None => Ok(()),
    }
}

/// The addresses of the pod as it was, and those of the pod as it is.
pub(crate) fn pod_addresses(
    alloc: Global,
    old: Option<&Pod>,
    now: Option<&Pod>,
) -> Result<Vec<Addr>, NoMemory>
    ensures { IfOk result (λ v. v.items ≡ pod_addresses (option_copied old.entry) (option_copied now.entry)) }
{
    let mut addresses = Vec::new(alloc);
    push_addresses_of(&mut addresses, old)?;
    push_addresses_of(&mut addresses, now)?;
    Ok(addresses)
}

// Whether the group contains the pod. Where the scope is a selector, the labels of the namespace are looked up only if the
// pod's labels are selected.
fn is_in(c: &Cluster, g: &GroupKey, pod: &Pod) -> bool
    ensures { result ≡ in_group c.now.cluster g.now pod.now }
{
    match g.scope {
        Scope::Namespace(_) => c.in_group(g, pod),
        Scope::Namespaces(_) => g.pods.selects(&pod.labels) && c.in_group(g, pod),
    }
}

fn contains(c: &Cluster, g: &GroupKey, pod: Option<&Pod>) -> bool
    ensures { result ≡ contains c.now.cluster g.now (option_copied pod.entry) }
{
    match pod {
        Some(pod) => is_in(c, g, pod),
        None => false,
    }
}

/// Whether the group contains the pod as it was or as it is.
pub(crate) fn has_either(c: &Cluster, g: &GroupKey, old: Option<&Pod>, now: Option<&Pod>) -> bool
    ensures { result ≡ has_either c.now.cluster (option_copied old.entry) (option_copied now.entry) g.now }
{
    contains(c, g, old) || contains(c, g, now)
}

// Whether the object is one of another namespace.
fn is_stray(old: Option<&Namespace>, name: &Text) -> bool
    ensures { result ≡ is_stray (option_copied old.entry) name.now }
{
    match old {
        Some(namespace) => namespace.name != *name,
        None => false,
    }
}

// Appends the addresses of a pod that the change concerns.
fn push_if_concerned(
    addresses: &mut Vec<Addr>,
    old: Option<&Namespace>,
    name: &Text,
    pod: &Pod,
) -> Result<(), NoMemory>
    ensures { OnOk result (addresses.new.items ≡ addresses.old.items ++ addresses_if (option_copied old.entry) name.now pod.now) }
{
    if is_stray(old, name) || pod.key.namespace == *name {
        push_addresses(addresses, pod)?;
    }
    Ok(())
}

// The least text that is greater than the name.
fn name_behind(name: &Text) -> Result<Text, NoMemory>
    ensures { IfOk result (λ text. text ≡ name.now ++ 0 ∷ []) }
{
    let mut text = name.copy()?;
    write_bytes(&mut text, &[0])?;
    Ok(text)
}

/// The pods of the namespace stand together.
pub(crate) fn pods_of(alloc: Global, pods: &[Pod], name: &Text) -> Result<Stretch, NoMemory>
    requires { Ascends (λ (p : PodData). p.key) pod_order pods.now }
    ensures { IfOk result (IsStretch (λ (p : PodData). text_eq p.key.namespace name.now ≡ false) pods.now) }
{
    let first = PodKey {
        namespace: name.copy()?,
        name: Text::new(alloc),
    };
    let behind = PodKey {
        namespace: name_behind(name)?,
        name: Text::new(alloc),
    };
    Ok(Stretch {
        start: place_from(pods, &first),
        end: place_from(pods, &behind),
    })
}

// The pods that the change concerns stand together.
fn concerned_pods(
    alloc: Global,
    c: &Cluster,
    old: Option<&Namespace>,
    name: &Text,
) -> Result<Stretch, NoMemory>
    ensures { IfOk result (IsStretch (λ (p : PodData). addresses_if (option_copied old.entry) name.now p ≡ []) c.now.cluster.pods) }
{
    c.keeps_its_form();
    let pods = c.pods();
    if is_stray(old, name) {
        return Ok(Stretch {
            start: 0,
            end: pods.len(),
        });
    }
    pods_of(alloc, pods, name)
}

/// The addresses of the namespace's pods; of all pods, where the old object is one of another namespace.
pub(crate) fn namespace_addresses(
    alloc: Global,
    c: &Cluster,
    old: Option<&Namespace>,
    name: &Text,
) -> Result<Vec<Addr>, NoMemory>
    ensures { IfOk result (λ v. v.items ≡ namespace_addresses (option_copied old.entry) name.now c.now.cluster.pods) }
{
    let mut addresses = Vec::new(alloc);
    let pods = c.pods();
    let concerned = concerned_pods(alloc, c, old, name)?;
    for i in concerned.start..concerned.end {
        push_if_concerned(&mut addresses, old, name, &pods[i])?;
    }
    Ok(addresses)
}

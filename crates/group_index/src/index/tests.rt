ghost use Rattle.std.specs.Prelude.{◌≡◌, [], ◌∷◌, List as Items};
ghost use Rattle.group_index.specs.Changes.{before_pod};
ghost use Rattle.group_index.specs.Index.{EntryData, StandsFor};

use super::GroupIndex;
use crate::change::GroupChange;
use crate::laws::index_stands_before;
use cl_types::{Addr, Copies, List, PodKey, Text, find};
use cluster_objects::{Change, Cluster, Object, Pod};
use label_select::{
    GroupKey, Labels, Need, Op, Scope, Selector, are_label_values, canon, is_label_key,
    is_namespace_name,
};
use std::alloc::Global;
use std::process::Abort;
use std::rt::HostRuntime;

fn text(rt: &impl Abort, alloc: Global, bytes: &[u8]) -> Text {
    Text::of(Vec::from_slice(alloc, bytes).expect(rt, "memory"))
}

fn one<T: Drop>(rt: &impl Abort, alloc: Global, item: T) -> List<T>
    ensures { result ≡ item ∷ [] }
{
    let mut items = Vec::with_capacity(alloc, 1).expect(rt, "memory");
    items.push(item).expect(rt, "memory");
    List::of(items)
}

// Selects the pods whose label `app` is `cli`.
fn clients(rt: &impl Abort, alloc: Global) -> Selector {
    let key = text(rt, alloc, b"app");
    let values = one(rt, alloc, text(rt, alloc, b"cli"));
    assert!(rt; is_label_key(key.as_slice()));
    assert!(rt; are_label_values(values.as_slice()));
    assert!(rt; !values.as_slice().is_empty());
    let op = Op::OneOf;
    canon(alloc, one(rt, alloc, Need { key, op, values })).expect(rt, "memory")
}

// The group `default/[app in (cli)]`.
fn group(rt: &impl Abort, alloc: Global) -> GroupKey {
    let name = text(rt, alloc, b"default");
    assert!(rt; is_namespace_name(name.as_slice()));
    let scope = Scope::Namespace(name);
    GroupKey {
        scope,
        pods: clients(rt, alloc),
    }
}

fn key(rt: &impl Abort, alloc: Global, name: &[u8]) -> PodKey {
    PodKey {
        namespace: text(rt, alloc, b"default"),
        name: text(rt, alloc, name),
    }
}

// Puts a pod that is new to the cluster.
fn put_new(rt: &impl Abort, c: &mut Cluster, pod: Pod)
    ensures { (index : Items EntryData) → StandsFor index c.old.cluster → StandsFor index (before_pod None (Some pod) c.new.cluster) }
{
    index_stands_before();
    c.keeps_its_form();
    if find(c.pods(), &pod.key).is_some() {
        panic!(rt; "the pod is there");
    }
    if c.try_apply(Change::Put(Object::Pod(pod))).is_err() {
        panic!(rt; "the pod is refused");
    }
}

fn copy_of(rt: &impl Abort, pod: &Pod) -> Pod
    ensures { result ≡ pod.now }
{
    pod.copy().expect(rt, "memory")
}

// A pod whose label `app` is `cli`.
fn client(rt: &impl Abort, alloc: Global, name: &[u8], node: &[u8], a: u32) -> Pod {
    let mut labels = Labels::new(alloc);
    labels
        .put(text(rt, alloc, b"app"), text(rt, alloc, b"cli"))
        .expect(rt, "memory");
    Pod {
        key: key(rt, alloc, name),
        node: text(rt, alloc, node),
        addresses: one(rt, alloc, Addr::V4(a)),
        host: false,
        ended: false,
        labels,
        ports: List::new(alloc),
    }
}

fn members_count(rt: &impl Abort, alloc: Global, index: &GroupIndex) -> usize {
    match index.members(&group(rt, alloc)) {
        Some(members) => members.as_slice().len(),
        None => 0,
    }
}

// The index of the group.
fn index_of(rt: &impl Abort, alloc: Global, c: &Cluster) -> GroupIndex
    ensures { StandsFor result c.now.cluster }
{
    let mut index = GroupIndex::new(alloc).expect(rt, "memory");
    if index.put_group(c, &group(rt, alloc)).is_err() {
        panic!(rt; "memory");
    }
    index
}

fn is_one_addition(changes: &List<GroupChange>) -> bool {
    match changes.as_slice() {
        [change] => change.added.as_slice().len() == 1 && change.removed.as_slice().is_empty(),
        _ => false,
    }
}

fn is_on(rt: &impl Abort, alloc: Global, index: &GroupIndex, node: &[u8]) -> bool {
    index.is_on(&group(rt, alloc), &text(rt, alloc, node))
}

// How many groups contain the pod, and on how many nodes their members are.
fn groups_and_nodes(
    rt: &impl Abort,
    alloc: Global,
    index: &GroupIndex,
    pod: &PodKey,
) -> (usize, usize) {
    let groups = index.groups_of(pod).expect(rt, "memory");
    let nodes = index
        .nodes_of(alloc, groups.as_slice())
        .expect(rt, "memory");
    (groups.as_slice().len(), nodes.len())
}

// A second pod of the group comes, on another node.
#[test]
fn members_follow_the_pods(host: HostRuntime) {
    let rt = &host;
    let alloc = host.alloc();
    let mut c = Cluster::new(alloc).expect(rt, "memory");
    put_new(rt, &mut c, client(rt, alloc, b"cli", b"n1", 6));
    let mut index = index_of(rt, alloc, &c);
    assert!(rt; members_count(rt, alloc, &index) == 1);
    let pod = client(rt, alloc, b"cli2", b"n2", 5);
    put_new(rt, &mut c, copy_of(rt, &pod));
    let changes = index.pod_changed(&c, None, Some(&pod)).expect(rt, "memory");
    assert!(rt; is_one_addition(&changes));
    assert!(rt; members_count(rt, alloc, &index) == 2);
    assert!(rt; is_on(rt, alloc, &index, b"n2"));
    assert!(rt; !is_on(rt, alloc, &index, b"n3"));
    let (groups, nodes) = groups_and_nodes(rt, alloc, &index, &pod.key);
    assert!(rt; groups == 1 && nodes == 2);
}

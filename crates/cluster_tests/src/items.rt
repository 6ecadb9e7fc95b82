use crate::lines::change_of;
use cl_types::{Copies, Same};
use cluster_objects::{Cluster, Kept};
use cluster_types::{GroupBody, Object, ObjectKey, Range, RefItem};
use policy_reader::{LineItem, read_line};
use std::alloc::Global;
use std::process::Abort;

fn are_same_ranges(a: &[Range], b: &[Range]) -> bool {
    a.len() == b.len() && a.iter().zip(b).all(|(a, b)| a.lo == b.lo && a.hi == b.hi)
}

fn is_same_body(a: &GroupBody, b: &GroupBody) -> bool {
    match (a, b) {
        (GroupBody::Selected(a), GroupBody::Selected(b)) => a.same(b),
        (GroupBody::Blocks(a), GroupBody::Blocks(b)) => a.same(b),
        (GroupBody::Children(a), GroupBody::Children(b)) => a.same(b),
        _ => false,
    }
}

fn is_same_item(a: &RefItem, b: &RefItem) -> bool {
    match (a, b) {
        (RefItem::PutGroup(a), RefItem::PutGroup(b)) => {
            a.name == b.name && is_same_body(&a.body, &b.body)
        }
        (RefItem::RemoveGroup(a), RefItem::RemoveGroup(b)) => a == b,
        (RefItem::PutPolicy(a), RefItem::PutPolicy(b)) => {
            a.policy.same(&b.policy)
                && a.applied_refs.same(&b.applied_refs)
                && a.rule_refs.same(&b.rule_refs)
        }
        (RefItem::PutPool(a), RefItem::PutPool(b)) => {
            a.name == b.name && are_same_ranges(a.ranges.as_slice(), b.ranges.as_slice())
        }
        (RefItem::RemovePool(a), RefItem::RemovePool(b)) => a == b,
        (RefItem::PutPooled(a), RefItem::PutPooled(b)) => {
            a.name == b.name && a.pool == b.pool && a.asked == b.asked && a.applied.same(&b.applied)
        }
        _ => false,
    }
}

const ITEMS: &[&[u8]] = &[
    br#"{"apiVersion":"crd.antrea.io/v1","kind":"ClusterGroup","metadata":{"name":"g"},"spec":{"podSelector":{"matchLabels":{"app":"web"}}}}"#,
    br#"{"apiVersion":"crd.antrea.io/v1","kind":"ClusterGroup","metadata":{"name":"g"},"spec":{"ipBlocks":[{"cidr":"10.0.0.0/8"}]}}"#,
    br#"{"apiVersion":"crd.antrea.io/v1","kind":"ClusterGroup","metadata":{"name":"g"},"spec":{"childGroups":["a","b"]}}"#,
    br#"{"type":"DELETED","object":{"apiVersion":"crd.antrea.io/v1","kind":"ClusterGroup","metadata":{"name":"g"}}}"#,
    br#"{"apiVersion":"crd.antrea.io/v1","kind":"ClusterNetworkPolicy","metadata":{"name":"c"},"spec":{"priority":1,"appliedTo":[{"group":"g"}],"ingress":[{"action":"Drop","from":[{"group":"h"},{"podSelector":{}}]}]}}"#,
    br#"{"apiVersion":"crd.antrea.io/v1","kind":"ExternalIPPool","metadata":{"name":"p"},"spec":{"ipRanges":[{"cidr":"172.16.0.0/30"},{"start":"172.16.1.1","end":"172.16.1.2"}]}}"#,
    br#"{"type":"DELETED","object":{"apiVersion":"crd.antrea.io/v1","kind":"ExternalIPPool","metadata":{"name":"p"}}}"#,
    br#"{"apiVersion":"crd.antrea.io/v1","kind":"Egress","metadata":{"name":"e"},"spec":{"externalIPPool":"p","egressIP":"172.16.1.1","appliedTo":{"podSelector":{}}}}"#,
];

fn item_of(rt: &impl Abort, alloc: Global, line: &[u8]) -> RefItem {
    assert!(rt; line.len() <= 1_048_576);
    let Ok(LineItem::Objects(mut items)) = read_line(alloc, line) else {
        panic!(rt; "the line has no object")
    };
    items.vec_mut().pop().expect(rt, "an item")
}

#[test]
fn copies_of_objects_that_refer_to_others(rt: HostRuntime) {
    for line in ITEMS {
        let item = item_of(&rt, rt.alloc(), line);
        assert!(rt; is_same_item(&item.copy().expect(&rt, "memory"), &item));
    }
}

fn is_same_kept(a: &Kept, b: &Kept) -> bool {
    match (&a.undo.key, &b.undo.key, &a.undo.old, &b.undo.old) {
        (
            ObjectKey::Pod(a_key),
            ObjectKey::Pod(b_key),
            Some(Object::Pod(a_pod)),
            Some(Object::Pod(b_pod)),
        ) => {
            a_key.same(b_key)
                && a_pod.same(b_pod)
                && a.undo.fixed == b.undo.fixed
                && a.applied == b.applied
        }
        _ => false,
    }
}

#[test]
fn copy_of_what_takes_a_change_back(rt: HostRuntime) {
    let put: &[u8] = br#"{"kind":"Pod","metadata":{"name":"web"},"status":{"podIP":"10.10.1.7"}}"#;
    let removed: &[u8] = br#"{"type":"DELETED","object":{"kind":"Pod","metadata":{"name":"web"}}}"#;
    let mut cluster = Cluster::new(rt.alloc()).expect(&rt, "memory");
    assert!(rt; cluster.try_apply(change_of(&rt, rt.alloc(), put)).is_ok());
    let removal = change_of(&rt, rt.alloc(), removed);
    let kept = cluster
        .apply_kept(removal)
        .expect(&rt, "a pod that is there");
    assert!(rt; is_same_kept(&kept.copy().expect(&rt, "memory"), &kept));
}

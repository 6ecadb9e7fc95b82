ghost use Rattle.std.specs.Prelude.{◌≡◌};

use crate::lines::{change_of, comes_to};
use cl_types::Same;
use cluster_objects::{Applied, Cluster, undoes_take_back};
use cluster_types::Change;
use std::alloc::Global;
use std::process::Abort;

// Makes the change and takes it back; whether it made a difference.
fn made_and_taken_back(rt: &impl Abort, cluster: &mut Cluster, change: Change) -> bool
    ensures { cluster.new.cluster ≡ cluster.old.cluster }
{
    cluster.keeps_its_form();
    undoes_take_back();
    let kept = cluster
        .apply_kept(change)
        .expect(rt, "a change that isn't refused");
    let applied = kept.applied;
    cluster.undo(kept.undo);
    applied == Applied::Changed
}

// Changes of the cluster that the lines in SITE make: the first and last of each kind, new and old.
const SITE: &[&[u8]] = &[
    br#"{"kind":"Node","metadata":{"name":"n1"},"spec":{"podCIDR":"10.10.1.0/24"}}"#,
    br#"{"kind":"Node","metadata":{"name":"n3"},"spec":{"podCIDR":"10.10.3.0/24"}}"#,
];

const OBJECTS: &[&[u8]] = &[
    br#"{"kind":"Namespace","metadata":{"name":"shop"}}"#,
    br#"{"kind":"Pod","metadata":{"name":"web"},"spec":{"nodeName":"n1"},"status":{"podIP":"10.10.1.5"}}"#,
    br#"{"kind":"Pod","metadata":{"name":"cli"},"spec":{"nodeName":"n1"},"status":{"podIP":"10.10.1.6"}}"#,
    br#"{"apiVersion":"crd.antrea.io/v1beta1","kind":"Tier","metadata":{"name":"gold"},"spec":{"priority":60}}"#,
    br#"{"apiVersion":"networking.k8s.io/v1","kind":"NetworkPolicy","metadata":{"name":"web-in"}}"#,
    br#"{"apiVersion":"crd.antrea.io/v1beta1","kind":"Egress","metadata":{"name":"out"},"spec":{"egressIP":"172.16.0.9","appliedTo":{"podSelector":{}}},"status":{"egressNode":"n1"}}"#,
];

// Each of them makes a difference.
const CHANGES: &[&[u8]] = &[
    br#"{"kind":"Namespace","metadata":{"name":"shop","labels":{"team":"a"}}}"#,
    br#"{"kind":"Namespace","metadata":{"name":"team-a"}}"#,
    br#"{"type":"DELETED","object":{"kind":"Namespace","metadata":{"name":"shop"}}}"#,
    br#"{"kind":"Pod","metadata":{"name":"web"},"status":{"podIP":"10.10.1.7"}}"#,
    br#"{"kind":"Pod","metadata":{"name":"job"},"status":{"podIP":"10.10.1.8"}}"#,
    br#"{"type":"DELETED","object":{"kind":"Pod","metadata":{"name":"cli"}}}"#,
    br#"{"apiVersion":"crd.antrea.io/v1beta1","kind":"Tier","metadata":{"name":"tin"},"spec":{"priority":70}}"#,
    br#"{"type":"DELETED","object":{"apiVersion":"crd.antrea.io/v1beta1","kind":"Tier","metadata":{"name":"gold"}}}"#,
    br#"{"apiVersion":"networking.k8s.io/v1","kind":"NetworkPolicy","metadata":{"name":"web-in"},"spec":{"ingress":[{}]}}"#,
    br#"{"apiVersion":"crd.antrea.io/v1beta1","kind":"NetworkPolicy","metadata":{"name":"a"},"spec":{"priority":1,"tier":"gold","appliedTo":[{"podSelector":{}}],"ingress":[{"action":"Drop"}]}}"#,
    br#"{"type":"DELETED","object":{"apiVersion":"networking.k8s.io/v1","kind":"NetworkPolicy","metadata":{"name":"web-in"}}}"#,
    br#"{"apiVersion":"crd.antrea.io/v1beta1","kind":"Egress","metadata":{"name":"out"},"spec":{"egressIP":"172.16.0.10","appliedTo":{"podSelector":{}}},"status":{"egressNode":"n1"}}"#,
    br#"{"type":"DELETED","object":{"apiVersion":"crd.antrea.io/v1beta1","kind":"Egress","metadata":{"name":"out"}}}"#,
];

fn are_same<T: Same>(a: &[T], b: &[T]) -> bool {
    a.len() == b.len() && a.iter().zip(b).all(|(a, b)| a.same(b))
}

fn is_same(a: &Cluster, b: &Cluster) -> bool {
    a.fixed() == b.fixed()
        && are_same(a.nodes(), b.nodes())
        && are_same(a.pods(), b.pods())
        && are_same(a.tiers(), b.tiers())
        && are_same(a.policies(), b.policies())
        && are_same(a.egresses(), b.egresses())
}

fn put_all(rt: &impl Abort, alloc: Global, cluster: &mut Cluster, lines: &[&[u8]]) {
    for line in lines {
        let text = comes_to(rt, alloc, cluster, line);
        assert!(rt; text.as_slice() == b"changed".as_slice());
    }
}

fn takes_each_back(rt: &impl Abort, alloc: Global, cluster: &mut Cluster, lines: &[&[u8]]) {
    let before = cluster.copy().expect(rt, "memory");
    for line in lines {
        let change = change_of(rt, alloc, line);
        assert!(rt; made_and_taken_back(rt, cluster, change));
        assert!(rt; is_same(cluster, &before));
    }
}

#[test]
fn each_change_is_taken_back(rt: HostRuntime) {
    let mut cluster = Cluster::new(rt.alloc()).expect(&rt, "memory");
    takes_each_back(&rt, rt.alloc(), &mut cluster, SITE);
    takes_each_back(&rt, rt.alloc(), &mut cluster, &OBJECTS[..5]);
    put_all(&rt, rt.alloc(), &mut cluster, SITE);
    put_all(&rt, rt.alloc(), &mut cluster, OBJECTS);
    takes_each_back(&rt, rt.alloc(), &mut cluster, CHANGES);
}

use crate::lines::comes_to;
use cluster_objects::Cluster;

const CHANGED: &[u8] = b"changed";

const UNCHANGED: &[u8] = b"unchanged";

// Lines and what each comes to in the cluster that the lines before it made.
type Table = &'static [(&'static [u8], &'static [u8])];

const NODES: Table = &[
    (
        br#"{"kind":"Node","metadata":{"name":"n1"},"spec":{"podCIDRs":["10.10.1.0/24","fd00:1::/64"]}}"#,
        CHANGED,
    ),
    (
        br#"{"kind":"Node","metadata":{"name":"n1"},"spec":{"podCIDRs":["10.10.1.0/24","fd00:1::/64"]}}"#,
        UNCHANGED,
    ),
    // Blocks of either family that meet, and the node with the least name of several.
    (
        br#"{"kind":"Node","metadata":{"name":"n2"},"spec":{"podCIDR":"10.10.1.128/25"}}"#,
        b"CidrOverlap n1",
    ),
    (
        br#"{"kind":"Node","metadata":{"name":"n2"},"spec":{"podCIDRs":["10.10.2.0/24","fd00:1::/68"]}}"#,
        b"CidrOverlap n1",
    ),
    (
        br#"{"kind":"Node","metadata":{"name":"n2"},"spec":{"podCIDR":"10.10.2.0/24"}}"#,
        CHANGED,
    ),
    (
        br#"{"kind":"Node","metadata":{"name":"n0"},"spec":{"podCIDR":"10.10.0.0/16"}}"#,
        b"CidrOverlap n1",
    ),
    // A node may get another block as long as no other object came.
    (
        br#"{"kind":"Node","metadata":{"name":"n2"},"spec":{"podCIDR":"10.10.3.0/24"}}"#,
        CHANGED,
    ),
    (
        br#"{"type":"DELETED","object":{"kind":"Node","metadata":{"name":"n9"}}}"#,
        UNCHANGED,
    ),
    // The removal of an absent pod fixes the nodes. Then only what changes nothing is taken of nodes.
    (
        br#"{"type":"DELETED","object":{"kind":"Pod","metadata":{"name":"web"}}}"#,
        UNCHANGED,
    ),
    (
        br#"{"kind":"Node","metadata":{"name":"n2"},"spec":{"podCIDR":"10.10.3.0/24"}}"#,
        UNCHANGED,
    ),
    (
        br#"{"type":"DELETED","object":{"kind":"Node","metadata":{"name":"n9"}}}"#,
        UNCHANGED,
    ),
    (
        br#"{"kind":"Node","metadata":{"name":"n4"},"spec":{"podCIDR":"10.10.4.0/24"}}"#,
        b"NodesFixed",
    ),
    (
        br#"{"kind":"Node","metadata":{"name":"n4"},"spec":{"podCIDR":"10.10.0.0/16"}}"#,
        b"NodesFixed",
    ),
    (
        br#"{"type":"DELETED","object":{"kind":"Node","metadata":{"name":"n1"}}}"#,
        b"NodesFixed",
    ),
];

const PODS: Table = &[
    (
        br#"{"kind":"Namespace","metadata":{"name":"shop","labels":{"team":"a"}}}"#,
        CHANGED,
    ),
    (
        br#"{"kind":"Namespace","metadata":{"name":"shop","labels":{"team":"a"}}}"#,
        UNCHANGED,
    ),
    (
        br#"{"kind":"Pod","metadata":{"name":"web"},"spec":{"nodeName":"n1"},"status":{"podIP":"10.10.1.5"}}"#,
        CHANGED,
    ),
    (
        br#"{"kind":"Pod","metadata":{"name":"api"},"spec":{"nodeName":"n1"},"status":{"podIP":"fd00:1::6"}}"#,
        CHANGED,
    ),
    (
        br#"{"kind":"Pod","metadata":{"name":"cli"},"status":{"podIP":"10.10.1.5"}}"#,
        b"AddressInUse default/web",
    ),
    // Of several pods with its addresses the first in the order of keys.
    (
        br#"{"kind":"Pod","metadata":{"name":"cli"},"status":{"podIPs":[{"ip":"10.10.1.5"},{"ip":"fd00:1::6"}]}}"#,
        b"AddressInUse default/api",
    ),
    // A finished pod and one on its node's network hold no address.
    (
        br#"{"kind":"Pod","metadata":{"name":"job"},"status":{"phase":"Failed","podIP":"10.10.1.5"}}"#,
        CHANGED,
    ),
    (
        br#"{"kind":"Pod","metadata":{"name":"job"},"status":{"phase":"Running","podIP":"10.10.1.5"}}"#,
        b"AddressInUse default/web",
    ),
    (
        br#"{"kind":"Pod","metadata":{"name":"log"},"spec":{"hostNetwork":true},"status":{"podIP":"10.10.1.5"}}"#,
        CHANGED,
    ),
    (
        br#"{"kind":"Pod","metadata":{"name":"web"},"spec":{"nodeName":"n1"},"status":{"podIP":"10.10.1.5"}}"#,
        UNCHANGED,
    ),
    (
        br#"{"kind":"Pod","metadata":{"name":"web"},"spec":{"nodeName":"n1"},"status":{"podIP":"10.10.1.7"}}"#,
        CHANGED,
    ),
    (
        br#"{"kind":"Pod","metadata":{"name":"cli"},"status":{"podIP":"10.10.1.5"}}"#,
        CHANGED,
    ),
    (
        br#"{"type":"DELETED","object":{"kind":"Pod","metadata":{"name":"web"}}}"#,
        CHANGED,
    ),
    (
        br#"{"type":"DELETED","object":{"kind":"Pod","metadata":{"name":"web"}}}"#,
        UNCHANGED,
    ),
    (
        br#"{"kind":"Pod","metadata":{"name":"job"},"status":{"phase":"Running","podIP":"10.10.1.7"}}"#,
        CHANGED,
    ),
];

const TIERS: Table = &[
    (
        br#"{"apiVersion":"crd.antrea.io/v1beta1","kind":"Tier","metadata":{"name":"gold"},"spec":{"priority":60}}"#,
        CHANGED,
    ),
    (
        br#"{"apiVersion":"crd.antrea.io/v1beta1","kind":"Tier","metadata":{"name":"gold"},"spec":{"priority":60}}"#,
        UNCHANGED,
    ),
    (
        br#"{"apiVersion":"crd.antrea.io/v1beta1","kind":"Tier","metadata":{"name":"gold"},"spec":{"priority":70}}"#,
        b"TierFixed",
    ),
    (
        br#"{"apiVersion":"crd.antrea.io/v1beta1","kind":"Tier","metadata":{"name":"tin"},"spec":{"priority":60}}"#,
        b"TierTaken gold",
    ),
    (
        br#"{"apiVersion":"crd.antrea.io/v1beta1","kind":"Tier","metadata":{"name":"tin"},"spec":{"priority":100}}"#,
        b"TierTaken securityops",
    ),
    // The tier is there with another priority, which another tier has.
    (
        br#"{"apiVersion":"crd.antrea.io/v1beta1","kind":"Tier","metadata":{"name":"emergency"},"spec":{"priority":60}}"#,
        b"TierFixed",
    ),
    (
        br#"{"apiVersion":"crd.antrea.io/v1beta1","kind":"Tier","metadata":{"name":"emergency"},"spec":{"priority":50}}"#,
        UNCHANGED,
    ),
    (
        br#"{"type":"DELETED","object":{"apiVersion":"crd.antrea.io/v1beta1","kind":"Tier","metadata":{"name":"baseline"}}}"#,
        b"TierFixed",
    ),
    (
        br#"{"type":"DELETED","object":{"apiVersion":"crd.antrea.io/v1beta1","kind":"Tier","metadata":{"name":"tin"}}}"#,
        UNCHANGED,
    ),
    // Static names alone are read without regard to case.
    (
        br#"{"apiVersion":"crd.antrea.io/v1beta1","kind":"ClusterNetworkPolicy","metadata":{"name":"stop"},"spec":{"priority":5,"tier":"Emergency","appliedTo":[{"podSelector":{}}]}}"#,
        CHANGED,
    ),
    (
        br#"{"apiVersion":"crd.antrea.io/v1beta1","kind":"ClusterNetworkPolicy","metadata":{"name":"stop"},"spec":{"priority":5,"tier":"emergency","appliedTo":[{"podSelector":{}}]}}"#,
        CHANGED,
    ),
    (
        br#"{"apiVersion":"crd.antrea.io/v1beta1","kind":"ClusterNetworkPolicy","metadata":{"name":"slow"},"spec":{"priority":5,"tier":"Gold","appliedTo":[{"podSelector":{}}]}}"#,
        b"NoSuchTier Gold",
    ),
    (
        br#"{"apiVersion":"crd.antrea.io/v1beta1","kind":"NetworkPolicy","metadata":{"name":"slow"},"spec":{"priority":5,"tier":"gold","appliedTo":[{"podSelector":{}}]}}"#,
        CHANGED,
    ),
    (
        br#"{"apiVersion":"crd.antrea.io/v1beta1","kind":"ClusterNetworkPolicy","metadata":{"name":"slow"},"spec":{"priority":5,"tier":"gold","appliedTo":[{"podSelector":{}}]}}"#,
        CHANGED,
    ),
    // Of several policies in the tier the first in the order of keys.
    (
        br#"{"type":"DELETED","object":{"apiVersion":"crd.antrea.io/v1beta1","kind":"Tier","metadata":{"name":"gold"}}}"#,
        b"TierInUse acnp:slow",
    ),
    (
        br#"{"type":"DELETED","object":{"apiVersion":"crd.antrea.io/v1beta1","kind":"ClusterNetworkPolicy","metadata":{"name":"slow"}}}"#,
        CHANGED,
    ),
    (
        br#"{"type":"DELETED","object":{"apiVersion":"crd.antrea.io/v1beta1","kind":"Tier","metadata":{"name":"gold"}}}"#,
        b"TierInUse anp:default/slow",
    ),
    (
        br#"{"type":"DELETED","object":{"apiVersion":"crd.antrea.io/v1beta1","kind":"NetworkPolicy","metadata":{"name":"slow"}}}"#,
        CHANGED,
    ),
    (
        br#"{"type":"DELETED","object":{"apiVersion":"crd.antrea.io/v1beta1","kind":"Tier","metadata":{"name":"gold"}}}"#,
        CHANGED,
    ),
    (
        br#"{"apiVersion":"networking.k8s.io/v1","kind":"NetworkPolicy","metadata":{"name":"none"}}"#,
        CHANGED,
    ),
    (
        br#"{"apiVersion":"networking.k8s.io/v1","kind":"NetworkPolicy","metadata":{"name":"none"},"spec":{"ingress":[]}}"#,
        UNCHANGED,
    ),
    (
        br#"{"apiVersion":"crd.antrea.io/v1beta1","kind":"Egress","metadata":{"name":"out"},"spec":{"egressIP":"172.16.0.9","appliedTo":{"podSelector":{}}},"status":{"egressNode":"n1"}}"#,
        CHANGED,
    ),
    (
        br#"{"apiVersion":"crd.antrea.io/v1beta1","kind":"Egress","metadata":{"name":"out"},"spec":{"egressIP":"172.16.0.9","appliedTo":{"podSelector":{}}},"status":{"egressNode":"n1"}}"#,
        UNCHANGED,
    ),
    (
        br#"{"type":"DELETED","object":{"apiVersion":"crd.antrea.io/v1beta1","kind":"Egress","metadata":{"name":"out"}}}"#,
        CHANGED,
    ),
    (
        br#"{"type":"DELETED","object":{"apiVersion":"crd.antrea.io/v1beta1","kind":"Egress","metadata":{"name":"out"}}}"#,
        UNCHANGED,
    ),
];

#[test]
fn each_line_comes_to_its_outcome(rt: HostRuntime) {
    let mut cluster = Cluster::new(rt.alloc()).expect(&rt, "memory");
    for table in [NODES, PODS, TIERS] {
        for (line, outcome) in table {
            let text = comes_to(&rt, rt.alloc(), &mut cluster, line);
            assert!(rt; text.as_slice() == *outcome);
        }
    }
}

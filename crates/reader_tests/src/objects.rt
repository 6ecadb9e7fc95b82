//! Nodes, namespaces, pods, tiers, Egresses, cluster groups and pools.
use crate::read::{expect_lines, expect_parts, told};
use std::alloc::Global;
use std::process::Abort;

const POD: &str = r#"{"kind":"Pod","metadata":"#;

// The metadata of a pod, and its fault.
const METADATA: &[(&str, &str)] = &[
    ("null", "BadShape metadata.name"),
    ("[]", "BadShape metadata"),
    ("{}", "BadShape metadata.name"),
    (r#"{"name":5}"#, "BadShape metadata.name"),
    (r#"{"name":""}"#, "BadName"),
    (r#"{"name":"Web"}"#, "BadName"),
    (r#"{"name":"a.b"}"#, ""),
    (r#"{"name":"a..b"}"#, "BadName"),
    (r#"{"name":"-a"}"#, "BadName"),
    (r#"{"name":"a","namespace":null}"#, ""),
    (r#"{"name":"a","namespace":""}"#, ""),
    (r#"{"name":"a","namespace":"a.b"}"#, "BadName"),
    (
        r#"{"name":"A","namespace":5}"#,
        "BadShape metadata.namespace",
    ),
    (r#"{"name":"a","labels":{"/a":"b"}}"#, "BadLabel"),
    (r#"{"name":"a","labels":{"a/":"b"}}"#, "BadLabel"),
    (r#"{"name":"a","labels":{"a/b/c":"b"}}"#, "BadLabel"),
    (r#"{"name":"a","labels":{"a.b/C_d":""}}"#, ""),
    (r#"{"name":"a","labels":{"/a":null}}"#, ""),
    (
        r#"{"name":"a","labels":{"a":"b c","b":5}}"#,
        "BadShape metadata.labels",
    ),
];

#[test]
fn metadata(rt: HostRuntime) {
    expect_parts(&rt, rt.alloc(), POD, "}", METADATA);
}

fn letters(rt: &impl Abort, alloc: Global, count: usize) -> String {
    let mut text = String::new(alloc);
    for _ in 0..count {
        text.push('a').expect(rt, "memory");
    }
    text
}

// Kinds, the length of a name, and whether it is one.
const LENGTHS: &[(&str, usize, bool)] = &[
    ("Namespace", 63, true),
    ("Namespace", 64, false),
    ("Pod", 64, true),
    ("Pod", 253, true),
    ("Pod", 254, false),
];

#[test]
fn lengths_of_names(rt: HostRuntime) {
    for (kind, count, is_name) in LENGTHS {
        let name = letters(&rt, rt.alloc(), *count);
        let line = format!(in rt.alloc();
            "{{\"kind\":\"{kind}\",\"metadata\":{{\"name\":\"{name}\"}}}}"
        ).expect(&rt, "memory");
        let told = told(&rt, rt.alloc(), line.as_str());
        assert_eq!(rt; told.as_str() == "BadName", !*is_name, "of {count}");
    }
}

const NODE: &str = r#"{"kind":"Node","metadata":{"name":"n1","namespace":5},"spec":"#;

// The spec of a node, and its fault.
const NODES: &[(&str, &str)] = &[
    ("[]", "BadShape spec"),
    ("{}", "BadShape spec.podCIDR"),
    (
        r#"{"podCIDR":5,"podCIDRs":["10.0.0.0/8"]}"#,
        "BadShape spec.podCIDR",
    ),
    (r#"{"podCIDRs":["fd00::/64"]}"#, "BadShape spec.podCIDR"),
    (
        r#"{"podCIDRs":["fd00::/64",5]}"#,
        "BadShape spec.podCIDRs[1]",
    ),
    (r#"{"podCIDR":""}"#, "BadPrefix"),
    (r#"{"podCIDR":"10.0.0.0/7"}"#, "BadPrefix"),
    (r#"{"podCIDR":"10.0.0.0/8"}"#, ""),
    (r#"{"podCIDR":"10.0.0.0/30"}"#, ""),
    (r#"{"podCIDR":"10.0.0.0/31"}"#, "BadPrefix"),
    (r#"{"podCIDR":"10.0.0.0/08"}"#, "BadPrefix"),
    (r#"{"podCIDR":"10.0.0.0/8","podCIDRs":["x"]}"#, ""),
    (r#"{"podCIDRs":["10.0.0.0/8","fd00::/15"]}"#, "BadPrefix"),
    (r#"{"podCIDRs":["10.0.0.0/8","fd00::/16"]}"#, ""),
    (r#"{"podCIDRs":["10.0.0.0/8","fd00::/126"]}"#, ""),
    (r#"{"podCIDRs":["10.0.0.0/8","fd00::/127"]}"#, "BadPrefix"),
];

#[test]
fn nodes(rt: HostRuntime) {
    expect_parts(&rt, rt.alloc(), NODE, "}", NODES);
}

const POD_REST: &str = r#"{"kind":"Pod","metadata":{"name":"web"},"#;

// What stands behind the metadata of a pod, and its fault.
const PODS: &[(&str, &str)] = &[
    (r#""spec":[],"status":[]"#, "BadShape spec"),
    (r#""spec":{"nodeName":5}"#, "BadShape spec.nodeName"),
    (
        r#""spec":{"hostNetwork":"true"}"#,
        "BadShape spec.hostNetwork",
    ),
    (r#""status":{"phase":5}"#, "BadShape status.phase"),
    (r#""status":{"podIP":5}"#, "BadShape status.podIP"),
    (r#""status":{"podIP":"10.10.1"}"#, "BadAddr"),
    (
        r#""status":{"podIP":"10.10.1.5","podIPs":[{"ip":"x"}]}"#,
        "",
    ),
    (
        r#""status":{"podIP":"10.10.1.5","podIPs":[{"ip":"fd00::1::2"}]}"#,
        "BadAddr",
    ),
    (
        r#""status":{"podIP":"x","podIPs":[5]}"#,
        "BadShape status.podIPs[0]",
    ),
    (
        r#""status":{"podIP":"x","podIPs":[{},{"ip":5}]}"#,
        "BadShape status.podIPs[1].ip",
    ),
    (
        r#""spec":{"containers":5},"status":{"podIPs":5}"#,
        "BadShape status.podIPs",
    ),
    (r#""spec":{"containers":5}"#, "BadShape spec.containers"),
    (
        r#""spec":{"containers":[5]}"#,
        "BadShape spec.containers[0]",
    ),
    (
        r#""spec":{"containers":[{"ports":5}]}"#,
        "BadShape spec.containers[0].ports",
    ),
    (
        r#""spec":{"containers":[{"ports":[5]}]}"#,
        "BadShape spec.containers[0].ports[0]",
    ),
];

#[test]
fn pods(rt: HostRuntime) {
    expect_parts(&rt, rt.alloc(), POD_REST, "}", PODS);
}

const CONTAINER: &str =
    r#"{"kind":"Pod","metadata":{"name":"web"},"spec":{"containers":[{"ports":["#;

// A port of a container, and its fault.
const PORTS: &[(&str, &str)] = &[
    ("{}", ""),
    (r#"{"containerPort":0,"protocol":"tcp"}"#, ""),
    (r#"{"name":null,"containerPort":0}"#, ""),
    (r#"{"name":"http","containerPort":80,"protocol":null}"#, ""),
    (r#"{"name":"http"}"#, "BadPort"),
    (r#"{"name":5,"containerPort":80}"#, "BadPort"),
    (r#"{"name":"80","containerPort":80}"#, "BadPort"),
    (r#"{"name":"","containerPort":80}"#, "BadPort"),
    (r#"{"name":"HTTP","containerPort":80}"#, "BadPort"),
    (r#"{"name":"a--b","containerPort":80}"#, ""),
    (
        r#"{"name":"a234567890123456","containerPort":80}"#,
        "BadPort",
    ),
    (r#"{"name":"a23456789012345","containerPort":65535}"#, ""),
    (r#"{"name":"http","containerPort":0}"#, "BadPort"),
    (r#"{"name":"http","containerPort":65536}"#, "BadPort"),
    (r#"{"name":"http","containerPort":"80"}"#, "BadPort"),
    (
        r#"{"name":"http","containerPort":80,"protocol":"tcp"}"#,
        "BadPort",
    ),
    (
        r#"{"name":"http","containerPort":80,"protocol":5}"#,
        "BadPort",
    ),
];

#[test]
fn ports_of_containers(rt: HostRuntime) {
    expect_parts(&rt, rt.alloc(), CONTAINER, "]}]}}", PORTS);
}

const TIER: &str =
    r#"{"apiVersion":"crd.antrea.io/v1beta1","kind":"Tier","metadata":{"name":"gold"},"spec":"#;

const TIERS: &[(&str, &str)] = &[
    ("5", "BadShape spec"),
    ("{}", "BadPriority"),
    (r#"{"priority":0}"#, "BadPriority"),
    (r#"{"priority":1}"#, ""),
    (r#"{"priority":253}"#, ""),
    (r#"{"priority":254}"#, "BadPriority"),
    (r#"{"priority":"5"}"#, "BadPriority"),
    (r#"{"priority":5.0}"#, "BadPriority"),
];

#[test]
fn tiers(rt: HostRuntime) {
    expect_parts(&rt, rt.alloc(), TIER, "}", TIERS);
}

const EGRESS: &str =
    r#"{"apiVersion":"crd.antrea.io/v1beta1","kind":"Egress","metadata":{"name":"out"},"spec":{"#;

// The spec of an Egress, and its fault.
const EGRESSES: &[(&str, &str)] = &[
    (
        r#""egressIP":"172.16.0.9","appliedTo":{"podSelector":{},"x":1}"#,
        "",
    ),
    (
        r#""appliedTo":{"podSelector":{}}"#,
        "BadShape spec.egressIP",
    ),
    (r#""egressIP":"172.16.0.9""#, "BadShape spec.appliedTo"),
    (
        r#""egressIP":"172.16.0.9","appliedTo":{}"#,
        "BadShape spec.appliedTo",
    ),
    (
        r#""egressIP":"fd00::1","appliedTo":{"podSelector":{}}"#,
        "Unsupported egressIP",
    ),
    (
        r#""egressIP":"fd00::1","bandwidth":{},"appliedTo":{"podSelector":{}}"#,
        "Unsupported bandwidth",
    ),
    (
        r#""egressIPs":[],"appliedTo":{"podSelector":{}}"#,
        "Unsupported egressIPs",
    ),
    (
        r#""egressIP":"172.16.0","appliedTo":{"podSelector":{}}"#,
        "BadAddr",
    ),
    (r#""externalIPPool":"p","appliedTo":{"podSelector":{}}"#, ""),
    (
        r#""externalIPPool":"","appliedTo":{"podSelector":{}}"#,
        "BadShape spec.egressIP",
    ),
    (
        r#""externalIPPool":"p","egressIP":"","appliedTo":{"podSelector":{}}"#,
        "BadAddr",
    ),
    (
        r#""externalIPPool":"p","egressIP":5,"appliedTo":{"podSelector":{}}"#,
        "BadShape spec.egressIP",
    ),
];

#[test]
fn egresses(rt: HostRuntime) {
    expect_parts(&rt, rt.alloc(), EGRESS, "}}", EGRESSES);
}

const GROUP: &str =
    r#"{"apiVersion":"crd.antrea.io/v1beta1","kind":"ClusterGroup","metadata":{"name":"g"},"spec":"#;

// The spec of a cluster group, and its fault.
const GROUPS: &[(&str, &str)] = &[
    (r#"{"podSelector":{}}"#, ""),
    (r#"{"ipBlocks":[]}"#, ""),
    (r#"{"childGroups":["a",5]}"#, "BadShape spec.childGroups[1]"),
    (r#"{}"#, "BadShape spec"),
    (r#"{"podSelector":{},"ipBlocks":[]}"#, "BadShape spec"),
    (r#"{"serviceReference":{}}"#, "Unsupported serviceReference"),
    (
        r#"{"ipBlocks":[{"cidr":"10.0.0.0/8","except":["10.1.0.0/16","10.0.0.0/8"]}]}"#,
        "",
    ),
    (
        r#"{"ipBlocks":[{"cidr":"10.0.0.0/8","except":["11.0.0.0/16"]}]}"#,
        "BadPrefix",
    ),
    (r#"{"ipBlocks":[{"cidr":"10.0.0.0/33"}]}"#, "BadPrefix"),
    (
        r#"{"ipBlocks":[{"except":[]}]}"#,
        "BadShape spec.ipBlocks[0].cidr",
    ),
    (
        r#"{"ipBlocks":[{"cidr":"10.0.0.0/8","name":"x"}]}"#,
        "Unsupported name",
    ),
];

#[test]
fn cluster_groups(rt: HostRuntime) {
    expect_parts(&rt, rt.alloc(), GROUP, "}", GROUPS);
}

const POOL: &str =
    r#"{"apiVersion":"crd.antrea.io/v1beta1","kind":"ExternalIPPool","metadata":{"name":"p"},"spec":"#;

// The spec of a pool, and its fault.
const POOLS: &[(&str, &str)] = &[
    (r#"{}"#, "BadShape spec.ipRanges"),
    (r#"{"ipRanges":[]}"#, "BadShape spec.ipRanges"),
    (
        r#"{"ipRanges":[{"cidr":"172.16.0.0/30","start":"172.16.0.1"}]}"#,
        "BadShape spec.ipRanges[0]",
    ),
    (
        r#"{"ipRanges":[{"start":"172.16.0.1"}]}"#,
        "BadShape spec.ipRanges[0]",
    ),
    (
        r#"{"ipRanges":[{"start":"172.16.0.9","end":"172.16.0.1"}]}"#,
        "BadShape spec.ipRanges[0]",
    ),
    (r#"{"ipRanges":[{"cidr":"172.16.0.0/33"}]}"#, "BadPrefix"),
    (
        r#"{"ipRanges":[{"start":"172.16.0","end":"172.16.0.1"}]}"#,
        "BadAddr",
    ),
    (
        r#"{"ipRanges":[{"cidr":"fd00::/64"}]}"#,
        "Unsupported ipRanges",
    ),
    (
        r#"{"ipRanges":[{"cidr":"172.16.0.0/30"}],"nodeSelector":{}}"#,
        "",
    ),
    (
        r#"{"ipRanges":[{"cidr":"172.16.0.0/30"}],"nodeSelector":{"matchLabels":{}}}"#,
        "Unsupported nodeSelector",
    ),
];

#[test]
fn pools(rt: HostRuntime) {
    expect_parts(&rt, rt.alloc(), POOL, "}", POOLS);
}

// Objects, and what they say.
const OBJECTS: &[(&str, &str)] = &[
    (
        r#"{"kind":"Node","metadata":{"name":"n1"},"spec":{"podCIDRs":["fd00:1::/64","10.10.1.0/24"]}}"#,
        "(node n1 10.10.1.0/24 fd00:1::/64)",
    ),
    (
        r#"{"kind":"Namespace","metadata":{"name":"shop"}}"#,
        "(namespace shop)",
    ),
    (
        r#"{"kind":"Pod","metadata":{"name":"web"},"spec":{"nodeName":"n1","hostNetwork":true},"status":{"phase":"Failed","podIP":"","podIPs":[{},{"ip":"fd00::1"},{"ip":"10.0.0.1"}]}}"#,
        "(pod default/web on n1 10.0.0.1 fd00::1 host ended)",
    ),
    // Of ports with one name and protocol the first counts.
    (
        r#"{"kind":"Pod","metadata":{"name":"web","namespace":"a"},"spec":{"containers":[{"ports":[{"name":"http","containerPort":80},{"containerPort":9}]},{},{"ports":[{"name":"dns","containerPort":53},{"name":"http","containerPort":81},{"name":"http","protocol":"UDP","containerPort":82}]}]}}"#,
        "(pod a/web on  dns=53 http=80 http=82)",
    ),
    (
        r#"{"apiVersion":"crd.antrea.io/v1","kind":"Tier","metadata":{"name":"gold"},"spec":{"priority":253}}"#,
        "(tier gold 253)",
    ),
    (
        r#"{"apiVersion":"crd.antrea.io/v1","kind":"Egress","metadata":{"name":"out"},"spec":{"egressIP":"172.16.0.9","appliedTo":{"namespaceSelector":{}}},"status":{"egressNode":"n2"}}"#,
        "(egress out 172.16.0.9 by n2 []/[])",
    ),
    (
        r#"{"apiVersion":"crd.antrea.io/v1","kind":"Egress","metadata":{"name":"out"},"spec":{"externalIPPool":"p","egressIP":"172.16.0.9","appliedTo":{"podSelector":{}}},"status":5}"#,
        "(pooled out of p 172.16.0.9 []/[])",
    ),
    (
        r#"{"apiVersion":"crd.antrea.io/v1","kind":"ClusterGroup","metadata":{"name":"g"},"spec":{"childGroups":["a","b"]}}"#,
        "(group g @a @b)",
    ),
    (
        r#"{"apiVersion":"crd.antrea.io/v1","kind":"ClusterGroup","metadata":{"name":"g"},"spec":{"podSelector":{"matchLabels":{"app":"web"}}}}"#,
        "(group g []/[app in (web)])",
    ),
    (
        r#"{"apiVersion":"crd.antrea.io/v1","kind":"ExternalIPPool","metadata":{"name":"p"},"spec":{"ipRanges":[{"cidr":"172.16.0.0/30"},{"start":"172.16.1.1","end":"172.16.1.9"}]}}"#,
        "(pool p 172.16.0.0-172.16.0.3 172.16.1.1-172.16.1.9)",
    ),
    (
        r#"{"type":"DELETED","object":{"apiVersion":"crd.antrea.io/v1","kind":"Egress","metadata":{"name":"out"}}}"#,
        "(no egress out)",
    ),
    (
        r#"{"type":"DELETED","object":{"apiVersion":"crd.antrea.io/v1","kind":"Tier","metadata":{"name":"gold"}}}"#,
        "(no tier gold)",
    ),
    (
        r#"{"type":"DELETED","object":{"kind":"Namespace","metadata":{"name":"shop"}}}"#,
        "(no namespace shop)",
    ),
    (
        r#"{"type":"DELETED","object":{"apiVersion":"crd.antrea.io/v1","kind":"ClusterGroup","metadata":{"name":"g"}}}"#,
        "(no group g)",
    ),
    (
        r#"{"type":"DELETED","object":{"apiVersion":"crd.antrea.io/v1","kind":"ExternalIPPool","metadata":{"name":"p"}}}"#,
        "(no pool p)",
    ),
];

#[test]
fn objects_that_are_read(rt: HostRuntime) {
    expect_lines(&rt, rt.alloc(), OBJECTS);
}

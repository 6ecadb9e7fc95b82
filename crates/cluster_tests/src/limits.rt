use crate::lines::comes_to;
use cl_types::{Text, write_bytes, write_number};
use cluster_objects::Cluster;
use std::alloc::Global;
use std::process::Abort;

// Appends the bytes with the number in place of each `#`, and with the number and ten thousand in place of each `$`: so
// names ascend.
fn write_numbered(rt: &impl Abort, out: &mut Text, bytes: &[u8], number: u32) {
    for byte in bytes {
        let written = match *byte {
            b'#' => write_number(out, u64::from(number)),
            b'$' => write_number(out, u64::from(number) + 10_000),
            _ => write_bytes(out, &[*byte]),
        };
        written.expect(rt, "memory");
    }
}

// Puts objects that differ by their number, from 0 on.
fn puts(rt: &impl Abort, alloc: Global, cluster: &mut Cluster, line: &[u8], count: u32) {
    for number in 0..count {
        let mut text = Text::new(alloc);
        write_numbered(rt, &mut text, line, number);
        assert!(rt;
            comes_to(rt, alloc, cluster, text.as_slice()).as_slice() == b"changed".as_slice()
        );
    }
}

// What the object with this number comes to.
fn one_more(
    rt: &impl Abort,
    alloc: Global,
    cluster: &mut Cluster,
    line: &[u8],
    count: u32,
) -> Text {
    let mut text = Text::new(alloc);
    write_numbered(rt, &mut text, line, count);
    comes_to(rt, alloc, cluster, text.as_slice())
}

// A line whose objects differ by a number, how many of them may come, and what one more comes to.
type Series = (&'static [u8], u32, &'static [u8]);

const NODE: &[u8] = br#"{"kind":"Node","metadata":{"name":"n#"},"spec":{"podCIDR":"10.#.0.0/16"}}"#;

const SERIES: &[Series] = &[
    // Of two refusals the one that stands first in the table.
    (NODE, 64, b"TooMany 64"),
    (
        br#"{"kind":"Node","metadata":{"name":"m#"},"spec":{"podCIDR":"10.3.0.0/16"}}"#,
        0,
        b"CidrOverlap n3",
    ),
    (
        br#"{"kind":"Namespace","metadata":{"name":"s$"}}"#,
        2000,
        b"TooMany 2000",
    ),
    (
        br#"{"kind":"Node","metadata":{"name":"m#"},"spec":{"podCIDR":"10.3.0.0/16"}}"#,
        0,
        b"NodesFixed",
    ),
    (
        br#"{"kind":"Pod","metadata":{"name":"q$"},"status":{"podIP":"10.0.0.1"}}"#,
        1,
        b"AddressInUse default/q10000",
    ),
    (
        br#"{"kind":"Pod","metadata":{"name":"p$"}}"#,
        19999,
        b"TooMany 20000",
    ),
    (
        br#"{"kind":"Pod","metadata":{"name":"r$"},"status":{"podIP":"10.0.0.1"}}"#,
        0,
        b"AddressInUse default/q10000",
    ),
    // With the static tiers there are twenty.
    (
        br#"{"apiVersion":"crd.antrea.io/v1","kind":"Tier","metadata":{"name":"t#"},"spec":{"priority":1#}}"#,
        14,
        b"TooMany 20",
    ),
    (
        br#"{"apiVersion":"crd.antrea.io/v1","kind":"Tier","metadata":{"name":"u#"},"spec":{"priority":50}}"#,
        0,
        b"TierTaken emergency",
    ),
    (
        br#"{"apiVersion":"networking.k8s.io/v1","kind":"NetworkPolicy","metadata":{"name":"k$"}}"#,
        2000,
        b"TooMany 2000",
    ),
    (
        br#"{"apiVersion":"crd.antrea.io/v1","kind":"NetworkPolicy","metadata":{"name":"a$"},"spec":{"priority":1,"appliedTo":[{"podSelector":{}}]}}"#,
        2000,
        b"TooMany 2000",
    ),
    (
        br#"{"apiVersion":"crd.antrea.io/v1","kind":"ClusterNetworkPolicy","metadata":{"name":"c$"},"spec":{"priority":1,"appliedTo":[{"podSelector":{}}]}}"#,
        2000,
        b"TooMany 2000",
    ),
    // 255 addresses of a listed node, and as many as may be of one that isn't.
    (
        br#"{"apiVersion":"crd.antrea.io/v1","kind":"Egress","metadata":{"name":"e$"},"spec":{"egressIP":"172.16.0.#","appliedTo":{"podSelector":{}}},"status":{"egressNode":"n0"}}"#,
        255,
        b"TooManyMarks n0",
    ),
    (
        br#"{"apiVersion":"crd.antrea.io/v1","kind":"Egress","metadata":{"name":"f$"},"spec":{"egressIP":"172.16.1.9","appliedTo":{"podSelector":{}}},"status":{"egressNode":"m#"}}"#,
        1745,
        b"TooMany 2000",
    ),
    (
        br#"{"apiVersion":"crd.antrea.io/v1","kind":"Egress","metadata":{"name":"g#"},"spec":{"egressIP":"172.16.0.255","appliedTo":{"podSelector":{}}},"status":{"egressNode":"n0"}}"#,
        0,
        b"TooMany 2000",
    ),
];

#[test]
fn as_many_objects_as_may_be(rt: HostRuntime) {
    let mut cluster = Cluster::new(rt.alloc()).expect(&rt, "memory");
    for (line, count, outcome) in SERIES {
        puts(&rt, rt.alloc(), &mut cluster, line, *count);
        let more = one_more(&rt, rt.alloc(), &mut cluster, line, *count);
        assert!(rt; more.as_slice() == *outcome);
    }
}

// What stands before, in and behind a list in a line, and what the line comes to once the list has one item more than
// the given number.
type Listed = (&'static [u8], &'static [u8], &'static [u8], &'static [u8]);

const LISTED: &[Listed] = &[
    // The rules of a policy, the peers and the ports of a rule.
    (
        br#"{"apiVersion":"networking.k8s.io/v1","kind":"NetworkPolicy","metadata":{"name":"k"},"spec":{"ingress":["#,
        b"{}",
        b"]}}",
        b"TooMany 100",
    ),
    (
        br#"{"apiVersion":"networking.k8s.io/v1","kind":"NetworkPolicy","metadata":{"name":"k"},"spec":{"ingress":[{"from":["#,
        br#"{"podSelector":{}}"#,
        b"]}]}}",
        b"TooMany 100",
    ),
    (
        br#"{"apiVersion":"networking.k8s.io/v1","kind":"NetworkPolicy","metadata":{"name":"k"},"spec":{"ingress":[{"ports":["#,
        br#"{"port":80}"#,
        b"]}]}}",
        b"TooMany 100",
    ),
    (
        br#"{"apiVersion":"networking.k8s.io/v1","kind":"NetworkPolicy","metadata":{"name":"k"},"spec":{"ingress":[{"ports":["#,
        br#"{"port":"web"}"#,
        b"]}]}}",
        b"TooMany 100",
    ),
    (
        br#"{"apiVersion":"networking.k8s.io/v1","kind":"NetworkPolicy","metadata":{"name":"k"},"spec":{"ingress":[{"from":[{"ipBlock":{"cidr":"10.0.0.0/8","except":["#,
        br#""10.0.0.0/9""#,
        b"]}}]}]}}",
        b"TooMany 100",
    ),
    (
        br#"{"apiVersion":"crd.antrea.io/v1","kind":"ClusterNetworkPolicy","metadata":{"name":"c"},"spec":{"priority":1,"appliedTo":["#,
        br#"{"podSelector":{}}"#,
        b"]}}",
        b"TooMany 100",
    ),
    (
        br#"{"kind":"Pod","metadata":{"name":"p"},"spec":{"containers":[{"ports":["#,
        br#"{"name":"p#","containerPort":1#}"#,
        b"]}]}}",
        b"TooMany 100",
    ),
    // A refusal that stands before it.
    (
        br#"{"apiVersion":"crd.antrea.io/v1","kind":"ClusterNetworkPolicy","metadata":{"name":"d"},"spec":{"priority":1,"tier":"gold","appliedTo":["#,
        br#"{"podSelector":{}}"#,
        b"]}}",
        b"NoSuchTier gold",
    ),
];

// A line whose list has so many items.
fn listed(rt: &impl Abort, alloc: Global, listed: &Listed, count: u32) -> Text {
    let (front, item, back, _) = *listed;
    let mut text = Text::of(Vec::from_slice(alloc, front).expect(rt, "memory"));
    for number in 0..count {
        if number > 0 {
            write_bytes(&mut text, b",").expect(rt, "memory");
        }
        write_numbered(rt, &mut text, item, number);
    }
    write_bytes(&mut text, back).expect(rt, "memory");
    text
}

#[test]
fn as_many_items_as_may_be(rt: HostRuntime) {
    let mut cluster = Cluster::new(rt.alloc()).expect(&rt, "memory");
    for row in LISTED {
        let line = listed(&rt, rt.alloc(), row, 101);
        let text = comes_to(&rt, rt.alloc(), &mut cluster, line.as_slice());
        assert!(rt; text.as_slice() == row.3);
    }
    for row in &LISTED[..7] {
        let line = listed(&rt, rt.alloc(), row, 100);
        let text = comes_to(&rt, rt.alloc(), &mut cluster, line.as_slice());
        assert!(rt; text.as_slice() == b"changed".as_slice());
    }
}

// Policies of a hundred rules each.
const RULES: &[Listed] = &[
    (
        br#"{"apiVersion":"networking.k8s.io/v1","kind":"NetworkPolicy","metadata":{"name":"k#"},"spec":{"ingress":["#,
        b"{}",
        b"]}}",
        b"TooMany 16000",
    ),
    (
        br#"{"apiVersion":"crd.antrea.io/v1","kind":"ClusterNetworkPolicy","metadata":{"name":"c#"},"spec":{"priority":1,"appliedTo":[{"podSelector":{}}],"ingress":["#,
        br#"{"action":"Drop"}"#,
        b"]}}",
        b"TooMany 16000",
    ),
];

#[test]
fn as_many_rules_as_may_be(rt: HostRuntime) {
    let mut cluster = Cluster::new(rt.alloc()).expect(&rt, "memory");
    for row in RULES {
        let line = listed(&rt, rt.alloc(), row, 100);
        puts(&rt, rt.alloc(), &mut cluster, line.as_slice(), 160);
        let line = listed(&rt, rt.alloc(), row, 1);
        let more = one_more(&rt, rt.alloc(), &mut cluster, line.as_slice(), 160);
        assert!(rt; more.as_slice() == row.3);
    }
}

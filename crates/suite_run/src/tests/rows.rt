use crate::tests::{NONE, replayed};
use std::alloc::{AllocError, Global};

pub(crate) const N1: &[u8] =
    br#"{"type":"ADDED","object":{"apiVersion":"v1","kind":"Node","metadata":{"name":"n1"},"spec":{"podCIDR":"10.10.1.0/24"}}}"#;

pub(crate) const N2: &[u8] =
    br#"{"type":"ADDED","object":{"apiVersion":"v1","kind":"Node","metadata":{"name":"n2"},"spec":{"podCIDR":"10.10.2.0/24"}}}"#;

const N3: &[u8] =
    br#"{"type":"ADDED","object":{"apiVersion":"v1","kind":"Node","metadata":{"name":"n3"},"spec":{"podCIDR":"10.10.3.0/24"}}}"#;

const N3_IN_N1: &[u8] =
    br#"{"type":"ADDED","object":{"apiVersion":"v1","kind":"Node","metadata":{"name":"n3"},"spec":{"podCIDR":"10.10.1.128/25"}}}"#;

const N3_TOO_SHORT: &[u8] =
    br#"{"apiVersion":"v1","kind":"Node","metadata":{"name":"n3"},"spec":{"podCIDR":"10.0.0.0/7"}}"#;

pub(crate) const WEB: &[u8] =
    br#"{"apiVersion":"v1","kind":"Pod","metadata":{"namespace":"default","name":"web","labels":{"app":"web"}},"spec":{"nodeName":"n1"},"status":{"phase":"Running","podIP":"10.10.1.5"}}"#;

pub(crate) const CLI: &[u8] =
    br#"{"apiVersion":"v1","kind":"Pod","metadata":{"namespace":"default","name":"cli","labels":{"app":"cli"}},"spec":{"nodeName":"n1"},"status":{"phase":"Running","podIP":"10.10.1.6"}}"#;

pub(crate) const DB: &[u8] =
    br#"{"apiVersion":"v1","kind":"Pod","metadata":{"namespace":"default","name":"db","labels":{"app":"db"}},"spec":{"nodeName":"n2"},"status":{"phase":"Running","podIP":"10.10.2.7"}}"#;

const JOB_DONE: &[u8] =
    br#"{"apiVersion":"v1","kind":"Pod","metadata":{"namespace":"default","name":"job"},"spec":{"nodeName":"n1"},"status":{"phase":"Succeeded","podIP":"10.10.1.5"}}"#;

const JOB: &[u8] =
    br#"{"apiVersion":"v1","kind":"Pod","metadata":{"namespace":"default","name":"job"},"spec":{"nodeName":"n1"},"status":{"phase":"Running","podIP":"10.10.1.5"}}"#;

const JOB_ODD_LABEL: &[u8] =
    br#"{"apiVersion":"v1","kind":"Pod","metadata":{"name":"job","labels":{"-":"x"}},"status":{"podIP":"10.10.1.5"}}"#;

pub(crate) const POLICY: &[u8] =
    br#"{"apiVersion":"networking.k8s.io/v1","kind":"NetworkPolicy","metadata":{"namespace":"default","name":"web-in"},"spec":{"podSelector":{"matchLabels":{"app":"web"}},"policyTypes":["Ingress"],"ingress":[{"from":[{"podSelector":{"matchLabels":{"app":"cli"}}}],"ports":[{"protocol":"TCP","port":80}]}]}}"#;

pub(crate) const ASK_80: &[u8] =
    br#"{"type":"X-ASK","view":"policies","node":"n1","direction":"ingress","own":"10.10.1.5","peer":"10.10.1.6","protocol":"tcp","port":80}"#;

pub(crate) const ASK_81: &[u8] =
    br#"{"type":"X-ASK","view":"policies","node":"n1","direction":"ingress","own":"10.10.1.5","peer":"10.10.1.6","protocol":"tcp","port":81}"#;

const ASK_N9: &[u8] =
    br#"{"type":"X-ASK","view":"policies","node":"n9","direction":"ingress","own":"10.10.1.5","peer":"10.10.1.6","protocol":"tcp","port":81}"#;

const ASK_N9_NO_PORT: &[u8] =
    br#"{"type":"X-ASK","view":"policies","node":"n9","direction":"ingress","own":"10.10.1.5","peer":"10.10.1.6","protocol":"tcp"}"#;

// Two nodes and three pods, and what is written of them.
pub(crate) const SITE: &[&[u8]] = &[N1, N2, WEB, CLI, DB];

pub(crate) const SITE_OUT: &[u8] =
    b"1 nodes 1\n2 nodes 2\n3 revision 1\n4 revision 2\n5 revision 3\n";

// The lines of a file, the exit status, and what is written.
pub(crate) type Row = (&'static [&'static [u8]], u8, &'static [u8]);

const ROWS: &[Row] = &[
    // An unreadable line first; one policy and two questions.
    (
        &[b"{", N1, N2, WEB, CLI, DB, POLICY, ASK_80, ASK_81],
        1,
        b"1 refused NotJson\n2 nodes 1\n3 nodes 2\n4 revision 1\n5 revision 2\n6 revision 3\n7 revision 4\n8 controller 4 allow by knp:default/web-in ingress[0]\n9 controller 4 drop by isolation\n",
    ),
    // An unreadable line last.
    (
        &[N1, N2, WEB, CLI, DB, b"{"],
        1,
        b"1 nodes 1\n2 nodes 2\n3 revision 1\n4 revision 2\n5 revision 3\n6 refused NotJson\n",
    ),
    // The second line is cut short.
    (
        &[N1, br#"{"type":"ADDED","obj"#],
        1,
        b"1 nodes 1\n2 refused NotJson\n",
    ),
    // Nodes are fixed once a pod came.
    (
        &[N1, WEB, N1, N3],
        1,
        b"1 nodes 1\n2 revision 1\n3 unchanged\n4 refused NodesFixed\n",
    ),
    // The pod CIDRs of two nodes don't meet.
    (&[N1, N3_IN_N1], 1, b"1 nodes 1\n2 refused CidrOverlap n1\n"),
    // A finished pod holds no address.
    (
        &[N1, JOB_DONE, WEB, JOB],
        1,
        b"1 nodes 1\n2 revision 1\n3 revision 2\n4 refused AddressInUse default/web\n",
    ),
    // Questions before the nodes are fixed, and of a node that isn't listed.
    (
        &[N1, ASK_80, WEB, ASK_N9, b" \t\r", ASK_80],
        1,
        b"1 nodes 1\n2 refused NoNode\n3 revision 1\n4 refused NoNode\n6 controller 1 allow by default\n",
    ),
    // What can't be read is told before all else.
    (
        &[N1, WEB, ASK_N9_NO_PORT, N3_TOO_SHORT, JOB_ODD_LABEL],
        1,
        b"1 nodes 1\n2 revision 1\n3 refused BadControl\n4 refused BadPrefix\n5 refused BadLabel\n",
    ),
    // Nothing is refused.
    (
        &[N1, WEB, POLICY],
        0,
        b"1 nodes 1\n2 revision 1\n3 revision 2\n",
    ),
];

// The lines, with a line feed between two.
pub(crate) fn joined(alloc: Global, lines: &[&[u8]]) -> Result<Vec<u8>, AllocError> {
    let mut bytes = Vec::new(alloc);
    for (place, line) in lines.iter().enumerate() {
        if place > 0 {
            bytes.push(b'\n')?;
        }
        bytes.extend_from_slice(line)?;
    }
    Ok(bytes)
}

#[test]
fn lines_and_their_blocks(rt: HostRuntime) {
    for (lines, status, out) in ROWS {
        let bytes = joined(rt.alloc(), lines).expect(&rt, "memory");
        let ran = replayed(&rt, rt.alloc(), &["replay", "F"], bytes.as_slice(), NONE);
        assert_eq!(rt; ran.status.exit_code(), *status);
        assert_eq!(rt; ran.out.as_slice(), *out);
    }
}

// A thousand opening and a thousand closing brackets.
fn deep_brackets(alloc: Global) -> Result<Vec<u8>, AllocError> {
    let mut bytes = Vec::from_elem(alloc, b'[', 1000)?;
    let closing = Vec::from_elem(alloc, b']', 1000)?;
    bytes.extend_from_slice(closing.as_slice())?;
    Ok(bytes)
}

#[test]
fn brackets_too_deep_to_be_read(rt: HostRuntime) {
    let bytes = deep_brackets(rt.alloc()).expect(&rt, "memory");
    let ran = replayed(&rt, rt.alloc(), &["replay", "F"], bytes.as_slice(), NONE);
    assert_eq!(rt; ran.status.exit_code(), 1);
    assert_eq!(rt; ran.out.as_slice(), b"1 refused NotJson\n".as_slice());
}

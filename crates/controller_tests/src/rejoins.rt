use crate::lines::{controller, cut, line, name, rejoin, snapshot, take};
use crate::messages::shown;
use crate::revisions::{CLIENT, skip, take_lines};
use cl_types::Stream;
use std::rt::HostRuntime;

// A third client, on the first node.
const THIRD: &[u8] =
    br#"{"kind":"Pod","metadata":{"name":"cli3","labels":{"app":"cli"}},"spec":{"nodeName":"n1"},"status":{"podIP":"10.10.1.9"}}"#;

// What belongs on each stream at the sixth revision: the policy concerns the node of the web alone.
const BELONGS: &[(&[u8], Stream, &[u8])] = &[
    (b"n1", Stream::Policies, b"snapshot 6 knp:default/web-in"),
    (
        b"n1",
        Stream::Addresses,
        b"snapshot 6 default/[app in (cli)] 10.10.1.6 10.10.1.9 10.10.2.8",
    ),
    (
        b"n1",
        Stream::Applied,
        b"snapshot 6 default/[app in (web)] 10.10.1.5",
    ),
    (b"n2", Stream::Policies, b"snapshot 6"),
    (b"n2", Stream::Addresses, b"snapshot 6"),
    (b"n2", Stream::Applied, b"snapshot 6"),
];

#[test]
fn cut_streams_begin_again_at_the_last_revision(host: HostRuntime) {
    let rt = &host;
    let alloc = host.alloc();
    let mut c = controller(rt, alloc, 8);
    take_lines(rt, alloc, &mut c);
    for (node, stream, _) in BELONGS {
        assert!(rt; cut(rt, &mut c, &name(rt, alloc, node), *stream));
    }
    line(rt, alloc, &mut c, CLIENT);
    line(rt, alloc, &mut c, THIRD);
    for (node, stream, belongs) in BELONGS {
        skip(rt, alloc, &mut c, node, *stream);
        let node = name(rt, alloc, node);
        assert!(rt; rejoin(rt, &mut c, &node, *stream) == 6);
        let m = take(rt, &mut c, &node, *stream);
        assert!(rt; shown(rt, alloc, m.as_ref()).as_slice() == *belongs);
        let m = snapshot(rt, &c, &node, *stream);
        assert!(rt; shown(rt, alloc, Some(&m)).as_slice() == *belongs);
        assert!(rt; rejoin(rt, &mut c, &node, *stream) == 0);
    }
}

// A pod in each of two namespaces, and a policy of one name for each of them.
const NAMESAKES: &[&[u8]] = &[
    br#"{"kind":"Pod","metadata":{"name":"p","namespace":"a"},"spec":{"nodeName":"n1"},"status":{"podIP":"10.10.1.5"}}"#,
    br#"{"kind":"Pod","metadata":{"name":"p","namespace":"a-b"},"spec":{"nodeName":"n1"},"status":{"podIP":"10.10.1.6"}}"#,
    br#"{"apiVersion":"networking.k8s.io/v1","kind":"NetworkPolicy","metadata":{"name":"x","namespace":"a"},"spec":{"podSelector":{},"policyTypes":["Ingress"]}}"#,
    br#"{"apiVersion":"networking.k8s.io/v1","kind":"NetworkPolicy","metadata":{"name":"x","namespace":"a-b"},"spec":{"podSelector":{},"policyTypes":["Ingress"]}}"#,
];

// `-` is before `/`, so `a-b/x` is before `a/x`.
const IN_ORDER: &[u8] = b"snapshot 4 knp:a-b/x knp:a/x";

#[test]
fn names_ascend_by_their_bytes(host: HostRuntime) {
    let rt = &host;
    let alloc = host.alloc();
    let mut c = controller(rt, alloc, 8);
    for text in NAMESAKES {
        line(rt, alloc, &mut c, text);
    }
    let m = snapshot(rt, &c, &name(rt, alloc, b"n1"), Stream::Policies);
    assert!(rt; shown(rt, alloc, Some(&m)).as_slice() == IN_ORDER);
}

use crate::lines::{controller, line, name, take};
use crate::messages::shown;
use cl_types::Stream;
use ctl_core::{Controller, Outcome};
use std::alloc::Global;
use std::process::Abort;
use std::rt::HostRuntime;
use watch_streams::QueuePort;

// Three pods, and a policy that lets the clients reach the web.
const LINES: &[&[u8]] = &[
    br#"{"kind":"Pod","metadata":{"name":"web","labels":{"app":"web"}},"spec":{"nodeName":"n1"},"status":{"podIP":"10.10.1.5"}}"#,
    br#"{"kind":"Pod","metadata":{"name":"cli","labels":{"app":"cli"}},"spec":{"nodeName":"n1"},"status":{"podIP":"10.10.1.6"}}"#,
    br#"{"kind":"Pod","metadata":{"name":"db","labels":{"app":"db"}},"spec":{"nodeName":"n2"},"status":{"podIP":"10.10.2.7"}}"#,
    br#"{"apiVersion":"networking.k8s.io/v1","kind":"NetworkPolicy","metadata":{"name":"web-in"},"spec":{"podSelector":{"matchLabels":{"app":"web"}},"policyTypes":["Ingress"],"ingress":[{"from":[{"podSelector":{"matchLabels":{"app":"cli"}}}],"ports":[{"protocol":"TCP","port":80}]}]}}"#,
];

/// A second client, on the other node.
pub(crate) const CLIENT: &[u8] =
    br#"{"kind":"Pod","metadata":{"name":"cli2","labels":{"app":"cli"}},"spec":{"nodeName":"n2"},"status":{"podIP":"10.10.2.8"}}"#;

// What each stream of each node is told of it.
const TOLD: &[(&[u8], Stream, &[u8])] = &[
    (b"n1", Stream::Policies, b"delta 5"),
    (
        b"n1",
        Stream::Addresses,
        b"delta 5 patch default/[app in (cli)] +10.10.2.8",
    ),
    (b"n1", Stream::Applied, b"delta 5"),
    (b"n2", Stream::Policies, b"delta 5"),
    (b"n2", Stream::Addresses, b"delta 5"),
    (b"n2", Stream::Applied, b"delta 5"),
];

// The revision of the line's outcome and how many streams it cut, where it made one.
fn revision(outcome: &Outcome) -> (u64, usize) {
    match outcome {
        Outcome::Revision { rev, cut } => (rev.0, cut.as_slice().len()),
        Outcome::Unchanged => (0, 0),
    }
}

/// Three pods and a policy.
pub(crate) fn take_lines(rt: &impl Abort, alloc: Global, c: &mut Controller<QueuePort>) {
    for text in LINES {
        assert!(rt; revision(&line(rt, alloc, c, text)).1 == 0);
    }
}

/// Takes the messages of the first four revisions from a stream.
pub(crate) fn skip(
    rt: &impl Abort,
    alloc: Global,
    c: &mut Controller<QueuePort>,
    node: &[u8],
    s: Stream,
) {
    let node = name(rt, alloc, node);
    for _ in LINES {
        assert!(rt; take(rt, c, &node, s).is_some());
    }
}

#[test]
fn messages_of_one_new_pod(host: HostRuntime) {
    let rt = &host;
    let alloc = host.alloc();
    let mut c = controller(rt, alloc, 8);
    take_lines(rt, alloc, &mut c);
    assert!(rt; revision(&line(rt, alloc, &mut c, CLIENT)) == (5, 0));
    for (node, stream, told) in TOLD {
        skip(rt, alloc, &mut c, node, *stream);
        let m = take(rt, &mut c, &name(rt, alloc, node), *stream);
        assert!(rt; shown(rt, alloc, m.as_ref()).as_slice() == *told);
    }
    assert!(rt; revision(&line(rt, alloc, &mut c, CLIENT)) == (0, 0));
}

#[test]
fn full_streams_are_cut(host: HostRuntime) {
    let rt = &host;
    let alloc = host.alloc();
    let mut c = controller(rt, alloc, 4);
    take_lines(rt, alloc, &mut c);
    assert!(rt; take(rt, &mut c, &name(rt, alloc, b"n1"), Stream::Applied).is_some());
    assert!(rt; revision(&line(rt, alloc, &mut c, CLIENT)) == (5, 5));
}

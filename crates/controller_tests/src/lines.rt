//! A controller that takes lines of input.
use cl_types::{List, Stream, Text};
use cluster_objects::Cluster;
use cluster_types::{Change, Object, RefItem};
use ctl_core::{Controller, Outcome, Trio};
use policy_reader::{LineItem, read_line};
use std::alloc::Global;
use std::process::Abort;
use watch_streams::{Msg, QueuePort};

// Two nodes.
const NODES: &[&[u8]] = &[
    br#"{"type":"ADDED","object":{"kind":"Node","metadata":{"name":"n1"},"spec":{"podCIDR":"10.10.1.0/24"}}}"#,
    br#"{"type":"ADDED","object":{"kind":"Node","metadata":{"name":"n2"},"spec":{"podCIDR":"10.10.2.0/24"}}}"#,
];

// The change of a line with one object that refers to no other.
fn change_of(rt: &impl Abort, alloc: Global, line: &[u8]) -> Change {
    assert!(rt; line.len() <= 1_048_576);
    let Ok(LineItem::Objects(mut items)) = read_line(alloc, line) else {
        panic!(rt; "the line has no object")
    };
    match items.vec_mut().pop() {
        Some(RefItem::Plain(change)) => change,
        Some(RefItem::PutPolicy(put)) => Change::Put(Object::Policy(put.policy)),
        _ => panic!(rt; "the line is no change"),
    }
}

fn port(rt: &impl Abort, alloc: Global, ring: u32) -> QueuePort {
    assert!(rt; (1..=4096).contains(&ring));
    QueuePort::new(alloc, ring).expect(rt, "memory")
}

fn push_trio(rt: &impl Abort, alloc: Global, ports: &mut Vec<Trio<QueuePort>>, ring: u32) {
    let trio = Trio {
        policies: port(rt, alloc, ring),
        addresses: port(rt, alloc, ring),
        applied: port(rt, alloc, ring),
    };
    ports.push(trio).expect(rt, "memory");
}

fn two_nodes(rt: &impl Abort, alloc: Global) -> Cluster {
    let mut cluster = Cluster::new(alloc).expect(rt, "memory");
    for line in NODES {
        assert!(rt; cluster.try_apply(change_of(rt, alloc, line)).is_ok());
    }
    cluster
}

/// A controller of the nodes n1 and n2 whose ports hold so many messages.
pub(crate) fn controller(rt: &impl Abort, alloc: Global, ring: u32) -> Controller<QueuePort> {
    let cluster = two_nodes(rt, alloc);
    let mut ports = Vec::new(alloc);
    push_trio(rt, alloc, &mut ports, ring);
    push_trio(rt, alloc, &mut ports, ring);
    cluster.keeps_its_form();
    assert!(rt; !cluster.fixed());
    assert!(rt; ports.len() == cluster.nodes().len());
    Controller::new(alloc, cluster, List::of(ports)).expect(rt, "memory")
}

/// What a line of one change comes to.
pub(crate) fn line(
    rt: &impl Abort,
    alloc: Global,
    c: &mut Controller<QueuePort>,
    line: &[u8],
) -> Outcome {
    let mut changes = Vec::new(alloc);
    changes
        .push(change_of(rt, alloc, line))
        .expect(rt, "memory");
    assert!(rt; !c.is_spent());
    assert!(rt; c.revision().0 < 4_294_967_296);
    match c.line(List::of(changes)) {
        Ok(outcome) => outcome,
        Err(_) => panic!(rt; "the line is refused"),
    }
}

/// The node's name.
pub(crate) fn name(rt: &impl Abort, alloc: Global, bytes: &[u8]) -> Text {
    Text::of(Vec::from_slice(alloc, bytes).expect(rt, "memory"))
}

/// The oldest message of a stream.
pub(crate) fn take(
    rt: &impl Abort,
    c: &mut Controller<QueuePort>,
    node: &Text,
    stream: Stream,
) -> Option<Msg> {
    assert!(rt; !c.is_spent());
    assert!(rt; c.is_listed(node));
    c.take(node, stream)
}

/// Cuts a live stream.
pub(crate) fn cut(
    rt: &impl Abort,
    c: &mut Controller<QueuePort>,
    node: &Text,
    stream: Stream,
) -> bool {
    assert!(rt; !c.is_spent());
    assert!(rt; c.is_listed(node));
    c.cut(node, stream)
}

/// Begins a stream again, and answers the revision, or 0 where it doesn't begin.
pub(crate) fn rejoin(
    rt: &impl Abort,
    c: &mut Controller<QueuePort>,
    node: &Text,
    stream: Stream,
) -> u64 {
    assert!(rt; !c.is_spent());
    assert!(rt; c.is_listed(node));
    match c.rejoin(node, stream) {
        Ok(rev) => rev.0,
        Err(_) => 0,
    }
}

/// All that belongs on a stream.
pub(crate) fn snapshot(
    rt: &impl Abort,
    c: &Controller<QueuePort>,
    node: &Text,
    stream: Stream,
) -> Msg {
    assert!(rt; !c.is_spent());
    c.snapshot(node, stream).expect(rt, "memory")
}

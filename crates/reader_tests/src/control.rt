//! Control lines.
use crate::read::told;
use cl_types::{Addr, AgentOrder, Copies, Dir, Packet, Proto, Question, Stream, Text};
use policy_reader::{Control, LineItem, read_line};

// Lines with one fault each.
const FAULTY: &[&str] = &[
    // Types.
    r#"{"type":"X-"}"#,
    r#"{"type":"X-PING"}"#,
    // Fields that are missing, of another kind or out of range.
    r#"{"type":"X-TICK"}"#,
    r#"{"type":"X-TICK","node":"n1","count":0}"#,
    r#"{"type":"X-TICK","node":"n1","count":1000001}"#,
    r#"{"type":"X-TICK","node":"n1","count":1.0}"#,
    r#"{"type":"X-DELIVER","count":0}"#,
    r#"{"type":"X-DELIVER","count":4294967296}"#,
    r#"{"type":"X-DELIVER","stream":"flows"}"#,
    r#"{"type":"X-CUT","node":"n1"}"#,
    r#"{"type":"X-REJOIN","stream":"policies"}"#,
    r#"{"type":"X-ATTACH","node":"n1","port":2,"address":"10.10.1.5"}"#,
    r#"{"type":"X-ATTACH","node":"n1","port":65001,"address":"10.10.1.5"}"#,
    r#"{"type":"X-ATTACH","node":"n1","port":3,"address":"10.10.1"}"#,
    r#"{"type":"X-DETACH","node":"n1","port":3,"settled":"yes"}"#,
    r#"{"type":"X-ANTCTL","words":["get",5]}"#,
    r#"{"type":"X-NODE","node":"n1"}"#,
    r#"{"type":"X-NODE","node":"n1","up":1}"#,
    r#"{"type":"X-RESTART","node":null}"#,
    // Questions.
    r#"{"type":"X-ASK","view":"mine","node":"n1","direction":"ingress","own":"10.10.1.5","peer":"10.10.1.6","protocol":"tcp","port":80}"#,
    r#"{"type":"X-ASK","view":"held","node":"n1","direction":"ingress","own":"10.10.1.5","peer":"10.10.1.6","protocol":"TCP","port":80}"#,
    r#"{"type":"X-ASK","view":"held","node":"n1","direction":"ingress","own":"10.10.1.5","peer":"10.10.1.6","protocol":"tcp","port":65536}"#,
    r#"{"type":"X-ASK","view":"held","node":"n1","direction":"ingress","own":"10.10.1.5","peer":"fd00::6","protocol":"tcp","port":80}"#,
    r#"{"type":"X-ASK","view":"held","node":"n1","direction":"ingress","own":"10.10.1.5","peer":"10.10.1.6","protocol":"tcp","port":80,"settled":5}"#,
    // A second address that isn't of IPv6, and one beside an address of IPv6.
    r#"{"type":"X-ATTACH","node":"n1","port":3,"address":"10.10.1.5","address6":"10.10.1.6"}"#,
    r#"{"type":"X-ATTACH","node":"n1","port":3,"address":"fd00::5","address6":"fd00::6"}"#,
    // A tunnel's address at a pod's port, of IPv6, and beside addresses of IPv6.
    r#"{"type":"X-PACKET","node":"n1","port":3,"src":"10.10.1.5","dst":"10.10.1.6","protocol":"tcp","sport":1,"dport":2,"tunnel":"172.16.0.9"}"#,
    r#"{"type":"X-PACKET","node":"n1","port":1,"src":"10.10.1.5","dst":"10.10.1.6","protocol":"tcp","sport":1,"dport":2,"tunnel":"fd00::9"}"#,
    r#"{"type":"X-TRACE","node":"n1","port":1,"src":"fd00::5","dst":"fd00::6","protocol":"tcp","sport":1,"dport":2,"tunnel":"172.16.0.9"}"#,
    r#"{"type":"X-PACKET","node":"n1","port":0,"src":"10.10.1.5","dst":"10.10.1.6","protocol":"tcp","sport":1,"dport":2}"#,
];

#[test]
fn faults_of_control_lines(rt: HostRuntime) {
    for line in FAULTY {
        assert_eq!(rt;
            told(&rt, rt.alloc(), line).as_str(),
            "BadControl",
            "of {line}"
        );
    }
}

const WEB: Addr = Addr::V4(0x0a0a_0105);

const CLI: Addr = Addr::V4(0x0a0a_0106);

const WEB6: Addr = Addr::V6(0xfd00_0000_0000_0000_0000_0000_0000_0005);

// What a line orders, without its texts: of a node whether it is n1, of words their count.
#[derive(Clone, Copy, PartialEq)]
enum Said {
    Deliver(bool, Option<Stream>, Option<u32>),
    Cut(bool, Stream),
    Rejoin(bool, Stream),
    Settle,
    Ask(bool, Asked),
    Antctl(usize, bool),
    Node(bool, bool),
    Restart(bool),
    Order(bool, Ordered, bool),
}

#[derive(Clone, Copy, PartialEq)]
struct Asked(Dir, Addr, Addr, Proto, u16);

#[derive(Clone, Copy, PartialEq)]
struct Sent(u16, Addr, Addr, Proto, u16, u16, Option<Addr>);

#[derive(Clone, Copy, PartialEq)]
enum Ordered {
    Attach(u16, Addr, Option<Addr>),
    Detach(u16),
    Packet(Sent),
    Trace(Sent),
    Tick(u32),
    Ask(Asked),
    Antctl(usize),
}

fn is_n1(node: &Text) -> bool {
    node.as_slice() == b"n1".as_slice()
}

fn question_said(q: &Question) -> Asked {
    Asked(q.dir, q.own, q.peer, q.proto, q.port)
}

fn packet_said(p: &Packet) -> Sent {
    Sent(p.inport, p.src, p.dst, p.proto, p.sport, p.dport, p.tunnel)
}

fn order_said(order: &AgentOrder) -> Ordered {
    match order {
        AgentOrder::Attach {
            port,
            address,
            address6,
        } => Ordered::Attach(*port, *address, *address6),
        AgentOrder::Detach { port } => Ordered::Detach(*port),
        AgentOrder::Packet(packet) => Ordered::Packet(packet_said(packet)),
        AgentOrder::Trace(packet) => Ordered::Trace(packet_said(packet)),
        AgentOrder::Tick { count } => Ordered::Tick(*count),
        AgentOrder::Ask(question) => Ordered::Ask(question_said(question)),
        AgentOrder::Antctl(words) => Ordered::Antctl(words.as_slice().len()),
    }
}

fn controlled(control: &Control) -> Said {
    match control {
        Control::Deliver {
            node,
            stream,
            count,
        } => Said::Deliver(node.as_ref().is_some_and(is_n1), *stream, *count),
        Control::Cut { node, stream } => Said::Cut(is_n1(node), *stream),
        Control::Rejoin { node, stream } => Said::Rejoin(is_n1(node), *stream),
        Control::Settle => Said::Settle,
        Control::Ask { node, question } => Said::Ask(is_n1(node), question_said(question)),
        Control::Antctl { words, settled } => Said::Antctl(words.as_slice().len(), *settled),
        Control::Node { node, up } => Said::Node(is_n1(node), *up),
        Control::Restart { node } => Said::Restart(is_n1(node)),
    }
}

fn line_said(line: &LineItem) -> Option<Said> {
    match line {
        LineItem::Control(control) => Some(controlled(control)),
        LineItem::Order(o) => Some(Said::Order(is_n1(&o.node), order_said(&o.order), o.settled)),
        _ => None,
    }
}

// Lines, and what they say.
const LINES: &[(&str, Said)] = &[
    (r#"{"type":"X-DELIVER"}"#, Said::Deliver(false, None, None)),
    (
        r#"{"type":"X-DELIVER","node":"n1","stream":"applied","count":4294967295}"#,
        Said::Deliver(true, Some(Stream::Applied), Some(u32::MAX)),
    ),
    (
        r#"{"type":"X-CUT","node":"n1","stream":"policies"}"#,
        Said::Cut(true, Stream::Policies),
    ),
    (
        r#"{"type":"X-REJOIN","node":"n2","stream":"addresses"}"#,
        Said::Rejoin(false, Stream::Addresses),
    ),
    (r#"{"type":"X-SETTLE","node":5}"#, Said::Settle),
    (
        r#"{"type":"X-NODE","node":"n1","up":false}"#,
        Said::Node(true, false),
    ),
    (r#"{"type":"X-RESTART","node":"n1"}"#, Said::Restart(true)),
    // Of the policies' own view `settled` isn't read, and of ICMP no port.
    (
        r#"{"type":"X-ASK","view":"policies","node":"n1","direction":"egress","own":"10.10.1.5","peer":"10.10.1.6","protocol":"icmp","port":"x","settled":5}"#,
        Said::Ask(true, Asked(Dir::Egress, WEB, CLI, Proto::Icmp, 0)),
    ),
    (
        r#"{"type":"X-ASK","view":"held","node":"n1","direction":"ingress","own":"10.10.1.5","peer":"10.10.1.6","protocol":"sctp","port":65535}"#,
        Said::Order(
            true,
            Ordered::Ask(Asked(Dir::Ingress, WEB, CLI, Proto::Sctp, 65535)),
            false,
        ),
    ),
    (
        r#"{"type":"X-ATTACH","node":"n1","port":3,"address":"10.10.1.5","address6":"fd00::5","settled":true}"#,
        Said::Order(true, Ordered::Attach(3, WEB, Some(WEB6)), true),
    ),
    (
        r#"{"type":"X-ATTACH","node":"n1","port":65000,"address":"fd00::5","address6":null}"#,
        Said::Order(true, Ordered::Attach(65000, WEB6, None), false),
    ),
    (
        r#"{"type":"X-DETACH","node":"n1","port":4}"#,
        Said::Order(true, Ordered::Detach(4), false),
    ),
    (
        r#"{"type":"X-TICK","node":"n1","count":1000000}"#,
        Said::Order(true, Ordered::Tick(1_000_000), false),
    ),
    (
        r#"{"type":"X-TICK","node":"n1","count":1}"#,
        Said::Order(true, Ordered::Tick(1), false),
    ),
    (
        r#"{"type":"X-PACKET","node":"n1","port":1,"src":"10.10.1.6","dst":"10.10.1.5","protocol":"udp","sport":0,"dport":53,"tunnel":"10.10.1.5"}"#,
        Said::Order(
            true,
            Ordered::Packet(Sent(1, CLI, WEB, Proto::Udp, 0, 53, Some(WEB))),
            false,
        ),
    ),
    (
        r#"{"type":"X-TRACE","node":"n1","port":4,"src":"10.10.1.6","dst":"10.10.1.5","protocol":"tcp","sport":1,"dport":2,"settled":true}"#,
        Said::Order(
            true,
            Ordered::Trace(Sent(4, CLI, WEB, Proto::Tcp, 1, 2, None)),
            true,
        ),
    ),
    (
        r#"{"type":"X-ANTCTL","words":["get","tiers"],"settled":true}"#,
        Said::Antctl(2, true),
    ),
    (
        r#"{"type":"X-ANTCTL","node":"n1","words":[]}"#,
        Said::Order(true, Ordered::Antctl(0), false),
    ),
];

#[test]
fn control_lines_and_their_copies(rt: HostRuntime) {
    for (line, what) in LINES {
        let read = read_line(rt.alloc(), line.as_bytes()).expect(&rt, "a control line");
        let copy = read.copy().expect(&rt, "memory");
        assert!(rt;
            line_said(&read) == Some(*what) && line_said(&copy) == Some(*what),
            "{line}"
        );
    }
}

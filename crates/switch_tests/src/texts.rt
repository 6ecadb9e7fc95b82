//! The texts of flows.
use crate::made::{EGRESS, WEB, WEB6, clauses, flow, port, protocol, text, verdict};
use cl_types::{Action, Addr, Copies, Dir, Prefix, Proto, Text, write_bytes};
use flow_pipeline::{Clause, Does, Match, Table, write_flow, write_label, write_match};
use std::alloc::Global;
use std::process::Abort;

// The flow's line and its label in a trace.
fn check(rt: &impl Abort, alloc: Global, does: Does, line: &[u8], label: &[u8]) {
    let copied = flow(Table::Snat, 210, Match::any(), does)
        .copy()
        .expect(rt, "memory");
    let mut out = Text::new(alloc);
    write_flow(&mut out, &copied).expect(rt, "memory");
    assert_eq!(rt; out.as_slice(), line);
    let mut out = Text::new(alloc);
    write_label(&mut out, &copied).expect(rt, "memory");
    assert_eq!(rt; out.as_slice(), label);
}

// An action with its text in a listing and in a trace.
type Case<'b> = (Does, &'b [u8], &'b [u8]);

fn check_all(rt: &impl Abort, alloc: Global, cases: &[Case]) {
    for (does, action, label) in cases {
        let mut line = text(rt, alloc, b"table=SNAT,priority=210 actions=");
        write_bytes(&mut line, action).expect(rt, "memory");
        let does = does.copy().expect(rt, "memory");
        check(rt, alloc, does, line.as_slice(), label);
    }
}

#[test]
fn plain_actions(rt: HostRuntime) {
    let goto = Does::Goto(Table::ConntrackCommit);
    let cases: [Case; 9] = [
        (Does::Next, b"next", b"next"),
        (goto, b"goto(ConntrackCommit)", b"goto(ConntrackCommit)"),
        (Does::Skip, b"skip", b"skip"),
        (Does::Port(3), b"port(3)", b"port(3)"),
        (Does::Leave, b"leave", b"leave"),
        (Does::Spoof, b"spoof", b"spoof"),
        (Does::NoPort, b"noport", b"noport"),
        (Does::Isolate, b"isolate", b"isolate"),
        (Does::Output, b"output", b"output"),
    ];
    check_all(&rt, rt.alloc(), &cases);
}

#[test]
fn actions_with_names(rt: HostRuntime) {
    let alloc = rt.alloc();
    let address = EGRESS;
    let mark = Does::Mark { mark: 1, address };
    let node = text(&rt, alloc, b"n2");
    let remote = Does::Remote { node, address };
    let tunnel = Does::Tunnel(text(&rt, alloc, b"n2"));
    let two = clauses(
        &rt,
        alloc,
        &[Clause { id: 1, k: 2 }, Clause { id: 12, k: 3 }],
    );
    let cases: [Case; 4] = [
        (tunnel, b"tunnel(n2)", b"tunnel(n2)"),
        (mark, b"mark(1)", b"mark(172.16.0.9)"),
        (remote, b"remote(n2,172.16.0.9)", b"remote(n2,172.16.0.9)"),
        (
            two,
            b"conjunction(1,2/3),conjunction(12,3/3)",
            b"conjunction(1,2/3),conjunction(12,3/3)",
        ),
    ];
    check_all(&rt, alloc, &cases);
}

fn rule(rt: &impl Abort, alloc: Global, action: Action) -> Does {
    verdict(rt, alloc, action, Dir::Ingress, 0)
}

#[test]
fn verdicts(rt: HostRuntime) {
    let alloc = rt.alloc();
    let cases: [Case; 4] = [
        (
            rule(&rt, alloc, Action::Allow),
            b"allow",
            b"allow acnp:stop ingress[0]",
        ),
        (
            rule(&rt, alloc, Action::Drop),
            b"drop",
            b"drop acnp:stop ingress[0]",
        ),
        (
            rule(&rt, alloc, Action::Reject),
            b"reject",
            b"reject acnp:stop ingress[0]",
        ),
        (
            rule(&rt, alloc, Action::Pass),
            b"pass",
            b"pass acnp:stop ingress[0]",
        ),
    ];
    check_all(&rt, alloc, &cases);
}

fn check_match(rt: &impl Abort, alloc: Global, m: &Match, wanted: &[u8]) {
    let mut out = text(rt, alloc, b"> ");
    write_match(&mut out, m).expect(rt, "memory");
    assert_eq!(rt; out.as_slice().strip_prefix(b"> "), Some(wanted));
}

// Every field of IPv4.
fn every_field() -> Match {
    Match {
        in_port: Some(3),
        src: Some(Prefix::of(WEB)),
        dst: Some(Prefix {
            base: Addr::V4(0x0a0a_0000),
            len: 16,
        }),
        tunnel: Some(EGRESS),
        known: true,
        skip: true,
        conj: Some(7),
        ..port(Proto::Tcp, 1000, 0xfff8)
    }
}

// Blocks of IPv6.
fn blocks() -> Match {
    Match {
        src: Some(Prefix {
            base: Addr::V6(0),
            len: 0,
        }),
        dst: Some(Prefix::of(WEB6)),
        ..protocol(Proto::Sctp)
    }
}

#[test]
fn matches(rt: HostRuntime) {
    let cases: [(Match, &[u8]); 6] = [
        (Match::any(), b""),
        (
            every_field(),
            b"in_port=3,known,skip,conj_id=7,nw_src=10.10.1.5,nw_dst=10.10.0.0/16,tun_dst=172.16.0.9,tcp,tp_dst=1000/0xfff8",
        ),
        (blocks(), b"ipv6_src=::/0,ipv6_dst=fd00:10:10:1::5,sctp"),
        // all bits of the port, one bit of it, no bit of it
        (port(Proto::Udp, 53, 0xffff), b"udp,tp_dst=53"),
        (port(Proto::Icmp, 0, 0x8000), b"icmp,tp_dst=0/0x8000"),
        (port(Proto::Icmp, 0, 0), b"icmp"),
    ];
    for (m, wanted) in cases {
        check_match(&rt, rt.alloc(), &m, wanted);
    }
}

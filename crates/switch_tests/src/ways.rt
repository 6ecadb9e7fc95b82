//! The ways of packets through hand-made tables.
use crate::made::{
    CLI, CLI6, DB, EGRESS, WEB, WEB6, destination, flow, known, packet, port, protocol, put_all,
    source, text, verdict,
};
use cl_types::{
    Action, Addr, Dir, Judged, Packet, Proto, Text, write_addr, write_bytes, write_judged,
    write_number,
};
use flow_pipeline::{
    Choice3, Conns, Does, End, Flow, Match, Table, Tables, Way, route, route_seen, walk,
};
use std::alloc::Global;
use std::process::Abort;

const GATEWAY: Addr = Addr::V4(0x0a0a_0101);

const ROUTER: Addr = Addr::V4(0x0a0a_0102);

// No pod has it.
const UNUSED: Addr = Addr::V4(0x0a0a_0163);

// Nothing is kept on the way to it.
const ASTRAY: Addr = Addr::V4(0x0a0a_0301);

const OUT: Addr = Addr::V4(0xcb00_7107);

const BAD: Addr = Addr::V4(0xc633_6407);

const GATEWAY6: Addr = Addr::V6(0xfd00_0010_0010_0001_0000_0000_0000_0001);

const DB6: Addr = Addr::V6(0xfd00_0010_0010_0002_0000_0000_0000_0007);

const OUT6: Addr = Addr::V6(0x2001_0db8_0000_0000_0000_0000_0000_0007);

fn from_port(in_port: u16) -> Match {
    Match {
        in_port: Some(in_port),
        ..Match::any()
    }
}

fn from(in_port: u16, a: Addr) -> Match {
    Match {
        in_port: Some(in_port),
        ..source(a)
    }
}

fn to_port(value: u16) -> Match {
    port(Proto::Tcp, value, 0xffff)
}

fn entry_flows() -> [Flow; 7] {
    let table = Table::SpoofGuard;
    [
        flow(table, 200, from(3, WEB), Does::Next),
        flow(table, 200, from(4, CLI), Does::Next),
        flow(table, 200, from(3, WEB6), Does::Next),
        flow(table, 200, from(4, CLI6), Does::Next),
        flow(table, 200, from_port(1), Does::Next),
        flow(table, 200, from_port(2), Does::Next),
        flow(table, 0, Match::any(), Does::Spoof),
    ]
}

fn state_flows() -> [Flow; 7] {
    let table = Table::ConntrackState;
    [
        flow(table, 200, known(), Does::Skip),
        flow(table, 190, destination(GATEWAY), Does::Skip),
        flow(table, 190, destination(GATEWAY6), Does::Skip),
        flow(table, 190, from(2, GATEWAY), Does::Skip),
        flow(table, 190, from(2, GATEWAY6), Does::Skip),
        flow(table, 180, from_port(1), Does::Goto(Table::L3Forwarding)),
        flow(table, 180, from_port(2), Does::Goto(Table::L3Forwarding)),
    ]
}

fn egress_rule(rt: &impl Abort, alloc: Global, value: u16, action: Action, index: u32) -> Flow {
    let does = verdict(rt, alloc, action, Dir::Egress, index);
    flow(Table::AntreaPolicyEgressRule, 14_000, to_port(value), does)
}

fn egress_flows(rt: &impl Abort, alloc: Global) -> [Flow; 8] {
    let tcp = protocol(Proto::Tcp);
    // leads to this table again
    let allow = verdict(rt, alloc, Action::Allow, Dir::Egress, 4);
    [
        egress_rule(rt, alloc, 81, Action::Drop, 0),
        egress_rule(rt, alloc, 82, Action::Reject, 1),
        egress_rule(rt, alloc, 83, Action::Pass, 2),
        egress_rule(rt, alloc, 84, Action::Allow, 3),
        flow(Table::EgressDefaultRule, 64_001, to_port(83), Does::Isolate),
        flow(Table::EgressDefaultRule, 64_001, to_port(84), Does::Isolate),
        flow(Table::EgressMetric, 100, to_port(87), allow),
        flow(Table::EgressMetric, 0, tcp, Does::Next),
    ]
}

fn to_pod(a: Addr, out_port: u16) -> Flow {
    flow(
        Table::L3Forwarding,
        200,
        destination(a),
        Does::Port(out_port),
    )
}

fn pod_flows() -> [Flow; 7] {
    [
        to_pod(WEB, 3),
        to_pod(CLI, 4),
        to_pod(GATEWAY, 2),
        to_pod(ROUTER, 2),
        to_pod(WEB6, 3),
        to_pod(CLI6, 4),
        to_pod(GATEWAY6, 2),
    ]
}

fn forwarding_flows(rt: &impl Abort, alloc: Global) -> [Flow; 4] {
    let table = Table::L3Forwarding;
    let past = Does::Goto(Table::ConntrackCommit);
    [
        flow(
            table,
            150,
            destination(DB),
            Does::Tunnel(text(rt, alloc, b"n2")),
        ),
        flow(
            table,
            150,
            destination(DB6),
            Does::Tunnel(text(rt, alloc, b"n2")),
        ),
        flow(table, 140, destination(UNUSED), Does::NoPort),
        flow(table, 140, destination(ASTRAY), past),
    ]
}

fn egress_address_flows(rt: &impl Abort, alloc: Global) -> [Flow; 3] {
    let through = Match {
        tunnel: Some(EGRESS),
        ..from_port(1)
    };
    let mark = Does::Mark {
        mark: 1,
        address: EGRESS,
    };
    let remote = Does::Remote {
        node: text(rt, alloc, b"n2"),
        address: EGRESS,
    };
    [
        flow(Table::Snat, 210, through, mark),
        flow(Table::Snat, 200, source(WEB), remote),
        flow(Table::Snat, 0, Match::any(), Does::Leave),
    ]
}

fn ingress_flows(rt: &impl Abort, alloc: Global) -> [Flow; 5] {
    let skip = Match {
        skip: true,
        ..Match::any()
    };
    let past = Does::Goto(Table::ConntrackCommit);
    let drop = verdict(rt, alloc, Action::Drop, Dir::Ingress, 0);
    let allow = verdict(rt, alloc, Action::Allow, Dir::Ingress, 1);
    [
        flow(Table::AntreaPolicyIngressRule, 65_000, skip, past),
        flow(Table::AntreaPolicyIngressRule, 14_000, source(BAD), drop),
        flow(Table::IngressRule, 200, to_port(86), allow),
        flow(
            Table::IngressDefaultRule,
            64_001,
            to_port(85),
            Does::Isolate,
        ),
        flow(
            Table::IngressDefaultRule,
            64_001,
            to_port(86),
            Does::Isolate,
        ),
    ]
}

// Of tables that are passed where nothing else is hit.
fn last_flows() -> [Flow; 11] {
    [
        flow(Table::ConntrackState, 0, Match::any(), Does::Next),
        flow(Table::AntreaPolicyEgressRule, 0, Match::any(), Does::Next),
        flow(Table::EgressRule, 0, Match::any(), Does::Next),
        flow(Table::EgressDefaultRule, 0, Match::any(), Does::Next),
        flow(Table::L3Forwarding, 0, Match::any(), Does::Next),
        flow(Table::AntreaPolicyIngressRule, 0, Match::any(), Does::Next),
        flow(Table::IngressRule, 0, Match::any(), Does::Next),
        flow(Table::IngressDefaultRule, 0, Match::any(), Does::Next),
        flow(Table::IngressMetric, 0, Match::any(), Does::Next),
        flow(Table::ConntrackCommit, 0, Match::any(), Does::Next),
        flow(Table::Output, 0, Match::any(), Does::Output),
    ]
}

fn tables(rt: &impl Abort, alloc: Global) -> Tables {
    let mut tables = Tables::new(alloc).expect(rt, "memory");
    put_all(rt, alloc, &mut tables, &entry_flows());
    put_all(rt, alloc, &mut tables, &state_flows());
    put_all(rt, alloc, &mut tables, &egress_flows(rt, alloc));
    put_all(rt, alloc, &mut tables, &pod_flows());
    put_all(rt, alloc, &mut tables, &forwarding_flows(rt, alloc));
    put_all(rt, alloc, &mut tables, &egress_address_flows(rt, alloc));
    put_all(rt, alloc, &mut tables, &ingress_flows(rt, alloc));
    put_all(rt, alloc, &mut tables, &last_flows());
    tables
}

fn tell_side(rt: &impl Abort, out: &mut Text, side: &Option<Judged>) {
    match side {
        Some(judged) => write_judged(out, judged).expect(rt, "memory"),
        None => write_bytes(out, b"-").expect(rt, "memory"),
    }
}

fn tell_choice(rt: &impl Abort, out: &mut Text, choice: &Choice3) {
    match choice {
        Choice3::Plain => write_bytes(out, b"leaves").expect(rt, "memory"),
        Choice3::Here(a) => {
            write_bytes(out, b"leaves by ").expect(rt, "memory");
            write_addr(out, *a).expect(rt, "memory");
        }
        Choice3::There { node, address } => {
            write_bytes(out, b"leaves to ").expect(rt, "memory");
            write_bytes(out, node.as_slice()).expect(rt, "memory");
            write_bytes(out, b" for ").expect(rt, "memory");
            write_addr(out, *address).expect(rt, "memory");
        }
    }
}

fn tell_end(rt: &impl Abort, out: &mut Text, end: &End) {
    match end {
        End::Spoof => write_bytes(out, b"spoof").expect(rt, "memory"),
        End::NoPort => write_bytes(out, b"noport").expect(rt, "memory"),
        End::Stopped(Dir::Ingress) => write_bytes(out, b"ingress").expect(rt, "memory"),
        End::Stopped(Dir::Egress) => write_bytes(out, b"egress").expect(rt, "memory"),
        End::Delivered(port) => {
            write_bytes(out, b"delivered ").expect(rt, "memory");
            write_number(out, (*port).into()).expect(rt, "memory");
        }
        End::Tunnelled(node) => {
            write_bytes(out, b"tunnelled ").expect(rt, "memory");
            write_bytes(out, node.as_slice()).expect(rt, "memory");
        }
        End::Leaves(choice) => tell_choice(rt, out, choice),
    }
}

// What the sides say, joined by `, `, and after `: ` the end.
fn told(rt: &impl Abort, alloc: Global, way: &Way) -> Text {
    let mut out = Text::new(alloc);
    tell_side(rt, &mut out, &way.egress);
    write_bytes(&mut out, b", ").expect(rt, "memory");
    tell_side(rt, &mut out, &way.ingress);
    write_bytes(&mut out, b": ").expect(rt, "memory");
    tell_end(rt, &mut out, &way.end);
    out
}

fn check_way(rt: &impl Abort, alloc: Global, way: &Way, wanted: &[u8]) {
    let shown = told(rt, alloc, way);
    assert_eq!(rt; shown.as_slice(), wanted);
}

fn check(rt: &impl Abort, alloc: Global, t: &Tables, k: &Conns, p: &Packet, wanted: &[u8]) {
    check_way(rt, alloc, &route(t, k, p), wanted);
    let (way, visits) = route_seen(alloc, t, k, p).expect(rt, "memory");
    check_way(rt, alloc, &way, wanted);
    assert!(rt;
        visits
            .as_slice()
            .first()
            .is_some_and(|v| v.table == Table::SpoofGuard)
    );
}

#[test]
fn ways_through_tables(rt: HostRuntime) {
    let alloc = rt.alloc();
    let t = tables(&rt, alloc);
    let k = Conns::new(alloc).expect(&rt, "memory");
    let through = Packet {
        tunnel: Some(EGRESS),
        ..packet(1, DB, OUT, 443)
    };
    let ping = Packet {
        proto: Proto::Icmp,
        ..packet(4, CLI, WEB, 0)
    };
    let cases: [(Packet, &[u8]); 28] = [
        (
            packet(4, CLI, WEB, 80),
            b"allow by default, allow by default: delivered 3",
        ),
        (
            packet(4, CLI6, WEB6, 80),
            b"allow by default, allow by default: delivered 3",
        ),
        (packet(4, WEB, CLI, 80), b"-, -: spoof"),
        (packet(4, WEB6, CLI6, 80), b"-, -: spoof"),
        // between a pod and the gateway there is no policy
        (packet(4, CLI, GATEWAY, 81), b"-, -: delivered 2"),
        (packet(4, CLI6, GATEWAY6, 81), b"-, -: delivered 2"),
        (packet(2, GATEWAY, WEB, 85), b"-, -: delivered 3"),
        (packet(2, GATEWAY6, WEB6, 85), b"-, -: delivered 3"),
        // from another node
        (packet(1, DB, WEB, 80), b"-, allow by default: delivered 3"),
        (
            packet(1, BAD, WEB, 80),
            b"-, drop by acnp:stop ingress[0]: ingress",
        ),
        // to another node, to no one, out of the cluster
        (packet(4, CLI, DB, 80), b"allow by default, -: tunnelled n2"),
        (
            packet(4, CLI6, DB6, 80),
            b"allow by default, -: tunnelled n2",
        ),
        (packet(4, CLI, UNUSED, 80), b"allow by default, -: noport"),
        (packet(4, CLI, OUT, 443), b"allow by default, -: leaves"),
        (packet(4, CLI6, OUT6, 443), b"allow by default, -: leaves"),
        (
            packet(3, WEB, OUT, 443),
            b"allow by default, -: leaves to n2 for 172.16.0.9",
        ),
        (packet(1, DB, OUT, 443), b"-, -: leaves"),
        (through, b"-, -: leaves by 172.16.0.9"),
        // rules
        (
            packet(4, CLI, WEB, 81),
            b"drop by acnp:stop egress[0], -: egress",
        ),
        (
            packet(4, CLI, WEB, 82),
            b"reject by acnp:stop egress[1], -: egress",
        ),
        (packet(4, CLI, WEB, 83), b"drop by isolation, -: egress"),
        (
            packet(4, CLI, WEB, 84),
            b"allow by acnp:stop egress[3], allow by default: delivered 3",
        ),
        (
            packet(4, CLI, WEB, 85),
            b"allow by default, drop by isolation: ingress",
        ),
        (
            packet(4, CLI, WEB, 86),
            b"allow by default, allow by acnp:stop ingress[1]: delivered 3",
        ),
        // to the gateway's port without policy on the Ingress side
        (
            packet(4, CLI, ROUTER, 85),
            b"allow by default, -: delivered 2",
        ),
        // nothing is kept; nothing is hit; a hit leads to no later table
        (packet(4, CLI, ASTRAY, 80), b"allow by default, -: noport"),
        (ping, b"allow by default, -: noport"),
        (
            packet(4, CLI, WEB, 87),
            b"allow by acnp:stop egress[4], -: noport",
        ),
    ];
    for (p, wanted) in cases {
        check(&rt, alloc, &t, &k, &p, wanted);
    }
}

#[test]
fn a_packet_let_through_is_known(rt: HostRuntime) {
    let alloc = rt.alloc();
    let t = tables(&rt, alloc);
    let mut k = Conns::new(alloc).expect(&rt, "memory");
    let request = packet(4, CLI, WEB, 80);
    let reply = Packet {
        sport: 80,
        ..packet(3, WEB, CLI, 40_000)
    };
    // dropped packets are not known afterwards
    let way = walk(&t, &mut k, &packet(4, CLI, WEB, 81));
    check_way(&rt, alloc, &way, b"drop by acnp:stop egress[0], -: egress");
    assert_eq!(rt; k.list().len(), 0);
    check(
        &rt,
        alloc,
        &t,
        &k,
        &reply,
        b"allow by default, allow by default: delivered 4",
    );
    let way = walk(&t, &mut k, &request);
    check_way(
        &rt,
        alloc,
        &way,
        b"allow by default, allow by default: delivered 3",
    );
    check(&rt, alloc, &t, &k, &request, b"-, -: delivered 3");
    check(&rt, alloc, &t, &k, &reply, b"-, -: delivered 4");
    assert_eq!(rt; k.list().len(), 1);
}

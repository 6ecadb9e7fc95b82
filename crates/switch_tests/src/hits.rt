//! Which flow of a table a packet hits.
use crate::made::{
    CLI, DB, WEB, WEB6, clauses, conj, destination, flow, known, packet, port, put_all, source,
    verdict,
};
use cl_types::{Action, Addr, Copies, Dir, List, Packet, Prefix, Proto, Text};
use flow_pipeline::{Bundle, Clause, Does, Flow, Match, Table, Tables, write_flow};
use std::alloc::Global;
use std::process::Abort;

// Checks the line of the flow that each packet hits, and nothing where it hits none.
fn check(rt: &impl Abort, alloc: Global, tables: &Tables, cases: &[(Packet, &[u8])]) {
    for (p, wanted) in cases {
        let mut line = Text::new(alloc);
        if let Some(flow) = tables.lookup(Table::IngressRule, p, false, false) {
            write_flow(&mut line, flow).expect(rt, "memory");
        }
        assert_eq!(rt; line.as_slice(), *wanted);
    }
}

fn rule(priority: u16, fields: Match, does: Does) -> Flow {
    flow(Table::IngressRule, priority, fields, does)
}

fn allow(rt: &impl Abort, alloc: Global, id: u32, index: u32) -> Flow {
    let does = verdict(rt, alloc, Action::Allow, Dir::Ingress, index);
    rule(200, conj(id), does)
}

fn dimension(rt: &impl Abort, alloc: Global, fields: Match, given: &[Clause]) -> Flow {
    rule(200, fields, clauses(rt, alloc, given))
}

fn of(id: u32, k: u8) -> Clause {
    Clause { id, k }
}

// Two rules that share their pods, from different peers and to different ports.
fn two_rules(rt: &impl Abort, alloc: Global) -> [Flow; 8] {
    [
        rule(0, Match::any(), Does::Next),
        allow(rt, alloc, 1, 1),
        allow(rt, alloc, 2, 0),
        dimension(rt, alloc, destination(WEB), &[of(1, 1), of(2, 1)]),
        dimension(rt, alloc, source(CLI), &[of(1, 2)]),
        dimension(rt, alloc, source(DB), &[of(2, 2)]),
        dimension(rt, alloc, port(Proto::Tcp, 80, 0xffff), &[of(1, 3)]),
        dimension(rt, alloc, port(Proto::Tcp, 81, 0xffff), &[of(2, 3)]),
    ]
}

// The second peer is one of both rules, and two ports are of both.
fn shared(rt: &impl Abort, alloc: Global) -> [Flow; 2] {
    [
        dimension(rt, alloc, source(DB), &[of(1, 2), of(2, 2)]),
        dimension(
            rt,
            alloc,
            port(Proto::Tcp, 80, 0xfffe),
            &[of(1, 3), of(2, 3)],
        ),
    ]
}

const LAST: &[u8] = b"table=IngressRule,priority=0 actions=next";

const FIRST_ID: &[u8] = b"table=IngressRule,priority=200,conj_id=1 actions=allow";

const SECOND_ID: &[u8] = b"table=IngressRule,priority=200,conj_id=2 actions=allow";

#[test]
fn conjunctions(rt: HostRuntime) {
    let alloc = rt.alloc();
    let mut tables = Tables::new(alloc).expect(&rt, "memory");
    put_all(&rt, alloc, &mut tables, &two_rules(&rt, alloc));
    let cases: [(Packet, &[u8]); 3] = [
        // the three dimensions come from different ids
        (packet(3, CLI, WEB, 81), LAST),
        (packet(3, DB, WEB, 81), SECOND_ID),
        (packet(3, CLI, WEB, 80), FIRST_ID),
    ];
    check(&rt, alloc, &tables, &cases);
    put_all(&rt, alloc, &mut tables, &shared(&rt, alloc));
    let cases: [(Packet, &[u8]); 2] = [
        // both ids are complete, and the rule of id 2 is first in the rule order
        (packet(3, DB, WEB, 80), SECOND_ID),
        (packet(3, DB, CLI, 80), LAST),
    ];
    check(&rt, alloc, &tables, &cases);
}

// The conj flow's other fields must match too.
#[test]
fn other_fields_of_conj_flows(rt: HostRuntime) {
    let alloc = rt.alloc();
    let mut tables = Tables::new(alloc).expect(&rt, "memory");
    put_all(&rt, alloc, &mut tables, &two_rules(&rt, alloc));
    let fields = Match {
        conj: Some(1),
        ..source(DB)
    };
    let does = verdict(&rt, alloc, Action::Drop, Dir::Ingress, 0);
    put_all(&rt, alloc, &mut tables, &[rule(200, fields, does)]);
    let copied = tables.copy().expect(&rt, "memory");
    assert_eq!(rt; copied.flows().as_slice().len(), 9);
    check(&rt, alloc, &copied, &[(packet(3, CLI, WEB, 80), FIRST_ID)]);
}

fn plain(rt: &impl Abort, alloc: Global) -> Tables {
    let all = Match {
        src: Some(Prefix {
            base: Addr::V4(0),
            len: 0,
        }),
        ..Match::any()
    };
    let half = Match {
        dst: Some(Prefix {
            base: Addr::V6(0xfd00_0010_0010_0001_0000_0000_0000_0000),
            len: 64,
        }),
        ..Match::any()
    };
    let flows = [
        rule(100, all, Does::Leave),
        rule(100, half, Does::NoPort),
        rule(150, port(Proto::Tcp, 0x1000, 0xf000), Does::Spoof),
        rule(150, destination(WEB), Does::Isolate),
        rule(150, known(), Does::Skip),
    ];
    let mut tables = Tables::new(alloc).expect(rt, "memory");
    put_all(rt, alloc, &mut tables, &flows);
    tables
}

// The first plain flow of the greatest priority, in both families.
#[test]
fn plain_flows(rt: HostRuntime) {
    let alloc = rt.alloc();
    let cases: [(Packet, &[u8]); 5] = [
        // a prefix of length 0 matches its family
        (
            packet(3, CLI, DB, 80),
            b"table=IngressRule,priority=100,nw_src=0.0.0.0/0 actions=leave",
        ),
        (
            packet(3, WEB6, WEB6, 80),
            b"table=IngressRule,priority=100,ipv6_dst=fd00:10:10:1::/64 actions=noport",
        ),
        // a port in the bits of the mask
        (
            packet(3, CLI, DB, 0x1fff),
            b"table=IngressRule,priority=150,tcp,tp_dst=4096/0xf000 actions=spoof",
        ),
        (
            packet(3, CLI, DB, 0x2000),
            b"table=IngressRule,priority=100,nw_src=0.0.0.0/0 actions=leave",
        ),
        // the first of two that match
        (
            packet(3, CLI, WEB, 0x1000),
            b"table=IngressRule,priority=150,nw_dst=10.10.1.5 actions=isolate",
        ),
    ];
    check(&rt, alloc, &plain(&rt, alloc), &cases);
    let none = Tables::new(alloc).expect(&rt, "memory");
    check(&rt, alloc, &none, &[(packet(3, CLI, WEB, 80), b"")]);
}

#[test]
fn flows_of_known_connections(rt: HostRuntime) {
    let alloc = rt.alloc();
    let tables = plain(&rt, alloc);
    let p = packet(3, CLI, DB, 80);
    let hit = tables.lookup(Table::IngressRule, &p, true, false);
    assert!(rt; hit.is_some_and(|flow| flow.priority == 150));
    let none = tables.lookup(Table::EgressRule, &p, true, true);
    assert!(rt; none.is_none());
}

fn listed(rt: &impl Abort, alloc: Global, fields: Match, does: Does) -> List<Flow> {
    let mut flows = Vec::new(alloc);
    flows.push(rule(200, fields, does)).expect(rt, "memory");
    List::of(flows)
}

fn write_listed(rt: &impl Abort, lines: &mut Text, flows: &List<Flow>) {
    for flow in flows.as_slice() {
        write_flow(lines, flow).expect(rt, "memory");
    }
}

// A copy of a bundle has a flow of each kind of change.
#[test]
fn copies_of_bundles(rt: HostRuntime) {
    let alloc = rt.alloc();
    let bundle = Bundle {
        removed: listed(&rt, alloc, source(CLI), Does::Next),
        changed: listed(&rt, alloc, source(DB), Does::Isolate),
        added: listed(&rt, alloc, source(WEB), Does::Goto(Table::Output)),
    };
    let copied = bundle.copy().expect(&rt, "memory");
    let mut lines = Text::new(alloc);
    write_listed(&rt, &mut lines, &copied.removed);
    write_listed(&rt, &mut lines, &copied.changed);
    write_listed(&rt, &mut lines, &copied.added);
    assert_eq!(rt;
        lines.as_slice(),
        b"table=IngressRule,priority=200,nw_src=10.10.1.6 actions=nexttable=IngressRule,priority=200,nw_src=10.10.2.7 actions=isolatetable=IngressRule,priority=200,nw_src=10.10.1.5 actions=goto(Output)".as_slice()
    );
}

//! What the tests make flows and packets of.
ghost use Rattle.std.specs.Prelude.{All};
ghost use Rattle.flow_entries.specs.Forward.{GoesForward};

use cl_types::{
    Action, Addr, Copies, Dir, List, Masked, Packet, PolicyKey, PolicyKind, Prefix, Proto, RuleKey,
    Text,
};
use flow_pipeline::{Bundle, Clause, Does, Flow, Match, Table, Tables};
use std::alloc::Global;
use std::process::Abort;

pub(crate) const WEB: Addr = Addr::V4(0x0a0a_0105);

pub(crate) const CLI: Addr = Addr::V4(0x0a0a_0106);

pub(crate) const DB: Addr = Addr::V4(0x0a0a_0207);

pub(crate) const WEB6: Addr = Addr::V6(0xfd00_0010_0010_0001_0000_0000_0000_0005);

pub(crate) const CLI6: Addr = Addr::V6(0xfd00_0010_0010_0001_0000_0000_0000_0006);

/// An address of an Egress, and of a tunnel.
pub(crate) const EGRESS: Addr = Addr::V4(0xac10_0009);

// ---- packets

pub(crate) fn packet(inport: u16, src: Addr, dst: Addr, dport: u16) -> Packet {
    Packet {
        inport,
        src,
        dst,
        proto: Proto::Tcp,
        sport: 40_000,
        dport,
        tunnel: None,
    }
}

// ---- matches

pub(crate) fn source(a: Addr) -> Match {
    Match {
        src: Some(Prefix::of(a)),
        ..Match::any()
    }
}

pub(crate) fn destination(a: Addr) -> Match {
    Match {
        dst: Some(Prefix::of(a)),
        ..Match::any()
    }
}

pub(crate) fn conj(id: u32) -> Match {
    Match {
        conj: Some(id),
        ..Match::any()
    }
}

pub(crate) fn known() -> Match {
    Match {
        known: true,
        ..Match::any()
    }
}

pub(crate) fn protocol(proto: Proto) -> Match {
    Match {
        proto: Some(proto),
        ..Match::any()
    }
}

pub(crate) fn port(proto: Proto, value: u16, mask: u16) -> Match {
    protocol(proto).with_port(Masked { value, mask })
}

// ---- actions and flows

pub(crate) fn text(rt: &impl Abort, alloc: Global, bytes: &[u8]) -> Text {
    Text::of(Vec::from_slice(alloc, bytes).expect(rt, "memory"))
}

/// The verdict of the cluster policy `stop`'s rule of this index.
pub(crate) fn verdict(
    rt: &impl Abort,
    alloc: Global,
    action: Action,
    dir: Dir,
    index: u32,
) -> Does {
    let name = Vec::from_slice(alloc, b"stop").expect(rt, "memory");
    assert!(rt; !name.as_slice().contains(&b'/'));
    Does::Verdict {
        action,
        rule: RuleKey {
            tier: 50,
            priority: 5,
            policy: PolicyKey {
                kind: PolicyKind::Cluster,
                namespace: Text::new(alloc),
                name: Text::of(name),
            },
            dir,
            index,
        },
    }
}

pub(crate) fn clauses(rt: &impl Abort, alloc: Global, given: &[Clause]) -> Does {
    Does::Clauses(List::of(Vec::from_slice(alloc, given).expect(rt, "memory")))
}

pub(crate) fn flow(table: Table, priority: u16, fields: Match, does: Does) -> Flow {
    Flow {
        table,
        priority,
        fields,
        does,
    }
}

fn one(rt: &impl Abort, alloc: Global, flow: Flow) -> List<Flow>
    requires { GoesForward flow }
    ensures { All GoesForward result }
{
    let mut flows = Vec::new(alloc);
    flows.push(flow).expect(rt, "memory");
    List::of(flows)
}

fn put(rt: &impl Abort, alloc: Global, tables: &mut Tables, flow: Flow) {
    assert!(rt; flow.goes_forward());
    let bundle = Bundle {
        removed: List::new(alloc),
        changed: List::new(alloc),
        added: one(rt, alloc, flow),
    };
    tables.apply(&bundle).expect(rt, "memory");
}

/// Adds the flows, each by a bundle of its own.
pub(crate) fn put_all(rt: &impl Abort, alloc: Global, tables: &mut Tables, flows: &[Flow]) {
    for flow in flows {
        put(rt, alloc, tables, flow.copy().expect(rt, "memory"));
    }
}

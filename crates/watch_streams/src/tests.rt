ghost use Rattle.std.specs.Prelude.{◌≡◌, [], ◌∷◌};
ghost use Rattle.cl_types.specs.PolicyName.{HasNoSlash};

use crate::{
    Changes, HeldMember, Msg, NetEgress, NetPeers, NetPolicy, NetRule, Objects, Port, QueuePort,
    StreamChange, StreamName, StreamObject,
};
use cl_types::{
    Action, Addr, Copies, Dir, List, NamedPort, PolicyKey, PolicyKind, Proto, Rev, RuleKey, Same,
    Text,
};
use label_select::{GroupKey, Scope, canon, is_namespace_name};
use std::alloc::Global;
use std::process::Abort;

fn text(rt: &impl Abort, alloc: Global, bytes: &[u8]) -> Text
    ensures { result ≡ bytes.now }
{
    Text::of(Vec::from_slice(alloc, bytes).expect(rt, "memory"))
}

fn one<T: Drop>(rt: &impl Abort, alloc: Global, item: T) -> List<T>
    ensures { result ≡ item ∷ [] }
{
    let mut items = Vec::with_capacity(alloc, 1).expect(rt, "memory");
    items.push(item).expect(rt, "memory");
    List::of(items)
}

// All pods of the namespace `default`.
fn group(rt: &impl Abort, alloc: Global) -> GroupKey {
    let name = text(rt, alloc, b"default");
    assert!(rt; is_namespace_name(name.as_slice()));
    GroupKey {
        scope: Scope::Namespace(name),
        pods: canon(alloc, List::new(alloc)).expect(rt, "memory"),
    }
}

fn key(rt: &impl Abort, alloc: Global, name: Text) -> PolicyKey
    requires { HasNoSlash name }
    ensures kind { result.kind ≡ PolicyKind.Cluster }
{
    PolicyKey {
        kind: PolicyKind::Cluster,
        namespace: Text::new(alloc),
        name,
    }
}

fn rule(rt: &impl Abort, alloc: Global, policy: &PolicyKey) -> NetRule
    ensures policy { result.key.policy ≡ policy.now }
    ensures tier { result.key.tier ≡ 250 }
{
    NetRule {
        key: RuleKey {
            tier: 250,
            priority: 1,
            policy: policy.copy().expect(rt, "memory"),
            dir: Dir::Ingress,
            index: 0,
        },
        action: Action::Drop,
        peers: Some(NetPeers {
            groups: one(rt, alloc, group(rt, alloc)),
            blocks: List::new(alloc),
        }),
        services: None,
        named: List::new(alloc),
    }
}

fn policy(rt: &impl Abort, alloc: Global) -> NetPolicy {
    let key = key(rt, alloc, text(rt, alloc, b"stop"));
    let rules = one(rt, alloc, rule(rt, alloc, &key));
    NetPolicy {
        key,
        applied: one(rt, alloc, group(rt, alloc)),
        isolates_in: false,
        isolates_out: false,
        rules,
    }
}

fn egress(rt: &impl Abort, alloc: Global) -> NetEgress {
    NetEgress {
        name: text(rt, alloc, b"out"),
        address: Addr::V4(0x0a0a_0a0a),
        node: text(rt, alloc, b"n1"),
        applied: group(rt, alloc),
    }
}

// The address of `web`, whose pod names its port 8080.
fn members(rt: &impl Abort, alloc: Global) -> List<HeldMember> {
    let port = NamedPort {
        name: text(rt, alloc, b"http"),
        proto: Proto::Tcp,
        port: 8080,
    };
    let member = HeldMember {
        address: Addr::V4(0x0a0a_0105),
        ports: one(rt, alloc, port),
    };
    one(rt, alloc, member)
}

fn group_object(rt: &impl Abort, alloc: Global) -> StreamObject {
    StreamObject::Group {
        group: group(rt, alloc),
        members: members(rt, alloc),
    }
}

fn is_snapshot_of(message: &Msg, rev: u64, object: &StreamObject) -> bool {
    match message {
        Msg::Snapshot(at, objects) => {
            at.0 == rev && objects.as_slice().iter().all(|held| held.same(object))
        }
        Msg::Delta(_, _) => false,
    }
}

// The copy of a snapshot of the object alone, at revision 7, is one.
fn is_copied(rt: &impl Abort, alloc: Global, object: StreamObject) -> bool {
    let wanted = object.copy().expect(rt, "memory");
    let message = Msg::Snapshot(Rev(7), Objects::of(one(rt, alloc, object)));
    is_snapshot_of(&message.copy().expect(rt, "memory"), 7, &wanted)
}

#[test]
fn copies_of_snapshots(rt: HostRuntime) {
    assert!(rt;
        is_copied(
            &rt,
            rt.alloc(),
            StreamObject::Policy(policy(&rt, rt.alloc()))
        )
    );
    assert!(rt;
        is_copied(
            &rt,
            rt.alloc(),
            StreamObject::Egress(egress(&rt, rt.alloc()))
        )
    );
    assert!(rt; is_copied(&rt, rt.alloc(), group_object(&rt, rt.alloc())));
}

// The copy of a delta of the change alone.
fn copied(rt: &impl Abort, alloc: Global, change: StreamChange) -> Msg {
    let message = Msg::Delta(Rev(8), Changes::of(one(rt, alloc, change)));
    message.copy().expect(rt, "memory")
}

fn change_of(message: &Msg) -> Option<&StreamChange> {
    match message {
        Msg::Delta(Rev(8), changes) => changes.as_slice().first(),
        _ => None,
    }
}

#[test]
fn copies_of_deltas(rt: HostRuntime) {
    let patch = StreamChange::Patch {
        group: group(&rt, rt.alloc()),
        added: members(&rt, rt.alloc()),
        removed: List::new(rt.alloc()),
    };
    match change_of(&copied(&rt, rt.alloc(), patch)).expect(&rt, "a change") {
        StreamChange::Patch { added, removed, .. } => {
            assert!(rt; added.same(&members(&rt, rt.alloc())) && removed.as_slice().is_empty())
        }
        _ => assert!(rt; false),
    }
    let removal = StreamChange::Remove(StreamName::Egress(text(&rt, rt.alloc(), b"out")));
    match change_of(&copied(&rt, rt.alloc(), removal)).expect(&rt, "a change") {
        StreamChange::Remove(StreamName::Egress(name)) => {
            assert_eq!(rt; name.as_slice(), b"out".as_slice())
        }
        _ => assert!(rt; false),
    }
}

fn nothing_new(alloc: Global, rev: u64) -> Msg {
    Msg::Delta(Rev(rev), Changes::of(List::new(alloc)))
}

fn rev_of(message: &Msg) -> u64 {
    match message {
        Msg::Delta(rev, _) => rev.0,
        Msg::Snapshot(rev, _) => rev.0,
    }
}

#[test]
fn a_full_port_hands_the_message_back(rt: HostRuntime) {
    let mut port = QueuePort::new(rt.alloc(), 2).expect(&rt, "memory");
    assert!(rt; port.offer(nothing_new(rt.alloc(), 1)).is_ok());
    assert!(rt; port.offer(nothing_new(rt.alloc(), 2)).is_ok());
    let back = port
        .offer(nothing_new(rt.alloc(), 3))
        .expect_err(&rt, "a full port");
    assert_eq!(rt; rev_of(&back), 3);
    let first = port.take().expect(&rt, "a message");
    assert_eq!(rt; rev_of(&first), 1);
    assert!(rt; port.offer(back).is_ok());
    let second = port.take().expect(&rt, "a message");
    assert_eq!(rt; rev_of(&second), 2);
    let third = port.take().expect(&rt, "a message");
    assert_eq!(rt; rev_of(&third), 3);
    assert!(rt; port.take().is_none());
}

ghost use Rattle.std.specs.Prelude.{◌≡◌, [], ◌∷◌};
ghost use Rattle.cl_types.specs.PolicyName.{HasNoSlash};

use crate::Held;
use cl_types::{
    Action, Addr, Copies, Dir, List, PolicyKey, PolicyKind, Proto, Question, Rev, RuleKey, Stream,
    Text, Verdict,
};
use label_select::{GroupKey, Scope, canon, is_namespace_name};
use std::alloc::Global;
use std::process::Abort;
use watch_streams::{
    Changes, HeldMember, Msg, NetPeers, NetPolicy, NetRule, Objects, StreamChange, StreamObject,
};

fn text(rt: &impl Abort, alloc: Global, bytes: &[u8]) -> Text
    ensures { result ≡ bytes.now }
{
    Text::of(Vec::from_slice(alloc, bytes).expect(rt, "memory"))
}

fn one<T: Drop>(rt: &impl Abort, alloc: Global, item: T) -> List<T>
    ensures { result ≡ item ∷ [] }
{
    let mut items = Vec::with_capacity(alloc, 1).expect(rt, "memory");
    items.push(item).expect(rt, "memory");
    List::of(items)
}

// All pods of the namespace `default`.
fn group(rt: &impl Abort, alloc: Global) -> GroupKey {
    let name = text(rt, alloc, b"default");
    assert!(rt; is_namespace_name(name.as_slice()));
    GroupKey {
        scope: Scope::Namespace(name),
        pods: canon(alloc, List::new(alloc)).expect(rt, "memory"),
    }
}

fn key(rt: &impl Abort, alloc: Global, name: Text) -> PolicyKey
    requires { HasNoSlash name }
    ensures kind { result.kind ≡ PolicyKind.Cluster }
{
    PolicyKey {
        kind: PolicyKind::Cluster,
        namespace: Text::new(alloc),
        name,
    }
}

// Drops what comes in from the group.
fn rule(rt: &impl Abort, alloc: Global, policy: &PolicyKey) -> NetRule
    ensures policy { result.key.policy ≡ policy.now }
    ensures tier { result.key.tier ≡ 250 }
{
    NetRule {
        key: RuleKey {
            tier: 250,
            priority: 1,
            policy: policy.copy().expect(rt, "memory"),
            dir: Dir::Ingress,
            index: 0,
        },
        action: Action::Drop,
        peers: Some(NetPeers {
            groups: one(rt, alloc, group(rt, alloc)),
            blocks: List::new(alloc),
        }),
        services: None,
        named: List::new(alloc),
    }
}

fn policy(rt: &impl Abort, alloc: Global) -> NetPolicy {
    let key = key(rt, alloc, text(rt, alloc, b"stop"));
    let rules = one(rt, alloc, rule(rt, alloc, &key));
    NetPolicy {
        key,
        applied: one(rt, alloc, group(rt, alloc)),
        isolates_in: false,
        isolates_out: false,
        rules,
    }
}

// The member with the last of the addresses 10.10.1.0/24 that has this number.
fn member(rt: &impl Abort, alloc: Global, last: u8) -> List<HeldMember> {
    let member = HeldMember {
        address: Addr::V4(0x0a0a_0100 + u32::from(last)),
        ports: List::new(alloc),
    };
    one(rt, alloc, member)
}

fn snapshot(rt: &impl Abort, alloc: Global, rev: u64, object: StreamObject) -> Msg {
    Msg::Snapshot(Rev(rev), Objects::of(one(rt, alloc, object)))
}

// A snapshot of the group with one member.
fn group_snapshot(rt: &impl Abort, alloc: Global, rev: u64, last: u8) -> Msg {
    let object = StreamObject::Group {
        group: group(rt, alloc),
        members: member(rt, alloc, last),
    };
    snapshot(rt, alloc, rev, object)
}

// 10.10.1.6 sends to 10.10.1.5.
fn is_dropped(held: &Held) -> bool {
    let question = Question {
        dir: Dir::Ingress,
        own: Addr::V4(0x0a0a_0105),
        peer: Addr::V4(0x0a0a_0106),
        proto: Proto::Tcp,
        port: 80,
    };
    matches!(held.judge(&question).verdict, Verdict::Drop)
}

#[test]
fn a_rule_waits_for_its_groups(rt: HostRuntime) {
    let mut held = Held::new(rt.alloc());
    let policies = snapshot(
        &rt,
        rt.alloc(),
        1,
        StreamObject::Policy(policy(&rt, rt.alloc())),
    );
    held.take(Stream::Policies, policies).expect(&rt, "memory");
    held.take(Stream::Applied, group_snapshot(&rt, rt.alloc(), 2, 5))
        .expect(&rt, "memory");
    assert!(rt; !is_dropped(&held));
    held.take(Stream::Addresses, group_snapshot(&rt, rt.alloc(), 3, 6))
        .expect(&rt, "memory");
    assert!(rt; is_dropped(&held));
    let [policies, addresses, applied] = held.revisions();
    assert!(rt; policies.0 == 1 && addresses.0 == 3 && applied.0 == 2);
}

// Whether the group is held with one member, and this one.
fn has_member(rt: &impl Abort, alloc: Global, held: &Held, last: u8) -> bool {
    match held.group(Stream::Addresses, &group(rt, alloc)) {
        Some(members) => {
            members.as_slice().len() == 1
                && members.as_slice().iter().any(|member| member
                    .address
                    .is(Addr::V4(0x0a0a_0100 + u32::from(last))))
        }
        None => false,
    }
}

#[test]
fn a_patch_is_prepared_and_finished(rt: HostRuntime) {
    let mut held = Held::new(rt.alloc());
    held.take(Stream::Addresses, group_snapshot(&rt, rt.alloc(), 1, 6))
        .expect(&rt, "memory");
    let patch = StreamChange::Patch {
        group: group(&rt, rt.alloc()),
        added: member(&rt, rt.alloc(), 7),
        removed: member(&rt, rt.alloc(), 6),
    };
    let message = Msg::Delta(Rev(2), Changes::of(one(&rt, rt.alloc(), patch)));
    let ready = held
        .prepare(Stream::Addresses, message)
        .expect(&rt, "memory");
    assert!(rt; has_member(&rt, rt.alloc(), &held, 6));
    held.finish(ready);
    assert!(rt; has_member(&rt, rt.alloc(), &held, 7));
}

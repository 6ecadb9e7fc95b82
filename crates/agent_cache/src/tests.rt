ghost use Rattle.std.specs.Prelude.{◌≡◌, [], ◌∷◌, true};
ghost use Rattle.cl_types.specs.PolicyName.{HasNoSlash};

use crate::{Cache, RuleState};
use cl_types::{
    Action, Addr, Copies, Dir, List, PolicyKey, PolicyKind, Prefix, Proto, Rev, RuleKey, Same,
    Service, Stream, Text,
};
use label_select::{
    GroupKey, Need, Op, Scope, are_label_values, canon, is_label_key, is_namespace_name,
};
use std::alloc::Global;
use std::process::Abort;
use watch_streams::{
    Changes, Choice, HeldMember, Msg, NetEgress, NetPeers, NetPolicy, NetRule, Objects,
    RuleChanges, StreamChange, StreamName, StreamObject,
};

fn text(rt: &impl Abort, alloc: Global, bytes: &[u8]) -> Text
    ensures { result ≡ bytes.now }
{
    Text::of(Vec::from_slice(alloc, bytes).expect(rt, "memory"))
}

fn one<T: Drop>(rt: &impl Abort, alloc: Global, item: T) -> List<T>
    ensures { result ≡ item ∷ [] }
{
    let mut items = Vec::with_capacity(alloc, 1).expect(rt, "memory");
    items.push(item).expect(rt, "memory");
    List::of(items)
}

// default/[app in (VALUE)]
fn group(rt: &impl Abort, alloc: Global, value: &[u8]) -> GroupKey {
    let name = text(rt, alloc, b"default");
    assert!(rt; is_namespace_name(name.as_slice()));
    let key = text(rt, alloc, b"app");
    let values = one(rt, alloc, text(rt, alloc, value));
    assert!(rt; is_label_key(key.as_slice()));
    assert!(rt; are_label_values(values.as_slice()));
    let need = Need {
        key,
        op: Op::OneOf,
        values,
    };
    GroupKey {
        scope: Scope::Namespace(name),
        pods: canon(alloc, one(rt, alloc, need)).expect(rt, "memory"),
    }
}

// The policy `default/web-in`.
fn policy_key(rt: &impl Abort, alloc: Global) -> PolicyKey
    ensures kind { result.kind ≡ PolicyKind.Kube }
{
    PolicyKey {
        kind: PolicyKind::Kube,
        namespace: text(rt, alloc, b"default"),
        name: text(rt, alloc, b"web-in"),
    }
}

// Its first rule for ingress.
fn rule_key(rt: &impl Abort, policy: &PolicyKey) -> RuleKey
    ensures policy { result.policy ≡ policy.now }
    ensures tier { result.tier ≡ 255 }
    ensures priority { result.priority ≡ 0 }
    ensures dir { result.dir ≡ Dir.Ingress }
{
    RuleKey {
        tier: 255,
        priority: 0,
        policy: policy.copy().expect(rt, "memory"),
        dir: Dir::Ingress,
        index: 0,
    }
}

// Allows TCP port 80 from the pods with app=cli.
fn rule(rt: &impl Abort, alloc: Global, policy: &PolicyKey) -> NetRule
    ensures policy { result.key.policy ≡ policy.now }
    ensures tier { result.key.tier ≡ 255 }
    ensures priority { result.key.priority ≡ 0 }
    ensures dir { result.key.dir ≡ Dir.Ingress }
    ensures action { result.action ≡ Action.Allow }
{
    let port = Service {
        proto: Proto::Tcp,
        lo: 80,
        hi: 80,
    };
    NetRule {
        key: rule_key(rt, policy),
        action: Action::Allow,
        peers: Some(NetPeers {
            groups: one(rt, alloc, group(rt, alloc, b"cli")),
            blocks: List::new(alloc),
        }),
        services: Some(one(rt, alloc, port)),
        named: List::new(alloc),
    }
}

// Applies to the pods with app=web.
fn policy(rt: &impl Abort, alloc: Global) -> StreamObject {
    let key = policy_key(rt, alloc);
    let rules = one(rt, alloc, rule(rt, alloc, &key));
    StreamObject::Policy(NetPolicy {
        key,
        applied: one(rt, alloc, group(rt, alloc, b"web")),
        isolates_in: true,
        isolates_out: false,
        rules,
    })
}

// 10.10.1.LAST
fn address(last: u8) -> Addr {
    Addr::V4(0x0a0a_0100 + u32::from(last))
}

fn members(rt: &impl Abort, alloc: Global, last: u8) -> List<HeldMember> {
    let member = HeldMember {
        address: address(last),
        ports: List::new(alloc),
    };
    one(rt, alloc, member)
}

// The group default/[app in (VALUE)] with the member 10.10.1.LAST.
fn group_object(rt: &impl Abort, alloc: Global, value: &[u8], last: u8) -> StreamObject {
    StreamObject::Group {
        group: group(rt, alloc, value),
        members: members(rt, alloc, last),
    }
}

fn put(rt: &impl Abort, alloc: Global, rev: u64, object: StreamObject) -> Msg {
    Msg::Delta(
        Rev(rev),
        Changes::of(one(rt, alloc, StreamChange::Put(object))),
    )
}

fn take(rt: &impl Abort, cache: &mut Cache, s: Stream, m: Msg) -> RuleChanges {
    cache.take(s, m).expect(rt, "memory")
}

fn is_empty(changes: &RuleChanges) -> bool {
    changes.gone.as_slice().is_empty()
        && changes.come.as_slice().is_empty()
        && changes.altered.as_slice().is_empty()
        && changes.isolated.as_slice().is_empty()
        && changes.choices.as_slice().is_empty()
        && changes.marked.as_slice().is_empty()
}

fn new_cache(rt: &impl Abort, alloc: Global) -> Cache {
    Cache::new(alloc, text(rt, alloc, b"n1")).expect(rt, "memory")
}

// The policy and the group to which it applies have come.
fn waiting_cache(rt: &impl Abort, alloc: Global) -> Cache {
    let mut cache = new_cache(rt, alloc);
    let message = put(rt, alloc, 4, policy(rt, alloc));
    let changes = take(rt, &mut cache, Stream::Policies, message);
    assert!(rt; is_empty(&changes));
    let message = put(rt, alloc, 4, group_object(rt, alloc, b"web", 5));
    let changes = take(rt, &mut cache, Stream::Applied, message);
    assert!(rt; changes.come.as_slice().is_empty());
    match changes.isolated.as_slice() {
        [isolated] => assert!(rt; isolated.now && isolated.address.is(address(5))),
        _ => assert!(rt; false),
    }
    cache
}

// The rule that comes is for 10.10.1.5, from 10.10.1.6/32, and TCP port 80.
fn is_the_rule(changes: &RuleChanges) -> bool {
    match changes.come.as_slice() {
        [parts] => {
            let peers = match &parts.peers {
                Some(peers) => matches!(peers.as_slice(), [p] if p.same(&Prefix::of(address(6)))),
                None => false,
            };
            let services = match &parts.services {
                Some(services) => matches!(services.as_slice(), [s] if s.lo == 80 && s.hi == 80),
                None => false,
            };
            peers
                && services
                && matches!(parts.pods.as_slice(), [a] if a.is(address(5)))
                && parts.resolved.as_slice().is_empty()
        }
        _ => false,
    }
}

#[test]
fn a_rule_waits_for_its_groups(rt: HostRuntime) {
    let alloc = rt.alloc();
    let mut cache = waiting_cache(&rt, alloc);
    let key = rule_key(&rt, &policy_key(&rt, alloc));
    let waits = match cache.rule(&key) {
        RuleState::Waiting(g) => g.same(&group(&rt, alloc, b"cli")),
        _ => false,
    };
    assert!(rt; waits);
    let message = put(&rt, alloc, 4, group_object(&rt, alloc, b"cli", 6));
    let changes = take(&rt, &mut cache, Stream::Addresses, message);
    assert!(rt; is_the_rule(&changes));
    assert!(rt; matches!(cache.rule(&key), RuleState::Complete));
    let other = RuleKey { index: 1, ..key };
    assert!(rt; matches!(cache.rule(&other), RuleState::Absent));
}

#[test]
fn a_patch_alters_a_rule(rt: HostRuntime) {
    let alloc = rt.alloc();
    let mut cache = waiting_cache(&rt, alloc);
    let message = put(&rt, alloc, 4, group_object(&rt, alloc, b"cli", 6));
    let _ = take(&rt, &mut cache, Stream::Addresses, message);
    let patch = StreamChange::Patch {
        group: group(&rt, alloc, b"cli"),
        added: members(&rt, alloc, 7),
        removed: members(&rt, alloc, 6),
    };
    let message = Msg::Delta(Rev(5), Changes::of(one(&rt, alloc, patch)));
    let plan = cache.plan(Stream::Addresses, message).expect(&rt, "memory");
    assert!(rt; plan.changes.gone.as_slice().is_empty() && plan.changes.come.as_slice().is_empty());
    match plan.changes.altered.as_slice() {
        [parts] => match &parts.peers {
            Some(peers) => {
                assert!(rt; matches!(peers.as_slice(), [p] if p.same(&Prefix::of(address(7)))))
            }
            None => assert!(rt; false),
        },
        _ => assert!(rt; false),
    }
    cache.finish(plan);
    let remove = StreamChange::Remove(StreamName::Group(group(&rt, alloc, b"web")));
    let message = Msg::Delta(Rev(6), Changes::of(one(&rt, alloc, remove)));
    let changes = take(&rt, &mut cache, Stream::Applied, message);
    assert!(rt; changes.gone.as_slice().len() == 1);
    match changes.isolated.as_slice() {
        [isolated] => assert!(rt; !isolated.now),
        _ => assert!(rt; false),
    }
    let [policies, addresses, applied] = cache.revisions();
    assert!(rt; policies.0 == 4 && addresses.0 == 5 && applied.0 == 6);
}

// An Egress of the pods with app=web with the address 10.0.0.100 by the node.
fn egress(rt: &impl Abort, alloc: Global, name: &[u8], node: &[u8]) -> StreamObject {
    StreamObject::Egress(NetEgress {
        name: text(rt, alloc, name),
        address: Addr::V4(0x0a00_0064),
        node: text(rt, alloc, node),
        applied: group(rt, alloc, b"web"),
    })
}

#[test]
fn the_egress_with_the_least_name_is_chosen(rt: HostRuntime) {
    let alloc = rt.alloc();
    let mut cache = new_cache(&rt, alloc);
    let message = put(&rt, alloc, 1, group_object(&rt, alloc, b"web", 5));
    let changes = take(&rt, &mut cache, Stream::Applied, message);
    assert!(rt; is_empty(&changes));
    let message = put(&rt, alloc, 1, egress(&rt, alloc, b"b", b"n2"));
    let changes = take(&rt, &mut cache, Stream::Policies, message);
    assert!(rt; changes.marked.as_slice().is_empty());
    match changes.choices.as_slice() {
        [choice] => assert!(rt; matches!(choice.now, Choice::There { .. })),
        _ => assert!(rt; false),
    }
    let message = put(&rt, alloc, 2, egress(&rt, alloc, b"a", b"n1"));
    let changes = take(&rt, &mut cache, Stream::Policies, message);
    assert!(rt; matches!(changes.marked.as_slice(), [mark] if mark.now));
    match changes.choices.as_slice() {
        [choice] => assert!(rt; matches!(choice.now, Choice::Here(_))),
        _ => assert!(rt; false),
    }
    let remove = StreamChange::Remove(StreamName::Group(group(&rt, alloc, b"web")));
    let message = Msg::Delta(Rev(3), Changes::of(one(&rt, alloc, remove)));
    let changes = take(&rt, &mut cache, Stream::Applied, message);
    match changes.choices.as_slice() {
        [choice] => assert!(rt; matches!(choice.now, Choice::Plain)),
        _ => assert!(rt; false),
    }
}

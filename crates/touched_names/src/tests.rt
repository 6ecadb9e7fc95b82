ghost use Rattle.std.specs.Prelude.{◌≡◌, [], ◌∷◌};
ghost use Rattle.cl_types.specs.PolicyName.{HasNoSlash};

use crate::{has_group, names_peer, push_moved_names, push_policy_names};
use cl_types::{Action, Addr, Copies, Dir, List, PolicyKey, PolicyKind, RuleKey, Text};
use cluster_types::{EgressObj, Peer, Policy, Rule};
use label_select::{GroupKey, Scope, canon, is_namespace_name};
use std::alloc::Global;
use std::process::Abort;
use watch_streams::StreamName;

fn text(rt: &impl Abort, alloc: Global, bytes: &[u8]) -> Text
    ensures { result ≡ bytes.now }
{
    Text::of(Vec::from_slice(alloc, bytes).expect(rt, "memory"))
}

fn one<T: Drop>(rt: &impl Abort, alloc: Global, item: T) -> List<T>
    ensures { result ≡ item ∷ [] }
{
    let mut items = Vec::with_capacity(alloc, 1).expect(rt, "memory");
    items.push(item).expect(rt, "memory");
    List::of(items)
}

// All pods of the namespace.
fn group(rt: &impl Abort, alloc: Global, namespace: &[u8]) -> GroupKey {
    let name = text(rt, alloc, namespace);
    assert!(rt; is_namespace_name(name.as_slice()));
    GroupKey {
        scope: Scope::Namespace(name),
        pods: canon(alloc, List::new(alloc)).expect(rt, "memory"),
    }
}

fn key(alloc: Global, name: Text) -> PolicyKey
    requires { HasNoSlash name }
    ensures kind { result.kind ≡ PolicyKind.Cluster }
{
    PolicyKey {
        kind: PolicyKind::Cluster,
        namespace: Text::new(alloc),
        name,
    }
}

// Drops what comes in from the pods of `web`.
fn rule(rt: &impl Abort, alloc: Global, policy: &PolicyKey) -> Rule
    ensures policy { result.key.policy ≡ policy.now }
    ensures priority { result.key.priority ≡ 1 }
    ensures action { result.action ≡ Action.Drop }
{
    Rule {
        key: RuleKey {
            tier: 250,
            priority: 1,
            policy: policy.copy().expect(rt, "memory"),
            dir: Dir::Ingress,
            index: 0,
        },
        action: Action::Drop,
        peers: Some(one(rt, alloc, Peer::Group(group(rt, alloc, b"web")))),
        services: None,
        named: List::new(alloc),
    }
}

// It applies to the pods of `default`.
fn policy(rt: &impl Abort, alloc: Global) -> Policy {
    let key = key(alloc, text(rt, alloc, b"stop"));
    let rules = one(rt, alloc, rule(rt, alloc, &key));
    Policy {
        key,
        tier: Text::new(alloc),
        priority: 1,
        applied: one(rt, alloc, group(rt, alloc, b"default")),
        isolates_in: false,
        isolates_out: false,
        rules,
    }
}

// It applies to the pods of `web`.
fn egress(rt: &impl Abort, alloc: Global) -> EgressObj {
    EgressObj {
        name: text(rt, alloc, b"out"),
        address: Addr::V4(1),
        node: text(rt, alloc, b"n1"),
        applied: group(rt, alloc, b"web"),
    }
}

fn word(name: &StreamName) -> &[u8] {
    match name {
        StreamName::Policy(key) => key.name.as_slice(),
        StreamName::Egress(text) => text.as_slice(),
        StreamName::Group(g) => match &g.scope {
            Scope::Namespace(namespace) => namespace.as_slice(),
            Scope::Namespaces(_) => b"",
        },
    }
}

fn expect_words(rt: &impl Abort, names: &[StreamName], wanted: &[&[u8]]) {
    assert_eq!(rt; names.len(), wanted.len());
    for (name, word_wanted) in names.iter().zip(wanted.iter()) {
        assert_eq!(rt; word(name), *word_wanted);
    }
}

#[test]
fn a_policy_brings_what_it_names(rt: HostRuntime) {
    let alloc = rt.alloc();
    let policy = policy(&rt, alloc);
    let mut names = Vec::new(alloc);
    push_policy_names(&mut names, &policy).expect(&rt, "memory");
    expect_words(&rt, names.as_slice(), &[b"stop", b"default", b"web"]);
    assert!(rt; names_peer(&policy, &group(&rt, alloc, b"web")));
    assert!(rt; !names_peer(&policy, &group(&rt, alloc, b"default")));
}

// Both groups have moved; that of the Egress has also come to other nodes.
#[test]
fn a_group_that_has_spread_touches_what_applies_to_it(rt: HostRuntime) {
    let alloc = rt.alloc();
    let policies = one(&rt, alloc, policy(&rt, alloc));
    let egresses = one(&rt, alloc, egress(&rt, alloc));
    let moved = [group(&rt, alloc, b"default"), group(&rt, alloc, b"web")];
    let spread = [group(&rt, alloc, b"web")];
    assert!(rt; has_group(&moved, &spread[0]));
    let mut names = Vec::new(alloc);
    push_moved_names(
        &mut names,
        &moved,
        &spread,
        policies.as_slice(),
        egresses.as_slice(),
    )
    .expect(&rt, "memory");
    expect_words(&rt, names.as_slice(), &[b"default", b"web", b"out", b"web"]);
}

ghost use Rattle.std.specs.Prelude.{◌≡◌, [], ◌∷◌};
ghost use Rattle.cl_types.specs.PolicyName.{HasNoSlash};

use crate::touches;
use cl_types::{Action, Copies, Dir, List, PolicyKey, PolicyKind, RuleKey, Stream, Text};
use held_maps::Held;
use label_select::{GroupKey, Scope, canon, is_namespace_name};
use std::alloc::Global;
use std::process::Abort;
use watch_streams::{NetPeers, NetPolicy, NetRule, StreamChange, StreamObject};

fn text(rt: &impl Abort, alloc: Global, bytes: &[u8]) -> Text
    ensures { result ≡ bytes.now }
{
    Text::of(Vec::from_slice(alloc, bytes).expect(rt, "memory"))
}

fn one<T: Drop>(rt: &impl Abort, alloc: Global, item: T) -> List<T>
    ensures { result ≡ item ∷ [] }
{
    let mut items = Vec::with_capacity(alloc, 1).expect(rt, "memory");
    items.push(item).expect(rt, "memory");
    List::of(items)
}

// All pods of the namespace.
fn group(rt: &impl Abort, alloc: Global, namespace: &[u8]) -> GroupKey {
    let name = text(rt, alloc, namespace);
    assert!(rt; is_namespace_name(name.as_slice()));
    GroupKey {
        scope: Scope::Namespace(name),
        pods: canon(alloc, List::new(alloc)).expect(rt, "memory"),
    }
}

fn key(alloc: Global, name: Text) -> PolicyKey
    requires { HasNoSlash name }
    ensures kind { result.kind ≡ PolicyKind.Cluster }
{
    PolicyKey {
        kind: PolicyKind::Cluster,
        namespace: Text::new(alloc),
        name,
    }
}

// Drops what comes in from the pods of `cli`.
fn rule(rt: &impl Abort, alloc: Global, policy: &PolicyKey) -> NetRule
    ensures policy { result.key.policy ≡ policy.now }
    ensures tier { result.key.tier ≡ 250 }
    ensures dir { result.key.dir ≡ Dir.Ingress }
    ensures action { result.action ≡ Action.Drop }
{
    NetRule {
        key: RuleKey {
            tier: 250,
            priority: 1,
            policy: policy.copy().expect(rt, "memory"),
            dir: Dir::Ingress,
            index: 0,
        },
        action: Action::Drop,
        peers: Some(NetPeers {
            groups: one(rt, alloc, group(rt, alloc, b"cli")),
            blocks: List::new(alloc),
        }),
        services: None,
        named: List::new(alloc),
    }
}

// It applies to the pods of `web`.
fn policy(rt: &impl Abort, alloc: Global) -> NetPolicy {
    let key = key(alloc, text(rt, alloc, b"stop"));
    let rules = one(rt, alloc, rule(rt, alloc, &key));
    NetPolicy {
        key,
        applied: one(rt, alloc, group(rt, alloc, b"web")),
        isolates_in: false,
        isolates_out: false,
        rules,
    }
}

// A stream, the namespace whose group is put there, and whether that touches the policy.
const PUTS: [(Stream, &[u8], bool); 4] = [
    (Stream::Addresses, b"cli", true),
    (Stream::Addresses, b"web", false),
    (Stream::Applied, b"web", true),
    (Stream::Applied, b"cli", false),
];

#[test]
fn groups_touch_what_reads_them(rt: HostRuntime) {
    let alloc = rt.alloc();
    let held = Held::new(alloc);
    let policy = policy(&rt, alloc);
    for (s, namespace, wanted) in &PUTS {
        let object = StreamObject::Group {
            group: group(&rt, alloc, namespace),
            members: List::new(alloc),
        };
        let changes = [StreamChange::Put(object)];
        assert_eq!(rt; touches(*s, &changes, &held, &policy), *wanted);
    }
}

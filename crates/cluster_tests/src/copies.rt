ghost use Rattle.std.specs.Prelude.{◌≡◌, [], ◌∷◌};

use cl_types::{
    Action, Addr, Copies, Dir, List, NamedPort, PodKey, PolicyKey, PolicyKind, PortName, Prefix,
    Proto, RuleKey, Same, Service, Text,
};
use cluster_objects::{
    Block, Change, Cluster, ClusterRefusal, EgressObj, Namespace, NodeInfo, Object, Peer, Pod,
    Policy, Rule, Tier,
};
use label_select::{GroupKey, Labels, Scope, canon, is_namespace_name};
use std::alloc::Global;
use std::process::Abort;

fn text(rt: &impl Abort, alloc: Global, bytes: &[u8]) -> Text
    ensures { result ≡ bytes.now }
{
    Text::of(Vec::from_slice(alloc, bytes).expect(rt, "memory"))
}

fn one<T: Drop>(rt: &impl Abort, alloc: Global, item: T) -> List<T>
    ensures { result ≡ item ∷ [] }
{
    let mut items = Vec::with_capacity(alloc, 1).expect(rt, "memory");
    items.push(item).expect(rt, "memory");
    List::of(items)
}

// 10.10.1.0/24.
const BLOCK: Prefix = Prefix {
    base: Addr::V4(0x0a0a_0100),
    len: 24,
};

fn node(rt: &impl Abort, alloc: Global) -> NodeInfo {
    NodeInfo {
        name: text(rt, alloc, b"n1"),
        cidr: BLOCK,
        cidr6: None,
    }
}

fn labels(rt: &impl Abort, alloc: Global) -> Labels {
    let mut labels = Labels::new(alloc);
    labels
        .put(text(rt, alloc, b"app"), text(rt, alloc, b"web"))
        .expect(rt, "memory");
    labels
}

fn pod(rt: &impl Abort, alloc: Global, name: &[u8]) -> Pod {
    let port = NamedPort {
        name: text(rt, alloc, b"http"),
        proto: Proto::Tcp,
        port: 80,
    };
    Pod {
        key: PodKey {
            namespace: text(rt, alloc, b"default"),
            name: text(rt, alloc, name),
        },
        node: text(rt, alloc, b"n1"),
        addresses: one(rt, alloc, Addr::V4(0x0a0a_0105)),
        host: false,
        ended: false,
        labels: labels(rt, alloc),
        ports: one(rt, alloc, port),
    }
}

// All pods of the namespace `default`.
fn group(rt: &impl Abort, alloc: Global) -> GroupKey {
    let name = text(rt, alloc, b"default");
    assert!(rt; is_namespace_name(name.as_slice()));
    GroupKey {
        scope: Scope::Namespace(name),
        pods: canon(alloc, List::new(alloc)).expect(rt, "memory"),
    }
}

fn rule(rt: &impl Abort, alloc: Global, policy: &PolicyKey) -> Rule
    ensures policy { result.key.policy ≡ policy.now }
    ensures tier { result.key.tier ≡ 255 }
    ensures priority { result.key.priority ≡ 0 }
    ensures action { result.action ≡ Action.Allow }
    ensures dir { result.key.dir ≡ Dir.Ingress }
{
    let key = RuleKey {
        tier: 255,
        priority: 0,
        policy: policy.copy().expect(rt, "memory"),
        dir: Dir::Ingress,
        index: 0,
    };
    let block = Block {
        cidr: BLOCK,
        excepts: one(rt, alloc, Prefix::of(Addr::V4(0x0a0a_0106))),
    };
    let name = PortName {
        name: text(rt, alloc, b"http"),
        proto: Proto::Tcp,
    };
    let service = Service {
        proto: Proto::Tcp,
        lo: 80,
        hi: 81,
    };
    Rule {
        key,
        action: Action::Allow,
        peers: Some(one(rt, alloc, Peer::Block(block))),
        services: Some(one(rt, alloc, service)),
        named: one(rt, alloc, name),
    }
}

fn policy(rt: &impl Abort, alloc: Global) -> Policy {
    let key = PolicyKey {
        kind: PolicyKind::Kube,
        namespace: text(rt, alloc, b"default"),
        name: text(rt, alloc, b"web-in"),
    };
    let rules = one(rt, alloc, rule(rt, alloc, &key));
    Policy {
        key,
        tier: Text::new(alloc),
        priority: 0,
        applied: one(rt, alloc, group(rt, alloc)),
        isolates_in: true,
        isolates_out: false,
        rules,
    }
}

fn is_copied<T: Copies + Same>(rt: &impl Abort, value: &T) -> bool {
    value.copy().expect(rt, "memory").same(value)
}

#[test]
fn copies_of_objects(rt: HostRuntime) {
    let alloc = rt.alloc();
    assert!(rt; is_copied(&rt, &node(&rt, alloc)));
    assert!(rt; is_copied(&rt, &pod(&rt, alloc, b"web")));
    assert!(rt; is_copied(&rt, &policy(&rt, alloc)));
}

#[test]
fn copy_of_an_egress(rt: HostRuntime) {
    let egress = EgressObj {
        name: text(&rt, rt.alloc(), b"out"),
        address: Addr::V4(0x0a0a_0a0a),
        node: text(&rt, rt.alloc(), b"n1"),
        applied: group(&rt, rt.alloc()),
    };
    let copied = egress.copy().expect(&rt, "memory");
    assert!(rt; copied.name == egress.name && copied.node == egress.node);
    assert!(rt; copied.address == egress.address && copied.applied.same(&egress.applied));
}

#[test]
fn copies_of_namespaces_and_tiers(rt: HostRuntime) {
    let namespace = Namespace {
        name: text(&rt, rt.alloc(), b"default"),
        labels: labels(&rt, rt.alloc()),
    };
    let copied = namespace.copy().expect(&rt, "memory");
    assert!(rt; copied.name == namespace.name && copied.labels.same(&namespace.labels));
    let tier = Tier {
        name: text(&rt, rt.alloc(), b"gold"),
        priority: 10,
    };
    let copied = tier.copy().expect(&rt, "memory");
    assert!(rt; copied.name == tier.name && copied.priority == tier.priority);
}

// A cluster with the object, which is put as a copy of its change.
fn cluster_with(rt: &impl Abort, alloc: Global, object: Object) -> Cluster {
    let mut c = Cluster::new(alloc).expect(rt, "memory");
    let change = Change::Put(object).copy().expect(rt, "memory");
    assert!(rt; c.try_apply(change).is_ok());
    c
}

#[test]
fn copy_of_a_cluster(rt: HostRuntime) {
    let c = cluster_with(&rt, rt.alloc(), Object::Pod(pod(&rt, rt.alloc(), b"web")));
    let copied = c.copy().expect(&rt, "memory");
    assert!(rt; copied.fixed() && copied.pods().len() == 1);
    assert!(rt; copied.pods()[0].same(&c.pods()[0]));
}

fn is_refused_for(refusal: &ClusterRefusal, name: &[u8]) -> bool {
    match refusal {
        ClusterRefusal::AddressInUse(key) => key.name.as_slice() == name,
        _ => false,
    }
}

// A copy of the refusal names the same pod.
#[test]
fn copy_of_a_refusal(rt: HostRuntime) {
    let mut c = cluster_with(&rt, rt.alloc(), Object::Pod(pod(&rt, rt.alloc(), b"web")));
    let other = Change::Put(Object::Pod(pod(&rt, rt.alloc(), b"cli")));
    let refusal = c.try_apply(other).expect_err(&rt, "a refusal");
    assert!(rt; is_refused_for(&refusal.copy().expect(&rt, "memory"), b"web"));
}

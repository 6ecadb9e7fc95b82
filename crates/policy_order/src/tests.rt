ghost use Rattle.std.specs.Prelude.{◌≡◌, ◌≢◌, [], ◌∷◌};
ghost use Rattle.cl_types.specs.declared.addr.Addr.TheVariants.{V4, V6};
ghost use Rattle.cl_types.specs.PolicyName.{HasNoSlash};
ghost use Rattle.cluster_types.specs.Policy.{IsBaseline};

use crate::judge;
use cl_types::{
    Action, Addr, Copies, Dir, List, NamedPort, PodKey, PolicyKey, PolicyKind, PortName, Prefix,
    Proto, Question, RuleKey, Service, Text, write_judged,
};
use cluster_objects::{
    Block, Change, Cluster, KUBE_TIER, NAME_LABEL, Object, Peer, Pod, Policy, Rule,
};
use label_select::{
    GroupKey, Labels, Need, Op, Scope, Selector, are_label_values, canon, is_label_key,
    is_namespace_name,
};
use std::alloc::Global;
use std::process::Abort;

fn text(rt: &impl Abort, alloc: Global, bytes: &[u8]) -> Text
    ensures { result ≡ bytes.now }
{
    Text::of(Vec::from_slice(alloc, bytes).expect(rt, "memory"))
}

fn one<T: Drop>(rt: &impl Abort, alloc: Global, item: T) -> List<T>
    ensures { result ≡ item ∷ [] }
{
    let mut items = Vec::with_capacity(alloc, 1).expect(rt, "memory");
    items.push(item).expect(rt, "memory");
    List::of(items)
}

// Selects the pods whose label `app` has the value.
fn app_is(rt: &impl Abort, alloc: Global, value: &[u8]) -> Selector {
    let key = text(rt, alloc, b"app");
    let values = one(rt, alloc, text(rt, alloc, value));
    assert!(rt; is_label_key(key.as_slice()));
    assert!(rt; are_label_values(values.as_slice()));
    assert!(rt; !values.as_slice().is_empty());
    let op = Op::OneOf;
    canon(alloc, one(rt, alloc, Need { key, op, values })).expect(rt, "memory")
}

fn in_default(rt: &impl Abort, alloc: Global, pods: Selector) -> GroupKey {
    let name = text(rt, alloc, b"default");
    assert!(rt; is_namespace_name(name.as_slice()));
    let scope = Scope::Namespace(name);
    GroupKey { scope, pods }
}

// A pod of the namespace `default` on the node `n1`, whose label `app` is its name. It has the IPv6 address
// whose number is that of its IPv4 address, and a port `http` of tcp.
fn pod(rt: &impl Abort, alloc: Global, name: &[u8], address: u32, http: u16) -> Pod {
    let mut labels = Labels::new(alloc);
    labels
        .put(text(rt, alloc, b"app"), text(rt, alloc, name))
        .expect(rt, "memory");
    let port = NamedPort {
        name: text(rt, alloc, b"http"),
        proto: Proto::Tcp,
        port: http,
    };
    Pod {
        key: PodKey {
            namespace: text(rt, alloc, b"default"),
            name: text(rt, alloc, name),
        },
        node: text(rt, alloc, b"n1"),
        addresses: both(rt, alloc, address),
        host: false,
        ended: false,
        labels,
        ports: one(rt, alloc, port),
    }
}

fn both(rt: &impl Abort, alloc: Global, address: u32) -> List<Addr>
    ensures { result ≡ V4 address ∷ V6 address ∷ [] }
{
    let mut addresses = Vec::with_capacity(alloc, 2).expect(rt, "memory");
    addresses.push(Addr::V4(address)).expect(rt, "memory");
    addresses
        .push(Addr::V6(address.into()))
        .expect(rt, "memory");
    List::of(addresses)
}

// Selects the namespace of the name, by the label that every namespace has.
fn namespace_is(rt: &impl Abort, alloc: Global, name: &[u8]) -> Selector {
    let key = text(rt, alloc, NAME_LABEL);
    let values = one(rt, alloc, text(rt, alloc, name));
    assert!(rt; is_label_key(key.as_slice()));
    assert!(rt; are_label_values(values.as_slice()));
    assert!(rt; !values.as_slice().is_empty());
    let op = Op::OneOf;
    canon(alloc, one(rt, alloc, Need { key, op, values })).expect(rt, "memory")
}

const WEB: u32 = 0x0a0a_0105;

const CLI: u32 = 0x0a0a_0106;

const HOST: u32 = 0x0a0a_0109;

// The peers of a rule.
#[derive(Clone, Copy)]
enum Peers {
    All,
    App(&'static [u8]),
    /// The pods of a namespace whose label `app` has the value.
    AppIn(&'static [u8], &'static [u8]),
    /// 10.10.1.0/24 without the address.
    Without(u32),
    Never,
}

fn peers_of(rt: &impl Abort, alloc: Global, peers: Peers) -> Option<List<Peer>> {
    let peer = match peers {
        Peers::All => return None,
        Peers::App(name) => Peer::Group(in_default(rt, alloc, app_is(rt, alloc, name))),
        Peers::AppIn(namespace, name) => Peer::Group(GroupKey {
            scope: Scope::Namespaces(namespace_is(rt, alloc, namespace)),
            pods: app_is(rt, alloc, name),
        }),
        Peers::Without(address) => Peer::Block(Block {
            cidr: Prefix {
                base: Addr::V4(0x0a0a_0100),
                len: 24,
            },
            excepts: one(rt, alloc, Prefix::of(Addr::V4(address))),
        }),
        Peers::Never => Peer::Never,
    };
    Some(one(rt, alloc, peer))
}

// The ports of a rule.
#[derive(Clone, Copy)]
enum Ports {
    All,
    Some(Proto, u16, u16),
    /// The port that the destination names so.
    Named(&'static [u8]),
}

fn services_of(rt: &impl Abort, alloc: Global, ports: Ports) -> Option<List<Service>> {
    match ports {
        Ports::All => None,
        Ports::Some(proto, lo, hi) => {
            assert!(rt; lo <= hi);
            Some(one(rt, alloc, Service { proto, lo, hi }))
        }
        Ports::Named(_) => Some(List::new(alloc)),
    }
}

fn names_of(rt: &impl Abort, alloc: Global, ports: Ports) -> List<PortName> {
    match ports {
        Ports::Named(name) => {
            let name = text(rt, alloc, name);
            let proto = Proto::Tcp;
            one(rt, alloc, PortName { name, proto })
        }
        _ => List::new(alloc),
    }
}

// A policy of one rule, for all pods of the namespace `default`.
#[derive(Clone, Copy)]
enum Given {
    /// A ClusterNetworkPolicy `first` of the tier `application` with the priority 1, for all ingress.
    First(Action),
    /// A ClusterNetworkPolicy `second` of the tier `application` with the priority 2.
    Second(Action, Dir, Peers, Ports),
    /// A ClusterNetworkPolicy `last` of Baseline that drops all ingress.
    Last,
    /// A Kubernetes policy `web-in` that lets `cli` in at port 80.
    WebIn,
}

// The parts of a rule that policies differ in.
#[derive(Clone, Copy)]
struct Parts {
    tier: u16,
    priority: u16,
    action: Action,
    dir: Dir,
    peers: Peers,
    ports: Ports,
}

fn rule(rt: &impl Abort, alloc: Global, policy: &PolicyKey, parts: Parts) -> Rule
    ensures policy { result.key.policy ≡ policy.now }
    ensures tier { result.key.tier ≡ parts.tier }
    ensures priority { result.key.priority ≡ parts.priority }
    ensures dir { result.key.dir ≡ parts.dir }
    ensures action { result.action ≡ parts.action }
{
    Rule {
        key: RuleKey {
            tier: parts.tier,
            priority: parts.priority,
            policy: policy.copy().expect(rt, "memory"),
            dir: parts.dir,
            index: 0,
        },
        action: parts.action,
        peers: peers_of(rt, alloc, parts.peers),
        services: services_of(rt, alloc, parts.ports),
        named: names_of(rt, alloc, parts.ports),
    }
}

fn all_pods(rt: &impl Abort, alloc: Global) -> GroupKey {
    in_default(
        rt,
        alloc,
        canon(alloc, List::new(alloc)).expect(rt, "memory"),
    )
}

fn cluster_wide(rt: &impl Abort, alloc: Global, name: Text) -> PolicyKey
    requires { HasNoSlash name }
    ensures kind { result.kind ≡ PolicyKind.Cluster }
{
    PolicyKey {
        kind: PolicyKind::Cluster,
        namespace: Text::new(alloc),
        name,
    }
}

fn native(rt: &impl Abort, alloc: Global, key: PolicyKey, tier: Text, parts: Parts) -> Policy
    requires kind { key.kind ≡ PolicyKind.Cluster }
    requires baseline { IsBaseline tier → parts.action ≢ Action.Pass }
{
    let priority = parts.priority;
    let rules = one(rt, alloc, rule(rt, alloc, &key, parts));
    Policy {
        key,
        tier,
        priority,
        applied: one(rt, alloc, all_pods(rt, alloc)),
        isolates_in: false,
        isolates_out: false,
        rules,
    }
}

fn web_in(rt: &impl Abort, alloc: Global) -> Policy {
    let key = PolicyKey {
        kind: PolicyKind::Kube,
        namespace: text(rt, alloc, b"default"),
        name: text(rt, alloc, b"web-in"),
    };
    let parts = Parts {
        tier: KUBE_TIER,
        priority: 0,
        action: Action::Allow,
        dir: Dir::Ingress,
        peers: Peers::App(b"cli"),
        ports: Ports::Some(Proto::Tcp, 80, 80),
    };
    let rules = one(rt, alloc, rule(rt, alloc, &key, parts));
    Policy {
        key,
        tier: Text::new(alloc),
        priority: 0,
        applied: one(rt, alloc, all_pods(rt, alloc)),
        isolates_in: true,
        isolates_out: false,
        rules,
    }
}

fn policy(rt: &impl Abort, alloc: Global, given: Given) -> Policy {
    match given {
        Given::First(action) => {
            let parts = Parts {
                tier: 250,
                priority: 1,
                action,
                dir: Dir::Ingress,
                peers: Peers::All,
                ports: Ports::All,
            };
            native(
                rt,
                alloc,
                cluster_wide(rt, alloc, text(rt, alloc, b"first")),
                text(rt, alloc, b"application"),
                parts,
            )
        }
        Given::Second(action, dir, peers, ports) => {
            let parts = Parts {
                tier: 250,
                priority: 2,
                action,
                dir,
                peers,
                ports,
            };
            native(
                rt,
                alloc,
                cluster_wide(rt, alloc, text(rt, alloc, b"second")),
                text(rt, alloc, b"application"),
                parts,
            )
        }
        Given::Last => {
            let parts = Parts {
                tier: 253,
                priority: 1,
                action: Action::Drop,
                dir: Dir::Ingress,
                peers: Peers::All,
                ports: Ports::All,
            };
            native(
                rt,
                alloc,
                cluster_wide(rt, alloc, text(rt, alloc, b"last")),
                text(rt, alloc, b"baseline"),
                parts,
            )
        }
        Given::WebIn => web_in(rt, alloc),
    }
}

fn put(rt: &impl Abort, c: &mut Cluster, object: Object) {
    assert!(rt; c.try_apply(Change::Put(object)).is_ok());
}

// `web` and `cli` on the node `n1`, and a pod `host` there on the host's network.
fn cluster(rt: &impl Abort, alloc: Global, given: &[Given]) -> Cluster {
    let mut c = Cluster::new(alloc).expect(rt, "memory");
    put(rt, &mut c, Object::Pod(pod(rt, alloc, b"web", WEB, 80)));
    put(rt, &mut c, Object::Pod(pod(rt, alloc, b"cli", CLI, 8080)));
    let mut host = pod(rt, alloc, b"host", HOST, 80);
    host.host = true;
    put(rt, &mut c, Object::Pod(host));
    for policy_given in given {
        put(rt, &mut c, Object::Policy(policy(rt, alloc, *policy_given)));
    }
    c
}

fn said_at(rt: &impl Abort, c: &Cluster, alloc: Global, node: &[u8], q: &Question) -> Text {
    let mut out = Text::new(alloc);
    let node = text(rt, alloc, node);
    write_judged(&mut out, &judge(c, &node, q)).expect(rt, "memory");
    out
}

// A question of tcp.
fn tcp(dir: Dir, own: Addr, peer: Addr, port: u16) -> Question {
    Question {
        dir,
        own,
        peer,
        proto: Proto::Tcp,
        port,
    }
}

// The verdict on tcp from `cli` to `web` at the port, as it is printed.
fn verdict(rt: &impl Abort, alloc: Global, given: &[Given], port: u16) -> Text {
    let question = tcp(Dir::Ingress, Addr::V4(WEB), Addr::V4(CLI), port);
    said_at(rt, &cluster(rt, alloc, given), alloc, b"n1", &question)
}

const DROP_ALL: Given = Given::Second(Action::Drop, Dir::Ingress, Peers::All, Ports::All);

// The policies of a cluster, a port of `web`, and the verdict.
const SIDES: &[(&[Given], u16, &[u8])] = &[
    (&[], 80, b"allow by default"),
    (
        &[Given::WebIn],
        80,
        b"allow by knp:default/web-in ingress[0]",
    ),
    (&[Given::WebIn], 81, b"drop by isolation"),
    (
        &[Given::WebIn, DROP_ALL],
        80,
        b"drop by acnp:second ingress[0]",
    ),
    (
        &[Given::First(Action::Allow), DROP_ALL],
        80,
        b"allow by acnp:first ingress[0]",
    ),
    (
        &[Given::First(Action::Reject), Given::WebIn],
        80,
        b"reject by acnp:first ingress[0]",
    ),
    // Pass skips the native rules after it.
    (
        &[Given::First(Action::Pass), Given::WebIn, DROP_ALL],
        80,
        b"allow by knp:default/web-in ingress[0]",
    ),
    (
        &[Given::First(Action::Pass), Given::WebIn, Given::Last],
        81,
        b"drop by isolation",
    ),
    // Baseline speaks only where no Kubernetes policy isolates.
    (&[Given::Last], 80, b"drop by acnp:last ingress[0]"),
    (
        &[Given::First(Action::Pass), DROP_ALL, Given::Last],
        80,
        b"drop by acnp:last ingress[0]",
    ),
    (
        &[Given::WebIn, Given::Last],
        80,
        b"allow by knp:default/web-in ingress[0]",
    ),
];

#[test]
fn three_steps_of_a_verdict(rt: HostRuntime) {
    for (given, port, wanted) in SIDES {
        let said = verdict(&rt, rt.alloc(), given, *port);
        assert_eq!(rt; said.as_slice(), *wanted);
    }
}

// The direction, the peers and the ports of a rule, and whether it matches tcp from `cli` to `web` at port 80.
const RULES: &[(Dir, Peers, Ports, bool)] = &[
    (Dir::Ingress, Peers::All, Ports::All, true),
    (Dir::Egress, Peers::All, Ports::All, false),
    (Dir::Ingress, Peers::App(b"cli"), Ports::All, true),
    (Dir::Ingress, Peers::App(b"web"), Ports::All, false),
    (Dir::Ingress, Peers::Never, Ports::All, false),
    (Dir::Ingress, Peers::Without(CLI), Ports::All, false),
    (Dir::Ingress, Peers::Without(WEB), Ports::All, true),
    (
        Dir::Ingress,
        Peers::All,
        Ports::Some(Proto::Tcp, 79, 80),
        true,
    ),
    (
        Dir::Ingress,
        Peers::All,
        Ports::Some(Proto::Tcp, 81, 82),
        false,
    ),
    (
        Dir::Ingress,
        Peers::All,
        Ports::Some(Proto::Udp, 80, 80),
        false,
    ),
];

#[test]
fn rules_that_match_the_traffic(rt: HostRuntime) {
    for (dir, peers, ports, matches) in RULES {
        let said = verdict(
            &rt,
            rt.alloc(),
            &[Given::Second(Action::Drop, *dir, *peers, *ports)],
            80,
        );
        let wanted: &[u8] = if *matches {
            b"drop by acnp:second ingress[0]"
        } else {
            b"allow by default"
        };
        assert_eq!(rt; said.as_slice(), wanted);
    }
}

const IN: Dir = Dir::Ingress;

const OUT: Dir = Dir::Egress;

// The direction, the peers and the ports of a rule that drops, a question of tcp on the node, and whether the
// rule matches it.
const QUESTIONS: &[(Dir, Peers, Ports, Addr, Addr, u16, &[u8], bool)] = &[
    // Egress looks at the peer's labels, and not at its own.
    (
        OUT,
        Peers::App(b"web"),
        Ports::All,
        Addr::V4(CLI),
        Addr::V4(WEB),
        80,
        b"n1",
        true,
    ),
    (
        OUT,
        Peers::App(b"cli"),
        Ports::All,
        Addr::V4(CLI),
        Addr::V4(WEB),
        80,
        b"n1",
        false,
    ),
    // The destination names the port: on ingress the pod itself, on egress its peer.
    (
        IN,
        Peers::All,
        Ports::Named(b"http"),
        Addr::V4(WEB),
        Addr::V4(CLI),
        80,
        b"n1",
        true,
    ),
    (
        IN,
        Peers::All,
        Ports::Named(b"http"),
        Addr::V4(WEB),
        Addr::V4(CLI),
        8080,
        b"n1",
        false,
    ),
    (
        OUT,
        Peers::All,
        Ports::Named(b"http"),
        Addr::V4(CLI),
        Addr::V4(WEB),
        80,
        b"n1",
        true,
    ),
    (
        OUT,
        Peers::All,
        Ports::Named(b"http"),
        Addr::V4(CLI),
        Addr::V4(WEB),
        8080,
        b"n1",
        false,
    ),
    // Namespaces are selected by the label that has their name.
    (
        IN,
        Peers::AppIn(b"default", b"cli"),
        Ports::All,
        Addr::V4(WEB),
        Addr::V4(CLI),
        80,
        b"n1",
        true,
    ),
    (
        IN,
        Peers::AppIn(b"shop", b"cli"),
        Ports::All,
        Addr::V4(WEB),
        Addr::V4(CLI),
        80,
        b"n1",
        false,
    ),
    // Both addresses of a pod are its own.
    (
        IN,
        Peers::App(b"cli"),
        Ports::All,
        Addr::V6(0x0a0a_0105),
        Addr::V6(0x0a0a_0106),
        80,
        b"n1",
        true,
    ),
    (
        IN,
        Peers::App(b"web"),
        Ports::All,
        Addr::V6(0x0a0a_0105),
        Addr::V6(0x0a0a_0106),
        80,
        b"n1",
        false,
    ),
    // A pod on the host's network is in no group, and its ports have no names.
    (
        IN,
        Peers::App(b"host"),
        Ports::All,
        Addr::V4(WEB),
        Addr::V4(HOST),
        80,
        b"n1",
        false,
    ),
    (
        OUT,
        Peers::All,
        Ports::Named(b"http"),
        Addr::V4(CLI),
        Addr::V4(HOST),
        80,
        b"n1",
        false,
    ),
    // Of another node's pods nothing is said.
    (
        IN,
        Peers::All,
        Ports::All,
        Addr::V4(WEB),
        Addr::V4(CLI),
        80,
        b"n2",
        false,
    ),
];

#[test]
fn questions_of_both_directions_and_families(rt: HostRuntime) {
    for (dir, peers, ports, own, peer, port, node, matches) in QUESTIONS {
        let given = [Given::Second(Action::Drop, *dir, *peers, *ports)];
        let c = cluster(&rt, rt.alloc(), &given);
        let said = said_at(&rt, &c, rt.alloc(), node, &tcp(*dir, *own, *peer, *port));
        let wanted: &[u8] = match (*matches, *dir) {
            (false, _) => b"allow by default",
            (true, Dir::Ingress) => b"drop by acnp:second ingress[0]",
            (true, Dir::Egress) => b"drop by acnp:second egress[0]",
        };
        assert_eq!(rt; said.as_slice(), wanted);
    }
}

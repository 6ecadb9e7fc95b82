//! Policies: of Kubernetes, of Antrea in a namespace, and of the cluster.
use crate::read::{expect_lines, expect_parts};

const KUBE: &str =
    r#"{"apiVersion":"networking.k8s.io/v1","kind":"NetworkPolicy","metadata":{"name":"p"},"spec":"#;

// The spec of a NetworkPolicy, and its fault.
const KUBES: &[(&str, &str)] = &[
    ("null", ""),
    ("5", "BadShape spec"),
    (
        r#"{"podSelector":5,"policyTypes":5}"#,
        "BadShape spec.podSelector",
    ),
    (r#"{"policyTypes":"Ingress"}"#, "BadShape spec.policyTypes"),
    (
        r#"{"policyTypes":["Ingress","Both"]}"#,
        "BadShape spec.policyTypes[1]",
    ),
    (r#"{"policyTypes":["Ingress","Ingress"]}"#, ""),
    (r#"{"tier":5,"priority":"x"}"#, ""),
    (r#"{"ingress":5}"#, "BadShape spec.ingress"),
    (r#"{"ingress":[{},5]}"#, "BadShape spec.ingress[1]"),
    (r#"{"ingress":[{"to":[]}]}"#, "Unsupported to"),
    (
        r#"{"egress":[{"from":[],"action":"Allow"}]}"#,
        "Unsupported action",
    ),
    (r#"{"ingress":[{"name":"x"}]}"#, "Unsupported name"),
];

#[test]
fn kubernetes(rt: HostRuntime) {
    expect_parts(&rt, rt.alloc(), KUBE, "}", KUBES);
}

const SELECTOR: &str =
    r#"{"apiVersion":"networking.k8s.io/v1","kind":"NetworkPolicy","metadata":{"name":"p"},"spec":{"podSelector":{"#;

// A selector, and its fault.
const SELECTORS: &[(&str, &str)] = &[
    (r#""matchLabels":{"a":"b","c":null}"#, ""),
    (
        r#""matchLabels":{"a":5}"#,
        "BadShape spec.podSelector.matchLabels",
    ),
    (r#""matchLabels":{"a":"b c"}"#, "BadLabel"),
    (r#""matchExpressions":null"#, ""),
    (r#""matchExpressions":[]"#, ""),
    (
        r#""matchExpressions":[5]"#,
        "BadShape spec.podSelector.matchExpressions[0]",
    ),
    (
        r#""matchExpressions":[{"operator":"Exists"}]"#,
        "BadShape spec.podSelector.matchExpressions[0].key",
    ),
    (
        r#""matchExpressions":[{"key":"a"}]"#,
        "BadShape spec.podSelector.matchExpressions[0].operator",
    ),
    (
        r#""matchExpressions":[{"key":"a","operator":"In","values":["b",5]}]"#,
        "BadShape spec.podSelector.matchExpressions[0].values[1]",
    ),
    (
        r#""matchExpressions":[{"key":"a","operator":"In","values":["b"]}]"#,
        "",
    ),
    (
        r#""matchExpressions":[{"key":"a","operator":"In","values":[]}]"#,
        "BadSelector",
    ),
    (
        r#""matchExpressions":[{"key":"a","operator":"NotIn","values":["b"]}]"#,
        "",
    ),
    (
        r#""matchExpressions":[{"key":"a","operator":"NotIn"}]"#,
        "BadSelector",
    ),
    (
        r#""matchExpressions":[{"key":"a","operator":"Exists","values":null}]"#,
        "",
    ),
    (
        r#""matchExpressions":[{"key":"a","operator":"Exists","values":["b"]}]"#,
        "BadSelector",
    ),
    (
        r#""matchExpressions":[{"key":"a","operator":"DoesNotExist"}]"#,
        "",
    ),
    (
        r#""matchExpressions":[{"key":"a","operator":"DoesNotExist","values":["b"]}]"#,
        "BadSelector",
    ),
    (
        r#""matchExpressions":[{"key":"a b","operator":"Exists"}]"#,
        "BadLabel",
    ),
];

#[test]
fn selectors(rt: HostRuntime) {
    expect_parts(&rt, rt.alloc(), SELECTOR, "}}}", SELECTORS);
}

const FROM: &str =
    r#"{"apiVersion":"networking.k8s.io/v1","kind":"NetworkPolicy","metadata":{"name":"p"},"spec":{"ingress":[{"from":["#;

// A peer, and its fault.
const PEERS: &[(&str, &str)] = &[
    ("5", "BadShape spec.ingress[0].from[0]"),
    ("{}", "BadShape spec.ingress[0].from[0]"),
    (r#"{"ipBlock":null}"#, "BadShape spec.ingress[0].from[0]"),
    (r#"{"podSelector":{},"namespaceSelector":{}}"#, ""),
    (
        r#"{"podSelector":{},"ipBlock":{"cidr":"10.0.0.0/8"}}"#,
        "BadShape spec.ingress[0].from[0]",
    ),
    (r#"{"group":"g"}"#, "Unsupported group"),
    (r#"{"podSelector":{},"x":1,"b":2}"#, "Unsupported b"),
    (
        r#"{"ipBlock":{}}"#,
        "BadShape spec.ingress[0].from[0].ipBlock.cidr",
    ),
    (
        r#"{"ipBlock":{"cidr":"10.0.0.0/8","except":["10.0.0.0/8"]}}"#,
        "",
    ),
    (
        r#"{"ipBlock":{"cidr":"10.0.0.0/8","except":["11.0.0.0/8"]}}"#,
        "BadPrefix",
    ),
    (
        r#"{"ipBlock":{"cidr":"10.0.0.0/8","except":["fd00::/8"]}}"#,
        "BadPrefix",
    ),
    (
        r#"{"ipBlock":{"cidr":"fd00::/8","except":["fd00::/16"]}}"#,
        "",
    ),
    (
        r#"{"ipBlock":{"cidr":"fd00::/8","except":["10.0.0.0/8"]}}"#,
        "BadPrefix",
    ),
    (
        r#"{"ipBlock":{"cidr":"10.0.0.0/8","except":[5]}}"#,
        "BadShape spec.ingress[0].from[0].ipBlock.except[0]",
    ),
    (
        r#"{"ipBlock":{"cidr":"10.0.0.0/8","x":1}}"#,
        "Unsupported x",
    ),
];

#[test]
fn peers(rt: HostRuntime) {
    expect_parts(&rt, rt.alloc(), FROM, "]}]}}", PEERS);
}

const PORTS: &str =
    r#"{"apiVersion":"networking.k8s.io/v1","kind":"NetworkPolicy","metadata":{"name":"p"},"spec":{"egress":[{"ports":["#;

// A port, and its fault.
const PORT_ENTRIES: &[(&str, &str)] = &[
    ("5", "BadShape spec.egress[0].ports[0]"),
    ("{}", ""),
    (r#"{"port":0}"#, "BadPort"),
    (r#"{"port":65535}"#, ""),
    (r#"{"port":65536}"#, "BadPort"),
    (r#"{"port":80.0}"#, "BadPort"),
    (r#"{"port":"80"}"#, "BadPort"),
    (r#"{"port":"http"}"#, ""),
    (r#"{"port":"a23456789012345"}"#, ""),
    (r#"{"port":"a234567890123456"}"#, "BadPort"),
    (r#"{"port":"http","endPort":81}"#, "BadPort"),
    (r#"{"port":80,"endPort":79}"#, "BadPort"),
    (r#"{"port":80,"endPort":80}"#, ""),
    (r#"{"port":80,"endPort":null}"#, ""),
    (r#"{"endPort":80}"#, "BadPort"),
    (r#"{"protocol":null}"#, ""),
    (r#"{"protocol":"SCTP"}"#, ""),
    (r#"{"protocol":"tcp"}"#, "BadPort"),
    (r#"{"protocol":5}"#, "BadPort"),
    (r#"{"port":0,"x":1}"#, "Unsupported x"),
];

#[test]
fn ports(rt: HostRuntime) {
    expect_parts(&rt, rt.alloc(), PORTS, "]}]}}", PORT_ENTRIES);
}

const CLUSTER: &str =
    r#"{"apiVersion":"crd.antrea.io/v1beta1","kind":"ClusterNetworkPolicy","metadata":{"name":"p"},"spec":{"#;

// The spec of a ClusterNetworkPolicy, and its fault.
const CLUSTERS: &[(&str, &str)] = &[
    (r#""priority":1,"appliedTo":[{"podSelector":{}}]"#, ""),
    (
        r#""priority":10000,"appliedTo":[{"namespaceSelector":{}}]"#,
        "",
    ),
    (
        r#""priority":0,"appliedTo":[{"podSelector":{}}]"#,
        "BadPriority",
    ),
    (
        r#""priority":10001,"appliedTo":[{"podSelector":{}}]"#,
        "BadPriority",
    ),
    (
        r#""priority":5.0,"appliedTo":[{"podSelector":{}}]"#,
        "BadPriority",
    ),
    (
        r#""priority":"5","appliedTo":[{"podSelector":{}}]"#,
        "BadPriority",
    ),
    (r#""appliedTo":[{"podSelector":{}}]"#, "BadPriority"),
    (r#""tier":5,"priority":1"#, "BadShape spec.tier"),
    (r#""priority":1"#, "BadShape spec.appliedTo"),
    (r#""priority":1,"appliedTo":[]"#, "BadShape spec.appliedTo"),
    (
        r#""priority":1,"appliedTo":[{}]"#,
        "BadShape spec.appliedTo[0]",
    ),
    (
        r#""priority":1,"appliedTo":[{"serviceAccount":{}}]"#,
        "Unsupported serviceAccount",
    ),
    (r#""priority":1,"appliedTo":[{"group":"g"}]"#, ""),
    (
        r#""priority":1,"appliedTo":[{"group":5}]"#,
        "BadShape spec.appliedTo[0].group",
    ),
    (
        r#""priority":1,"appliedTo":[{"group":"g","podSelector":{}}]"#,
        "BadShape spec.appliedTo[0]",
    ),
];

#[test]
fn cluster_policies(rt: HostRuntime) {
    expect_parts(&rt, rt.alloc(), CLUSTER, "}}", CLUSTERS);
}

const RULE: &str =
    r#"{"apiVersion":"crd.antrea.io/v1beta1","kind":"ClusterNetworkPolicy","metadata":{"name":"p"},"spec":{"priority":1,"appliedTo":[{"podSelector":{}}],"#;

// A tier and a rule of a ClusterNetworkPolicy, and their fault.
const RULES: &[(&str, &str)] = &[
    (r#""ingress":[{"action":"Pass"}]"#, ""),
    (r#""ingress":[{}]"#, "BadAction"),
    (r#""ingress":[{"action":"allow"}]"#, "BadAction"),
    (r#""ingress":[{"action":5}]"#, "BadAction"),
    (
        r#""tier":"BaseLine","egress":[{"action":"Pass"}]"#,
        "BadAction",
    ),
    (r#""tier":"BaseLine","egress":[{"action":"Drop"}]"#, ""),
    (r#""tier":"bass","egress":[{"action":"Pass"}]"#, ""),
    (
        r#""ingress":[{"action":"Drop","name":5,"enableLogging":5,"logLabel":5}]"#,
        "",
    ),
    (
        r#""ingress":[{"action":"Drop","appliedTo":[]}]"#,
        "Unsupported appliedTo",
    ),
    (
        r#""ingress":[{"action":"Drop","from":[{"group":"g"}]}]"#,
        "",
    ),
    (
        r#""ingress":[{"action":"Drop","from":[{"group":"g","podSelector":{}}]}]"#,
        "BadShape spec.ingress[0].from[0]",
    ),
    (
        r#""egress":[{"action":"Drop","to":[{"fqdn":"x"}]}]"#,
        "Unsupported fqdn",
    ),
];

#[test]
fn rules_of_cluster_policies(rt: HostRuntime) {
    expect_parts(&rt, rt.alloc(), RULE, "}}", RULES);
}

const ANTREA: &str =
    r#"{"apiVersion":"crd.antrea.io/v1beta1","kind":"NetworkPolicy","metadata":{"name":"p"},"spec":{"priority":1,"#;

// The spec of a NetworkPolicy of Antrea, and its fault.
const ANTREAS: &[(&str, &str)] = &[
    (r#""appliedTo":[{"podSelector":{}}]"#, ""),
    (r#""appliedTo":[{}]"#, "BadShape spec.appliedTo[0]"),
    (
        r#""appliedTo":[{"namespaceSelector":5}]"#,
        "Unsupported namespaceSelector",
    ),
    (r#""appliedTo":[{"group":"g"}]"#, "Unsupported group"),
    (
        r#""appliedTo":[{"podSelector":{}}],"ingress":[{"action":"Drop","from":[{"group":"g"}]}]"#,
        "Unsupported group",
    ),
];

#[test]
fn antrea_policies(rt: HostRuntime) {
    expect_parts(&rt, rt.alloc(), ANTREA, "}}", ANTREAS);
}

// Policies, and what they say.
const POLICIES: &[(&str, &str)] = &[
    (
        r#"{"apiVersion":"networking.k8s.io/v1","kind":"NetworkPolicy","metadata":{"name":"p"}}"#,
        "(knp:default/p  0 in default/[])",
    ),
    (
        r#"{"apiVersion":"networking.k8s.io/v1","kind":"NetworkPolicy","metadata":{"name":"p","namespace":"a"},"spec":{"podSelector":{"matchLabels":{"app":"web"}},"egress":[{"to":[{"namespaceSelector":{}},{"ipBlock":{"cidr":"10.0.0.0/8","except":["10.1.0.0/16"]}}],"ports":[{"port":80},{"port":"http","protocol":"UDP"},{}]}]}}"#,
        "(knp:a/p  0 in out a/[app in (web)]; knp:a/p egress[0] allow []/[] 10.0.0.0/8-1 80-80 0-65535 http)",
    ),
    // Rules of a direction that the policy hasn't are passed over.
    (
        r#"{"apiVersion":"networking.k8s.io/v1","kind":"NetworkPolicy","metadata":{"name":"p"},"spec":{"policyTypes":["Ingress"],"ingress":[{"from":[]}],"egress":[{}]}}"#,
        "(knp:default/p  0 in default/[]; knp:default/p ingress[0] allow all any)",
    ),
    (
        r#"{"apiVersion":"crd.antrea.io/v1","kind":"NetworkPolicy","metadata":{"name":"p"},"spec":{"tier":"","priority":5,"appliedTo":[{"podSelector":{}}],"ingress":[{"action":"Reject","from":[{"podSelector":{}}]}]}}"#,
        "(anp:default/p application 5 default/[]; anp:default/p ingress[0] reject default/[] any)",
    ),
    (
        r#"{"apiVersion":"crd.antrea.io/v1","kind":"ClusterNetworkPolicy","metadata":{"name":"p"},"spec":{"tier":"Emergency","priority":5,"appliedTo":[{"group":"g"},{"podSelector":{}}],"ingress":[{"action":"Drop","from":[{"group":"h"}]}],"egress":[{"action":"Pass"}]}}"#,
        "(acnp:p Emergency 5 []/[] @g; acnp:p ingress[0] drop any; acnp:p egress[0] pass all any; @h;)",
    ),
    (
        r#"{"type":"DELETED","object":{"apiVersion":"crd.antrea.io/v1","kind":"ClusterNetworkPolicy","metadata":{"name":"p"}}}"#,
        "(no acnp:p)",
    ),
    (
        r#"{"type":"DELETED","object":{"apiVersion":"networking.k8s.io/v1","kind":"NetworkPolicy","metadata":{"name":"p","namespace":"a"}}}"#,
        "(no knp:a/p)",
    ),
    (
        r#"{"type":"DELETED","object":{"apiVersion":"crd.antrea.io/v1","kind":"NetworkPolicy","metadata":{"name":"p"}}}"#,
        "(no anp:default/p)",
    ),
];

#[test]
fn policies_that_are_read(rt: HostRuntime) {
    expect_lines(&rt, rt.alloc(), POLICIES);
}

//! Lines as a whole: bare objects, Lists, events, and which refusal counts.
use crate::read::{expect_lines, expect_parts, told};
use std::alloc::Global;
use std::process::Abort;

// Lines, and what they say.
const LINES: &[(&str, &str)] = &[
    ("", "blank"),
    (" \t\r", "blank"),
    ("{", "NotJson"),
    ("5", "BadShape ."),
    ("[]", "BadShape ."),
    ("{}", "BadShape kind"),
    (r#"{"kind":5}"#, "BadShape kind"),
    (r#"{"kind":null,"type":null}"#, "BadShape kind"),
    (r#"{"type":5}"#, "BadShape type"),
    (r#"{"type":"ERROR"}"#, "BadShape type"),
    (r#"{"type":"X-"}"#, "BadControl"),
    (r#"{"kind":null,"type":"BOOKMARK"}"#, "ignored BOOKMARK"),
    (r#"{"kind":"BOOKMARK"}"#, "ignored BOOKMARK"),
    // Of a key that stands twice the last value counts.
    (r#"{"kind":5,"kind":"Service"}"#, "ignored Service"),
];

#[test]
fn lines(rt: HostRuntime) {
    expect_lines(&rt, rt.alloc(), LINES);
}

// The head of a pod's line, and what it says.
const HEADS: &[(&str, &str)] = &[
    (r#""kind":"Pod""#, "(pod default/web on )"),
    (r#""kind":"Pod","type":"ADDED""#, "(pod default/web on )"),
    (r#""apiVersion":null,"kind":"Pod""#, "(pod default/web on )"),
    (r#""apiVersion":"v1","kind":"Pod""#, "(pod default/web on )"),
    (
        r#""apiVersion":"/v1","kind":"Pod""#,
        "(pod default/web on )",
    ),
    (r#""apiVersion":"v1/x","kind":"Pod""#, "ignored Pod"),
    (
        r#""apiVersion":"crd.antrea.io/v1","kind":"Pod""#,
        "ignored Pod",
    ),
    (r#""apiVersion":5,"kind":"Pod""#, "BadShape apiVersion"),
    (r#""apiVersion":5,"kind":"Service""#, "ignored Service"),
    (r#""apiVersion":5,"kind":"Tier""#, "BadShape apiVersion"),
    (
        r#""apiVersion":"crd.antrea.io","kind":"Tier""#,
        "ignored Tier",
    ),
    (r#""kind":"NetworkPolicy""#, "ignored NetworkPolicy"),
    (r#""kind":"pod""#, "ignored pod"),
    (r#""kind":"""#, "ignored "),
];

#[test]
fn heads(rt: HostRuntime) {
    for (head, expected) in HEADS {
        let line = format!(in rt.alloc(); "{{{head},\"metadata\":{{\"name\":\"web\"}}}}").expect(
            &rt, "memory",
        );
        assert_eq!(rt;
            told(&rt, rt.alloc(), line.as_str()).as_str(),
            *expected,
            "of {head}"
        );
    }
}

// The rest of an event behind its type, and what it says.
const ADDED: &[(&str, &str)] = &[
    (
        r#""object":{"kind":"Pod","metadata":{"name":"a"}}"#,
        "(pod default/a on )",
    ),
    (r#""object":{"kind":"Service"}"#, "ignored Service"),
    (r#""object":null"#, "BadShape object"),
    (r#""object":5"#, "BadShape object"),
    (r#""object":{}"#, "BadShape object.kind"),
    (r#""object":{"kind":5}"#, "BadShape object.kind"),
    (
        r#""object":{"kind":"List","items":[]}"#,
        "BadShape object.kind",
    ),
    (r#""object":{"kind":"Pod"}"#, "BadShape metadata.name"),
    (
        r#""object":{"kind":"Pod","apiVersion":5}"#,
        "BadShape apiVersion",
    ),
];

const DELETED: &[(&str, &str)] = &[
    (
        r#""object":{"kind":"Pod","metadata":{"name":"a"},"spec":5,"status":5}"#,
        "(no default/a)",
    ),
    (
        r#""object":{"kind":"Node","metadata":{"name":"n1"}}"#,
        "(no node n1)",
    ),
    (
        r#""object":{"kind":"Namespace","metadata":{"name":"a.b"}}"#,
        "BadName",
    ),
    (
        r#""object":{"kind":"Pod","metadata":{"name":"a","labels":{"/":""}}}"#,
        "BadLabel",
    ),
    (
        r#""object":{"kind":"Pod","metadata":{"name":"a","namespace":5}}"#,
        "BadShape metadata.namespace",
    ),
    (
        r#""object":{"kind":"Node","metadata":{"name":"n1","namespace":5}}"#,
        "(no node n1)",
    ),
    (r#""object":{"kind":"List"}"#, "BadShape object.kind"),
    (r#""object":{}"#, "BadShape object.kind"),
];

fn expect_events(rt: &impl Abort, alloc: Global, kind: &str, rows: &[(&str, &str)]) {
    for (rest, expected) in rows {
        let line = format!(in alloc; "{{\"type\":\"{kind}\",{rest}}}").expect(rt, "memory");
        assert_eq!(rt;
            told(rt, alloc, line.as_str()).as_str(),
            *expected,
            "of {rest}"
        );
    }
}

#[test]
fn events(rt: HostRuntime) {
    expect_events(&rt, rt.alloc(), "ADDED", ADDED);
    expect_events(&rt, rt.alloc(), "MODIFIED", ADDED);
    expect_events(&rt, rt.alloc(), "DELETED", DELETED);
}

// Lists, and what they say.
const LISTS: &[(&str, &str)] = &[
    (r#"{"kind":"List"}"#, "BadShape items"),
    (r#"{"kind":"List","items":{}}"#, "BadShape items"),
    (r#"{"kind":"List","items":[5]}"#, "BadShape items[0]"),
    (r#"{"kind":"List","items":[null]}"#, "BadShape items[0]"),
    (r#"{"kind":"List","items":[{}]}"#, "BadShape items[0].kind"),
    (
        r#"{"kind":"List","items":[{"kind":"List","items":[]}]}"#,
        "BadShape items[0].kind",
    ),
    (
        r#"{"apiVersion":5,"kind":"List","metadata":5,"items":[]}"#,
        "",
    ),
    (
        r#"{"kind":"List","items":[{"kind":"Service"},{"kind":"Event"}]}"#,
        "",
    ),
    (
        r#"{"kind":"List","items":[{"kind":"Service"},{"kind":"Pod","metadata":{"name":"a"}}]}"#,
        "(pod default/a on )",
    ),
    (
        r#"{"kind":"List","items":[{"kind":"Service"},{"kind":"Pod","metadata":{"name":"a"},"spec":{"nodeName":5}}]}"#,
        "BadShape items[1].spec.nodeName",
    ),
    // As kubectl gives them.
    (
        r#"{"apiVersion":"v1","items":[{"apiVersion":"v1","kind":"Pod","metadata":{"annotations":{"note":"x"},"creationTimestamp":"2024-05-01T10:00:00Z","labels":{"app":"api"},"name":"api-x2l4q","namespace":"shop","ownerReferences":[{"kind":"ReplicaSet","name":"api"}],"resourceVersion":"4711","uid":"2f"},"spec":{"containers":[{"image":"api:1","name":"api","ports":[{"containerPort":8080,"protocol":"TCP"}]}],"hostNetwork":false,"nodeName":"n1"},"status":{"hostIP":"192.168.0.11","phase":"Running","podIP":"10.10.1.20","podIPs":[{"ip":"10.10.1.20"}]}},{"apiVersion":"v1","kind":"Service","metadata":{"name":"api"}}],"kind":"List","metadata":{"resourceVersion":""}}"#,
        "(pod shop/api-x2l4q on n1 10.10.1.20)",
    ),
    // The first item with a fault decides, whatever the faults of the later ones.
    (
        r#"{"kind":"List","items":[{"kind":"Pod","metadata":{"name":"A"}},5]}"#,
        "BadName",
    ),
    (
        r#"{"kind":"List","items":[{"kind":"Tier","apiVersion":5},{}]}"#,
        "BadShape items[0].apiVersion",
    ),
];

#[test]
fn lists(rt: HostRuntime) {
    expect_lines(&rt, rt.alloc(), LISTS);
}

const POLICY: &str =
    r#"{"apiVersion":"crd.antrea.io/v1","kind":"ClusterNetworkPolicy","metadata":"#;

// A policy from its metadata on, with two faults, and the one that counts.
const PAIRS: &[(&str, &str)] = &[
    (r#"{"name":"A"},"spec":5"#, "BadShape spec"),
    (
        r#"{"name":"A","labels":{"a":"b c"}},"spec":{"priority":1,"appliedTo":[{"x":1}]}"#,
        "Unsupported x",
    ),
    (
        r#"{"name":"A","labels":{"a":"b c"}},"spec":{"priority":1,"appliedTo":[{"podSelector":{}}]}"#,
        "BadName",
    ),
    (
        r#"{"name":"a"},"spec":{"priority":1,"appliedTo":[{"podSelector":{"matchExpressions":[{"key":"a","operator":"Like"},{"key":"a b","operator":"Exists"}]}}]}"#,
        "BadLabel",
    ),
    (
        r#"{"name":"a"},"spec":{"priority":1,"appliedTo":[{"podSelector":{}}],"ingress":[{"action":"Drop","from":[{"ipBlock":{"cidr":"x"}}]}],"egress":[{"action":"Drop","to":[{"podSelector":{"matchExpressions":[{"key":"a","operator":"Like"}]}}]}]}"#,
        "BadSelector",
    ),
    (
        r#"{"name":"a"},"spec":{"priority":1,"appliedTo":[{"podSelector":{}}],"ingress":[{"action":"Drop","ports":[{"port":0}]},{"action":"Drop","from":[{"ipBlock":{"cidr":"x"}}]}]}"#,
        "BadPrefix",
    ),
    (
        r#"{"name":"a"},"spec":{"priority":0,"appliedTo":[{"podSelector":{}}],"ingress":[{"action":"Drop","ports":[{"port":0}]}]}"#,
        "BadPort",
    ),
    (
        r#"{"name":"a"},"spec":{"appliedTo":[{"podSelector":{}}],"ingress":[{}]}"#,
        "BadPriority",
    ),
    // The last place has the least refusal; and of two places with one refusal the first counts.
    (
        r#"{"name":"A"},"spec":{"priority":0,"appliedTo":[{"x":1}],"ingress":[{}],"egress":[{"action":"Drop","to":5}]}"#,
        "BadShape spec.egress[0].to",
    ),
    (
        r#"{"name":"a"},"spec":{"priority":1,"appliedTo":[{"podSelector":5}],"ingress":5}"#,
        "BadShape spec.appliedTo[0].podSelector",
    ),
    (
        r#"{"name":"a"},"spec":{"priority":1,"appliedTo":[{"y":1,"x":1},{"a":1}]}"#,
        "Unsupported x",
    ),
];

#[test]
fn pairs_of_faults(rt: HostRuntime) {
    expect_parts(&rt, rt.alloc(), POLICY, "}", PAIRS);
}

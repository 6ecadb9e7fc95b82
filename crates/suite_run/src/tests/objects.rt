use crate::tests::rows::{ASK_80, ASK_81, POLICY, Row, SITE, SITE_OUT, joined};
use crate::tests::{NONE, replayed};
use std::alloc::Global;
use std::process::Abort;

// Lines that come after those of two nodes and three pods, the exit status, and what is written of them.
const ROWS: &[Row] = &[
    // Objects of kinds that are not read.
    (
        &[
            br#"{"kind":"Service"}"#,
            br#"{"type":"BOOKMARK","object":{"kind":"Pod","metadata":{"resourceVersion":"9"}}}"#,
        ],
        0,
        b"6 ignored Service\n7 ignored BOOKMARK\n",
    ),
    // The removal of an absent pod.
    (
        &[
            br#"{"type":"DELETED","object":{"apiVersion":"v1","kind":"Pod","metadata":{"namespace":"default","name":"job"},"status":{"phase":7}}}"#,
        ],
        0,
        b"6 unchanged\n",
    ),
    // A policy with an egress rule and no types isolates both ways.
    (
        &[
            br#"{"apiVersion":"networking.k8s.io/v1","kind":"NetworkPolicy","metadata":{"namespace":"default","name":"web-out"},"spec":{"podSelector":{"matchLabels":{"app":"web"}},"egress":[{"to":[{"podSelector":{"matchLabels":{"app":"db"}}}]}]}}"#,
            ASK_80,
            br#"{"type":"X-ASK","view":"policies","node":"n1","direction":"egress","own":"10.10.1.5","peer":"10.10.2.7","protocol":"tcp","port":5432}"#,
            br#"{"type":"X-ASK","view":"policies","node":"n1","direction":"egress","own":"10.10.1.5","peer":"10.10.1.6","protocol":"tcp","port":80}"#,
        ],
        0,
        b"6 revision 4\n7 controller 4 drop by isolation\n8 controller 4 allow by knp:default/web-out egress[0]\n9 controller 4 drop by isolation\n",
    ),
    // NotIn selects pods without the key.
    (
        &[
            br#"{"apiVersion":"networking.k8s.io/v1","kind":"NetworkPolicy","metadata":{"namespace":"default","name":"no-prod"},"spec":{"podSelector":{"matchExpressions":[{"key":"env","operator":"NotIn","values":["prod"]}]},"policyTypes":["Ingress"]}}"#,
            ASK_80,
        ],
        0,
        b"6 revision 4\n7 controller 4 drop by isolation\n",
    ),
    // A List as kubectl gives it.
    (
        &[
            br#"{"apiVersion":"v1","items":[{"apiVersion":"v1","kind":"Pod","metadata":{"annotations":{"note":"x"},"labels":{"app":"api"},"name":"api-7d9c","namespace":"shop","resourceVersion":"4711"},"spec":{"containers":[{"image":"api:1","name":"api","ports":[{"containerPort":8080,"protocol":"TCP"}]}],"hostNetwork":false,"nodeName":"n1"},"status":{"hostIP":"192.168.0.11","phase":"Running","podIP":"10.10.1.20","podIPs":[{"ip":"10.10.1.20"}]}},{"apiVersion":"v1","kind":"Service","metadata":{"name":"api"}}],"kind":"List","metadata":{"resourceVersion":""}}"#,
        ],
        0,
        b"6 revision 4\n",
    ),
    // Faults of objects, each by its name and its place.
    (
        &[
            br#"{"apiVersion":"v1","kind":"Pod","metadata":{"namespace":"default","name":"new"},"status":{"podIP":"10.10.1"}}"#,
            br#"{"apiVersion":"v1","kind":"Pod","metadata":{"namespace":"default","name":"Web"}}"#,
            br#"{"apiVersion":"v1","kind":"Pod","metadata":{"name":"new","labels":{"app":"a b"}}}"#,
            br#"{"kind":"Pod","metadata":{}}"#,
            br#"{"apiVersion":"networking.k8s.io/v1","kind":"NetworkPolicy","metadata":{"namespace":"default","name":"web-in"},"spec":{"podSelector":{"matchLabels":{"app":"web"}},"policyTypes":["Ingress"],"ingress":[{"from":[{"ipBlock":{"cidr":"10.0.0.0/24","except":["10.0.1.0/24"]}}]}]}}"#,
            br#"{"apiVersion":"networking.k8s.io/v1","kind":"NetworkPolicy","metadata":{"namespace":"default","name":"web-in"},"spec":{"podSelector":{"matchLabels":{"app":"web"}},"policyTypes":["Ingress"],"ingress":[{"from":[{"ipBlock":{"cidr":"10.0.0.0/33"}}]}]}}"#,
            br#"{"apiVersion":"networking.k8s.io/v1","kind":"NetworkPolicy","metadata":{"namespace":"default","name":"web-in"},"spec":{"podSelector":{"matchLabels":{"app":"web"}},"policyTypes":["Ingress"],"ingress":[{"ports":[{"protocol":"TCP","port":0}]}]}}"#,
            br#"{"apiVersion":"networking.k8s.io/v1","kind":"NetworkPolicy","metadata":{"namespace":"default","name":"web-in"},"spec":{"podSelector":{"matchLabels":{"app":"web"}},"policyTypes":["Ingress"],"ingress":[{"ports":[{"protocol":"TCP","port":"8080"}]}]}}"#,
            br#"{"apiVersion":"networking.k8s.io/v1","kind":"NetworkPolicy","metadata":{"name":"web-in"},"spec":{"podSelector":{"matchExpressions":[{"key":"app","operator":"Like","values":["web"]}]}}}"#,
            b"[]",
        ],
        1,
        b"6 refused BadAddr\n7 refused BadName\n8 refused BadLabel\n9 refused BadShape metadata.name\n10 refused BadPrefix\n11 refused BadPrefix\n12 refused BadPort\n13 refused BadPort\n14 refused BadSelector\n15 refused BadShape .\n",
    ),
    // Faults of native policies.
    (
        &[
            br#"{"apiVersion":"crd.antrea.io/v1beta1","kind":"ClusterNetworkPolicy","metadata":{"name":"stop"},"spec":{"tier":"emergency","priority":5.5,"appliedTo":[{"podSelector":{"matchLabels":{"app":"web"}}}],"ingress":[]}}"#,
            br#"{"apiVersion":"crd.antrea.io/v1beta1","kind":"ClusterNetworkPolicy","metadata":{"name":"stop"},"spec":{"tier":"emergency","priority":5,"appliedTo":[{"podSelector":{"matchLabels":{"app":"web"}}}],"ingress":[{"action":"Drop","toServices":[{"name":"web"}]}]}}"#,
            br#"{"apiVersion":"crd.antrea.io/v1beta1","kind":"ClusterNetworkPolicy","metadata":{"name":"base"},"spec":{"tier":"baseline","priority":1,"appliedTo":[{"podSelector":{"matchLabels":{"app":"web"}}}],"ingress":[{"action":"Pass"}]}}"#,
            br#"{"apiVersion":"crd.antrea.io/v1beta1","kind":"ClusterNetworkPolicy","metadata":{"name":"stop"},"spec":{"tier":"emergency","priority":5,"appliedTo":[{"podSelector":{"matchLabels":{"app":"web"}}}],"ingress":[{"action":"Deny"}]}}"#,
        ],
        1,
        b"6 refused BadPriority\n7 refused Unsupported toServices\n8 refused BadAction\n9 refused BadAction\n",
    ),
    // Baseline is asked only where no Kubernetes policy isolates.
    (
        &[
            POLICY,
            br#"{"apiVersion":"crd.antrea.io/v1beta1","kind":"ClusterNetworkPolicy","metadata":{"name":"base"},"spec":{"tier":"baseline","priority":1,"appliedTo":[{"podSelector":{}}],"ingress":[{"action":"Allow","ports":[{"protocol":"TCP","port":81}]}]}}"#,
            ASK_81,
            br#"{"type":"X-ASK","view":"policies","node":"n2","direction":"ingress","own":"10.10.2.7","peer":"10.10.1.6","protocol":"tcp","port":81}"#,
            br#"{"type":"X-ASK","view":"policies","node":"n2","direction":"ingress","own":"10.10.2.7","peer":"10.10.1.6","protocol":"tcp","port":82}"#,
        ],
        0,
        b"6 revision 4\n7 revision 5\n8 controller 5 drop by isolation\n9 controller 5 allow by acnp:base ingress[0]\n10 controller 5 allow by default\n",
    ),
    // Of equal priorities the least name decides, whichever came first.
    (
        &[
            br#"{"apiVersion":"crd.antrea.io/v1beta1","kind":"ClusterNetworkPolicy","metadata":{"name":"zz"},"spec":{"tier":"application","priority":5,"appliedTo":[{"podSelector":{"matchLabels":{"app":"web"}}}],"ingress":[{"action":"Drop"}]}}"#,
            br#"{"apiVersion":"crd.antrea.io/v1beta1","kind":"ClusterNetworkPolicy","metadata":{"name":"aa"},"spec":{"tier":"application","priority":5,"appliedTo":[{"podSelector":{"matchLabels":{"app":"web"}}}],"ingress":[{"action":"Allow"}]}}"#,
            ASK_80,
        ],
        0,
        b"6 revision 4\n7 revision 5\n8 controller 5 allow by acnp:aa ingress[0]\n",
    ),
    // Pass goes on to the Kubernetes policies.
    (
        &[
            POLICY,
            br#"{"apiVersion":"crd.antrea.io/v1beta1","kind":"ClusterNetworkPolicy","metadata":{"name":"stop"},"spec":{"tier":"emergency","priority":5,"appliedTo":[{"podSelector":{"matchLabels":{"app":"web"}}}],"ingress":[{"action":"Drop","from":[{"podSelector":{"matchLabels":{"app":"cli"}}}]}]}}"#,
            ASK_80,
            br#"{"apiVersion":"crd.antrea.io/v1beta1","kind":"ClusterNetworkPolicy","metadata":{"name":"stop"},"spec":{"tier":"emergency","priority":5,"appliedTo":[{"podSelector":{"matchLabels":{"app":"web"}}}],"ingress":[{"action":"Pass","from":[{"podSelector":{"matchLabels":{"app":"cli"}}}]}]}}"#,
            ASK_80,
        ],
        0,
        b"6 revision 4\n7 revision 5\n8 controller 5 drop by acnp:stop ingress[0]\n9 revision 6\n10 controller 6 allow by knp:default/web-in ingress[0]\n",
    ),
    // A List with a refused item changes nothing.
    (
        &[
            br#"{"apiVersion":"v1","kind":"List","items":[{"apiVersion":"v1","kind":"Pod","metadata":{"name":"new"},"spec":{"nodeName":"n1"},"status":{"podIP":"10.10.1.9"}},{"apiVersion":"crd.antrea.io/v1beta1","kind":"ClusterNetworkPolicy","metadata":{"name":"stop"},"spec":{"tier":"gold","priority":5,"appliedTo":[{"podSelector":{"matchLabels":{"app":"web"}}}],"ingress":[{"action":"Drop"}]}}]}"#,
            POLICY,
        ],
        1,
        b"6 refused NoSuchTier gold\n7 revision 4\n",
    ),
    // Tiers keep their priorities, and stay while a policy is in them.
    (
        &[
            br#"{"apiVersion":"crd.antrea.io/v1beta1","kind":"Tier","metadata":{"name":"emergency"},"spec":{"priority":51}}"#,
            br#"{"apiVersion":"crd.antrea.io/v1beta1","kind":"Tier","metadata":{"name":"gold"},"spec":{"priority":50}}"#,
            br#"{"apiVersion":"crd.antrea.io/v1beta1","kind":"Tier","metadata":{"name":"gold"},"spec":{"priority":10}}"#,
            br#"{"apiVersion":"crd.antrea.io/v1beta1","kind":"ClusterNetworkPolicy","metadata":{"name":"stop"},"spec":{"tier":"gold","priority":5,"appliedTo":[{"podSelector":{"matchLabels":{"app":"web"}}}],"ingress":[{"action":"Drop"}]}}"#,
            br#"{"type":"DELETED","object":{"apiVersion":"crd.antrea.io/v1beta1","kind":"Tier","metadata":{"name":"gold"},"spec":{"priority":10}}}"#,
        ],
        1,
        b"6 refused TierFixed\n7 refused TierTaken emergency\n8 revision 4\n9 revision 5\n10 refused TierInUse acnp:stop\n",
    ),
    // A port by its name.
    (
        &[
            br#"{"apiVersion":"networking.k8s.io/v1","kind":"NetworkPolicy","metadata":{"namespace":"default","name":"web-in"},"spec":{"podSelector":{"matchLabels":{"app":"web"}},"policyTypes":["Ingress"],"ingress":[{"ports":[{"protocol":"TCP","port":"http"}]}]}}"#,
            ASK_80,
            br#"{"apiVersion":"v1","kind":"Pod","metadata":{"name":"web","labels":{"app":"web"}},"spec":{"nodeName":"n1","containers":[{"name":"c","ports":[{"name":"http","containerPort":80}]}]},"status":{"podIP":"10.10.1.5"}}"#,
            ASK_80,
        ],
        0,
        b"6 revision 4\n7 controller 4 drop by isolation\n8 revision 5\n9 controller 5 allow by knp:default/web-in ingress[0]\n",
    ),
    // What is read, and nothing serves yet.
    (
        &[
            br#"{"type":"X-ATTACH","node":"n9","port":3,"address":"10.10.1.5"}"#,
            br#"{"type":"X-RESTART","node":"n1"}"#,
            br#"{"type":"X-ANTCTL","words":["get","networkpolicy"]}"#,
            br#"{"apiVersion":"crd.antrea.io/v1beta1","kind":"ClusterGroup","metadata":{"name":"g"},"spec":{"ipBlocks":[]}}"#,
            br#"{"type":"DELETED","object":{"apiVersion":"crd.antrea.io/v1beta1","kind":"ExternalIPPool","metadata":{"name":"p"}}}"#,
            br#"{"kind":"List","items":[{"kind":"Pod","metadata":{"name":"new"}},{"apiVersion":"crd.antrea.io/v1beta1","kind":"ClusterNetworkPolicy","metadata":{"name":"stop"},"spec":{"tier":"application","priority":5,"appliedTo":[{"podSelector":{"matchLabels":{"app":"web"}}}],"ingress":[{"action":"Drop","from":[{"group":"g"}]}]}}]}"#,
        ],
        1,
        b"6 refused NotBuilt\n7 refused NotBuilt\n8 refused NotBuilt\n9 refused NotBuilt\n10 refused NotBuilt\n11 refused NotBuilt\n",
    ),
];

// The bytes of both, the one after the other.
fn both(rt: &impl Abort, alloc: Global, first: &[u8], second: &[u8]) -> Vec<u8> {
    let mut bytes = first.to_vec(alloc).expect(rt, "memory");
    bytes.extend_from_slice(second).expect(rt, "memory");
    bytes
}

#[test]
fn objects_and_their_faults(rt: HostRuntime) {
    let site = joined(rt.alloc(), SITE).expect(&rt, "memory");
    let site = both(&rt, rt.alloc(), site.as_slice(), b"\n");
    for (lines, status, out) in ROWS {
        let more = joined(rt.alloc(), lines).expect(&rt, "memory");
        let bytes = both(&rt, rt.alloc(), site.as_slice(), more.as_slice());
        let ran = replayed(&rt, rt.alloc(), &["replay", "F"], bytes.as_slice(), NONE);
        assert_eq!(rt; ran.status.exit_code(), *status);
        let out = both(&rt, rt.alloc(), SITE_OUT, out);
        assert_eq!(rt; ran.out.as_slice(), out.as_slice());
    }
}

// A line of spaces as long as a line may be is blank; one that is longer is refused.
#[test]
fn lines_of_spaces(rt: HostRuntime) {
    let cases: [(usize, u8, &[u8]); 2] = [
        (1_048_576, 0, b""),
        (1_048_577, 1, b"1 refused TooLong 1048577\n"),
    ];
    for (count, status, out) in cases {
        let bytes = Vec::from_elem(rt.alloc(), b' ', count).expect(&rt, "memory");
        let ran = replayed(&rt, rt.alloc(), &["replay", "F"], bytes.as_slice(), NONE);
        assert_eq!(rt; ran.status.exit_code(), status);
        assert_eq!(rt; ran.out.as_slice(), out);
    }
}

use crate::tests::rows::{CLI, DB, N1, N2, POLICY, WEB, joined};
use crate::tests::{NONE, replayed};
use std::alloc::{AllocError, Global};

const HELD_80: &[u8] =
    br#"{"type":"X-ASK","view":"held","node":"n1","direction":"ingress","own":"10.10.1.5","peer":"10.10.1.6","protocol":"tcp","port":80}"#;

const HELD_81: &[u8] =
    br#"{"type":"X-ASK","view":"held","node":"n1","direction":"ingress","own":"10.10.1.5","peer":"10.10.1.6","protocol":"tcp","port":81}"#;

const DELIVER_POLICIES: &[u8] = br#"{"type":"X-DELIVER","node":"n1","stream":"policies"}"#;

const DELIVER_ADDRESSES: &[u8] = br#"{"type":"X-DELIVER","node":"n1","stream":"addresses"}"#;

const DELIVER_APPLIED: &[u8] = br#"{"type":"X-DELIVER","node":"n1","stream":"applied"}"#;

const CUT_POLICIES: &[u8] = br#"{"type":"X-CUT","node":"n1","stream":"policies"}"#;

const CUT_ADDRESSES: &[u8] = br#"{"type":"X-CUT","node":"n1","stream":"addresses"}"#;

const CUT_APPLIED: &[u8] = br#"{"type":"X-CUT","node":"n1","stream":"applied"}"#;

const REJOIN_POLICIES: &[u8] = br#"{"type":"X-REJOIN","node":"n1","stream":"policies"}"#;

const SETTLE: &[u8] = br#"{"type":"X-SETTLE"}"#;

const DROP: &[u8] =
    br#"{"apiVersion":"crd.antrea.io/v1beta1","kind":"ClusterNetworkPolicy","metadata":{"name":"stop"},"spec":{"tier":"emergency","priority":5,"appliedTo":[{"podSelector":{"matchLabels":{"app":"web"}}}],"ingress":[{"action":"Drop","from":[{"podSelector":{"matchLabels":{"app":"cli"}}}]}]}}"#;

const PASS: &[u8] =
    br#"{"apiVersion":"crd.antrea.io/v1beta1","kind":"ClusterNetworkPolicy","metadata":{"name":"stop"},"spec":{"tier":"emergency","priority":5,"appliedTo":[{"podSelector":{"matchLabels":{"app":"web"}}}],"ingress":[{"action":"Pass","from":[{"podSelector":{"matchLabels":{"app":"cli"}}}]}]}}"#;

// The places of a queue, the lines of a file, the exit status, and what is written.
type Row = (&'static str, &'static [&'static [u8]], u8, &'static [u8]);

const ROWS: &[Row] = &[
    // What is held is asked before and after the addresses have come.
    (
        "256",
        &[
            N1,
            N2,
            WEB,
            CLI,
            DB,
            POLICY,
            DELIVER_POLICIES,
            DELIVER_APPLIED,
            HELD_80,
            DELIVER_ADDRESSES,
            HELD_80,
        ],
        0,
        b"1 nodes 1\n2 nodes 2\n3 revision 1\n4 revision 2\n5 revision 3\n6 revision 4\n7 delivered 4\n8 delivered 4\n9 n1 4/0/4 drop by isolation\n10 delivered 4\n11 n1 4/4/4 allow by knp:default/web-in ingress[0]\n",
    ),
    // With one place a queue the second revision cuts all streams. A full queue takes no snapshot, and a live stream none.
    (
        "1",
        &[
            N1,
            N2,
            WEB,
            CLI,
            REJOIN_POLICIES,
            DELIVER_POLICIES,
            REJOIN_POLICIES,
            REJOIN_POLICIES,
            DELIVER_POLICIES,
            HELD_80,
            CUT_POLICIES,
            CUT_POLICIES,
        ],
        1,
        b"1 nodes 1\n2 nodes 2\n3 revision 1\n4 revision 2 cut n1/policies n1/addresses n1/applied n2/policies n2/addresses n2/applied\n5 refused Full\n6 delivered 1\n7 rejoined 2\n8 refused NotCut\n9 delivered 1\n10 n1 2/0/0 allow by default\n11 cut\n12 unchanged\n",
    ),
    // A drop in the emergency tier, and then a pass in its place.
    (
        "256",
        &[
            N1, N2, WEB, CLI, DB, POLICY, DROP, SETTLE, HELD_80, PASS, SETTLE, HELD_80,
        ],
        0,
        b"1 nodes 1\n2 nodes 2\n3 revision 1\n4 revision 2\n5 revision 3\n6 revision 4\n7 revision 5\n8 settled 5\n9 n1 5/5/5 drop by acnp:stop ingress[0]\n10 revision 6\n11 settled 6\n12 n1 6/6/6 allow by knp:default/web-in ingress[0]\n",
    ),
    // While the nodes aren't fixed none is listed, and nothing waits.
    (
        "256",
        &[
            N1,
            DELIVER_POLICIES,
            CUT_POLICIES,
            REJOIN_POLICIES,
            HELD_80,
            br#"{"type":"X-DELIVER"}"#,
            SETTLE,
        ],
        1,
        b"1 nodes 1\n2 refused NoNode\n3 refused NoNode\n4 refused NoNode\n5 refused NoNode\n6 delivered 0\n7 settled 0\n",
    ),
    // One place a queue and no cut: all that was missed comes with the snapshots.
    (
        "1",
        &[N1, N2, WEB, CLI, DB, POLICY, SETTLE, HELD_80, HELD_81],
        0,
        b"1 nodes 1\n2 nodes 2\n3 revision 1\n4 revision 2 cut n1/policies n1/addresses n1/applied n2/policies n2/addresses n2/applied\n5 revision 3\n6 revision 4\n7 settled 4\n8 n1 4/4/4 allow by knp:default/web-in ingress[0]\n9 n1 4/4/4 drop by isolation\n",
    ),
];

#[test]
fn messages_and_what_agents_hold(rt: HostRuntime) {
    for (ring, lines, status, out) in ROWS {
        let bytes = joined(rt.alloc(), lines).expect(&rt, "memory");
        let words = ["replay", "--ring", *ring, "F"];
        let ran = replayed(&rt, rt.alloc(), &words, bytes.as_slice(), NONE);
        assert_eq!(rt; ran.status.exit_code(), *status);
        assert_eq!(rt; ran.out.as_slice(), *out);
    }
}

// A stream is cut before one of the lines after the nodes, and at the end all is settled and asked.
fn with_cut(alloc: Global, cut: &'static [u8], place: usize) -> Result<Vec<u8>, AllocError> {
    let site: [&[u8]; 6] = [N1, N2, WEB, CLI, DB, POLICY];
    let mut lines = Vec::new(alloc);
    for (i, line) in site.into_iter().enumerate() {
        if i == place {
            lines.push(cut)?;
        }
        lines.push(line)?;
    }
    lines.push(SETTLE)?;
    lines.push(HELD_80)?;
    lines.push(HELD_81)?;
    joined(alloc, lines.as_slice())
}

// Wherever a stream is cut, all ends as it does without.
#[test]
fn a_cut_before_each_line_ends_alike(rt: HostRuntime) {
    let end: &[u8] =
        b"8 settled 4\n9 n1 4/4/4 allow by knp:default/web-in ingress[0]\n10 n1 4/4/4 drop by isolation\n";
    for cut in [CUT_POLICIES, CUT_ADDRESSES, CUT_APPLIED] {
        for place in 3..6 {
            let bytes = with_cut(rt.alloc(), cut, place).expect(&rt, "memory");
            let ran = replayed(&rt, rt.alloc(), &["replay", "F"], bytes.as_slice(), NONE);
            assert_eq!(rt; ran.status.exit_code(), 0);
            assert!(rt; ran.out.as_slice().ends_with(end));
        }
    }
}

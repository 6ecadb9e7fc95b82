//! Changes that are written as lines of input, and what each of them comes to.
use cl_types::{NoMemory, Text, write_bytes, write_number, write_pod, write_policy};
use cluster_objects::{Applied, Cluster, ClusterRefusal};
use cluster_types::{Change, Object, RefItem};
use policy_reader::{LineItem, read_line};
use std::alloc::Global;
use std::process::Abort;

// The change of a line with one object that refers to no other.
pub(crate) fn change_of(rt: &impl Abort, alloc: Global, line: &[u8]) -> Change {
    assert!(rt; line.len() <= 1_048_576);
    let Ok(LineItem::Objects(mut items)) = read_line(alloc, line) else {
        panic!(rt; "the line has no object")
    };
    match items.vec_mut().pop() {
        Some(RefItem::Plain(change)) => change,
        Some(RefItem::PutPolicy(put)) => Change::Put(Object::Policy(put.policy)),
        _ => panic!(rt; "the line is no change"),
    }
}

fn write_refusal(out: &mut Text, refusal: &ClusterRefusal) -> Result<(), NoMemory> {
    match refusal {
        ClusterRefusal::NodesFixed => write_bytes(out, b"NodesFixed"),
        ClusterRefusal::CidrOverlap(node) => write_detail(out, b"CidrOverlap ", node),
        ClusterRefusal::TierFixed => write_bytes(out, b"TierFixed"),
        ClusterRefusal::TierTaken(tier) => write_detail(out, b"TierTaken ", tier),
        ClusterRefusal::TierInUse(policy) => {
            write_bytes(out, b"TierInUse ")?;
            write_policy(out, policy)
        }
        ClusterRefusal::NoSuchTier(tier) => write_detail(out, b"NoSuchTier ", tier),
        ClusterRefusal::AddressInUse(pod) => {
            write_bytes(out, b"AddressInUse ")?;
            write_pod(out, pod)
        }
        ClusterRefusal::TooMany(limit) => {
            write_bytes(out, b"TooMany ")?;
            write_number(out, u64::from(*limit))
        }
        ClusterRefusal::TooManyMarks(node) => write_detail(out, b"TooManyMarks ", node),
        ClusterRefusal::NoMemory => Err(NoMemory),
    }
}

fn write_detail(out: &mut Text, word: &[u8], detail: &Text) -> Result<(), NoMemory> {
    write_bytes(out, word)?;
    write_bytes(out, detail.as_slice())
}

fn write_result(out: &mut Text, outcome: Result<Applied, ClusterRefusal>) -> Result<(), NoMemory> {
    match outcome {
        Ok(Applied::Changed) => write_bytes(out, b"changed"),
        Ok(Applied::Unchanged) => write_bytes(out, b"unchanged"),
        Err(refusal) => write_refusal(out, &refusal),
    }
}

// What the line comes to: `changed`, `unchanged`, or the name and the detail of the refusal.
pub(crate) fn comes_to(rt: &impl Abort, alloc: Global, cluster: &mut Cluster, line: &[u8]) -> Text {
    let change = change_of(rt, alloc, line);
    let mut text = Text::new(alloc);
    write_result(&mut text, cluster.try_apply(change)).expect(rt, "memory");
    text
}

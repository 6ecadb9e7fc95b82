ghost use Rattle.std.specs.Prelude.{◌≡◌, option_copied};
ghost use Rattle.cl_types.specs.Judgement.{judgement_of};
ghost use Rattle.cl_types.specs.Text.{text_eq};
ghost use Rattle.cluster_types.specs.Evaluation.{side_of, pod_on, side};

use crate::asked::{Asked, ask};
use crate::rules::find_rules;
use cl_types::{Addr, Judged, Question, Text};
use cluster_objects::{Cluster, Pod, allowed_by_default, allowed_first, decided_first};

fn judge_pod<'c>(asked: &Asked<'c, '_>) -> Judged<'c>
    ensures { judgement_of result ≡ side_of asked.now.cluster.now.cluster asked.now.pod.now asked.now.question.now }
{
    let found = find_rules(asked);
    let otherwise = if found.isolated {
        allowed_first(found.kubernetes)
    } else {
        decided_first(found.baseline, allowed_by_default())
    };
    decided_first(found.native, otherwise)
}

fn is_on(pod: &Pod, node: &Text) -> bool
    ensures { result ≡ text_eq pod.now.node node.now }
{
    pod.node == *node
}

// The counting pod on the node that has the address.
fn pod_on<'c>(c: &'c Cluster, node: &Text, a: Addr) -> Option<&'c Pod>
    ensures { option_copied result ≡ pod_on c.now.cluster node.now a }
{
    match c.pod_at(a) {
        Some(pod) => if is_on(pod, node) { Some(pod) } else { None },
        None => None,
    }
}

/// The policies' verdict on one side of some traffic, for the counting pod on the node that has the
/// question's own address.
pub fn judge<'c>(c: &'c Cluster, node: &Text, q: &Question) -> Judged<'c>
    ensures { judgement_of result ≡ side c.now.cluster node.now q.now }
{
    match pod_on(c, node, q.own) {
        Some(pod) => judge_pod(&ask(c, pod, q)),
        None => allowed_by_default(),
    }
}

ghost use Rattle.std.specs.Prelude.{◌≡◌, option_copied};
ghost use Rattle.cluster_objects.specs.Addresses.{StandsForAll};

use cl_types::Question;
use cluster_objects::{Cluster, Pod};

/// A question about a pod, with the counting pod at the peer's address.
#[derive(Drop)]
pub(crate) struct Asked<'c, 'q> {
    pub(crate) cluster: &'c Cluster,
    pub(crate) question: &'q Question,
    pub(crate) pod: &'c Pod,
    pub(crate) peer: Option<&'c Pod>,
    ghost stands: { StandsForAll cluster.now.cluster.pods question.now.peer (option_copied peer) },
}

/// The question with the pod at its peer's address.
pub(crate) fn ask<'c, 'q>(
    cluster: &'c Cluster,
    pod: &'c Pod,
    question: &'q Question,
) -> Asked<'c, 'q>
    ensures cluster { result.cluster.now ≡ cluster.now }
    ensures question { result.question.now ≡ question.now }
    ensures pod { result.pod.now ≡ pod.now }
{
    Asked {
        cluster,
        question,
        pod,
        peer: cluster.pod_at(question.peer),
    }
}

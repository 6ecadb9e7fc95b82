//! What holds of every index, whatever the code.
ghost use Rattle.group_index.specs.Before.{StandsBeforeNamespacePut, StandsBeforeNamespaceRemoved, StandsBeforePodPut, StandsBeforePodRemoved};

use cluster_objects::undoes_take_back;

/// An index that stood for a cluster stands, once a pod or a namespace of the cluster changed, for what the cluster was.
/// So it can follow the change.
pub fn index_stands_before()
    ensures pod_put { StandsBeforePodPut }
    ensures pod_removed { StandsBeforePodRemoved }
    ensures namespace_put { StandsBeforeNamespacePut }
    ensures namespace_removed { StandsBeforeNamespaceRemoved }
{
    undoes_take_back();
}

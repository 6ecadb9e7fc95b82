//! The law of pods that are read.
ghost use Rattle.pod_reader.specs.Laws.{PodsAreWhole};

/// Whatever the JSON is, a pod has at most one address of each family, its ports ascend by name and protocol, and its
/// labels by their keys.
pub fn pods_are_whole()
    ensures { PodsAreWhole }
{}

//! What holds of all changes of clusters, whatever the code.
ghost use Rattle.cluster_objects.specs.Laws.{AddressesHaveOneNode, NoObjectsAreACluster, ChangesKeepClusters, ListsOfChangesKeepClusters, FixedNodesStay, UnchangedLeavesTheCluster, MarksSuffice, UndoTakesBack, UndoesTakeBack};

/// What every cluster keeps holds of the static tiers alone, and of what changes leave that aren't refused.
pub fn changes_keep_clusters()
    ensures none { NoObjectsAreACluster }
    ensures one { ChangesKeepClusters }
    ensures all { ListsOfChangesKeepClusters }
{}

/// A change moves no node once the nodes are fixed, and one without a difference moves nothing at all.
pub fn changes_leave_the_rest()
    ensures nodes { FixedNodesStay }
    ensures unchanged { UnchangedLeavesTheCluster }
{}

/// Changes that are taken back in the reverse order leave the cluster of before.
pub fn undoes_take_back()
    ensures one { UndoTakesBack }
    ensures all { UndoesTakeBack }
{}

/// No node of a cluster needs more marks than there are.
pub fn marks_suffice()
    ensures { MarksSuffice }
{}

/// An address is in the blocks of one node of a cluster at most.
pub fn address_has_one_node()
    ensures { AddressesHaveOneNode }
{}

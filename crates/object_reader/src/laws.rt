//! Laws of what is read: whatever the JSON is, the value has what its type keeps, since a field with a fault reads as
//! a default that the type keeps. The functions do nothing; their clauses are the laws.
ghost use Rattle.object_reader.specs.Laws.{NodesAreWhole, NamespacesAreWhole, SelectorsMakeGroups, ClusterGroupsAreWhole, EgressesAreWhole, PooledEgressesAreWhole};

use cl_types::texts_are_read_as_functions;

/// A node's blocks have the lengths of their families, with no bit past them, and a namespace's labels ascend.
pub fn nodes_are_whole()
    ensures nodes { NodesAreWhole }
    ensures namespaces { NamespacesAreWhole }
{
    texts_are_read_as_functions();
}

/// Two selectors, of pods and of namespaces, are in canonical form.
pub fn groups_are_whole()
    ensures selectors { SelectorsMakeGroups }
    ensures groups { ClusterGroupsAreWhole }
{}

/// An Egress applies to such a group, with a pool and without.
pub fn egresses_are_whole()
    ensures plain { EgressesAreWhole }
    ensures pooled { PooledEgressesAreWhole }
{}

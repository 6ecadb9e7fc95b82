//! The law of policies that are read.
ghost use Rattle.policy_objects.specs.Laws.{KubePoliciesAreWhole, AntreaPoliciesAreWhole, ClusterPoliciesAreWhole};

use label_select::names_have_no_slash;
use object_reader::groups_are_whole;

/// Whatever the JSON is, a policy has a name with the form of its kind, its rules are in order and are what its kind may
/// have, and all groups in it are in canonical form.
pub fn policies_are_whole()
    ensures kube { KubePoliciesAreWhole }
    ensures antrea { AntreaPoliciesAreWhole }
    ensures cluster { ClusterPoliciesAreWhole }
{
    names_have_no_slash();
    groups_are_whole();
}

//! Totals over all policies of a cluster that have a limit.
ghost use Rattle.std.specs.Prelude.{◌≡◌, nat_lt};
ghost use Rattle.cl_types.specs.Ascending.{Ascends, put};
ghost use Rattle.cl_types.specs.RuleOrder.{policy_order};
ghost use Rattle.cluster_objects.specs.Apply.{at_policy};
ghost use Rattle.cluster_objects.specs.Refusals.{counted};
ghost use Rattle.cluster_types.specs.Counts.{same_kind, total};

use cl_types::PolicyKind;
use cluster_types::{Policy, is_kube};

/// What is counted over all policies.
#[derive(Clone, Copy, Debug)]
pub enum Total {
    PoliciesOf(PolicyKind),
    NativeRules,
    KubeRules,
}

fn same_kind(a: PolicyKind, b: PolicyKind) -> bool
    ensures { result ≡ same_kind a b }
{
    match (a, b) {
        (PolicyKind::Cluster, PolicyKind::Cluster) => true,
        (PolicyKind::Antrea, PolicyKind::Antrea) => true,
        (PolicyKind::Kube, PolicyKind::Kube) => true,
        _ => false,
    }
}

impl Total {
    // As how many the policy counts.
    fn counted(self, policy: &Policy) -> usize
        ensures { result ≡ counted self policy.now }
    {
        let kind = policy.key.kind;
        let rules = policy.rules.as_slice().len();
        match self {
            Total::PoliciesOf(sought) => usize::from(same_kind(kind, sought)),
            Total::NativeRules => { if is_kube(kind) { 0 } else { rules } }
            Total::KubeRules => { if is_kube(kind) { rules } else { 0 } }
        }
    }

    /// Whether the total passes the limit once the policy is put.
    pub(crate) fn is_over(self, policies: &[Policy], policy: &Policy, limit: u32) -> bool
        requires { Ascends (λ p. p.key) policy_order policies.now }
        ensures { result ≡ nat_lt limit (total (counted self) (put (at_policy policy.now.key) policy.now policies.now)) }
    {
        let limit = limit as usize;
        let own = self.counted(policy);
        if limit < own {
            return true;
        }
        let mut room = limit - own;
        for other in policies {
            if !other.key.cmp(&policy.key).is_eq() {
                let more = self.counted(other);
                if room < more {
                    return true;
                }
                room -= more;
            }
        }
        false
    }
}

ghost use Rattle.std.specs.Prelude.{◌≡◌, ◌++◌, ◌&&◌, ◌||◌, List, Some, true, filter, option_copied};
ghost use Rattle.cluster_types.specs.declared.policy.Rule.{Rule};
ghost use Rattle.cluster_types.specs.Evaluation.{applies, rule_matches, rule_key, rules_with, is_isolated};
ghost use Rattle.cluster_types.specs.Steps.{in_stage, is_kube, first};
ghost use Rattle.policy_order.specs.Findings.{FindsMore, isolates_pod};
ghost use Rattle.cluster_types.specs.Policy.{isolates};

use crate::asked::Asked;
use crate::peers::peers_contain;
use crate::services::services_match;
use cl_types::Dir;
use cluster_objects::{Cluster, Pod, Policy, Rule, Stage, earlier, is_kube};

fn applies(c: &Cluster, policy: &Policy, pod: &Pod) -> bool
    ensures { result ≡ applies c.now.cluster policy.now pod.now }
{
    policy
        .applied
        .as_slice()
        .iter()
        .any(|group| c.in_group(group, pod))
}

// Whether the question matches a rule of a policy that applies to the pod.
fn rule_matches(asked: &Asked, policy: &Policy, rule: &Rule) -> bool
    requires { applies asked.now.cluster.now.cluster policy.now asked.now.pod.now ≡ true }
    ensures { result ≡ rule_matches asked.now.cluster.now.cluster policy.now rule.now asked.now.pod.now asked.now.question.now }
{
    rule.key.dir.is(asked.question.dir)
        && peers_contain(asked, &rule.peers)
        && services_match(asked, rule)
}

fn is_wanted(asked: &Asked, policy: &Policy, rule: &Rule, stage: Stage) -> bool
    requires { applies asked.now.cluster.now.cluster policy.now asked.now.pod.now ≡ true }
    ensures { result ≡ (in_stage stage policy.now.key.kind rule.now.key && rule_matches asked.now.cluster.now.cluster policy.now rule.now asked.now.pod.now asked.now.question.now) }
{
    stage.includes(policy.key.kind, &rule.key) && rule_matches(asked, policy, rule)
}

// The first of the rules of a policy that applies, those of the stage that match the question, and of the
// rules after them.
fn first_of_applying<'c>(
    asked: &Asked,
    policy: &'c Policy,
    stage: Stage,
    after: Option<&'c Rule>,
) -> Option<&'c Rule>
    requires { applies asked.now.cluster.now.cluster policy.now asked.now.pod.now ≡ true }
    ensures { (later : List Rule) → option_copied after.entry ≡ first rule_key later
        → option_copied result ≡ first rule_key (filter (λ r. in_stage stage policy.now.key.kind r.key && rule_matches asked.now.cluster.now.cluster policy.now r asked.now.pod.now asked.now.question.now) policy.now.rules ++ later) }
{
    let rules = policy.rules.as_slice();
    let mut found = after;
    for i in (0..rules.len()).rev() {
        let rule = &rules[i];
        if is_wanted(asked, policy, rule, stage) {
            found = Some(earlier(rule, found));
        }
    }
    found
}

/// What is found for the question of a pod: the first rule of each stage that matches it, and whether a Kubernetes policy
/// isolates the pod.
#[derive(Drop)]
pub(crate) struct Findings<'c> {
    pub(crate) native: Option<&'c Rule>,
    pub(crate) kubernetes: Option<&'c Rule>,
    pub(crate) baseline: Option<&'c Rule>,
    pub(crate) isolated: bool,
}

// What is found in a policy that applies and in those after it.
fn found_in_applying<'c>(asked: &Asked, policy: &'c Policy, after: Findings<'c>) -> Findings<'c>
    requires { applies asked.now.cluster.now.cluster policy.now asked.now.pod.now ≡ true }
    ensures native { FindsMore asked.now.cluster.now.cluster asked.now.pod.now asked.now.question.now Stage.Native policy.now (option_copied after.entry.native) (option_copied result.native) }
    ensures kubernetes { FindsMore asked.now.cluster.now.cluster asked.now.pod.now asked.now.question.now Stage.Kubernetes policy.now (option_copied after.entry.kubernetes) (option_copied result.kubernetes) }
    ensures baseline { FindsMore asked.now.cluster.now.cluster asked.now.pod.now asked.now.question.now Stage.Baseline policy.now (option_copied after.entry.baseline) (option_copied result.baseline) }
    ensures isolated { result.isolated ≡ (isolates_pod asked.now.cluster.now.cluster asked.now.pod.now asked.now.question.now.dir policy.now || after.entry.isolated) }
{
    Findings {
        native: first_of_applying(asked, policy, Stage::Native, after.native),
        kubernetes: first_of_applying(asked, policy, Stage::Kubernetes, after.kubernetes),
        baseline: first_of_applying(asked, policy, Stage::Baseline, after.baseline),
        isolated: isolates(policy, asked.question.dir) || after.isolated,
    }
}

// The same of any policy: one that doesn't apply has no rule that matches, and isolates nothing.
fn found_in<'c>(asked: &Asked, policy: &'c Policy, after: Findings<'c>) -> Findings<'c>
    ensures native { FindsMore asked.now.cluster.now.cluster asked.now.pod.now asked.now.question.now Stage.Native policy.now (option_copied after.entry.native) (option_copied result.native) }
    ensures kubernetes { FindsMore asked.now.cluster.now.cluster asked.now.pod.now asked.now.question.now Stage.Kubernetes policy.now (option_copied after.entry.kubernetes) (option_copied result.kubernetes) }
    ensures baseline { FindsMore asked.now.cluster.now.cluster asked.now.pod.now asked.now.question.now Stage.Baseline policy.now (option_copied after.entry.baseline) (option_copied result.baseline) }
    ensures isolated { result.isolated ≡ (isolates_pod asked.now.cluster.now.cluster asked.now.pod.now asked.now.question.now.dir policy.now || after.entry.isolated) }
{
    if applies(asked.cluster, policy, asked.pod) {
        found_in_applying(asked, policy, after)
    } else {
        after
    }
}

/// What is found in all policies. Each is looked at once.
pub(crate) fn find_rules<'c>(asked: &Asked<'c, '_>) -> Findings<'c>
    ensures native { option_copied result.native ≡ first rule_key (rules_with asked.now.cluster.now.cluster asked.now.pod.now asked.now.question.now Stage.Native) }
    ensures kubernetes { option_copied result.kubernetes ≡ first rule_key (rules_with asked.now.cluster.now.cluster asked.now.pod.now asked.now.question.now Stage.Kubernetes) }
    ensures baseline { option_copied result.baseline ≡ first rule_key (rules_with asked.now.cluster.now.cluster asked.now.pod.now asked.now.question.now Stage.Baseline) }
    ensures isolated { result.isolated ≡ is_isolated asked.now.cluster.now.cluster asked.now.pod.now asked.now.question.now.dir }
{
    let policies = asked.cluster.policies();
    let mut found = Findings {
        native: None,
        kubernetes: None,
        baseline: None,
        isolated: false,
    };
    for i in (0..policies.len()).rev() {
        found = found_in(asked, &policies[i], found);
    }
    found
}

// Whether it is a Kubernetes policy with the direction.
fn isolates(policy: &Policy, dir: Dir) -> bool
    ensures { result ≡ (is_kube policy.now.key.kind && isolates policy.now dir) }
{
    let has_direction = match dir {
        Dir::Ingress => policy.isolates_in,
        Dir::Egress => policy.isolates_out,
    };
    is_kube(policy.key.kind) && has_direction
}

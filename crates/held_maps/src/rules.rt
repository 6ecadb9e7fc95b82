ghost use Rattle.std.specs.Prelude.{◌≡◌, ◌++◌, ◌&&◌, ◌||◌, List, true, filter, option_copied};
ghost use Rattle.std.specs.List.{list_any};
ghost use Rattle.cluster_types.specs.Steps.{in_stage, is_kube, first};
ghost use Rattle.watch_streams.specs.declared.net.NetRule.{NetRule};
ghost use Rattle.held_maps.specs.Findings.{FindsMore, isolates_own};
ghost use Rattle.held_maps.specs.Held.{maps_of};
ghost use Rattle.watch_streams.specs.HeldEvaluation.{held_member, is_at, held_rule_matches, held_rules_with, held_isolated, net_rule_key};
ghost use Rattle.watch_streams.specs.Net.{net_isolates};

use crate::complete::is_complete;
use crate::groups::any_member_at;
use crate::held::Held;
use crate::peers::peers_contain;
use crate::services::services_match;
use cl_types::{Dir, Question, Stream};
use cluster_types::{Stage, earlier, is_kube};
use watch_streams::{NetPolicy, NetRule};

/// A question of what is held.
#[derive(Drop)]
pub(crate) struct Asked<'h, 'q> {
    pub(crate) held: &'h Held,
    pub(crate) question: &'q Question,
}

// Whether the policy applies to the question's own address.
fn applies(asked: &Asked, policy: &NetPolicy) -> bool
    ensures { result ≡ list_any (held_member (is_at asked.now.question.now.own) (maps_of asked.now.held.now).applied) policy.now.applied }
{
    any_member_at(
        asked.held,
        Stream::Applied,
        asked.question.own,
        policy.applied.as_slice(),
    )
}

// Whether the question matches a rule of a policy that applies.
fn rule_matches(asked: &Asked, policy: &NetPolicy, rule: &NetRule) -> bool
    requires { list_any (held_member (is_at asked.now.question.now.own) (maps_of asked.now.held.now).applied) policy.now.applied ≡ true }
    ensures { result ≡ held_rule_matches (maps_of asked.now.held.now) asked.now.question.now policy.now rule.now }
{
    rule.key.dir.is(asked.question.dir)
        && is_complete(asked.held, policy, rule)
        && peers_contain(asked.held, asked.question.peer, &rule.peers)
        && services_match(asked.held, policy, rule, asked.question)
}

fn is_wanted(asked: &Asked, policy: &NetPolicy, rule: &NetRule, stage: Stage) -> bool
    requires { list_any (held_member (is_at asked.now.question.now.own) (maps_of asked.now.held.now).applied) policy.now.applied ≡ true }
    ensures { result ≡ (in_stage stage policy.now.key.kind rule.now.key && held_rule_matches (maps_of asked.now.held.now) asked.now.question.now policy.now rule.now) }
{
    stage.includes(policy.key.kind, &rule.key) && rule_matches(asked, policy, rule)
}

// The first of the rules of a policy that applies, those of the stage that match the question, and of the
// rules after them.
fn first_of_applying<'h>(
    asked: &Asked,
    policy: &'h NetPolicy,
    stage: Stage,
    after: Option<&'h NetRule>,
) -> Option<&'h NetRule>
    requires { list_any (held_member (is_at asked.now.question.now.own) (maps_of asked.now.held.now).applied) policy.now.applied ≡ true }
    ensures { (later : List NetRule) → option_copied after.entry ≡ first net_rule_key later
        → option_copied result ≡ first net_rule_key (filter (λ r. in_stage stage policy.now.key.kind r.key && held_rule_matches (maps_of asked.now.held.now) asked.now.question.now policy.now r) policy.now.rules ++ later) }
{
    let rules = policy.rules.as_slice();
    let mut found = after;
    for i in (0..rules.len()).rev() {
        let rule = &rules[i];
        if is_wanted(asked, policy, rule, stage) {
            found = Some(earlier(rule, found));
        }
    }
    found
}

/// What is found for a question: the first rule of each stage that matches it, and whether a Kubernetes policy isolates
/// the question's own address.
#[derive(Drop)]
pub(crate) struct Findings<'h> {
    pub(crate) native: Option<&'h NetRule>,
    pub(crate) kubernetes: Option<&'h NetRule>,
    pub(crate) baseline: Option<&'h NetRule>,
    pub(crate) isolated: bool,
}

// What is found in a policy that applies and in those after it.
fn found_in_applying<'h>(asked: &Asked, policy: &'h NetPolicy, after: Findings<'h>) -> Findings<'h>
    requires { list_any (held_member (is_at asked.now.question.now.own) (maps_of asked.now.held.now).applied) policy.now.applied ≡ true }
    ensures native { FindsMore (maps_of asked.now.held.now) asked.now.question.now Stage.Native policy.now (option_copied after.entry.native) (option_copied result.native) }
    ensures kubernetes { FindsMore (maps_of asked.now.held.now) asked.now.question.now Stage.Kubernetes policy.now (option_copied after.entry.kubernetes) (option_copied result.kubernetes) }
    ensures baseline { FindsMore (maps_of asked.now.held.now) asked.now.question.now Stage.Baseline policy.now (option_copied after.entry.baseline) (option_copied result.baseline) }
    ensures isolated { result.isolated ≡ (isolates_own (maps_of asked.now.held.now) asked.now.question.now policy.now || after.entry.isolated) }
{
    Findings {
        native: first_of_applying(asked, policy, Stage::Native, after.native),
        kubernetes: first_of_applying(asked, policy, Stage::Kubernetes, after.kubernetes),
        baseline: first_of_applying(asked, policy, Stage::Baseline, after.baseline),
        isolated: isolates(policy, asked.question.dir) || after.isolated,
    }
}

// The same of any policy: one that doesn't apply has no rule that matches, and isolates nothing.
fn found_in<'h>(asked: &Asked, policy: &'h NetPolicy, after: Findings<'h>) -> Findings<'h>
    ensures native { FindsMore (maps_of asked.now.held.now) asked.now.question.now Stage.Native policy.now (option_copied after.entry.native) (option_copied result.native) }
    ensures kubernetes { FindsMore (maps_of asked.now.held.now) asked.now.question.now Stage.Kubernetes policy.now (option_copied after.entry.kubernetes) (option_copied result.kubernetes) }
    ensures baseline { FindsMore (maps_of asked.now.held.now) asked.now.question.now Stage.Baseline policy.now (option_copied after.entry.baseline) (option_copied result.baseline) }
    ensures isolated { result.isolated ≡ (isolates_own (maps_of asked.now.held.now) asked.now.question.now policy.now || after.entry.isolated) }
{
    if applies(asked, policy) {
        found_in_applying(asked, policy, after)
    } else {
        after
    }
}

/// What is found in all held policies. Each is looked at once.
pub(crate) fn find_rules<'h>(asked: &Asked<'h, '_>) -> Findings<'h>
    ensures native { option_copied result.native ≡ first net_rule_key (held_rules_with (maps_of asked.now.held.now) asked.now.question.now Stage.Native) }
    ensures kubernetes { option_copied result.kubernetes ≡ first net_rule_key (held_rules_with (maps_of asked.now.held.now) asked.now.question.now Stage.Kubernetes) }
    ensures baseline { option_copied result.baseline ≡ first net_rule_key (held_rules_with (maps_of asked.now.held.now) asked.now.question.now Stage.Baseline) }
    ensures isolated { result.isolated ≡ held_isolated (maps_of asked.now.held.now) asked.now.question.now }
{
    let policies = asked.held.policies().as_slice();
    let mut found = Findings {
        native: None,
        kubernetes: None,
        baseline: None,
        isolated: false,
    };
    for i in (0..policies.len()).rev() {
        found = found_in(asked, &policies[i], found);
    }
    found
}

// Whether it is a Kubernetes policy with the direction.
fn isolates(policy: &NetPolicy, dir: Dir) -> bool
    ensures { result ≡ (is_kube policy.now.key.kind && net_isolates policy.now dir) }
{
    let has_direction = match dir {
        Dir::Ingress => policy.isolates_in,
        Dir::Egress => policy.isolates_out,
    };
    is_kube(policy.key.kind) && has_direction
}

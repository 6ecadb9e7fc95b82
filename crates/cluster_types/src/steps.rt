//! The three steps of a verdict, over any rules with a key and an action.
ghost use Rattle.std.specs.Prelude.{◌≡◌, ◌↔◌, [], None, Some, option_copied, List, Contains, false};
ghost use Rattle.std.specs.List.{AllByRecursion};
ghost use Rattle.std.specs.Ordering.{is_gt};
ghost use Rattle.cl_types.specs.declared.keys.RuleKey.{RuleKey};
ghost use Rattle.cl_types.specs.declared.verdict.Action.{Action};
ghost use Rattle.cl_types.specs.Judgement.{judgement_of};
ghost use Rattle.cl_types.specs.RuleOrder.{rule_order};
ghost use Rattle.cluster_types.specs.Steps.{is_kube, in_stage, earlier, first, judged, allowed_by_default, decided, decided_first, allowed_first};

use cl_types::{Action, Cause, Judged, PolicyKind, RuleKey, Verdict};

/// The stages in which rules are looked at: native rules outside Baseline, the rules of Kubernetes policies,
/// native rules of Baseline.
#[derive(Clone, Copy, Debug, PartialEq, Eq)]
pub enum Stage {
    Native,
    Kubernetes,
    Baseline,
}

/// The number of the tier Baseline.
pub const BASELINE_TIER: u16 = 253;

/// The tier number in the keys of rules of Kubernetes policies, which are in no tier.
pub const KUBE_TIER: u16 = 255;

/// Whether a policy of this kind is a Kubernetes NetworkPolicy.
pub fn is_kube(kind: PolicyKind) -> bool
    ensures { result ≡ is_kube kind }
{
    match kind {
        PolicyKind::Kube => true,
        _ => false,
    }
}

impl Stage {
    /// Whether a rule of a policy of this kind is looked at in the stage.
    pub fn includes(self, kind: PolicyKind, key: &RuleKey) -> bool
        ensures { result ≡ in_stage self kind key.now }
    {
        match self {
            Stage::Native => !is_kube(kind) && key.tier != BASELINE_TIER,
            Stage::Kubernetes => is_kube(kind),
            Stage::Baseline => !is_kube(kind) && key.tier == BASELINE_TIER,
        }
    }
}

/// A rule that can decide: it has a key and an action.
pub trait Ruling {
    ghost rule_key: { Self → RuleKey };

    ghost rule_action: { Self → Action };

    fn rule_key(&self) -> &RuleKey
        ensures { result.now ≡ rule_key self.now };

    fn action(&self) -> Action
        ensures { result ≡ rule_action self.now };
}

/// Of a rule and the first of some others the one that is looked at first.
pub fn earlier<'r, R: Ruling>(rule: &'r R, other: Option<&'r R>) -> &'r R
    ensures { result.now ≡ earlier R.rule_key rule.now (option_copied other.entry) }
{
    match other {
        Some(other) if rule.rule_key().cmp(other.rule_key()).is_gt() => other,
        _ => rule,
    }
}

fn judged<R: Ruling>(verdict: Verdict, rule: &R) -> Judged<'_>
    ensures { judgement_of result ≡ judged verdict (R.rule_key rule.now) }
{
    Judged {
        verdict,
        by: Cause::Rule(rule.rule_key()),
    }
}

/// The verdict where nothing speaks of the traffic.
pub fn allowed_by_default<'r>() -> Judged<'r>
    ensures { judgement_of result ≡ allowed_by_default }
{
    Judged {
        verdict: Verdict::Allow,
        by: Cause::Default,
    }
}

// What the rule decides, or else what is decided without it.
fn decided<'r, R: Ruling>(rule: &'r R, other: Judged<'r>) -> Judged<'r>
    ensures { judgement_of result ≡ decided (R.rule_key rule.now) (R.rule_action rule.now) (judgement_of other.entry) }
{
    match rule.action() {
        Action::Allow => judged(Verdict::Allow, rule),
        Action::Drop => judged(Verdict::Drop, rule),
        Action::Reject => judged(Verdict::Reject, rule),
        Action::Pass => other,
    }
}

/// What the first rule of a stage decides, where there is one, or else what is decided without it. Pass
/// leaves the decision.
pub fn decided_first<'r, R: Ruling>(rule: Option<&'r R>, other: Judged<'r>) -> Judged<'r>
    ensures { judgement_of result ≡ decided_first R.rule_key R.rule_action (option_copied rule.entry) (judgement_of other.entry) }
{
    match rule {
        Some(rule) => decided(rule, other),
        None => other,
    }
}

/// The verdict of an isolated pod by the first Kubernetes rule, where there is one: what it allows is
/// allowed, and nothing else.
pub fn allowed_first<R: Ruling>(rule: Option<&R>) -> Judged<'_>
    ensures { judgement_of result ≡ allowed_first R.rule_key (option_copied rule.entry) }
{
    match rule {
        Some(rule) => judged(Verdict::Allow, rule),
        None => Judged {
            verdict: Verdict::Drop,
            by: Cause::Isolation,
        },
    }
}

/// The first of some rules is one of them, and none of them is before it. There is none exactly where there
/// are no rules.
pub fn first_rule_is_least<R: Ruling>()
    ensures among { (rules : List R) (rule : R) → first R.rule_key rules ≡ Some rule → Contains rules rule }
    ensures least { (rules : List R) (rule : R) → first R.rule_key rules ≡ Some rule
        → AllByRecursion (λ r. is_gt (rule_order (R.rule_key rule) (R.rule_key r)) ≡ false) rules }
    ensures none { (rules : List R) → (first R.rule_key rules ≡ None) ↔ (rules ≡ []) }
{}

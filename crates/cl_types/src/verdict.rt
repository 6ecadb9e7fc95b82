use crate::keys::RuleKey;

/// What a rule does with traffic that it matches. `Pass` leaves the decision to the Kubernetes policies.
#[derive(Clone, Copy, Debug, PartialEq, Eq)]
pub enum Action {
    Allow,
    Drop,
    Reject,
    Pass,
}

/// What becomes of traffic.
#[derive(Clone, Copy, Debug, PartialEq, Eq)]
pub enum Verdict {
    Allow,
    Drop,
    Reject,
}

/// What a verdict rests on.
#[derive(Clone, Copy, Debug)]
pub enum Cause<'a> {
    /// The rule that decided.
    Rule(&'a RuleKey),
    /// A Kubernetes policy isolates the pod, and no rule allows the traffic.
    Isolation,
    /// No rule matches the traffic, and no policy isolates the pod.
    Default,
}

/// A verdict with its cause.
#[derive(Clone, Copy, Debug)]
pub struct Judged<'a> {
    pub verdict: Verdict,
    pub by: Cause<'a>,
}

//! Reading the action of a rule.
ghost use Rattle.std.specs.Prelude.{◌≡◌, option_map};
ghost use Rattle.serde_json.specs.View.{view};
ghost use Rattle.policy_parts.specs.Actions.{action_named, permitted, given_action};

use cl_types::Action;
use json_fields::{inner, text_in};
use serde_json::Value;

fn action_named(text: &[u8]) -> Option<Action>
    ensures { result ≡ action_named text.now }
{
    if text == b"Allow".as_slice() {
        Some(Action::Allow)
    } else if text == b"Drop".as_slice() {
        Some(Action::Drop)
    } else if text == b"Reject".as_slice() {
        Some(Action::Reject)
    } else if text == b"Pass".as_slice() {
        Some(Action::Pass)
    } else {
        None
    }
}

fn permitted(baseline: bool, action: Action) -> Option<Action>
    ensures { result ≡ permitted baseline action }
{
    match action {
        Action::Pass => { if baseline { None } else { Some(action) } }
        Action::Allow | Action::Drop | Action::Reject => Some(action),
    }
}

/// The action that a rule gives; in Baseline none passes.
#[tactic(auto, unfolding(crate::specs::Actions::given_action))]
pub fn given_action(baseline: bool, rule: &Value) -> Option<Action>
    ensures { result ≡ given_action baseline (view rule.now) }
{
    let text = text_in(inner(Some(rule), "action"))?;
    let action = action_named(text.as_bytes())?;
    permitted(baseline, action)
}

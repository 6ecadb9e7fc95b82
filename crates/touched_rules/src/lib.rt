//! Which held rules the changes of a stream touch, and what holds of everything that is held.
#![tactic(auto)]

mod forms;
mod laws;
mod rules;
mod touching;

pub use forms::held_form;
pub use laws::{
    changes_of_rules_are_of_touched_policies, changes_of_rules_are_under_touched_keys,
    changes_touch_only_these, isolated_addresses_are_listed, rules_are_in_force,
    rules_in_force_are_one, unlisted_addresses_go_out_plain,
};
pub use rules::{HeldRule, held_rules, rules_touched};
pub use touching::{peer_groups, touches};

#[cfg(test)]
mod tests;

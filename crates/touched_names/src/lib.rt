//! How what a change can touch tells what changes on the streams of nodes.
#![tactic(auto)]

mod laws;
mod naming;
mod touching;

pub use laws::{
    changed_rules_touch, differences_are_over_touched_names, members_tell_spans,
    moved_groups_touch, names_stand_alone, tiers_and_nodes_touch_nothing, touched_names_are_names,
    touched_names_join, touched_names_tell_all,
};
pub use naming::{has_group, is_group, names_peer};
pub use touching::{
    are_names, name_form, push_egress_names, push_group_names, push_moved_names, push_policy_names,
};

#[cfg(test)]
mod tests;

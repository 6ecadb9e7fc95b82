//! Labels, selectors and group keys: what a label selector of Kubernetes selects.
#![tactic(auto)]

mod canonical;
mod comparing;
mod forms;
mod group;
mod labels;
mod named;
mod selector;
mod written;

pub use canonical::canon;
pub use comparing::compare_group;
pub use forms::{
    are_label_values, is_label_key, is_label_value, is_namespace_name, is_object_name,
    names_have_no_slash,
};
pub use group::{GroupKey, Scope};
pub use labels::{Label, Labels, labels_form};
pub use selector::{Need, Op, Selector};
pub use written::{group_form, group_texts_differ, write_group};

#[cfg(test)]
mod tests;

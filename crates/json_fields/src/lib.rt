//! Values of JSON as objects with fields, the faults that are found in them, and what every object of
//! Kubernetes has: its metadata and selectors by labels.
#![tactic(auto)]

mod faults;
mod fields;
mod metadata;
mod reading;
mod refusal;
mod selectors;
mod shapes;
mod unknown;

pub use faults::{at_index, bad_shape, earlier, in_field};
pub use fields::{elements, field, inner, members, parse};
pub use metadata::{
    NameForm, labels_field_fault, labels_value, metadata_fault, name_value, namespace_value,
    namespaced_fault,
};
pub use reading::{
    ElementText, Reading, elements_fault, elements_value, items_in, list_fault, list_field_fault,
    list_value, texts_in,
};
pub use refusal::ReadRefusal;
pub use selectors::{selector_fault, selector_field_fault, selector_value};
pub use shapes::{
    number_within, object_fault, required_text_fault, text_copy, text_field_fault, text_in,
    text_or_empty, truth_field_fault, truth_in,
};
pub use unknown::{other_fault, other_field, unsupported};

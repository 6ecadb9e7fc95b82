//! Why a line is refused, and the text that says so.
#![tactic(auto)]

mod refusal;
mod texts;

pub use refusal::Refusal;
pub use texts::{write_counted, write_detail, write_refusal};

#[cfg(test)]
mod tests;

//! What an agent holds, which of its rules are complete, and what a message changes of what is in force.
#![tactic(auto)]

mod addresses;
mod cache;
mod changes;
mod differences;
mod egresses;
mod isolation;
mod outlook;
mod parts;
mod peers;
mod plan;
mod ports;
mod rules;
mod standing;
mod states;

pub use cache::Cache;
pub use plan::Plan;
pub use standing::RuleState;

#[cfg(test)]
mod tests;

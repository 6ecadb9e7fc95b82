//! The maps that an agent holds of its three streams, and the verdict of what is held.
#![tactic(auto)]

mod apply;
mod belonging;
mod complete;
mod finish;
mod groups;
mod held;
mod judge;
mod laws;
mod message_steps;
mod peers;
mod places;
mod prepare;
mod readers;
mod ready;
mod rows;
mod rules;
mod services;
mod shelf;
mod steps;
mod titles;

pub use complete::resolving_stream;
pub use held::Held;
pub use laws::{one_revision_is_the_policies_verdict, other_streams_stay, taken_messages_lead_on};
pub use ready::Ready;

#[cfg(test)]
mod tests;

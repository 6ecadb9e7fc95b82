//! What the words of a call mean.
#![tactic(auto)]

mod command;
mod read;

pub use command::{Command, WordsFault};
pub use read::read_words;

#[cfg(test)]
mod tests;

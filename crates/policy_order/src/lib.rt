//! The plain evaluator: the policies' verdict, found by looking at every rule.
#![tactic(auto)]

mod asked;
mod peers;
mod rules;
mod services;
mod side;

pub use side::judge;

#[cfg(test)]
mod tests;

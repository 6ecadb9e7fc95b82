//! Tests of the controller. They stand in a crate of their own, since a crate with tests is proved twice.
#![tactic(auto)]

#[cfg(test)]
mod lines;
#[cfg(test)]
mod messages;
#[cfg(test)]
mod rejoins;
#[cfg(test)]
mod revisions;

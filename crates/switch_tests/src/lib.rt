//! Tests of the switch by its public calls: texts of flows, hits, ways and connections.
#![tactic(auto)]

#[cfg(test)]
mod connections;
#[cfg(test)]
mod hits;
#[cfg(test)]
mod made;
#[cfg(test)]
mod texts;
#[cfg(test)]
mod ways;

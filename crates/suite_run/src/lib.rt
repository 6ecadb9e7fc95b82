//! The commands of `antrea`, over any files and sinks.
#![tactic(auto)]

mod answering;
mod blocks;
mod changing;
mod controls;
mod cutting;
mod delivering;
mod fixing;
mod item;
mod laws;
mod replay;
mod run;
mod settling;
mod site;
mod starting;
mod status;
mod take;
mod taking;
mod top;
mod words;
mod world;

pub use laws::{lines_lead_to_sound_worlds, refused_lines_change_nothing};
pub use site::Site;
pub use status::Status;
pub use top::calm;

#[cfg(test)]
mod tests;

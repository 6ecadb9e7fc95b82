//! The machine of a run, and what holds of each list of its events.
#![tactic(auto)]

mod laws;

pub use laws::{
    every_list_of_events_leads_to_a_sound_world, every_list_of_lines_leads_to_a_sound_world,
    every_world_settles, queues_stay_within_their_rings, streams_stay_streams,
};

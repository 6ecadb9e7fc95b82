//! The streams of the nodes, each with its port: how they are told, cut, begun again and taken from.
#![tactic(auto)]

mod messages;
mod streams;

pub use messages::{NodeCuts, NodeMessages, Trio};
pub use streams::{
    NodePorts, StreamPort, begin_at, cut_at, first_streams, is_listed, streams_at, take_at,
};

//! The switch of a node: what its flow tables do with a packet, and the connections that it knows.
#![tactic(auto)]

mod conns;
mod course;
mod laws;
mod walking;
mod way;

pub use conns::{Conn, Conns, IDLE_TICKS, MAX_CONNECTIONS};
pub use flow_entries::{
    Bundle, Clause, Does, Flow, Match, Table, write_flow, write_label, write_match,
};
pub use flow_tables::Tables;
pub use laws::{stops_are_by_their_side, walks_lead_on};
pub use walking::{route, route_seen, walk};
pub use way::{Choice3, End, Visit, Way};

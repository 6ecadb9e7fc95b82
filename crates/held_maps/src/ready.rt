use crate::places::Places;
use crate::steps::Step;
use cl_types::{Rev, Stream};
use std::marker::Model;
use watch_streams::{NetEgress, NetPolicy, StreamObject};

/// The places that are reserved for what a stream's map will be.
#[derive(Drop)]
pub(crate) enum Room {
    /// Nothing changes but the stream's revision.
    Same(Stream),
    Policies(Places<NetPolicy>, Places<NetEgress>),
    Addresses(Places<StreamObject>),
    Applied(Places<StreamObject>),
}

/// A message that is ready to be taken: nothing of it needs memory any more.
#[derive(Drop)]
pub struct Ready {
    pub(crate) rev: Rev,
    pub(crate) whole: bool,
    pub(crate) steps: Vec<Step>,
    pub(crate) room: Room,
}

impl Model for Ready {
    ghost use Rattle.held_maps.specs.ReadyData.{ReadyData};

    ghost Value = { ReadyData };

    ghost view = { λ r. record { rev = r.rev; whole = r.whole; steps = r.steps.items; room = r.room } };
}

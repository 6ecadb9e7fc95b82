ghost use Rattle.std.specs.Prelude.{◌≡◌};
ghost use Rattle.ctl_core.specs.declared.outcome.RejoinFault.TheVariants.{NoMemory as no_memory};

use cl_types::{List, Rev, Stream, Text};

/// A stream of a node.
#[derive(Debug, Drop)]
pub struct StreamOf {
    pub node: Text,
    pub stream: Stream,
}

/// What a line of changes came to: the next revision with the streams that were cut as it was told, by node and in the
/// order of streams, or nothing.
#[derive(Debug, Drop)]
pub enum Outcome {
    Revision { rev: Rev, cut: List<StreamOf> },
    Unchanged,
}

/// Why a stream doesn't begin again: it is live, its port hands the snapshot back, or the snapshot isn't made.
#[derive(Clone, Copy, Debug, PartialEq, Eq)]
pub enum RejoinFault {
    NotCut,
    Full,
    NoMemory,
}

impl From<cl_types::NoMemory> for RejoinFault {
    ghost from_gives = { λ _ fault. fault ≡ no_memory };

    fn from(_e: cl_types::NoMemory) -> RejoinFault {
        RejoinFault::NoMemory
    }
}

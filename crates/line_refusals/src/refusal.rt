use cluster_objects::ClusterRefusal;
use json_fields::ReadRefusal;

/// Why a line is refused.
#[derive(Debug, Drop)]
pub enum Refusal {
    /// The line can't be read.
    Reading(ReadRefusal),
    /// The line is read, but nothing serves yet what it says.
    NotBuilt,
    /// The line has more bytes than a line may have: so many.
    TooLong(u64),
    /// One of its changes is refused.
    Applying(ClusterRefusal),
    /// The line names a node that isn't listed.
    NoNode,
    /// The stream that is to be rejoined is live.
    NotCut,
    /// No place is left on the stream that is to be rejoined.
    Full,
}

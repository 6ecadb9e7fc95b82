//! What holds of the messages on a stream as the history grows, whatever the code.
ghost use Rattle.stream_messages.specs.Laws.{CutStreamsStay, DeltasGoOn, NodesAloneHaveEmptyStreams, NothingIsAStreamAtFirst, PrefixesAreStreams, SnapshotsBeginAgain, TheRestIsAStream};
ghost use Rattle.watch_streams.specs.Laws.{OneRevisionIsThePoliciesVerdict};

/// A stream begins without messages and, at the nodes alone, without anything that belongs on it.
pub fn streams_begin_empty()
    ensures messages { NothingIsAStreamAtFirst }
    ensures objects { NodesAloneHaveEmptyStreams }
{}

/// What is sent when a revision is made, when a stream is cut and when it is begun again leaves a stream.
pub fn streams_go_on()
    ensures revisions { DeltasGoOn }
    ensures cuts { CutStreamsStay }
    ensures snapshots { SnapshotsBeginAgain }
{}

/// A stream from which messages are taken, or to which fewer were sent, is a stream.
pub fn parts_are_streams()
    ensures rest { TheRestIsAStream }
    ensures prefix { PrefixesAreStreams }
{}

/// The verdict of what an agent holds whose three streams stand at one revision is the policies' own.
pub fn one_revision_is_the_policies_verdict()
    ensures { OneRevisionIsThePoliciesVerdict }
{
    watch_streams::one_revision_is_the_policies_verdict();
}

//! What holds of a run, whatever happens in it.
ghost use Rattle.run_machine.specs.Laws.{EventsLeadToSoundWorlds, QueuesStayWithinRings};
ghost use Rattle.run_machine.specs.Lines.{LinesLeadToSoundWorlds};
ghost use Rattle.run_machine.specs.Settling.{EveryWorldSettles};
ghost use Rattle.run_machine.specs.Streams.{CutStreamsLeadOn, RejoinedStreamsLeadOn, ToldStreamsLeadOn};

/// After any list of changes, cuts, rejoins and messages that agents take: each agent's map of a stream
/// is what belongs there at the map's revision, and what waits leads on from that one; where the three
/// revisions are one, what is held judges as the policies of that revision; no event lets a revision
/// fall. Once the nodes are fixed the cluster is that of the last revision. Nothing is asked of the
/// events but that their objects are whole.
pub fn every_list_of_events_leads_to_a_sound_world()
    ensures { EventsLeadToSoundWorlds }
{
    cluster_objects::changes_keep_clusters();
    cluster_objects::changes_leave_the_rest();
    watch_streams::streams_lead_on();
    watch_streams::one_revision_is_the_policies_verdict();
}

/// Whatever the clusters so far, and from whatever revision what waits on a stream leads on: so it does
/// once the next revision's message was sent or came back, once a snapshot was sent, and once it is cut.
pub fn streams_stay_streams()
    ensures told { ToldStreamsLeadOn }
    ensures rejoined { RejoinedStreamsLeadOn }
    ensures cut { CutStreamsLeadOn }
{}

/// Each agent takes all that waits for it, and the snapshot on each stream that was cut. Then nothing
/// waits, all streams are live, each map is that of the last revision, and what is held judges as the
/// policies of the present cluster.
pub fn every_world_settles()
    ensures { EveryWorldSettles }
{
    cluster_objects::changes_keep_clusters();
    cluster_objects::changes_leave_the_rest();
    watch_streams::streams_lead_on();
    watch_streams::one_revision_is_the_policies_verdict();
}

/// Where messages come back from each stream on which no place is left, and none of these is rejoined,
/// no more messages wait on a stream than it has places.
pub fn queues_stay_within_their_rings()
    ensures { QueuesStayWithinRings }
{}

/// The same of every list of lines: changes that reach all streams but the full ones, deliveries, cuts, rejoins, and
/// the settling of all.
pub fn every_list_of_lines_leads_to_a_sound_world()
    ensures { LinesLeadToSoundWorlds }
{
    every_list_of_events_leads_to_a_sound_world();
}

//! What holds of every message that is taken, whatever the code.
ghost use Rattle.held_maps.specs.Laws.{MessagesLeadOn, OneRevisionIsThePoliciesVerdict, OtherStreamsStay};

/// Where the map of a stream is what belongs on it at its own revision, and a message is the first of a
/// stream from there, it is afterwards what belongs at the message's revision, which isn't before the old
/// one; so it goes on with the messages after it.
pub fn taken_messages_lead_on()
    ensures { MessagesLeadOn }
{
    watch_streams::streams_lead_on();
}

/// A message changes what is held of its own stream alone.
pub fn other_streams_stay()
    ensures { OtherStreamsStay }
{}

/// Where the three maps are what belongs on their streams at one revision, the verdict of what is held is
/// the policies' own.
pub fn one_revision_is_the_policies_verdict()
    ensures { OneRevisionIsThePoliciesVerdict }
{
    watch_streams::one_revision_is_the_policies_verdict();
}

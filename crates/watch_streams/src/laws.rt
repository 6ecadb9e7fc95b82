//! What holds of all clusters and messages, whatever the code.
ghost use Rattle.std.specs.Prelude.{◌≡◌};
ghost use Rattle.std.specs.declared.cmp.Ordering.TheVariants.{Equal};
ghost use Rattle.cl_types.specs.Prefix.{PrefixData};
ghost use Rattle.watch_streams.specs.declared.rule_changes.Resolved.{Resolved};
ghost use Rattle.watch_streams.specs.PartOrders.{block_order, resolved_order};
ghost use Rattle.watch_streams.specs.Laws.{AppliedPoliciesAreWhole, DifferencesLeadToTheNewMap, OneRevisionIsThePoliciesVerdict, PoliciesOnStreamsAreWhole, SnapshotsAreTheMap, DifferencesNameOnce, MapsNameOnce, ProjectionsAreMaps, StreamsLeadOn};

/// A message leads an agent's map to the map that it was made of.
pub fn messages_lead_to_the_new_map()
    ensures changes { DifferencesLeadToTheNewMap }
    ensures snapshots { SnapshotsAreTheMap }
{
    label_select::group_texts_differ();
    cl_types::orders_are_exact();
}

/// No name comes twice in a message that was made of maps.
pub fn messages_name_once()
    ensures changes { DifferencesNameOnce }
    ensures snapshots { MapsNameOnce }
{}

/// What belongs on a stream is a map of it.
pub fn projections_are_maps()
    ensures { ProjectionsAreMaps }
{}

/// A policy that goes on a stream has what its type there keeps.
pub fn policies_on_streams_are_whole()
    ensures applied { AppliedPoliciesAreWhole }
    ensures on_streams { PoliciesOnStreamsAreWhole }
{}

/// The messages of a stream lead from what belongs on it at one revision to what belongs there at another, and
/// revisions never fall.
pub fn streams_lead_on()
    ensures { StreamsLeadOn }
{
    messages_lead_to_the_new_map();
    projections_are_maps();
}

/// The verdict of what an agent holds whose three streams stand at one revision is the policies' own.
pub fn one_revision_is_the_policies_verdict()
    ensures { OneRevisionIsThePoliciesVerdict }
{
    label_select::group_texts_differ();
    cl_types::texts_tell_names_apart();
    cl_types::orders_are_exact();
}

/// Only equal blocks stand at one place of their order.
pub fn block_order_is_exact()
    ensures { (a b : PrefixData) → block_order a b ≡ Equal → a ≡ b }
{}

/// Only equal ports stand at one place of their order.
pub fn resolved_order_is_exact()
    ensures { (a b : Resolved) → resolved_order a b ≡ Equal → a ≡ b }
{}

//! Laws by which the messages of a change are made from the names that it touches alone, whatever the code.
ghost use Rattle.touched_names.specs.Elsewhere.{NothingIsTouchedAtFirst, TouchedNamesJoin, TouchedNamesTellAll};
ghost use Rattle.touched_names.specs.Standing.{NamesStandAlone};
ghost use Rattle.touched_names.specs.Touched.{DifferencesAreOverTouchedNames};
ghost use Rattle.touched_names.specs.Touching.{EgressNamesAreNames, MembersTellSpans, MovedGroupsTouch, MovedNamesAreNames, NamesAtEgressesAreNames, NamesAtPoliciesAreNames, NodesAloneTouchNothing, NothingElseTouches, PolicyNamesAreNames, PutEgressesTouch, PutPoliciesTouch, RemovedEgressesTouch, RemovedPoliciesTouch};

/// Where two maps of a stream are the same under all other names, what differs between them is what differs under
/// these names.
pub fn differences_are_over_touched_names()
    ensures { DifferencesAreOverTouchedNames }
{}

/// What stands under a name among all that belongs on a stream is read from the cluster without the rest of the
/// stream.
pub fn names_stand_alone()
    ensures { NamesStandAlone }
{
    label_select::group_texts_differ();
    cl_types::texts_tell_names_apart();
}

/// What changes on a stream of a node is what changes under the names that are touched.
pub fn touched_names_tell_all()
    ensures { TouchedNamesTellAll }
{
    differences_are_over_touched_names();
    names_stand_alone();
    watch_streams::projections_are_maps();
}

/// No name is touched without a change, and two changes touch what either does.
pub fn touched_names_join()
    ensures nothing { NothingIsTouchedAtFirst }
    ensures both { TouchedNamesJoin }
{}

/// Groups whose members change touch their own names. Those that come to other nodes touch those of the policies and Egresses
/// that apply to them, too, and of the groups that these name.
pub fn moved_groups_touch()
    ensures { MovedGroupsTouch }
{}

/// A group with the same members on each node has pods on the same nodes.
pub fn members_tell_spans()
    ensures { MembersTellSpans }
{}

/// A policy or an Egress that is put or removed touches its own name and those of the groups that it names. One that is
/// put touches those of the one whose place it takes, too.
pub fn changed_rules_touch()
    ensures put_policies { PutPoliciesTouch }
    ensures removed_policies { RemovedPoliciesTouch }
    ensures put_egresses { PutEgressesTouch }
    ensures removed_egresses { RemovedEgressesTouch }
{}

/// Tiers touch no name, nor do nodes, which change while nothing else is there.
pub fn tiers_and_nodes_touch_nothing()
    ensures tiers { NothingElseTouches }
    ensures nodes { NodesAloneTouchNothing }
{}

/// The names that are touched have what their types keep.
pub fn touched_names_are_names()
    ensures policies { PolicyNamesAreNames }
    ensures egresses { EgressNamesAreNames }
    ensures old_policies { NamesAtPoliciesAreNames }
    ensures old_egresses { NamesAtEgressesAreNames }
    ensures moved { MovedNamesAreNames }
{}

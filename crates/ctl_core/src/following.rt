//! The index of groups follows a change of its cluster.
ghost use Rattle.std.specs.Prelude.{◌≡◌, ◌≤◌, ◌++◌, IfOk, OnOk, option_copied};
ghost use Rattle.group_index.specs.Changes.{at_cluster, before_namespace, before_pod, changes_between};
ghost use Rattle.group_index.specs.Index.{StandsFor};
ghost use Rattle.label_select.specs.Group.{Group};
ghost use Rattle.ctl_core.specs.Following.{IsMoved, StandsBefore, namespace_in, pod_in};
ghost use Rattle.ctl_core.specs.Naming.{AreGroups};
ghost use Rattle.ctl_core.specs.Touched.{names_of_moved, touched_by};
ghost use Rattle.ctl_core.specs.Uses.{IsUsedLess, IsUsedMore, times, uses_of};

use crate::naming::new_object;
use crate::touched::{push_both, push_moved};
use cl_types::{NoMemory, Text};
use cluster_objects::{Change, Cluster, Namespace, Object, ObjectKey, Pod};
use group_index::GroupIndex;
use label_select::{GroupKey, group_form};
use watch_streams::StreamName;

fn pod_in<'a>(object: Option<&'a Object>) -> Option<&'a Pod>
    ensures { option_copied result ≡ pod_in (option_copied object.entry) }
{
    match object {
        Some(Object::Pod(pod)) => Some(pod),
        _ => None,
    }
}

fn namespace_in<'a>(object: Option<&'a Object>) -> Option<&'a Namespace>
    ensures { option_copied result ≡ namespace_in (option_copied object.entry) }
{
    match object {
        Some(Object::Namespace(namespace)) => Some(namespace),
        _ => None,
    }
}

fn pod_moved(
    index: &mut GroupIndex,
    c: &Cluster,
    old: Option<&Pod>,
    new: Option<&Pod>,
    touched: &mut Vec<StreamName>,
) -> Result<(), NoMemory>
    requires { StandsFor index.old (before_pod (option_copied old) (option_copied new) c.now.cluster) }
    ensures moved { OnOk result (IsMoved c.now.cluster index.old index.new) }
    ensures touched { OnOk result (touched.new.items ≡ touched.old.items ++ names_of_moved (changes_between (before_pod (option_copied old.entry) (option_copied new.entry) c.now.cluster) c.now.cluster index.old) (at_cluster c.now.cluster index.old) c.now.cluster) }
{
    let changes = index.pod_changed(c, old, new)?;
    push_moved(touched, index, c, changes.as_slice())?;
    Ok(())
}

fn namespace_moved(
    index: &mut GroupIndex,
    c: &Cluster,
    old: Option<&Namespace>,
    name: &Text,
    touched: &mut Vec<StreamName>,
) -> Result<(), NoMemory>
    requires { StandsFor index.old (before_namespace (option_copied old) name.now c.now.cluster) }
    ensures moved { OnOk result (IsMoved c.now.cluster index.old index.new) }
    ensures touched { OnOk result (touched.new.items ≡ touched.old.items ++ names_of_moved (changes_between (before_namespace (option_copied old.entry) name.now c.now.cluster) c.now.cluster index.old) (at_cluster c.now.cluster index.old) c.now.cluster) }
{
    let changes = index.namespace_changed(c, old, name)?;
    push_moved(touched, index, c, changes.as_slice())?;
    Ok(())
}

/// Moves the members of the groups in use to those after a change, at whose key this stood before it, and appends the names
/// that the change touches.
pub(crate) fn move_members(
    index: &mut GroupIndex,
    c: &Cluster,
    change: &Change,
    old: Option<&Object>,
    touched: &mut Vec<StreamName>,
) -> Result<(), NoMemory>
    requires { StandsBefore change.now (option_copied old) index.old c.now.cluster }
    ensures moved { OnOk result (IsMoved c.now.cluster index.old index.new) }
    ensures touched { OnOk result (touched.new.items ≡ touched.old.items ++ touched_by change.now (option_copied old.entry) index.old c.now.cluster) }
{
    match change {
        Change::Put(Object::Pod(pod)) => pod_moved(index, c, pod_in(old), Some(pod), touched),
        Change::Remove(ObjectKey::Pod(_)) => pod_moved(index, c, pod_in(old), None, touched),
        Change::Put(Object::Namespace(namespace)) => {
            namespace_moved(index, c, namespace_in(old), &namespace.name, touched)
        }
        Change::Remove(ObjectKey::Namespace(name)) => {
            namespace_moved(index, c, namespace_in(old), name, touched)
        }
        _ => push_both(touched, new_object(change), old),
    }
}

/// Each of the groups is in use once more.
pub(crate) fn put_all(
    index: &mut GroupIndex,
    c: &Cluster,
    groups: &[GroupKey],
) -> Result<(), NoMemory>
    requires stands { StandsFor index.old c.now.cluster }
    requires groups { AreGroups index.old }
    ensures { OnOk result (IsUsedMore c.now.cluster groups.now index.old index.new) }
{
    for g in groups {
        group_form(g);
        index.put_group(c, g)?;
    }
    Ok(())
}

/// Each of the groups is in use once less. It does not allocate.
pub(crate) fn drop_all(index: &mut GroupIndex, groups: &[GroupKey])
    requires { (g : Group) → times g groups.now ≤ uses_of index.old g }
    ensures { IsUsedLess groups.now index.old index.new }
{
    for g in groups {
        index.keeps_its_form();
        index.drop_group(g);
    }
}

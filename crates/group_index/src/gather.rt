ghost use Rattle.std.specs.Prelude.{◌≡◌, ◌++◌, [], map, IfOk, OnOk};
ghost use Rattle.cluster_types.specs.Groups.{members_by};
ghost use Rattle.cluster_types.specs.Pod.{PodData};
ghost use Rattle.group_index.specs.Members.{member_of, members_if, members_of};
ghost use Rattle.group_index.specs.Settled.{IsStretch};

use crate::concern::pods_of;
use crate::member::Member;
use crate::sorted::sorted;
use crate::stretch::Stretch;
use cl_types::{Addr, Copies, NoMemory};
use cluster_objects::{Cluster, Pod};
use label_select::{GroupKey, Scope};
use std::alloc::Global;

pub(crate) fn member_of(pod: &Pod, address: Addr) -> Result<Member, NoMemory>
    ensures { IfOk result (λ m. m ≡ member_of pod.now address) }
{
    Ok(Member {
        address,
        node: pod.node.copy()?,
        pod: pod.key.copy()?,
        ports: pod.ports.copy()?,
    })
}

fn push_members(members: &mut Vec<Member>, pod: &Pod) -> Result<(), NoMemory>
    ensures { OnOk result (members.new.items ≡ members.old.items ++ map (member_of pod.now) pod.now.addresses) }
{
    let addresses = pod.addresses.as_slice();
    for a in addresses {
        members.push(member_of(pod, *a)?)?;
    }
    Ok(())
}

fn push_if_in_group(
    members: &mut Vec<Member>,
    c: &Cluster,
    g: &GroupKey,
    pod: &Pod,
) -> Result<(), NoMemory>
    ensures { OnOk result (members.new.items ≡ members.old.items ++ members_if c.now.cluster g.now pod.now) }
{
    if c.in_group(g, pod) {
        push_members(members, pod)?;
    }
    Ok(())
}

// Where pods stand that the group may contain: where its scope is one namespace, the pods of that.
fn candidate_pods(alloc: Global, c: &Cluster, g: &GroupKey) -> Result<Stretch, NoMemory>
    ensures { IfOk result (IsStretch (λ (p : PodData). members_if c.now.cluster g.now p ≡ []) c.now.cluster.pods) }
{
    c.keeps_its_form();
    let pods = c.pods();
    match &g.scope {
        Scope::Namespace(name) => pods_of(alloc, pods, name),
        Scope::Namespaces(_) => Ok(Stretch {
            start: 0,
            end: pods.len(),
        }),
    }
}

fn gathered(alloc: Global, c: &Cluster, g: &GroupKey) -> Result<Vec<Member>, NoMemory>
    ensures { IfOk result (λ v. v.items ≡ members_by member_of c.now.cluster g.now) }
{
    let mut members = Vec::new(alloc);
    let pods = c.pods();
    let candidates = candidate_pods(alloc, c, g)?;
    for i in candidates.start..candidates.end {
        push_if_in_group(&mut members, c, g, &pods[i])?;
    }
    Ok(members)
}

/// The members of the group, by address.
#[tactic(auto, unfolding(crate::specs::Members::members_of))]
pub(crate) fn members_of(alloc: Global, c: &Cluster, g: &GroupKey) -> Result<Vec<Member>, NoMemory>
    ensures { IfOk result (λ v. v.items ≡ members_of c.now.cluster g.now) }
{
    let members = gathered(alloc, c, g)?;
    sorted(alloc, members)
}

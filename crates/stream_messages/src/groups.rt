//! Groups, and those of the peers of policies.
ghost use Rattle.std.specs.Prelude.{◌≡◌, ◌++◌, IfOk, OnOk};
ghost use Rattle.std.specs.List.{flat_map};
ghost use Rattle.watch_streams.specs.Projection.{all_pods, rule_groups};

use crate::net::peer_groups;
use cl_types::{Copies, Dir, List, NoMemory};
use cluster_types::Rule;
use label_select::{GroupKey, Scope, Selector};
use std::alloc::Global;

fn all_pods(alloc: Global) -> GroupKey
    ensures { result ≡ all_pods }
{
    GroupKey {
        scope: Scope::Namespaces(Selector {
            needs: List::new(alloc),
        }),
        pods: Selector {
            needs: List::new(alloc),
        },
    }
}

// The groups of the rule's peers.
fn rule_groups(alloc: Global, rule: &Rule) -> Result<Vec<GroupKey>, NoMemory>
    ensures { IfOk result (λ groups. groups.items ≡ rule_groups rule.now rule.now.peers) }
{
    if let Some(peers) = &rule.peers {
        return peer_groups(alloc, peers.as_slice());
    }
    let mut groups = Vec::new(alloc);
    if rule.key.dir == Dir::Egress && !rule.named.as_slice().is_empty() {
        groups.push(all_pods(alloc))?;
    }
    Ok(groups)
}

/// The groups of the peers of these rules.
pub fn policy_groups(alloc: Global, rules: &[Rule]) -> Result<Vec<GroupKey>, NoMemory>
    ensures { IfOk result (λ groups. groups.items ≡ flat_map (λ r. rule_groups r r.peers) rules.now) }
{
    let mut groups = Vec::new(alloc);
    for rule in rules {
        let mut more = rule_groups(alloc, rule)?;
        groups.append(&mut more)?;
    }
    Ok(groups)
}

/// Appends copies of the groups.
pub fn copy_groups(found: &mut Vec<GroupKey>, groups: &[GroupKey]) -> Result<(), NoMemory>
    ensures { OnOk result (found.new.items ≡ found.old.items ++ groups.now) }
{
    for g in groups {
        found.push(g.copy()?)?;
    }
    Ok(())
}

//! A line of changes that comes while the nodes aren't fixed.
ghost use Rattle.std.specs.Prelude.{◌≡◌, IfOk, false};
ghost use Rattle.command_words.specs.Words.{IsRing};
ghost use Rattle.suite_run.specs.Fixing.{AnswersFirst, Begins, nodes_in_front};

use crate::changing::Changed;
use crate::run::Run;
use crate::world::{apply_all, is_node};
use cl_types::{Copies, List, NoMemory};
use cluster_objects::{Change, Cluster, ClusterRefusal};
use ctl_core::Outcome;
use std::alloc::Global;

/// Where a line leaves a cluster whose nodes weren't fixed.
#[derive(Drop)]
pub(crate) enum Early {
    /// Nodes alone came, and more can come.
    Bare(Cluster),
    /// Something other than a Node came, and a run began.
    Fixed(Run),
}

/// What the first line that isn't refused comes to, or one of Nodes alone: whether a Node was changed, and whether
/// anything else was.
#[derive(Drop)]
pub(crate) struct First {
    pub(crate) early: Early,
    pub(crate) node: bool,
    pub(crate) other: bool,
}

fn nodes_in_front(changes: &[Change]) -> usize
    ensures { result ≡ nodes_in_front changes.now }
{
    let mut count = 0;
    for change in changes {
        if !is_node(change) {
            return count;
        }
        count += 1;
    }
    count
}

fn copied(alloc: Global, changes: &[Change]) -> Result<List<Change>, NoMemory>
    ensures { IfOk result (λ copy. copy ≡ changes.now) }
{
    let mut copy = Vec::with_capacity(alloc, changes.len())?;
    for change in changes {
        copy.push(change.copy()?)?;
    }
    Ok(List::of(copy))
}

// Begins a run, which takes the changes, and tells whether one of something other than a Node made a difference.
fn begin(
    alloc: Global,
    nodes: Cluster,
    ring: u32,
    changes: &[Change],
) -> Result<(Run, bool), ClusterRefusal>
    requires early { nodes.cluster.fixed ≡ false }
    requires ring { IsRing ring }
    ensures { Begins changes.now nodes.cluster ring result }
{
    nodes.keeps_its_form();
    let changes = copied(alloc, changes)?;
    let run = Run::new(alloc, nodes, ring)?;
    let Changed { run, answer } = run.line(changes)?;
    match answer {
        Ok(Outcome::Revision { .. }) => Ok((run, true)),
        Ok(Outcome::Unchanged) => Ok((run, false)),
        Err(refusal) => Err(refusal),
    }
}

/// Takes a line of changes, all of them or none. The nodes are fixed by the first change that isn't a Node's.
pub(crate) fn first_line(
    alloc: Global,
    cluster: &Cluster,
    ring: u32,
    changes: &[Change],
) -> Result<First, ClusterRefusal>
    requires early { cluster.now.cluster.fixed ≡ false }
    requires ring { IsRing ring }
    ensures { AnswersFirst changes.now cluster.now.cluster ring result }
{
    cluster.keeps_its_form();
    let (front, rest) = changes.split_at(nodes_in_front(changes));
    let mut nodes = cluster.copy()?;
    let made = apply_all(&mut nodes, front)?;
    nodes.keeps_its_form();
    if rest.is_empty() {
        return Ok(First {
            early: Early::Bare(nodes),
            node: made.node,
            other: false,
        });
    }
    let (run, other) = begin(alloc, nodes, ring, rest)?;
    Ok(First {
        early: Early::Fixed(run),
        node: made.node,
        other,
    })
}

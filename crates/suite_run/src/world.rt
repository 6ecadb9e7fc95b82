//! What is known between two lines, and what a line changes in it.
ghost use Rattle.std.specs.Prelude.{◌≡◌, ◌^◌, ◌<◌, ◌&&◌, ◌||◌, false, not, IfOk};
ghost use Rattle.cluster_objects.specs.Apply.{makes_difference};
ghost use Rattle.cluster_objects.specs.Changes.{after, is_node};
ghost use Rattle.command_words.specs.Words.{IsRing};
ghost use Rattle.run_machine.specs.Machine.{WorldData, first_world};
ghost use Rattle.suite_run.specs.declared.item.Item.TheVariants.{Objects};
ghost use Rattle.suite_run.specs.Fixing.{revision_of};
ghost use Rattle.suite_run.specs.RunState.{Stands, StandsEarly};
ghost use Rattle.suite_run.specs.Shown.{ComesTo, IsAnswerTold, IsReady, IsStep, IsTold, IsWorld, Makes, counted, first_told, outcome_of};
ghost use Rattle.suite_run.specs.World.{step};

use crate::changing::Changed;
use crate::fixing::{Early, First, first_line};
use crate::run::Run;
use cl_types::{Copies, Judged, List, NoMemory, Rev, Text};
use cluster_objects::{Applied, Change, Cluster, ClusterRefusal, Object, ObjectKey};
use ctl_core::{Outcome, StreamOf};
use line_refusals::Refusal;
use std::alloc::Global;

/// What is known between two lines: for how many messages a stream has places, and the bare cluster, or the run once the
/// nodes are fixed.
#[derive(Drop)]
pub(crate) struct World {
    pub(crate) ring: u32,
    pub(crate) early: Early,
}

/// What is told of a line.
#[derive(Debug, Drop)]
pub(crate) enum LineOutcome<'c> {
    Silent,
    /// The streams that were cut as the revision was told.
    Revision(u64, List<StreamOf>),
    /// How many nodes there are.
    Nodes(u64),
    Unchanged,
    /// An object of this kind isn't looked at.
    Ignored(Text),
    Refused(Refusal),
    /// The revision, and the policies' verdict.
    Controller(u64, Judged<'c>),
    /// The node, the revisions of what its agent holds, and the verdict of that.
    Held(Text, [Rev; 3], Judged<'c>),
    /// How many messages agents took.
    Delivered(u64),
    Cut,
    Rejoined(u64),
    Settled(u64),
}

// Whether a Node was changed, and whether anything else was.
#[derive(Clone, Copy)]
pub(crate) struct Differences {
    pub(crate) node: bool,
    pub(crate) other: bool,
}

impl Differences {
    const NONE: Differences = Differences {
        node: false,
        other: false,
    };

    // What one change makes.
    fn of(node: bool, applied: Applied) -> Differences
        ensures node { result.node ≡ (node && makes_difference applied) }
        ensures other { result.other ≡ (not node && makes_difference applied) }
    {
        match applied {
            Applied::Unchanged => Differences::NONE,
            Applied::Changed => Differences { node, other: !node },
        }
    }

    // These, and those that a further change makes.
    fn and(self, node: bool, applied: Applied) -> Differences
        ensures node { result.node ≡ (self.node || (node && makes_difference applied)) }
        ensures other { result.other ≡ (self.other || (not node && makes_difference applied)) }
    {
        let more = Differences::of(node, applied);
        Differences {
            node: self.node || more.node,
            other: self.other || more.other,
        }
    }
}

pub(crate) fn is_node(change: &Change) -> bool
    ensures { result ≡ is_node change.now }
{
    matches!(
        change,
        Change::Put(Object::Node(_)) | Change::Remove(ObjectKey::Node(_))
    )
}

// Makes the changes in their order, up to the first one that is refused.
pub(crate) fn apply_all(
    cluster: &mut Cluster,
    changes: &[Change],
) -> Result<Differences, ClusterRefusal>
    ensures { ComesTo (after cluster.old.cluster changes.now) result cluster.new.cluster }
{
    let mut made = Differences::NONE;
    for change in changes {
        let applied = cluster.try_apply(change.copy()?)?;
        made = made.and(is_node(change), applied);
    }
    Ok(made)
}

/// The world after a line of changes, and what is told of the line.
#[derive(Drop)]
pub(crate) struct Told {
    pub(crate) world: World,
    pub(crate) outcome: LineOutcome<'static>,
}

// What is told where a Node was changed, or nothing was.
fn counted(cluster: &Cluster, node: bool) -> LineOutcome<'static>
    ensures { outcome_of result ≡ counted cluster.now.cluster node }
{
    if node {
        LineOutcome::Nodes(cluster.nodes().len() as u64)
    } else {
        LineOutcome::Unchanged
    }
}

fn told_first(alloc: Global, first: &First) -> LineOutcome<'static>
    ensures { outcome_of result ≡ first_told first.now }
{
    if first.other {
        return LineOutcome::Revision(1, List::new(alloc));
    }
    match &first.early {
        Early::Bare(cluster) => counted(cluster, first.node),
        Early::Fixed(run) => counted(run.controller.cluster(), first.node),
    }
}

impl Told {
    fn of(ring: u32, early: Early, outcome: LineOutcome<'static>) -> Told
        ensures world { result.world ≡ record { ring = ring; early = early } }
        ensures told { outcome_of result.outcome ≡ outcome_of outcome.entry }
    {
        Told {
            world: World { ring, early },
            outcome,
        }
    }
}

// The world after the first line, and what is told of it.
fn after_first(alloc: Global, ring: u32, first: First) -> Told
    ensures world { result.world ≡ record { ring = ring; early = first.early } }
    ensures told { outcome_of result.outcome ≡ first_told first }
{
    let outcome = told_first(alloc, &first);
    Told::of(ring, first.early, outcome)
}

// A line that comes while the nodes aren't fixed.
fn change_bare(
    alloc: Global,
    cluster: Cluster,
    ring: u32,
    changes: List<Change>,
) -> Result<Told, NoMemory>
    requires early { cluster.cluster.fixed ≡ false }
    requires ring { IsRing ring }
    ensures { IfOk result (λ told. (w : WorldData) → StandsEarly cluster.cluster ring w → IsStep (step w (Objects changes)) told.world told.outcome) }
{
    let refusal = match first_line(alloc, &cluster, ring, changes.as_slice()) {
        Ok(first) => return Ok(after_first(alloc, ring, first)),
        Err(refusal) => refusal,
    };
    let outcome = refused(refusal)?;
    Ok(Told::of(ring, Early::Bare(cluster), outcome))
}

fn answer_told(answer: Result<Outcome, ClusterRefusal>) -> Result<LineOutcome<'static>, NoMemory>
    ensures { IfOk result (IsAnswerTold answer) }
{
    match answer {
        Ok(Outcome::Revision { rev, cut }) => Ok(LineOutcome::Revision(rev.0, cut)),
        Ok(Outcome::Unchanged) => Ok(LineOutcome::Unchanged),
        Err(refusal) => refused(refusal),
    }
}

// A line that comes once the nodes are fixed.
fn change_run(run: Run, ring: u32, changes: List<Change>) -> Result<Told, NoMemory>
    requires revision { run.revision < 2 ^ 32 }
    requires ring { IsRing ring }
    ensures { IfOk result (λ told. (w : WorldData) → Stands run w → IsStep (step w (Objects changes)) told.world told.outcome) }
{
    run.controller.cluster().keeps_its_form();
    let Changed { run, answer } = run.line(changes)?;
    let outcome = answer_told(answer)?;
    Ok(Told::of(ring, Early::Fixed(run), outcome))
}

impl World {
    /// No line has come yet.
    pub(crate) fn new(alloc: Global, ring: u32) -> Result<World, NoMemory>
        requires { IsRing ring }
        ensures ready { IfOk result IsReady }
        ensures first { IfOk result (λ world. IsWorld world (first_world ring)) }
    {
        Ok(World {
            ring,
            early: Early::Bare(Cluster::new(alloc)?),
        })
    }

    /// Makes the changes of a line, all of them or none.
    pub(crate) fn change(self, alloc: Global, changes: List<Change>) -> Result<Told, NoMemory>
        requires ready { IsReady self }
        requires revision { revision_of self.early < 2 ^ 32 }
        ensures { IfOk result (λ told. Makes (Objects changes) self told.world told.outcome) }
    {
        let World { ring, early } = self;
        match early {
            Early::Bare(cluster) => change_bare(alloc, cluster, ring, changes),
            Early::Fixed(run) => change_run(run, ring, changes),
        }
    }
}

// What is told of a refused change.
fn refused(refusal: ClusterRefusal) -> Result<LineOutcome<'static>, NoMemory>
    ensures { IfOk result (IsTold refusal) }
{
    match refusal {
        ClusterRefusal::NoMemory => Err(NoMemory),
        refusal => Ok(LineOutcome::Refused(Refusal::Applying(refusal))),
    }
}

//! The messages of a revision: what each live stream of each node is told.
ghost use Rattle.std.specs.Prelude.{◌≡◌, map, if◌then◌else◌, Some, None, IfOk};
ghost use Rattle.std.specs.List.{AllByRecursion, flat_map};
ghost use Rattle.node_objects.specs.Sides.{IsSide};
ghost use Rattle.node_objects.specs.Touched.{IsTouched};
ghost use Rattle.stream_messages.specs.Messages.{delta};
ghost use Rattle.ctl_core.specs.Telling.{messages_of, named_stream, names_of, turn_of};
ghost use Rattle.ctl_core.specs.Touched.{AreToldOf, changed_under};

use crate::outcome::StreamOf;
use crate::side::Side;
use cl_types::{Copies, List, NoMemory, Rev, Stream, Text};
use node_objects::{TouchedName, push_touched};
use node_streams::{NodeMessages, NodePorts};
use std::alloc::Global;
use touched_names::touched_names_tell_all;
use watch_streams::{Changes, Msg, Port, StreamChange};

/// The streams of a node, by name.
#[derive(Debug, Drop)]
pub(crate) struct NodeNames {
    pub(crate) policies: StreamOf,
    pub(crate) addresses: StreamOf,
    pub(crate) applied: StreamOf,
}

/// What a node is told, with the names of its streams.
#[derive(Drop)]
pub(crate) struct Turn {
    pub(crate) messages: NodeMessages,
    pub(crate) names: NodeNames,
}

// What changes on a stream of a node under these names.
fn changes_under(
    alloc: Global,
    old: &Side,
    new: &Side,
    touched: &[TouchedName],
    s: Stream,
    node: &Text,
) -> Result<Vec<StreamChange>, NoMemory>
    requires old { IsSide old.now.cluster.cluster old.now.groups }
    requires new { IsSide new.now.cluster.cluster new.now.groups }
    requires touched { AllByRecursion (IsTouched old.now.cluster.cluster old.now.groups new.now.cluster.cluster new.now.groups) touched.now }
    ensures { IfOk result (λ changes. changes.items ≡ flat_map (changed_under old.now.cluster.cluster new.now.cluster.cluster s node.now) touched.now) }
{
    let mut changes = Vec::new(alloc);
    for t in touched {
        push_touched(
            &mut changes,
            &old.cluster,
            &old.groups,
            &new.cluster,
            &new.groups,
            s,
            node,
            t,
        )?;
    }
    Ok(changes)
}

// What a stream of a node is told at the revision, under whose names all changes are.
fn delta(
    alloc: Global,
    old: &Side,
    new: &Side,
    touched: &[TouchedName],
    rev: Rev,
    s: Stream,
    node: &Text,
) -> Result<Msg, NoMemory>
    requires old { IsSide old.now.cluster.cluster old.now.groups }
    requires new { IsSide new.now.cluster.cluster new.now.groups }
    requires touched { AreToldOf old.now.cluster.cluster old.now.groups new.now.cluster.cluster new.now.groups touched.now }
    ensures { IfOk result (λ m. m ≡ delta old.now.cluster.cluster new.now.cluster.cluster rev s node.now) }
{
    old.cluster.keeps_its_form();
    new.cluster.keeps_its_form();
    watch_streams::projections_are_maps();
    watch_streams::messages_name_once();
    touched_names_tell_all();
    let changes = changes_under(alloc, old, new, touched, s, node)?;
    Ok(Msg::Delta(rev, Changes::of(List::of(changes))))
}

fn delta_if(
    live: bool,
    alloc: Global,
    old: &Side,
    new: &Side,
    touched: &[TouchedName],
    rev: Rev,
    s: Stream,
    node: &Text,
) -> Result<Option<Msg>, NoMemory>
    requires old { IsSide old.now.cluster.cluster old.now.groups }
    requires new { IsSide new.now.cluster.cluster new.now.groups }
    requires touched { AreToldOf old.now.cluster.cluster old.now.groups new.now.cluster.cluster new.now.groups touched.now }
    ensures { IfOk result (λ m. m ≡ (if live then Some (delta old.now.cluster.cluster new.now.cluster.cluster rev s node.now) else None)) }
{
    if live {
        Ok(Some(delta(alloc, old, new, touched, rev, s, node)?))
    } else {
        Ok(None)
    }
}

fn node_messages<P: Port>(
    alloc: Global,
    old: &Side,
    new: &Side,
    touched: &[TouchedName],
    rev: Rev,
    n: &NodePorts<P>,
) -> Result<NodeMessages, NoMemory>
    requires old { IsSide old.now.cluster.cluster old.now.groups }
    requires new { IsSide new.now.cluster.cluster new.now.groups }
    requires touched { AreToldOf old.now.cluster.cluster old.now.groups new.now.cluster.cluster new.now.groups touched.now }
    ensures { IfOk result (λ m. m ≡ messages_of old.now.cluster.cluster new.now.cluster.cluster rev n.now) }
{
    let node = n.node();
    let policies = n.stream(Stream::Policies).is_live();
    let addresses = n.stream(Stream::Addresses).is_live();
    let applied = n.stream(Stream::Applied).is_live();
    Ok(NodeMessages {
        policies: delta_if(
            policies,
            alloc,
            old,
            new,
            touched,
            rev,
            Stream::Policies,
            node,
        )?,
        addresses: delta_if(
            addresses,
            alloc,
            old,
            new,
            touched,
            rev,
            Stream::Addresses,
            node,
        )?,
        applied: delta_if(
            applied,
            alloc,
            old,
            new,
            touched,
            rev,
            Stream::Applied,
            node,
        )?,
    })
}

fn named_stream(node: &Text, stream: Stream) -> Result<StreamOf, NoMemory>
    ensures { IfOk result (λ named. named ≡ named_stream node.now stream) }
{
    Ok(StreamOf {
        node: node.copy()?,
        stream,
    })
}

fn names_of(node: &Text) -> Result<NodeNames, NoMemory>
    ensures { IfOk result (λ names. names ≡ names_of node.now) }
{
    Ok(NodeNames {
        policies: named_stream(node, Stream::Policies)?,
        addresses: named_stream(node, Stream::Addresses)?,
        applied: named_stream(node, Stream::Applied)?,
    })
}

fn turn_of<P: Port>(
    alloc: Global,
    old: &Side,
    new: &Side,
    touched: &[TouchedName],
    rev: Rev,
    n: &NodePorts<P>,
) -> Result<Turn, NoMemory>
    requires old { IsSide old.now.cluster.cluster old.now.groups }
    requires new { IsSide new.now.cluster.cluster new.now.groups }
    requires touched { AreToldOf old.now.cluster.cluster old.now.groups new.now.cluster.cluster new.now.groups touched.now }
    ensures { IfOk result (λ turn. turn ≡ turn_of old.now.cluster.cluster new.now.cluster.cluster rev n.now) }
{
    Ok(Turn {
        messages: node_messages(alloc, old, new, touched, rev, n)?,
        names: names_of(n.node())?,
    })
}

/// What the nodes are told at the revision that leads from the old side to the new one.
pub(crate) fn all_turns<P: Port>(
    alloc: Global,
    old: &Side,
    new: &Side,
    touched: &[TouchedName],
    rev: Rev,
    nodes: &[NodePorts<P>],
) -> Result<Vec<Turn>, NoMemory>
    requires old { IsSide old.now.cluster.cluster old.now.groups }
    requires new { IsSide new.now.cluster.cluster new.now.groups }
    requires touched { AreToldOf old.now.cluster.cluster old.now.groups new.now.cluster.cluster new.now.groups touched.now }
    ensures { IfOk result (λ all. all.items ≡ map (turn_of old.now.cluster.cluster new.now.cluster.cluster rev) nodes.now) }
{
    let mut all = Vec::new(alloc);
    for n in nodes {
        all.push(turn_of(alloc, old, new, touched, rev, n)?)?;
    }
    Ok(all)
}

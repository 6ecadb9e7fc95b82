//! The nodes are told what changed, one after another.
ghost use Rattle.std.specs.Prelude.{◌≡◌, ◌≤◌, ◌<◌, ◌+◌, ◌++◌, ◌∷◌, [], cond, length, vec_len, vec_capacity, IfOk, OnErr, OnOk, true};
ghost use Rattle.cluster_types.specs.Limits.{max_nodes};
ghost use Rattle.ctl_core.specs.Line.{LeavesNodes};
ghost use Rattle.ctl_core.specs.Telling.{listed_cuts, messages_of, streams_cut};
ghost use Rattle.ctl_core.specs.Touched.{AreTouched};
ghost use Rattle.ctl_core.specs.Trying.{Leads};
ghost use Rattle.ctl_core.specs.Uses.{IsCounted};
ghost use Rattle.node_streams.specs.Telling.{AreTold, NodeIsTold, TellsTheLive, cuts_of};

use crate::applying::apply_all;
use crate::outcome::StreamOf;
use crate::side::Side;
use crate::telling::{NodeNames, Turn, all_turns};
use cl_types::{NoMemory, Rev};
use cluster_objects::Change;
use node_objects::all_touched;
use node_streams::{NodeCuts, NodePorts};
use std::alloc::Global;
use stream_messages::TitledName;
use watch_streams::Port;

// Lists the stream, where it was cut. The room for it is there.
fn push_if(listed: &mut Vec<StreamOf>, is_cut: bool, stream: StreamOf)
    requires { vec_len listed.old < vec_capacity listed.old }
    ensures items { listed.new.items ≡ listed.old.items ++ cond is_cut (stream ∷ []) [] }
    ensures len { vec_len listed.new ≤ vec_len listed.old + 1 }
    ensures capacity { vec_capacity listed.old ≤ vec_capacity listed.new }
{
    if !is_cut {
        return;
    }
    match listed.push(stream) {
        Ok(()) => {}
        Err(_) => unreachable!(),
    }
}

// Lists the streams of a node that were cut. The room for them is there.
fn push_cuts(listed: &mut Vec<StreamOf>, cuts: NodeCuts, names: NodeNames)
    requires { vec_len listed.old + 3 ≤ vec_capacity listed.old }
    ensures items { listed.new.items ≡ listed.old.items ++ listed_cuts names cuts }
    ensures len { vec_len listed.new ≤ vec_len listed.old + 3 }
    ensures capacity { vec_capacity listed.old ≤ vec_capacity listed.new }
{
    push_if(listed, cuts.policies, names.policies);
    push_if(listed, cuts.addresses, names.addresses);
    push_if(listed, cuts.applied, names.applied);
}

// Tells a node, and lists its streams that were cut.
fn tell_one<P: Port + Drop>(n: &mut NodePorts<P>, turn: Turn, listed: &mut Vec<StreamOf>)
    requires live { TellsTheLive turn.messages n.old }
    requires room { vec_len listed.old + 3 ≤ vec_capacity listed.old }
    ensures told { NodeIsTold P.state P.same turn.messages (cuts_of n.old n.new) n.old n.new }
    ensures items { listed.new.items ≡ listed.old.items ++ listed_cuts turn.names (cuts_of n.old n.new) }
    ensures len { vec_len listed.new ≤ vec_len listed.old + 3 }
    ensures capacity { vec_capacity listed.old ≤ vec_capacity listed.new }
{
    let cuts = n.tell(turn.messages);
    push_cuts(listed, cuts, turn.names);
}

/// Tells each live stream what changed on it at the revision that leads from the present side to the next one, and lists
/// the streams that were cut. All that changed is under these names. The present side takes the changes too. All that
/// needs memory is done before the first message is offered.
pub(crate) fn tell_all<P: Port + Drop>(
    alloc: Global,
    present: &mut Side,
    next: &Side,
    touched: &[TitledName],
    changes: &[Change],
    rev: Rev,
    nodes: &mut Vec<NodePorts<P>>,
) -> Result<Vec<StreamOf>, NoMemory>
    requires fixed { present.old.cluster.cluster.fixed ≡ true }
    requires present { IsCounted present.old.cluster.cluster present.old.groups }
    requires next { IsCounted next.now.cluster.cluster next.now.groups }
    requires touched { AreTouched touched.now present.old.cluster.cluster next.now.cluster.cluster }
    requires few { length nodes.old.items ≤ max_nodes }
    ensures told { IfOk result (λ _. AreTold P.state P.same (messages_of present.old.cluster.cluster next.now.cluster.cluster rev) nodes.old.items nodes.new.items) }
    ensures listed { IfOk result (λ listed. listed.items ≡ streams_cut nodes.old.items nodes.new.items) }
    ensures leads { OnOk result (Leads changes.now present.old.cluster.cluster present.new.cluster.cluster) }
    ensures counted { OnOk result (IsCounted present.new.cluster.cluster present.new.groups) }
    ensures nodes { LeavesNodes present.old.cluster.cluster present.new.cluster.cluster }
    ensures err { OnErr result (nodes.new ≡ nodes.old) }
{
    present.has_all_in_use();
    next.has_all_in_use();
    let touched = all_touched(
        alloc,
        &present.cluster,
        &present.groups,
        &next.cluster,
        &next.groups,
        touched,
    )?;
    let turns = all_turns(
        alloc,
        present,
        next,
        touched.as_slice(),
        rev,
        nodes.as_slice(),
    )?;
    let mut listed = Vec::with_capacity(alloc, 3 * turns.len())?;
    let mut named = Vec::new(alloc);
    apply_all(alloc, present, changes, &mut named)?;
    let mut i = 0;
    for turn in turns {
        tell_one(&mut nodes[i], turn, &mut listed);
        i += 1;
    }
    Ok(listed)
}

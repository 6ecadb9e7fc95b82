//! Reading control lines by their type.
ghost use Rattle.std.specs.Prelude.{◌≡◌, codes};
ghost use Rattle.serde_json.specs.View.{view};
ghost use Rattle.json_fields.specs.Answer.{Gives};
ghost use Rattle.control_lines.specs.Control.{node_at, count_if_there, read_deliver, read_cut, read_rejoin, order_at, ask_of, read_ask, antctl_of, read_antctl, read_node_state, read_restart, ordered, read_trace, read_sent, order_of_type, request_of_type, read_control};

use crate::control::{Control, ControlLine, NodeOrder};
use crate::needed::{number_of, owned_text_at, text_if_there, texts_at, truth_at, truth_or_false};
use crate::orders::{read_attach, read_detach, read_packet, read_question, read_tick};
use crate::words::{View, stream_at, stream_if_there, view_at};
use cl_types::{AgentOrder, List, Question, Text};
use json_fields::{ReadRefusal, field};
use serde_json::Value;
use std::alloc::Global;

/// What the control line of this type orders. Every fault of it is BadControl; fields that no type has are passed
/// over, and a field that is null is as absent.
#[tactic(auto, unfolding(crate::specs::Control::read_control))]
pub fn read_control(alloc: Global, kind: &[u8], value: &Value) -> Result<ControlLine, ReadRefusal>
    ensures { Gives (λ (x : _). x) result (read_control kind.now (view value.now)) }
{
    if kind == b"X-DELIVER".as_slice() {
        read_deliver(alloc, value)
    } else if kind == b"X-CUT".as_slice() {
        read_cut(alloc, value)
    } else if kind == b"X-REJOIN".as_slice() {
        read_rejoin(alloc, value)
    } else if kind == b"X-SETTLE".as_slice() {
        Ok(ControlLine::Control(Control::Settle))
    } else {
        request_of_type(alloc, kind, value)
    }
}

// Questions and commands, for the controller or for an agent.
#[tactic(auto, unfolding(crate::specs::Control::request_of_type))]
fn request_of_type(alloc: Global, kind: &[u8], value: &Value) -> Result<ControlLine, ReadRefusal>
    ensures { Gives (λ (x : _). x) result (request_of_type kind.now (view value.now)) }
{
    if kind == b"X-ASK".as_slice() {
        read_ask(alloc, value)
    } else if kind == b"X-ANTCTL".as_slice() {
        read_antctl(alloc, value)
    } else if kind == b"X-NODE".as_slice() {
        read_node_state(alloc, value)
    } else if kind == b"X-RESTART".as_slice() {
        read_restart(alloc, value)
    } else {
        order_of_type(alloc, kind, value)
    }
}

// Orders to agents.
#[tactic(auto, unfolding(crate::specs::Control::order_of_type))]
fn order_of_type(alloc: Global, kind: &[u8], value: &Value) -> Result<ControlLine, ReadRefusal>
    ensures { Gives (λ (x : _). x) result (order_of_type kind.now (view value.now)) }
{
    if kind == b"X-ATTACH".as_slice() {
        ordered(alloc, read_attach(value), value)
    } else if kind == b"X-DETACH".as_slice() {
        ordered(alloc, read_detach(value), value)
    } else if kind == b"X-PACKET".as_slice() {
        ordered(alloc, read_sent(value), value)
    } else if kind == b"X-TRACE".as_slice() {
        ordered(alloc, read_trace(value), value)
    } else if kind == b"X-TICK".as_slice() {
        ordered(alloc, read_tick(value), value)
    } else {
        Err(ReadRefusal::BadControl)
    }
}

fn node_at(alloc: Global, value: &Value) -> Result<Text, ReadRefusal>
    ensures { Gives (λ (t : _). t) result (node_at (view value.now)) }
{
    owned_text_at(alloc, value, "node")
}

#[tactic(auto, unfolding(crate::specs::Control::count_if_there))]
fn count_if_there(value: &Value) -> Result<Option<u32>, ReadRefusal>
    ensures { Gives (λ (n : _). n) result (count_if_there (view value.now)) }
{
    match field(value, "count") {
        Some(found) => Ok(Some(number_of(found, 1, u32::MAX as u64)? as u32)),
        None => Ok(None),
    }
}

#[tactic(auto, unfolding(crate::specs::Control::read_deliver))]
fn read_deliver(alloc: Global, value: &Value) -> Result<ControlLine, ReadRefusal>
    ensures { Gives (λ (x : _). x) result (read_deliver (view value.now)) }
{
    let node = text_if_there(alloc, value, "node")?;
    let stream = stream_if_there(value)?;
    let count = count_if_there(value)?;
    Ok(ControlLine::Control(Control::Deliver {
        node,
        stream,
        count,
    }))
}

#[tactic(auto, unfolding(crate::specs::Control::read_cut))]
fn read_cut(alloc: Global, value: &Value) -> Result<ControlLine, ReadRefusal>
    ensures { Gives (λ (x : _). x) result (read_cut (view value.now)) }
{
    let node = node_at(alloc, value)?;
    let stream = stream_at(value)?;
    Ok(ControlLine::Control(Control::Cut { node, stream }))
}

#[tactic(auto, unfolding(crate::specs::Control::read_rejoin))]
fn read_rejoin(alloc: Global, value: &Value) -> Result<ControlLine, ReadRefusal>
    ensures { Gives (λ (x : _). x) result (read_rejoin (view value.now)) }
{
    let node = node_at(alloc, value)?;
    let stream = stream_at(value)?;
    Ok(ControlLine::Control(Control::Rejoin { node, stream }))
}

// An order to the agent of a node, and whether it waits until all is settled.
#[tactic(auto, unfolding(crate::specs::Control::order_at))]
fn order_at(alloc: Global, order: AgentOrder, value: &Value) -> Result<ControlLine, ReadRefusal>
    ensures { Gives (λ (x : _). x) result (order_at order (view value.now)) }
{
    let node = node_at(alloc, value)?;
    let settled = truth_or_false(value, "settled")?;
    Ok(ControlLine::Order(NodeOrder {
        node,
        order,
        settled,
    }))
}

fn ordered(
    alloc: Global,
    order: Result<AgentOrder, ReadRefusal>,
    value: &Value,
) -> Result<ControlLine, ReadRefusal>
    ensures { Gives (λ (x : _). x) result (ordered order (view value.now)) }
{
    order_at(alloc, order?, value)
}

#[tactic(auto, unfolding(crate::specs::Control::read_sent))]
fn read_sent(value: &Value) -> Result<AgentOrder, ReadRefusal>
    ensures { Gives (λ (x : _). x) result (read_sent (view value.now)) }
{
    Ok(AgentOrder::Packet(read_packet(value)?))
}

#[tactic(auto, unfolding(crate::specs::Control::read_trace))]
fn read_trace(value: &Value) -> Result<AgentOrder, ReadRefusal>
    ensures { Gives (λ (x : _). x) result (read_trace (view value.now)) }
{
    Ok(AgentOrder::Trace(read_packet(value)?))
}

// The policies' own verdict is asked of the controller, what is held of the node's agent.
#[tactic(auto, unfolding(crate::specs::Control::ask_of))]
fn ask_of(
    alloc: Global,
    asked: View,
    question: Question,
    value: &Value,
) -> Result<ControlLine, ReadRefusal>
    ensures { Gives (λ (x : _). x) result (ask_of asked question (view value.now)) }
{
    match asked {
        View::PoliciesView => {
            let node = node_at(alloc, value)?;
            Ok(ControlLine::Control(Control::Ask { node, question }))
        }
        View::HeldView => order_at(alloc, AgentOrder::Ask(question), value),
    }
}

#[tactic(auto, unfolding(crate::specs::Control::read_ask))]
fn read_ask(alloc: Global, value: &Value) -> Result<ControlLine, ReadRefusal>
    ensures { Gives (λ (x : _). x) result (read_ask (view value.now)) }
{
    let asked = view_at(value)?;
    let question = read_question(value)?;
    ask_of(alloc, asked, question, value)
}

// A command of antctl goes to the agent of the node that is given, else to the controller.
#[tactic(auto, unfolding(crate::specs::Control::antctl_of))]
fn antctl_of(node: Option<Text>, words: List<Text>, settled: bool) -> ControlLine
    ensures { result ≡ antctl_of node words settled }
{
    match node {
        Some(node) => ControlLine::Order(NodeOrder {
            node,
            order: AgentOrder::Antctl(words),
            settled,
        }),
        None => ControlLine::Control(Control::Antctl { words, settled }),
    }
}

#[tactic(auto, unfolding(crate::specs::Control::read_antctl))]
fn read_antctl(alloc: Global, value: &Value) -> Result<ControlLine, ReadRefusal>
    ensures { Gives (λ (x : _). x) result (read_antctl (view value.now)) }
{
    let words = texts_at(alloc, value, "words")?;
    let node = text_if_there(alloc, value, "node")?;
    let settled = truth_or_false(value, "settled")?;
    Ok(antctl_of(node, words, settled))
}

#[tactic(auto, unfolding(crate::specs::Control::read_node_state))]
fn read_node_state(alloc: Global, value: &Value) -> Result<ControlLine, ReadRefusal>
    ensures { Gives (λ (x : _). x) result (read_node_state (view value.now)) }
{
    let node = node_at(alloc, value)?;
    let up = truth_at(value, "up")?;
    Ok(ControlLine::Control(Control::Node { node, up }))
}

#[tactic(auto, unfolding(crate::specs::Control::read_restart))]
fn read_restart(alloc: Global, value: &Value) -> Result<ControlLine, ReadRefusal>
    ensures { Gives (λ (x : _). x) result (read_restart (view value.now)) }
{
    let node = node_at(alloc, value)?;
    Ok(ControlLine::Control(Control::Restart { node }))
}

//! What control lines order.
ghost use Rattle.std.proofs.Common.{rules};
ghost use Rattle.std.proofs.lemmas.Grind.{common_steps};
ghost use Rattle.std.specs.Prelude.{◌≡◌, IfOk};

use cl_types::{AgentOrder, Copies, List, NoMemory, Question, Stream, Text};

/// What is ordered of the controller.
#[derive(Clone, Debug, Drop)]
pub enum Control {
    /// Deliver queued messages: of one node or of all, of one stream or of all, at most `count` of each.
    Deliver {
        node: Option<Text>,
        stream: Option<Stream>,
        count: Option<u32>,
    },
    /// Cut a node's stream.
    Cut {
        node: Text,
        stream: Stream,
    },
    /// Rejoin a node's stream, which is offered a snapshot.
    Rejoin {
        node: Text,
        stream: Stream,
    },
    /// Deliver all messages, and rejoin what is cut.
    Settle,
    /// A question about the policies' own verdict, for the pods of a node.
    Ask {
        node: Text,
        question: Question,
    },
    /// The words of a command of antctl; one that is settled waits until all is delivered.
    Antctl {
        words: List<Text>,
        settled: bool,
    },
    /// Whether a node can hold Egress addresses of pools.
    Node {
        node: Text,
        up: bool,
    },
    /// The agent of a node begins anew.
    Restart {
        node: Text,
    },
}

impl Copies for Control {
    ghost exact = { λ x y h. Prim.search (rules, common_steps) };
}

/// An order to the agent of a node. One that is settled waits until all is delivered.
#[derive(Clone, Debug, Drop)]
pub struct NodeOrder {
    pub node: Text,
    pub order: AgentOrder,
    pub settled: bool,
}

impl Copies for NodeOrder {
    ghost exact = { λ x y h. Prim.search (rules, common_steps) };
}

/// What a control line says.
#[derive(Clone, Debug, Drop)]
pub enum ControlLine {
    Control(Control),
    Order(NodeOrder),
}

impl Copies for ControlLine {
    ghost exact = { λ x y h. Prim.search (rules, common_steps) };
}

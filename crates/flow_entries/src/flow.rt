ghost use Rattle.std.proofs.Common.{rules};
ghost use Rattle.std.proofs.lemmas.Grind.{common_steps};
ghost use Rattle.std.specs.Prelude.{◌≡◌, ◌↔◌, IsTrue, IfOk};
ghost use Rattle.flow_entries.specs.Forward.{GoesForward};

use crate::fields::Match;
use crate::table::Table;
use cl_types::{Action, Addr, Copies, Keyed, List, NoMemory, RuleKey, Text};

/// A dimension, 1 to 3, of the conjunction of this id (ovs-actions(7), "conjunction").
#[derive(Clone, Copy, Debug, PartialEq, Eq, PartialOrd, Ord)]
pub struct Clause {
    pub id: u32,
    pub k: u8,
}

impl Copies for Clause {
    ghost exact = { λ x y h. Prim.search (rules, common_steps) };
}

/// A clause is its own key.
impl Keyed for Clause {
    type Key = Clause;

    ghost key = { λ c. c };

    fn key(&self) -> &Clause {
        self
    }
}

/// What a flow does with a packet that hits it.
#[derive(Clone, Debug, Drop)]
pub enum Does {
    /// Goes to the next table.
    Next,
    /// Goes to a later table.
    Goto(Table),
    /// Skips policy, and goes to L3Forwarding.
    Skip,
    /// The packet leaves by this port.
    Port(u16),
    /// The packet leaves through the tunnel to this node.
    Tunnel(Text),
    /// The packet leaves by the node's own address.
    Leave,
    /// The packet leaves by this address, which has this mark.
    Mark { mark: u8, address: Addr },
    /// The packet goes to the node by which this address leaves.
    Remote { node: Text, address: Addr },
    /// Drops a packet whose source is not its port's.
    Spoof,
    /// Drops a packet that has no way.
    NoPort,
    /// Drops a packet of an isolated pod.
    Isolate,
    /// Matches these dimensions. A flow of this kind is never hit.
    Clauses(List<Clause>),
    /// Does what the rule says.
    Verdict { action: Action, rule: RuleKey },
    /// Sends the packet out.
    Output,
}

impl Copies for Does {
    ghost exact = { λ x y h. Prim.search (rules, common_steps) };
}

/// A flow of a table. Of flows that match, one of greater priority is hit first.
#[derive(Clone, Debug, Drop)]
pub struct Flow {
    pub table: Table,
    pub priority: u16,
    pub fields: Match,
    pub does: Does,
}

impl Flow {
    /// Whether the flow leads by `Goto` to a later table, if it leads by it at all.
    pub fn goes_forward(&self) -> bool
        ensures { IsTrue result ↔ GoesForward self.now }
    {
        match self.does {
            Does::Goto(table) => self.table.place() < table.place(),
            _ => true,
        }
    }
}

impl Copies for Flow {
    ghost exact = { λ x y h. Prim.search (rules, common_steps) };
}

/// A change of tables. A changed flow has the table, priority and match of the flow in whose place it
/// stands.
#[derive(Clone, Debug, Drop)]
pub struct Bundle {
    pub removed: List<Flow>,
    pub changed: List<Flow>,
    pub added: List<Flow>,
}

impl Copies for Bundle {
    ghost exact = { λ x y h. Prim.search (rules, common_steps) };
}

ghost use Rattle.std.proofs.Common.{rules};
ghost use Rattle.std.proofs.lemmas.Grind.{common_steps};
ghost use Rattle.std.specs.Prelude.{◌≡◌, IfOk};

use crate::addr::Addr;
use crate::copies::Copies;
use crate::list::List;
use crate::memory::NoMemory;
use crate::question::{Packet, Question};
use crate::text::Text;

/// What an agent is asked to do.
#[derive(Clone, Debug, Drop)]
pub enum AgentOrder {
    Attach {
        port: u16,
        address: Addr,
        address6: Option<Addr>,
    },
    Detach {
        port: u16,
    },
    Packet(Packet),
    Trace(Packet),
    Tick {
        count: u32,
    },
    Ask(Question),
    Antctl(List<Text>),
}

impl Copies for AgentOrder {
    ghost exact = { λ x y h. Prim.search (rules, common_steps) };
}

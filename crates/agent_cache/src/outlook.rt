//! What taking a message leads to.
ghost use Rattle.std.specs.Prelude.{IfOk};
ghost use Rattle.held_maps.specs.Held.{IsTaken};
ghost use Rattle.agent_cache.specs.Outlook.{IsOutlook};

use crate::changes::changes_between;
use crate::standing::Standing;
use crate::states::standings;
use cl_types::{Copies, NoMemory, Stream, Text};
use held_maps::Held;
use std::alloc::Global;
use watch_streams::{Msg, RuleChanges};

/// What a message changes, and what is known of the rules after it.
#[derive(Drop)]
pub(crate) struct Outlook {
    pub(crate) changes: RuleChanges,
    pub(crate) standings: Vec<Standing>,
}

// What is held once the message was taken.
fn held_after(held: &Held, s: Stream, m: &Msg) -> Result<Held, NoMemory>
    ensures { IfOk result (IsTaken s m.now held.now) }
{
    let mut after = held.copy()?;
    let message = m.copy()?;
    after.take(s, message)?;
    Ok(after)
}

/// What taking the message leads to.
pub(crate) fn foretell(
    alloc: Global,
    node: &Text,
    held: &Held,
    s: Stream,
    m: &Msg,
) -> Result<Outlook, NoMemory>
    ensures { IfOk result (IsOutlook node.now s m.now held.now) }
{
    let after = held_after(held, s, m)?;
    let changes = changes_between(alloc, node, held, &after, s, m)?;
    let standings = standings(alloc, &after)?;
    Ok(Outlook { changes, standings })
}

//! What a rule matches.
ghost use Rattle.std.specs.Prelude.{IfOk};
ghost use Rattle.held_maps.specs.Held.{maps_of};
ghost use Rattle.watch_streams.specs.InForce.{IsParts};

use crate::addresses::addresses_in;
use crate::peers::rule_peers;
use crate::ports::resolved_ports;
use cl_types::{Copies, NoMemory, Stream};
use held_maps::Held;
use std::alloc::Global;
use watch_streams::{NetPolicy, NetRule, RuleParts};

/// What the rule of the policy matches, by what is held.
pub(crate) fn parts_of(
    alloc: Global,
    held: &Held,
    policy: &NetPolicy,
    rule: &NetRule,
) -> Result<RuleParts, NoMemory>
    ensures { IfOk result (IsParts (maps_of held.now) policy.now rule.now) }
{
    let pods = addresses_in(alloc, held, Stream::Applied, policy.applied.as_slice())?;
    let peers = rule_peers(alloc, held, &rule.peers)?;
    let resolved = resolved_ports(alloc, held, policy, rule)?;
    Ok(RuleParts {
        key: rule.key.copy()?,
        action: rule.action,
        pods,
        peers,
        services: rule.services.copy()?,
        resolved,
    })
}

use crate::standing::Standing;
use held_maps::Ready;
use std::marker::Model;
use watch_streams::RuleChanges;

/// A message that is ready to be taken, with what changes then.
#[derive(Drop)]
pub struct Plan {
    pub changes: RuleChanges,
    pub ready: Ready,
    pub(crate) standings: Vec<Standing>,
}

impl Model for Plan {
    ghost use Rattle.agent_cache.specs.PlanData.{PlanData};

    ghost Value = { PlanData };

    ghost view = { λ p. record { changes = p.changes; ready = p.ready; known = p.standings.items } };
}

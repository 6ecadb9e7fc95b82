ghost use Rattle.cl_types.specs.declared.stream.Stream.{Stream};
ghost use Rattle.std.specs.Prelude.{◌≡◌, IfOk, OnOk, OnErr};
ghost use Rattle.held_maps.specs.Held.{IsTaken, maps_of, revisions_of};
ghost use Rattle.watch_streams.specs.declared.message.Msg.{Msg};
ghost use Rattle.watch_streams.specs.RuleChanges.{AreRuleChanges};
ghost use Rattle.agent_cache.specs.Cache.{FitsPlan, IsPlan, after_plan};
ghost use Rattle.agent_cache.specs.CacheData.{CacheData, empty_cache};
ghost use Rattle.agent_cache.specs.Outlook.{IsOutlook};
ghost use Rattle.held_maps.specs.Ready.{FitsIn, IsReady, after_ready};
ghost use Rattle.agent_cache.specs.Standing.{IsStateOf, standings as rule_standings};

use crate::outlook::{Outlook, foretell};
use crate::plan::Plan;
use crate::standing::{RuleState, Standing};
use crate::states::state_at;
use cl_types::{NoMemory, Rev, RuleKey, Stream, Text};
use held_maps::{Held, Ready};
use std::alloc::Global;
use std::marker::Model;
use watch_streams::{Msg, RuleChanges};

/// What the agent of a node holds, and which rules are complete.
#[derive(Drop)]
pub struct Cache {
    node: Text,
    held: Held,
    standings: Vec<Standing>,
}

impl Model for Cache {
    ghost use Rattle.std.specs.Prelude.{◌≡◌};
    ghost use Rattle.held_maps.specs.Held.{maps_of};
    ghost use Rattle.agent_cache.specs.CacheData.{CacheData};
    ghost use Rattle.agent_cache.specs.Standing.{standings as rule_standings};

    ghost Value = { CacheData };

    ghost view = { λ c. record { node = c.node; held = c.held } };

    ghost invariant = { λ c. c.standings.items ≡ rule_standings (maps_of c.held) };
}

// The plan of a message that leads there and is ready.
fn planned(leads: Outlook, ready: Ready) -> Plan
    ensures { (s : Stream) (m : Msg) (cache : CacheData) → IsOutlook cache.node s m cache.held leads → IsReady s m cache.held ready → IsPlan s m cache result }
{
    let Outlook { changes, standings } = leads;
    Plan {
        changes,
        ready,
        standings,
    }
}

impl Cache {
    /// Nothing is held at the node.
    pub fn new(alloc: Global, node: Text) -> Result<Cache, NoMemory>
        ensures { IfOk result (λ cache. cache ≡ empty_cache node) }
    {
        Ok(Cache {
            node,
            held: Held::new(alloc),
            standings: Vec::new(alloc),
        })
    }

    /// What is held.
    pub fn held(&self) -> &Held
        ensures { result.now ≡ self.now.held }
    {
        &self.held
    }

    /// The revisions of what is held, in the order of the streams.
    pub fn revisions(&self) -> [Rev; 3]
        ensures { result ≡ revisions_of self.now.held }
    {
        self.held.revisions()
    }

    /// Whether the rule with the key is complete, or for which group it waits. It does not allocate.
    pub fn rule<'a>(&'a self, k: &RuleKey) -> RuleState<'a>
        ensures { IsStateOf (maps_of self.now.held) k.now result }
    {
        let known = self.standings.as_slice();
        let state = state_at(known, k);
        state
    }

    /// What the message changes, and all that taking it needs; what is held stays as it is.
    pub fn plan(&mut self, s: Stream, m: Msg) -> Result<Plan, NoMemory>
        ensures plan { IfOk result (IsPlan s m self.new) }
        ensures same { self.new ≡ self.old }
    {
        let alloc = *self.standings.allocator();
        let leads = foretell(alloc, &self.node, &self.held, s, &m)?;
        let ready = self.held.prepare(s, m)?;
        let plan = planned(leads, ready);
        Ok(plan)
    }

    // Takes the message that is ready, after which this is known of the rules.
    fn settle(&mut self, ready: Ready, standings: Vec<Standing>)
        requires ready { FitsIn ready self.old.held }
        requires standings { standings.items ≡ rule_standings (maps_of (after_ready ready self.old.held)) }
        ensures { self.new ≡ record self.old { held = after_ready ready self.old.held } }
    {
        self.held.finish(ready);
        self.standings = standings;
    }

    /// Takes the message that is planned. It does not allocate.
    pub fn finish(&mut self, p: Plan)
        requires { FitsPlan p self.old }
        ensures { self.new ≡ after_plan p self.old }
    {
        let Plan {
            changes: _,
            ready,
            standings,
        } = p;
        self.settle(ready, standings);
    }

    /// Takes a message, and tells what it changes. A call that runs out of memory leaves the cache as it is.
    pub fn take(&mut self, s: Stream, m: Msg) -> Result<RuleChanges, NoMemory>
        ensures node { self.new.node ≡ self.old.node }
        ensures taken { OnOk result (IsTaken s m self.old.held self.new.held) }
        ensures changes { IfOk result (AreRuleChanges self.old.node (maps_of self.old.held) (maps_of self.new.held)) }
        ensures err { OnErr result (self.new ≡ self.old) }
    {
        let plan = self.plan(s, m)?;
        let Plan {
            changes,
            ready,
            standings,
        } = plan;
        self.settle(ready, standings);
        Ok(changes)
    }
}

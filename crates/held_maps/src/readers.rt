ghost use Rattle.std.specs.Prelude.{◌≡◌, IfOk};
ghost use Rattle.held_maps.specs.Held.{maps_of, map_on};
ghost use Rattle.watch_streams.specs.HeldEvaluation.{held_member, is_at, is_complete, is_held, resolving_groups};

use crate::complete::{is_complete, resolving_groups};
use crate::groups::member_at;
use crate::held::{Held, all_pods};
use cl_types::{Addr, Copies, NoMemory, Stream};
use label_select::GroupKey;
use watch_streams::{NetPolicy, NetRule};

impl Held {
    /// Whether the group is held on the stream.
    pub fn has_group(&self, s: Stream, g: &GroupKey) -> bool
        ensures { result ≡ is_held (map_on s (maps_of self.now)) g.now }
    {
        self.group(s, g).is_some()
    }

    /// Whether a member of the group that is held on the stream has the address.
    pub fn has_member_at(&self, s: Stream, a: Addr, g: &GroupKey) -> bool
        ensures { result ≡ held_member (is_at a) (map_on s (maps_of self.now)) g.now }
    {
        member_at(self, s, a, g)
    }

    /// Whether all groups that the rule of the policy needs are held.
    pub fn is_complete(&self, policy: &NetPolicy, rule: &NetRule) -> bool
        ensures { result ≡ is_complete (maps_of self.now) policy.now rule.now }
    {
        is_complete(self, policy, rule)
    }

    /// The groups among whose members the rule's named ports are looked up.
    pub fn resolving_groups<'a>(
        &'a self,
        policy: &'a NetPolicy,
        rule: &'a NetRule,
    ) -> &'a [GroupKey]
        ensures { result.now ≡ resolving_groups policy.now rule.now rule.now.key.dir }
    {
        resolving_groups(self, policy, rule, rule.key.dir)
    }

    /// What is held, once more.
    pub fn copy(&self) -> Result<Held, NoMemory>
        ensures { IfOk result (λ copy. copy ≡ self.now) }
    {
        let every_pod = [all_pods(self.policies.alloc())];
        Ok(Held {
            policies: self.policies.copy()?,
            egresses: self.egresses.copy()?,
            addresses: self.addresses.copy()?,
            applied: self.applied.copy()?,
            revisions: self.revisions,
            no_groups: self.no_groups.copy()?,
            every_pod,
        })
    }
}

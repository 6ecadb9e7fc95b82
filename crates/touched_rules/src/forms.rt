//! What the types of held policies keep. None of these functions does anything.
ghost use Rattle.std.specs.Prelude.{◌≡◌};
ghost use Rattle.std.specs.List.{AllByRecursion};
ghost use Rattle.touched_rules.specs.Addresses.{HasAddress, IsAddress, PolicyHasAddresses, RuleHasAddresses, blocks_of};
ghost use Rattle.touched_rules.specs.Touched.{AreOwnRules, HasOwnRules};
ghost use Rattle.held_maps.specs.Held.{maps_of};
ghost use Rattle.watch_streams.specs.HeldEvaluation.{held_policies};

use cl_types::Addr;
use cluster_types::Block;
use held_maps::Held;
use watch_streams::{NetPeers, NetPolicy, NetRule};

fn address_form(a: Addr)
    ensures { IsAddress a }
{
    match a {
        Addr::V4(_number) => {}
        Addr::V6(_number) => {}
    }
}

fn block_form(block: &Block)
    ensures { HasAddress block.now }
{
    address_form(block.cidr.base);
}

fn blocks_form(blocks: &[Block])
    ensures { AllByRecursion HasAddress blocks.now }
{
    for i in (0..blocks.len()).rev() {
        block_form(&blocks[i]);
    }
}

fn peers_form(peers: &Option<NetPeers>)
    ensures { AllByRecursion HasAddress (blocks_of peers.now) }
{
    if let Some(peers) = peers {
        blocks_form(peers.blocks.as_slice());
    }
}

fn rules_form(rules: &[NetRule])
    ensures { AllByRecursion RuleHasAddresses rules.now }
{
    for i in (0..rules.len()).rev() {
        peers_form(&rules[i].peers);
    }
}

fn policy_form(policy: &NetPolicy)
    ensures own { HasOwnRules policy.now }
    ensures addresses { PolicyHasAddresses policy.now }
{
    rules_form(policy.rules.as_slice());
}

fn policies_form(policies: &[NetPolicy])
    ensures own { AllByRecursion HasOwnRules policies.now }
    ensures addresses { AllByRecursion PolicyHasAddresses policies.now }
{
    for i in (0..policies.len()).rev() {
        policy_form(&policies[i]);
    }
}

/// The rules of held policies are their own, and the addresses of their blocks are those of their families.
pub fn held_form(held: &Held)
    ensures own { AreOwnRules (maps_of held.now) }
    ensures addresses { AllByRecursion PolicyHasAddresses (held_policies (maps_of held.now)) }
{
    policies_form(held.policies().as_slice());
}

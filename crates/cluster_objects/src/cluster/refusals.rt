//! Why a change of a cluster is refused.
ghost use Rattle.std.specs.Prelude.{◌≡◌, ◌&&◌, ◌==◌, false, not, nat_lt, IfOk, find, length, option_copied};
ghost use Rattle.std.specs.Option.{is_none, option_map_or};
ghost use Rattle.std.specs.List.{list_any};
ghost use Rattle.cl_types.specs.Addr.{addr_order};
ghost use Rattle.cl_types.specs.Ascending.{Ascends, put, sorted_set};
ghost use Rattle.cl_types.specs.RuleOrder.{policy_order};
ghost use Rattle.cl_types.specs.Text.{text_eq};
ghost use Rattle.cluster_types.specs.declared.change.Change.TheVariants.{Put, Remove};
ghost use Rattle.cluster_objects.specs.declared.change.ClusterRefusal.TheVariants.{TooMany};
ghost use Rattle.cluster_types.specs.declared.change.Object.TheVariants as object;
ghost use Rattle.cluster_types.specs.declared.change.ObjectKey.TheVariants as object_key;
ghost use Rattle.cluster_objects.specs.Apply.{at_tier, made, makes_difference, tier_of_policy};
ghost use Rattle.cluster_types.specs.Counts.{peers_of, port_count, except_count};
ghost use Rattle.cluster_types.specs.Egress.{addresses_beside};
ghost use Rattle.cluster_types.specs.Limits.{max_tiers, max_peers, max_ports, max_excepts};
ghost use Rattle.cluster_objects.specs.Refusals.{checks, first_refusal, when, over, tier_taken, names_tier, excepts_over, policy_limits, list_limits, rule_limits};
ghost use Rattle.cluster_types.specs.Node.{blocks_meet, both_meet, nodes_meet};
ghost use Rattle.cluster_types.specs.Steps.{is_kube};
ghost use Rattle.cluster_types.specs.Tier.{TierData, is_static, name_meant, tier_named};

use super::Cluster;
use super::changes::tier_named;
use crate::change::ClusterRefusal;
use crate::kinds::{is_full, is_there};
use crate::totals::Total;
use cl_types::{Addr, Copies, NoMemory, Prefix, Text};
use cluster_types::{
    Change, EgressObj, Namespace, NodeInfo, Object, ObjectKey, Peer, Pod, Policy, Rule, Tier,
    is_kube,
};
use std::alloc::Global;

// The limits of a cluster.
const MAX_NODES: u32 = 64;

const MAX_NAMESPACES: u32 = 2_000;

const MAX_PODS: u32 = 20_000;

const MAX_TIERS: u32 = 20;

const MAX_POLICIES: u32 = 2_000;

const MAX_EGRESSES: u32 = 2_000;

const MAX_RULES: u32 = 100;

const MAX_PEERS: u32 = 100;

const MAX_PORTS: u32 = 100;

const MAX_APPLIED: u32 = 100;

const MAX_EXCEPTS: u32 = 100;

const MAX_NATIVE_RULES: u32 = 16_000;

const MAX_KUBE_RULES: u32 = 16_000;

const MAX_NAMED_PORTS: u32 = 100;

const MAX_MARKS: usize = 255;

fn blocks_meet(a: &Prefix, b: &Prefix) -> bool
    ensures { result ≡ blocks_meet a.now b.now }
{
    a.holds(b.base) || b.holds(a.base)
}

fn both_meet(a: &Option<Prefix>, b: &Option<Prefix>) -> bool
    ensures { result ≡ both_meet a.now b.now }
{
    match (a, b) {
        (Some(a), Some(b)) => blocks_meet(a, b),
        _ => false,
    }
}

fn nodes_meet(a: &NodeInfo, b: &NodeInfo) -> bool
    ensures { result ≡ nodes_meet a.now b.now }
{
    blocks_meet(&a.cidr, &b.cidr) || both_meet(&a.cidr6, &b.cidr6)
}

// The first other node with a block that meets one of the node.
fn meeting<'a>(nodes: &'a [NodeInfo], node: &NodeInfo) -> Option<&'a NodeInfo>
    ensures { option_copied result ≡ find (λ m. not (text_eq m.name node.now.name) && nodes_meet node.now m) nodes.now }
{
    for other in nodes {
        if other.name != node.name && nodes_meet(node, other) {
            return Some(other);
        }
    }
    None
}

// The refusal for the limit, where it would be passed.
fn too_many(is_over: bool, limit: u32) -> Option<ClusterRefusal>
    ensures { result ≡ when is_over (TooMany limit) }
{
    if is_over {
        Some(ClusterRefusal::TooMany(limit))
    } else {
        None
    }
}

fn has_priority_of_other(tier: &Tier, other: &Tier) -> bool
    ensures { result ≡ (not (text_eq other.now.name tier.now.name) && (other.now.priority == tier.now.priority)) }
{
    other.name != tier.name && other.priority == tier.priority
}

// The first tier of another name with the priority.
fn taker<'a>(tiers: &'a [Tier], tier: &Tier) -> Option<&'a Tier>
    ensures { option_copied result ≡ find (λ s. not (text_eq s.name tier.now.name) && (s.priority == tier.now.priority)) tiers.now }
{
    for other in tiers {
        if has_priority_of_other(tier, other) {
            return Some(other);
        }
    }
    None
}

fn is_listed(nodes: &[NodeInfo], name: &Text) -> bool
    ensures { result ≡ list_any (λ n. text_eq n.name name.now) nodes.now }
{
    nodes.iter().any(|n| n.name == *name)
}

/// The name that a policy means.
pub(super) fn name_meant(alloc: Global, written: &Text) -> Result<Text, NoMemory>
    ensures { IfOk result (λ name. name ≡ name_meant written.now) }
{
    let lower = Text::of(written.as_slice().to_ascii_lowercase(alloc)?);
    if is_static(&lower) {
        Ok(lower)
    } else {
        written.copy()
    }
}

fn is(name: &Text, bytes: &[u8]) -> bool
    ensures { result ≡ text_eq bytes.now name.now }
{
    bytes == name.as_slice()
}

#[tactic(auto, unfolding(cluster_types::specs::Tier::is_static))]
fn is_static(name: &Text) -> bool
    ensures { result ≡ is_static name.now }
{
    is(name, b"emergency")
        || is(name, b"securityops")
        || is(name, b"networkops")
        || is(name, b"platform")
        || is(name, b"application")
        || is(name, b"baseline")
}

// Whether the policy means the tier with the name.
fn names_tier(alloc: Global, name: &Text, policy: &Policy) -> Result<bool, NoMemory>
    ensures { IfOk result (λ named. named ≡ names_tier name.now policy.now) }
{
    if is_kube(policy.key.kind) {
        return Ok(false);
    }
    Ok(*name == name_meant(alloc, &policy.tier)?)
}

// The first of the policies that means the tier with the name.
fn user<'a>(
    alloc: Global,
    name: &Text,
    policies: &'a [Policy],
) -> Result<Option<&'a Policy>, NoMemory>
    ensures { IfOk result (λ user. option_copied user ≡ find (names_tier name.now) policies.now) }
{
    for policy in policies {
        if names_tier(alloc, name, policy)? {
            return Ok(Some(policy));
        }
    }
    Ok(None)
}

fn peers_over(rule: &Rule) -> bool
    ensures { result ≡ nat_lt max_peers (length (peers_of rule.now)) }
{
    match &rule.peers {
        Some(peers) => peers.as_slice().len() > MAX_PEERS as usize,
        None => false,
    }
}

fn ports_over(rule: &Rule) -> bool
    ensures { result ≡ nat_lt max_ports (port_count rule.now) }
{
    let services = match &rule.services {
        Some(services) => services.as_slice().len(),
        None => 0,
    };
    services + rule.named.as_slice().len() > MAX_PORTS as usize
}

fn has_excepts_over(peer: &Peer) -> bool
    ensures { result ≡ nat_lt max_excepts (except_count peer.now) }
{
    match peer {
        Peer::Block(block) => block.excepts.as_slice().len() > MAX_EXCEPTS as usize,
        _ => false,
    }
}

fn excepts_over(rule: &Rule) -> bool
    ensures { result ≡ excepts_over rule.now }
{
    match &rule.peers {
        Some(peers) => peers.as_slice().iter().any(|p| has_excepts_over(p)),
        None => false,
    }
}

fn some_peers_over(rules: &[Rule]) -> bool
    ensures { result ≡ list_any (λ r. nat_lt max_peers (length (peers_of r))) rules.now }
{
    rules.iter().any(|r| peers_over(r))
}

fn some_ports_over(rules: &[Rule]) -> bool
    ensures { result ≡ list_any (λ r. nat_lt max_ports (port_count r)) rules.now }
{
    rules.iter().any(|r| ports_over(r))
}

fn some_excepts_over(rules: &[Rule]) -> bool
    ensures { result ≡ list_any excepts_over rules.now }
{
    rules.iter().any(|r| excepts_over(r))
}

// The first limit that would be passed once the policy is put.
fn policy_limits(policies: &[Policy], policy: &Policy) -> Option<ClusterRefusal>
    requires { Ascends (λ p. p.key) policy_order policies.now }
    ensures { result ≡ first_refusal (policy_limits policies.now policy.now) }
{
    if Total::PoliciesOf(policy.key.kind).is_over(policies, policy, MAX_POLICIES) {
        return Some(ClusterRefusal::TooMany(MAX_POLICIES));
    }
    if policy.rules.as_slice().len() > MAX_RULES as usize {
        return Some(ClusterRefusal::TooMany(MAX_RULES));
    }
    list_limits(policies, policy)
}

// The first limit of the policy's lists, or of the rules in all.
fn list_limits(policies: &[Policy], policy: &Policy) -> Option<ClusterRefusal>
    requires { Ascends (λ p. p.key) policy_order policies.now }
    ensures { result ≡ first_refusal (list_limits policies.now policy.now) }
{
    let rules = policy.rules.as_slice();
    if some_peers_over(rules) {
        return Some(ClusterRefusal::TooMany(MAX_PEERS));
    }
    if some_ports_over(rules) {
        return Some(ClusterRefusal::TooMany(MAX_PORTS));
    }
    if policy.applied.as_slice().len() > MAX_APPLIED as usize {
        return Some(ClusterRefusal::TooMany(MAX_APPLIED));
    }
    if some_excepts_over(rules) {
        return Some(ClusterRefusal::TooMany(MAX_EXCEPTS));
    }
    rule_limits(policies, policy)
}

// The first limit of the rules in all.
fn rule_limits(policies: &[Policy], policy: &Policy) -> Option<ClusterRefusal>
    requires { Ascends (λ p. p.key) policy_order policies.now }
    ensures { result ≡ first_refusal (rule_limits policies.now policy.now) }
{
    if Total::NativeRules.is_over(policies, policy, MAX_NATIVE_RULES) {
        return Some(ClusterRefusal::TooMany(MAX_NATIVE_RULES));
    }
    if Total::KubeRules.is_over(policies, policy, MAX_KUBE_RULES) {
        return Some(ClusterRefusal::TooMany(MAX_KUBE_RULES));
    }
    None
}

// The addresses with which the Egress and the others of its node let traffic leave, each once.
fn marked(alloc: Global, egress: &EgressObj, others: &[EgressObj]) -> Result<Vec<Addr>, NoMemory>
    ensures { IfOk result (λ marked. marked.items ≡ sorted_set addr_order (addresses_beside egress.now others.now)) }
{
    let mut addresses = addresses_beside(alloc, egress, others)?;
    addresses.sort()?;
    addresses.dedup();
    Ok(addresses)
}

fn is_beside(egress: &EgressObj, other: &EgressObj) -> bool
    ensures { result ≡ (not (text_eq other.now.name egress.now.name) && text_eq other.now.node egress.now.node) }
{
    other.name != egress.name && other.node == egress.node
}

fn addresses_beside(
    alloc: Global,
    egress: &EgressObj,
    others: &[EgressObj],
) -> Result<Vec<Addr>, NoMemory>
    ensures { IfOk result (λ addresses. addresses.items ≡ addresses_beside egress.now others.now) }
{
    let mut addresses = Vec::new(alloc);
    addresses.push(egress.address)?;
    for other in others {
        if is_beside(egress, other) {
            addresses.push(other.address)?;
        }
    }
    Ok(addresses)
}

impl Cluster {
    // What stands first against the change.
    pub(super) fn refusal(&self, c: &Change) -> Result<Option<ClusterRefusal>, NoMemory>
        ensures { IfOk result (λ refusal. refusal ≡ first_refusal (checks self.now.cluster c.now)) }
    {
        match c {
            Change::Put(Object::Node(node)) => self.node_refusal(node),
            Change::Put(Object::Namespace(namespace)) => Ok(self.namespace_refusal(namespace)),
            Change::Put(Object::Pod(pod)) => self.pod_refusal(pod),
            Change::Put(Object::Tier(tier)) => self.tier_refusal(tier),
            Change::Put(Object::Policy(policy)) => self.policy_refusal(policy),
            Change::Put(Object::Egress(egress)) => self.egress_refusal(egress),
            Change::Remove(ObjectKey::Node(name)) => Ok(self.node_removal_refusal(name)),
            Change::Remove(ObjectKey::Tier(name)) => self.tier_removal_refusal(name),
            Change::Remove(_) => Ok(None),
        }
    }

    fn node_refusal(&self, node: &NodeInfo) -> Result<Option<ClusterRefusal>, NoMemory>
        ensures { IfOk result (λ refusal. refusal ≡ first_refusal (checks self.now.cluster (Put (object.Node node.now)))) }
    {
        if self.is_late(node) {
            return Ok(Some(ClusterRefusal::NodesFixed));
        }
        if let Some(other) = meeting(self.nodes.as_slice(), node) {
            return Ok(Some(ClusterRefusal::CidrOverlap(other.name.copy()?)));
        }
        let is_over = is_full(self.nodes.as_slice(), node, MAX_NODES);
        Ok(too_many(is_over, MAX_NODES))
    }

    // Whether the nodes are fixed, and a put of the node would make a difference.
    fn is_late(&self, node: &NodeInfo) -> bool
        ensures { result ≡ (self.now.cluster.fixed && makes_difference (made self.now.cluster (Put (object.Node node.now))).applied) }
    {
        self.fixed && !is_there(self.nodes.as_slice(), node)
    }

    fn namespace_refusal(&self, namespace: &Namespace) -> Option<ClusterRefusal>
        ensures { result ≡ first_refusal (checks self.now.cluster (Put (object.Namespace namespace.now))) }
    {
        let is_over = is_full(self.namespaces.as_slice(), namespace, MAX_NAMESPACES);
        too_many(is_over, MAX_NAMESPACES)
    }

    fn pod_refusal(&self, pod: &Pod) -> Result<Option<ClusterRefusal>, NoMemory>
        ensures { IfOk result (λ refusal. refusal ≡ first_refusal (checks self.now.cluster (Put (object.Pod pod.now)))) }
    {
        if let Some(other) = self.pods.taker(pod) {
            return Ok(Some(ClusterRefusal::AddressInUse(other.key.copy()?)));
        }
        if is_full(self.pods.as_slice(), pod, MAX_PODS) {
            return Ok(Some(ClusterRefusal::TooMany(MAX_PODS)));
        }
        let is_over = pod.ports.as_slice().len() > MAX_NAMED_PORTS as usize;
        Ok(too_many(is_over, MAX_NAMED_PORTS))
    }

    fn tier_refusal(&self, tier: &Tier) -> Result<Option<ClusterRefusal>, NoMemory>
        ensures { IfOk result (λ refusal. refusal ≡ first_refusal (checks self.now.cluster (Put (object.Tier tier.now)))) }
    {
        if self.is_fixed(tier) {
            return Ok(Some(ClusterRefusal::TierFixed));
        }
        match self.taken(tier)? {
            Some(refusal) => Ok(Some(refusal)),
            None => Ok(self.too_many_tiers(tier)),
        }
    }

    // Whether the tier is there with another priority.
    fn is_fixed(&self, tier: &Tier) -> bool
        ensures { result ≡ option_map_or (λ (s : TierData). not (s.priority == tier.now.priority)) (tier_named tier.now.name self.now.cluster.tiers) false }
    {
        match tier_named(self.tiers.as_slice(), &tier.name) {
            Some(there) => there.priority != tier.priority,
            None => false,
        }
    }

    fn taken(&self, tier: &Tier) -> Result<Option<ClusterRefusal>, NoMemory>
        ensures { IfOk result (λ refusal. refusal ≡ tier_taken self.now.cluster tier.now) }
    {
        match taker(self.tiers.as_slice(), tier) {
            Some(other) => Ok(Some(ClusterRefusal::TierTaken(other.name.copy()?))),
            None => Ok(None),
        }
    }

    fn too_many_tiers(&self, tier: &Tier) -> Option<ClusterRefusal>
        ensures { result ≡ over max_tiers (length (put (at_tier tier.now.priority) tier.now self.now.cluster.tiers)) }
    {
        let is_over = is_full(self.tiers.as_slice(), tier, MAX_TIERS);
        too_many(is_over, MAX_TIERS)
    }

    fn policy_refusal(&self, policy: &Policy) -> Result<Option<ClusterRefusal>, NoMemory>
        ensures { IfOk result (λ refusal. refusal ≡ first_refusal (checks self.now.cluster (Put (object.Policy policy.now)))) }
    {
        if self.lacks_tier(policy)? {
            return Ok(Some(ClusterRefusal::NoSuchTier(policy.tier.copy()?)));
        }
        Ok(policy_limits(self.policies.as_slice(), policy))
    }

    // Whether the policy is native, and the tier that it means isn't there.
    fn lacks_tier(&self, policy: &Policy) -> Result<bool, NoMemory>
        ensures { IfOk result (λ lacks. lacks ≡ (not (is_kube policy.now.key.kind) && is_none (tier_of_policy self.now.cluster policy.now))) }
    {
        if is_kube(policy.key.kind) {
            return Ok(false);
        }
        let name = name_meant(*self.tiers.allocator(), &policy.tier)?;
        Ok(tier_named(self.tiers.as_slice(), &name).is_none())
    }

    fn egress_refusal(&self, egress: &EgressObj) -> Result<Option<ClusterRefusal>, NoMemory>
        ensures { IfOk result (λ refusal. refusal ≡ first_refusal (checks self.now.cluster (Put (object.Egress egress.now)))) }
    {
        if is_full(self.egresses.as_slice(), egress, MAX_EGRESSES) {
            return Ok(Some(ClusterRefusal::TooMany(MAX_EGRESSES)));
        }
        if !is_listed(self.nodes.as_slice(), &egress.node) {
            return Ok(None);
        }
        let marked = marked(*self.tiers.allocator(), egress, self.egresses.as_slice())?;
        if marked.len() > MAX_MARKS {
            return Ok(Some(ClusterRefusal::TooManyMarks(egress.node.copy()?)));
        }
        Ok(None)
    }

    fn node_removal_refusal(&self, name: &Text) -> Option<ClusterRefusal>
        ensures { result ≡ first_refusal (checks self.now.cluster (Remove (object_key.Node name.now))) }
    {
        if self.fixed && cl_types::find(self.nodes.as_slice(), name).is_some() {
            Some(ClusterRefusal::NodesFixed)
        } else {
            None
        }
    }

    fn tier_removal_refusal(&self, name: &Text) -> Result<Option<ClusterRefusal>, NoMemory>
        ensures { IfOk result (λ refusal. refusal ≡ first_refusal (checks self.now.cluster (Remove (object_key.Tier name.now)))) }
    {
        if is_static(name) {
            return Ok(Some(ClusterRefusal::TierFixed));
        }
        if tier_named(self.tiers.as_slice(), name).is_none() {
            return Ok(None);
        }
        match user(*self.tiers.allocator(), name, self.policies.as_slice())? {
            Some(policy) => Ok(Some(ClusterRefusal::TierInUse(policy.key.copy()?))),
            None => Ok(None),
        }
    }
}

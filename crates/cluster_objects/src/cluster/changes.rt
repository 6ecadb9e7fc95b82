//! Changes of a cluster, and how they are taken back.
ghost use Rattle.std.specs.Prelude.{◌≡◌, ◌≤◌, IfOk, OnErr, None, length, map, false, option_copied, option_map, vec_capacity};
ghost use Rattle.std.specs.Option.{is_some, option_map_or};
ghost use Rattle.std.specs.Ordering.{nat_cmp};
ghost use Rattle.cl_types.specs.Ascending.{Ascends};
ghost use Rattle.cluster_types.specs.declared.change.Change.TheVariants.{Put, Remove};
ghost use Rattle.cluster_types.specs.declared.change.Object.TheVariants as object;
ghost use Rattle.cluster_types.specs.declared.change.ObjectKey.TheVariants as object_key;
ghost use Rattle.cluster_objects.specs.Apply.{made, outcome, difference, without_tier, in_tier, numbered, numbered_policy, tier_of_policy};
ghost use Rattle.cluster_objects.specs.Changes.{apply, applied_of, undo_of, Follows};
ghost use Rattle.cluster_types.specs.Cluster.{KeepsPlaces};
ghost use Rattle.cluster_objects.specs.Refusals.{checks, first_refusal};
ghost use Rattle.cluster_types.specs.Tier.{TierData, tier_named};
ghost use Rattle.cluster_types.specs.Steps.{is_kube};

use super::Cluster;
use super::refusals::name_meant;
use crate::change::{Applied, ClusterRefusal, Kept, Undo};
use crate::forms::{node_form, pod_form, policy_form};
use crate::kinds::{put, put_difference, removal_difference, remove};
use cl_types::{Copies, NoMemory, PodKey, PolicyKey, Text};
use cluster_types::{
    Change, EgressObj, Namespace, NodeInfo, Object, ObjectKey, Pod, Policy, Rule, Tier, is_kube,
};
use label_select::{group_form, labels_form};

/// The tier with the name.
pub(super) fn tier_named<'a>(tiers: &'a [Tier], name: &Text) -> Option<&'a Tier>
    ensures { option_copied result ≡ tier_named name.now tiers.now }
{
    for tier in tiers {
        if tier.name == *name {
            return Some(tier);
        }
    }
    None
}

fn tier_object(tier: Option<Tier>) -> Option<Object>
    ensures { result ≡ option_map object.Tier tier }
{
    match tier {
        Some(tier) => Some(Object::Tier(tier)),
        None => None,
    }
}

fn pod_object(pod: Option<Pod>) -> Option<Object>
    ensures { result ≡ option_map object.Pod pod }
{
    match pod {
        Some(pod) => Some(Object::Pod(pod)),
        None => None,
    }
}

fn policy_object(policy: Option<Policy>) -> Option<Object>
    ensures { result ≡ option_map object.Policy policy }
{
    match policy {
        Some(policy) => Some(Object::Policy(policy)),
        None => None,
    }
}

fn egress_object(egress: Option<EgressObj>) -> Option<Object>
    ensures { result ≡ option_map object.Egress egress }
{
    match egress {
        Some(egress) => Some(Object::Egress(egress)),
        None => None,
    }
}

/// Removes the tier with the name, and hands it out.
pub(super) fn remove_named(tiers: &mut Vec<Tier>, name: &Text) -> Option<Tier>
    requires ascends { Ascends (λ t. t.priority) nat_cmp tiers.old.items }
    requires places { length tiers.old.items ≤ vec_capacity tiers.old }
    ensures old { result ≡ tier_named name.now tiers.old.items }
    ensures items { without_tier (tier_named name.now tiers.old.items) tiers.old.items ≡ record { items = tiers.new.items; applied = difference (is_some result) } }
    ensures ascends { Ascends (λ t. t.priority) nat_cmp tiers.new.items }
    ensures places { length tiers.new.items ≤ vec_capacity tiers.new }
    ensures kept { vec_capacity tiers.old ≤ vec_capacity tiers.new }
{
    let priority = tier_named(tiers.as_slice(), name)?.priority;
    remove(tiers, &priority)
}

// The rules with the number of a tier.
fn number_rules(rules: &mut Vec<Rule>, number: u16)
    ensures { rules.new.items ≡ map (in_tier number) rules.old.items }
{
    for rule in rules.iter_mut() {
        rule.key.tier = number;
    }
}

// The native policy with its rules in a tier.
fn in_tier(policy: Policy, number: u16) -> Policy
    requires { is_kube policy.key.kind ≡ false }
    ensures { result ≡ record policy { rules = map (in_tier number) policy.rules } }
{
    let Policy {
        key,
        tier,
        priority,
        applied,
        isolates_in,
        isolates_out,
        mut rules,
    } = policy;
    number_rules(rules.vec_mut(), number);
    Policy {
        key,
        tier,
        priority,
        applied,
        isolates_in,
        isolates_out,
        rules,
    }
}

impl Cluster {
    /// Makes a change. A refusal leaves the cluster as it was. The rules of a native policy get the number of its
    /// tier.
    pub fn try_apply(&mut self, c: Change) -> Result<Applied, ClusterRefusal>
        ensures follows { Follows (apply self.old.cluster c) self.old.cluster result self.new.cluster }
        ensures places { KeepsPlaces self.old.places self.new.places }
    {
        match self.apply_kept(c) {
            Ok(kept) => Ok(kept.applied),
            Err(refusal) => Err(refusal),
        }
    }

    /// Makes a change as `try_apply` does, and keeps what takes it back.
    pub fn apply_kept(&mut self, c: Change) -> Result<Kept, ClusterRefusal>
        ensures follows { Follows (apply self.old.cluster c) self.old.cluster (applied_of result) self.new.cluster }
        ensures undo { IfOk result (λ kept. kept.undo ≡ undo_of self.old.cluster c) }
        ensures places { KeepsPlaces self.old.places self.new.places }
    {
        let c = self.numbered(c)?;
        match self.refusal(&c)? {
            Some(refusal) => Err(refusal),
            None => Ok(self.make(c)?),
        }
    }

    // The change as it is made.
    fn numbered(&self, c: Change) -> Result<Change, NoMemory>
        ensures change { IfOk result (λ change. change ≡ numbered self.now.cluster c) }
    {
        match c {
            Change::Put(Object::Policy(policy)) => {
                Ok(Change::Put(Object::Policy(self.numbered_policy(policy)?)))
            }
            c => Ok(c),
        }
    }

    fn numbered_policy(&self, policy: Policy) -> Result<Policy, NoMemory>
        ensures { IfOk result (λ p. p ≡ numbered_policy self.now.cluster policy) }
    {
        if is_kube(policy.key.kind) {
            return Ok(policy);
        }
        let number = self.tier_number(&policy)?;
        Ok(in_tier(policy, number))
    }

    // The number of the tier that the policy means.
    fn tier_number(&self, policy: &Policy) -> Result<u16, NoMemory>
        ensures { IfOk result (λ number. number ≡ option_map_or (λ (t : TierData). t.priority) (tier_of_policy self.now.cluster policy.now) 0) }
    {
        let name = name_meant(*self.tiers.allocator(), &policy.tier)?;
        match tier_named(self.tiers.as_slice(), &name) {
            Some(tier) => Ok(tier.priority),
            None => Ok(0),
        }
    }

    // Makes a change against which nothing stands.
    fn make(&mut self, c: Change) -> Result<Kept, NoMemory>
        requires none { first_refusal (checks self.old.cluster c) ≡ None }
        requires numbered { numbered self.old.cluster c ≡ c }
        ensures made { IfOk result (λ kept. made self.old.cluster c ≡ outcome self.new.cluster kept.applied) }
        ensures undo { IfOk result (λ kept. kept.undo ≡ undo_of self.old.cluster c) }
        ensures err { OnErr result (self.new.cluster ≡ self.old.cluster) }
        ensures places { KeepsPlaces self.old.places self.new.places }
    {
        match c {
            Change::Put(object) => self.put(object),
            Change::Remove(key) => Ok(self.remove(key)),
        }
    }

    fn put(&mut self, object: Object) -> Result<Kept, NoMemory>
        requires none { first_refusal (checks self.old.cluster (Put object)) ≡ None }
        requires numbered { numbered self.old.cluster (Put object) ≡ Put object }
        ensures made { IfOk result (λ kept. made self.old.cluster (Put object) ≡ outcome self.new.cluster kept.applied) }
        ensures undo { IfOk result (λ kept. kept.undo ≡ undo_of self.old.cluster (Put object)) }
        ensures err { OnErr result (self.new.cluster ≡ self.old.cluster) }
        ensures places { KeepsPlaces self.old.places self.new.places }
    {
        match object {
            Object::Node(node) => self.put_node(node),
            Object::Namespace(namespace) => self.put_namespace(namespace),
            Object::Pod(pod) => self.put_pod(pod),
            Object::Tier(tier) => self.put_tier(tier),
            Object::Policy(policy) => self.put_policy(policy),
            Object::Egress(egress) => self.put_egress(egress),
        }
    }

    fn remove(&mut self, key: ObjectKey) -> Kept
        requires { first_refusal (checks self.old.cluster (Remove key)) ≡ None }
        ensures made { made self.old.cluster (Remove key) ≡ outcome self.new.cluster result.applied }
        ensures undo { result.undo ≡ undo_of self.old.cluster (Remove key) }
        ensures places { KeepsPlaces self.old.places self.new.places }
    {
        match key {
            ObjectKey::Node(name) => self.remove_node(name),
            ObjectKey::Namespace(name) => self.remove_namespace(name),
            ObjectKey::Pod(key) => self.remove_pod(key),
            ObjectKey::Tier(name) => self.remove_tier(name),
            ObjectKey::Policy(key) => self.remove_policy(key),
            ObjectKey::Egress(name) => self.remove_egress(name),
        }
    }

    fn put_node(&mut self, node: NodeInfo) -> Result<Kept, NoMemory>
        requires { first_refusal (checks self.old.cluster (Put (object.Node node))) ≡ None }
        ensures made { IfOk result (λ kept. made self.old.cluster (Put (object.Node node)) ≡ outcome self.new.cluster kept.applied) }
        ensures undo { IfOk result (λ kept. kept.undo ≡ undo_of self.old.cluster (Put (object.Node node))) }
        ensures err { OnErr result (self.new.cluster ≡ self.old.cluster) }
        ensures places { KeepsPlaces self.old.places self.new.places }
    {
        node_form(&node);
        let key = ObjectKey::Node(node.name.copy()?);
        let applied = put_difference(self.nodes.as_slice(), &node);
        let fixed = self.fixed;
        let old = match put(&mut self.nodes, node)? {
            Some(old) => Some(Object::Node(old)),
            None => None,
        };
        Ok(Kept {
            applied,
            undo: Undo { key, old, fixed },
        })
    }

    fn put_namespace(&mut self, namespace: Namespace) -> Result<Kept, NoMemory>
        requires { first_refusal (checks self.old.cluster (Put (object.Namespace namespace))) ≡ None }
        ensures made { IfOk result (λ kept. made self.old.cluster (Put (object.Namespace namespace)) ≡ outcome self.new.cluster kept.applied) }
        ensures undo { IfOk result (λ kept. kept.undo ≡ undo_of self.old.cluster (Put (object.Namespace namespace))) }
        ensures err { OnErr result (self.new.cluster ≡ self.old.cluster) }
        ensures places { KeepsPlaces self.old.places self.new.places }
    {
        labels_form(&namespace.labels);
        let key = ObjectKey::Namespace(namespace.name.copy()?);
        let applied = put_difference(self.namespaces.as_slice(), &namespace);
        let fixed = self.fixed;
        let old = match put(&mut self.namespaces, namespace)? {
            Some(old) => Some(Object::Namespace(old)),
            None => None,
        };
        self.fixed = true;
        Ok(Kept {
            applied,
            undo: Undo { key, old, fixed },
        })
    }

    fn put_pod(&mut self, pod: Pod) -> Result<Kept, NoMemory>
        requires { first_refusal (checks self.old.cluster (Put (object.Pod pod))) ≡ None }
        ensures made { IfOk result (λ kept. made self.old.cluster (Put (object.Pod pod)) ≡ outcome self.new.cluster kept.applied) }
        ensures undo { IfOk result (λ kept. kept.undo ≡ undo_of self.old.cluster (Put (object.Pod pod))) }
        ensures err { OnErr result (self.new.cluster ≡ self.old.cluster) }
        ensures places { KeepsPlaces self.old.places self.new.places }
    {
        pod_form(&pod);
        let key = ObjectKey::Pod(pod.key.copy()?);
        let applied = put_difference(self.pods.as_slice(), &pod);
        let fixed = self.fixed;
        let old = pod_object(self.pods.put(pod)?);
        self.fixed = true;
        Ok(Kept {
            applied,
            undo: Undo { key, old, fixed },
        })
    }

    fn put_tier(&mut self, tier: Tier) -> Result<Kept, NoMemory>
        requires { first_refusal (checks self.old.cluster (Put (object.Tier tier))) ≡ None }
        ensures made { IfOk result (λ kept. made self.old.cluster (Put (object.Tier tier)) ≡ outcome self.new.cluster kept.applied) }
        ensures undo { IfOk result (λ kept. kept.undo ≡ undo_of self.old.cluster (Put (object.Tier tier))) }
        ensures err { OnErr result (self.new.cluster ≡ self.old.cluster) }
        ensures places { KeepsPlaces self.old.places self.new.places }
    {
        let key = ObjectKey::Tier(tier.name.copy()?);
        let applied = put_difference(self.tiers.as_slice(), &tier);
        let fixed = self.fixed;
        let old = tier_object(put(&mut self.tiers, tier)?);
        self.fixed = true;
        Ok(Kept {
            applied,
            undo: Undo { key, old, fixed },
        })
    }

    fn put_policy(&mut self, policy: Policy) -> Result<Kept, NoMemory>
        requires none { first_refusal (checks self.old.cluster (Put (object.Policy policy))) ≡ None }
        requires numbered { numbered_policy self.old.cluster policy ≡ policy }
        ensures made { IfOk result (λ kept. made self.old.cluster (Put (object.Policy policy)) ≡ outcome self.new.cluster kept.applied) }
        ensures undo { IfOk result (λ kept. kept.undo ≡ undo_of self.old.cluster (Put (object.Policy policy))) }
        ensures err { OnErr result (self.new.cluster ≡ self.old.cluster) }
        ensures places { KeepsPlaces self.old.places self.new.places }
    {
        policy_form(&policy);
        let key = ObjectKey::Policy(policy.key.copy()?);
        let applied = put_difference(self.policies.as_slice(), &policy);
        let fixed = self.fixed;
        let old = policy_object(put(&mut self.policies, policy)?);
        self.fixed = true;
        Ok(Kept {
            applied,
            undo: Undo { key, old, fixed },
        })
    }

    fn put_egress(&mut self, egress: EgressObj) -> Result<Kept, NoMemory>
        requires { first_refusal (checks self.old.cluster (Put (object.Egress egress))) ≡ None }
        ensures made { IfOk result (λ kept. made self.old.cluster (Put (object.Egress egress)) ≡ outcome self.new.cluster kept.applied) }
        ensures undo { IfOk result (λ kept. kept.undo ≡ undo_of self.old.cluster (Put (object.Egress egress))) }
        ensures err { OnErr result (self.new.cluster ≡ self.old.cluster) }
        ensures places { KeepsPlaces self.old.places self.new.places }
    {
        group_form(&egress.applied);
        let key = ObjectKey::Egress(egress.name.copy()?);
        let applied = put_difference(self.egresses.as_slice(), &egress);
        let fixed = self.fixed;
        let old = egress_object(put(&mut self.egresses, egress)?);
        self.fixed = true;
        Ok(Kept {
            applied,
            undo: Undo { key, old, fixed },
        })
    }

    fn remove_node(&mut self, name: Text) -> Kept
        ensures made { made self.old.cluster (Remove (object_key.Node name)) ≡ outcome self.new.cluster result.applied }
        ensures undo { result.undo ≡ undo_of self.old.cluster (Remove (object_key.Node name)) }
        ensures places { KeepsPlaces self.old.places self.new.places }
    {
        let fixed = self.fixed;
        let old = remove(&mut self.nodes, &name);
        let applied = removal_difference(&old);
        let old = match old {
            Some(old) => Some(Object::Node(old)),
            None => None,
        };
        let key = ObjectKey::Node(name);
        Kept {
            applied,
            undo: Undo { key, old, fixed },
        }
    }

    fn remove_namespace(&mut self, name: Text) -> Kept
        ensures made { made self.old.cluster (Remove (object_key.Namespace name)) ≡ outcome self.new.cluster result.applied }
        ensures undo { result.undo ≡ undo_of self.old.cluster (Remove (object_key.Namespace name)) }
        ensures places { KeepsPlaces self.old.places self.new.places }
    {
        let fixed = self.fixed;
        let old = remove(&mut self.namespaces, &name);
        let applied = removal_difference(&old);
        let old = match old {
            Some(old) => Some(Object::Namespace(old)),
            None => None,
        };
        self.fixed = true;
        let key = ObjectKey::Namespace(name);
        Kept {
            applied,
            undo: Undo { key, old, fixed },
        }
    }

    fn remove_pod(&mut self, key: PodKey) -> Kept
        ensures made { made self.old.cluster (Remove (object_key.Pod key)) ≡ outcome self.new.cluster result.applied }
        ensures undo { result.undo ≡ undo_of self.old.cluster (Remove (object_key.Pod key)) }
        ensures places { KeepsPlaces self.old.places self.new.places }
    {
        let fixed = self.fixed;
        let old = self.pods.remove(&key);
        let applied = removal_difference(&old);
        let old = match old {
            Some(old) => Some(Object::Pod(old)),
            None => None,
        };
        self.fixed = true;
        let key = ObjectKey::Pod(key);
        Kept {
            applied,
            undo: Undo { key, old, fixed },
        }
    }

    fn remove_tier(&mut self, name: Text) -> Kept
        requires { first_refusal (checks self.old.cluster (Remove (object_key.Tier name))) ≡ None }
        ensures made { made self.old.cluster (Remove (object_key.Tier name)) ≡ outcome self.new.cluster result.applied }
        ensures undo { result.undo ≡ undo_of self.old.cluster (Remove (object_key.Tier name)) }
        ensures places { KeepsPlaces self.old.places self.new.places }
    {
        let fixed = self.fixed;
        let old = remove_named(&mut self.tiers, &name);
        let applied = removal_difference(&old);
        let old = tier_object(old);
        self.fixed = true;
        let key = ObjectKey::Tier(name);
        Kept {
            applied,
            undo: Undo { key, old, fixed },
        }
    }

    fn remove_policy(&mut self, key: PolicyKey) -> Kept
        ensures made { made self.old.cluster (Remove (object_key.Policy key)) ≡ outcome self.new.cluster result.applied }
        ensures undo { result.undo ≡ undo_of self.old.cluster (Remove (object_key.Policy key)) }
        ensures places { KeepsPlaces self.old.places self.new.places }
    {
        let fixed = self.fixed;
        let old = remove(&mut self.policies, &key);
        let applied = removal_difference(&old);
        let old = match old {
            Some(old) => Some(Object::Policy(old)),
            None => None,
        };
        self.fixed = true;
        let key = ObjectKey::Policy(key);
        Kept {
            applied,
            undo: Undo { key, old, fixed },
        }
    }

    fn remove_egress(&mut self, name: Text) -> Kept
        ensures made { made self.old.cluster (Remove (object_key.Egress name)) ≡ outcome self.new.cluster result.applied }
        ensures undo { result.undo ≡ undo_of self.old.cluster (Remove (object_key.Egress name)) }
        ensures places { KeepsPlaces self.old.places self.new.places }
    {
        let fixed = self.fixed;
        let old = remove(&mut self.egresses, &name);
        let applied = removal_difference(&old);
        let old = match old {
            Some(old) => Some(Object::Egress(old)),
            None => None,
        };
        self.fixed = true;
        let key = ObjectKey::Egress(name);
        Kept {
            applied,
            undo: Undo { key, old, fixed },
        }
    }
}

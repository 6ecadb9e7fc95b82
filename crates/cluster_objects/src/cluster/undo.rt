//! A change of a cluster is taken back, without memory.
ghost use Rattle.std.specs.Prelude.{◌≡◌};
ghost use Rattle.cluster_types.specs.declared.change.Object.TheVariants as object;
ghost use Rattle.cluster_types.specs.declared.change.ObjectKey.TheVariants as object_key;
ghost use Rattle.cluster_objects.specs.Changes.{taken_back, stood_again, cleared_again};
ghost use Rattle.cluster_types.specs.Cluster.{IsCluster, HasPlaces, KeepsPlaces};

use super::Cluster;
use super::changes::remove_named;
use crate::change::Undo;
use crate::kinds::{remove, restore};
use cl_types::{PodKey, PolicyKey, Text};
use cluster_types::{EgressObj, Namespace, NodeInfo, Object, ObjectKey, Pod, Policy, Tier};

impl Cluster {
    /// Takes a change back: the old object stands at its key again, or nothing does, and the nodes are fixed as they
    /// were. It needs no memory.
    pub fn undo(&mut self, u: Undo)
        requires cluster { IsCluster (taken_back self.old.cluster u) }
        requires places { HasPlaces (taken_back self.old.cluster u) self.old.places }
        ensures cluster { self.new.cluster ≡ taken_back self.old.cluster u }
        ensures places { KeepsPlaces self.old.places self.new.places }
    {
        let Undo { key, old, fixed } = u;
        match old {
            Some(object) => self.stand(object, fixed),
            None => self.clear(key, fixed),
        }
    }

    fn stand(&mut self, object: Object, fixed: bool)
        requires cluster { IsCluster (stood_again self.old.cluster object fixed) }
        requires places { HasPlaces (stood_again self.old.cluster object fixed) self.old.places }
        ensures cluster { self.new.cluster ≡ stood_again self.old.cluster object fixed }
        ensures places { KeepsPlaces self.old.places self.new.places }
    {
        match object {
            Object::Node(node) => self.stand_node(node, fixed),
            Object::Namespace(namespace) => self.stand_namespace(namespace, fixed),
            Object::Pod(pod) => self.stand_pod(pod, fixed),
            Object::Tier(tier) => self.stand_tier(tier, fixed),
            Object::Policy(policy) => self.stand_policy(policy, fixed),
            Object::Egress(egress) => self.stand_egress(egress, fixed),
        }
    }

    fn clear(&mut self, key: ObjectKey, fixed: bool)
        requires cluster { IsCluster (cleared_again self.old.cluster key fixed) }
        ensures cluster { self.new.cluster ≡ cleared_again self.old.cluster key fixed }
        ensures places { KeepsPlaces self.old.places self.new.places }
    {
        match key {
            ObjectKey::Node(name) => self.clear_node(&name, fixed),
            ObjectKey::Namespace(name) => self.clear_namespace(&name, fixed),
            ObjectKey::Pod(key) => self.clear_pod(&key, fixed),
            ObjectKey::Tier(name) => self.clear_tier(&name, fixed),
            ObjectKey::Policy(key) => self.clear_policy(&key, fixed),
            ObjectKey::Egress(name) => self.clear_egress(&name, fixed),
        }
    }

    fn stand_node(&mut self, node: NodeInfo, fixed: bool)
        requires cluster { IsCluster (stood_again self.old.cluster (object.Node node) fixed) }
        requires places { HasPlaces (stood_again self.old.cluster (object.Node node) fixed) self.old.places }
        ensures cluster { self.new.cluster ≡ stood_again self.old.cluster (object.Node node) fixed }
        ensures places { KeepsPlaces self.old.places self.new.places }
    {
        restore(&mut self.nodes, node);
        self.fixed = fixed;
    }

    fn stand_namespace(&mut self, namespace: Namespace, fixed: bool)
        requires cluster { IsCluster (stood_again self.old.cluster (object.Namespace namespace) fixed) }
        requires places { HasPlaces (stood_again self.old.cluster (object.Namespace namespace) fixed) self.old.places }
        ensures cluster { self.new.cluster ≡ stood_again self.old.cluster (object.Namespace namespace) fixed }
        ensures places { KeepsPlaces self.old.places self.new.places }
    {
        restore(&mut self.namespaces, namespace);
        self.fixed = fixed;
    }

    fn stand_pod(&mut self, pod: Pod, fixed: bool)
        requires cluster { IsCluster (stood_again self.old.cluster (object.Pod pod) fixed) }
        requires places { HasPlaces (stood_again self.old.cluster (object.Pod pod) fixed) self.old.places }
        ensures cluster { self.new.cluster ≡ stood_again self.old.cluster (object.Pod pod) fixed }
        ensures places { KeepsPlaces self.old.places self.new.places }
    {
        self.pods.restore(pod);
        self.fixed = fixed;
    }

    fn stand_tier(&mut self, tier: Tier, fixed: bool)
        requires cluster { IsCluster (stood_again self.old.cluster (object.Tier tier) fixed) }
        requires places { HasPlaces (stood_again self.old.cluster (object.Tier tier) fixed) self.old.places }
        ensures cluster { self.new.cluster ≡ stood_again self.old.cluster (object.Tier tier) fixed }
        ensures places { KeepsPlaces self.old.places self.new.places }
    {
        restore(&mut self.tiers, tier);
        self.fixed = fixed;
    }

    fn stand_policy(&mut self, policy: Policy, fixed: bool)
        requires cluster { IsCluster (stood_again self.old.cluster (object.Policy policy) fixed) }
        requires places { HasPlaces (stood_again self.old.cluster (object.Policy policy) fixed) self.old.places }
        ensures cluster { self.new.cluster ≡ stood_again self.old.cluster (object.Policy policy) fixed }
        ensures places { KeepsPlaces self.old.places self.new.places }
    {
        restore(&mut self.policies, policy);
        self.fixed = fixed;
    }

    fn stand_egress(&mut self, egress: EgressObj, fixed: bool)
        requires cluster { IsCluster (stood_again self.old.cluster (object.Egress egress) fixed) }
        requires places { HasPlaces (stood_again self.old.cluster (object.Egress egress) fixed) self.old.places }
        ensures cluster { self.new.cluster ≡ stood_again self.old.cluster (object.Egress egress) fixed }
        ensures places { KeepsPlaces self.old.places self.new.places }
    {
        restore(&mut self.egresses, egress);
        self.fixed = fixed;
    }

    fn clear_node(&mut self, name: &Text, fixed: bool)
        requires cluster { IsCluster (cleared_again self.old.cluster (object_key.Node name.now) fixed) }
        ensures cluster { self.new.cluster ≡ cleared_again self.old.cluster (object_key.Node name.now) fixed }
        ensures places { KeepsPlaces self.old.places self.new.places }
    {
        let _ = remove(&mut self.nodes, name);
        self.fixed = fixed;
    }

    fn clear_namespace(&mut self, name: &Text, fixed: bool)
        requires cluster { IsCluster (cleared_again self.old.cluster (object_key.Namespace name.now) fixed) }
        ensures cluster { self.new.cluster ≡ cleared_again self.old.cluster (object_key.Namespace name.now) fixed }
        ensures places { KeepsPlaces self.old.places self.new.places }
    {
        let _ = remove(&mut self.namespaces, name);
        self.fixed = fixed;
    }

    fn clear_pod(&mut self, key: &PodKey, fixed: bool)
        requires cluster { IsCluster (cleared_again self.old.cluster (object_key.Pod key.now) fixed) }
        ensures cluster { self.new.cluster ≡ cleared_again self.old.cluster (object_key.Pod key.now) fixed }
        ensures places { KeepsPlaces self.old.places self.new.places }
    {
        let _ = self.pods.remove(key);
        self.fixed = fixed;
    }

    fn clear_tier(&mut self, name: &Text, fixed: bool)
        requires cluster { IsCluster (cleared_again self.old.cluster (object_key.Tier name.now) fixed) }
        ensures cluster { self.new.cluster ≡ cleared_again self.old.cluster (object_key.Tier name.now) fixed }
        ensures places { KeepsPlaces self.old.places self.new.places }
    {
        let _ = remove_named(&mut self.tiers, name);
        self.fixed = fixed;
    }

    fn clear_policy(&mut self, key: &PolicyKey, fixed: bool)
        requires cluster { IsCluster (cleared_again self.old.cluster (object_key.Policy key.now) fixed) }
        ensures cluster { self.new.cluster ≡ cleared_again self.old.cluster (object_key.Policy key.now) fixed }
        ensures places { KeepsPlaces self.old.places self.new.places }
    {
        let _ = remove(&mut self.policies, key);
        self.fixed = fixed;
    }

    fn clear_egress(&mut self, name: &Text, fixed: bool)
        requires cluster { IsCluster (cleared_again self.old.cluster (object_key.Egress name.now) fixed) }
        ensures cluster { self.new.cluster ≡ cleared_again self.old.cluster (object_key.Egress name.now) fixed }
        ensures places { KeepsPlaces self.old.places self.new.places }
    {
        let _ = remove(&mut self.egresses, name);
        self.fixed = fixed;
    }
}

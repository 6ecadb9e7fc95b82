ghost use Rattle.std.specs.Prelude.{◌≡◌, ◌≤◌, ◌&&◌, IfOk, option_copied, find, length, vec_capacity};
ghost use Rattle.cluster_types.specs.Tier.{static_tiers, tier_of};

use crate::kinds::copied;
use crate::pods::Pods;
use cl_types::{Addr, NoMemory, Text};
use cluster_types::{BASELINE_TIER, EgressObj, Namespace, NodeInfo, Pod, Policy, Tier};
use label_select::{GroupKey, Scope, Selector};
use std::alloc::Global;
use std::marker::Model;

mod changes;
mod refusals;
mod undo;

/// The objects of a cluster, each kind in ascending order of its keys.
#[derive(Debug, Drop)]
pub struct Cluster {
    nodes: Vec<NodeInfo>,
    fixed: bool,
    namespaces: Vec<Namespace>,
    pods: Pods,
    tiers: Vec<Tier>,
    policies: Vec<Policy>,
    egresses: Vec<EgressObj>,
}

impl Model for Cluster {
    ghost use Rattle.std.specs.Prelude.{vec_capacity};
    ghost use Rattle.cluster_types.specs.Cluster.{ClusterState, IsState};

    ghost Value = { ClusterState };

    ghost view = { λ c. record { cluster = record { nodes = c.nodes.items; fixed = c.fixed; namespaces = c.namespaces.items; pods = c.pods.pods; tiers = c.tiers.items; policies = c.policies.items; egresses = c.egresses.items }; places = record { nodes = vec_capacity c.nodes; namespaces = vec_capacity c.namespaces; pods = c.pods.places; tiers = vec_capacity c.tiers; policies = vec_capacity c.policies; egresses = vec_capacity c.egresses } } };

    ghost invariant = { λ c. IsState (record { cluster = record { nodes = c.nodes.items; fixed = c.fixed; namespaces = c.namespaces.items; pods = c.pods.pods; tiers = c.tiers.items; policies = c.policies.items; egresses = c.egresses.items }; places = record { nodes = vec_capacity c.nodes; namespaces = vec_capacity c.namespaces; pods = c.pods.places; tiers = vec_capacity c.tiers; policies = vec_capacity c.policies; egresses = vec_capacity c.egresses } }) };
}

/// The key of the label that every namespace has, with its name (Kubernetes).
pub const NAME_LABEL: &[u8] = b"kubernetes.io/metadata.name";

// The tiers that are always there.
fn static_tiers(alloc: Global) -> Result<Vec<Tier>, NoMemory>
    ensures tiers { IfOk result (λ tiers. tiers.items ≡ static_tiers) }
    ensures places { IfOk result (λ tiers. length tiers.items ≤ vec_capacity tiers) }
{
    let mut tiers = Vec::with_capacity(alloc, 6)?;
    tiers.push(tier(alloc, b"emergency", 50)?)?;
    tiers.push(tier(alloc, b"securityops", 100)?)?;
    tiers.push(tier(alloc, b"networkops", 150)?)?;
    tiers.push(tier(alloc, b"platform", 200)?)?;
    tiers.push(tier(alloc, b"application", 250)?)?;
    tiers.push(tier(alloc, b"baseline", BASELINE_TIER)?)?;
    Ok(tiers)
}

fn tier(alloc: Global, name: &[u8], priority: u16) -> Result<Tier, NoMemory>
    ensures { IfOk result (λ tier. tier ≡ tier_of name.now priority) }
{
    Ok(Tier {
        name: Text::of(Vec::from_slice(alloc, name)?),
        priority,
    })
}

impl Cluster {
    ghost use Rattle.cluster_objects.specs.Addresses.{pod_at, IsOnlyPodAt};
    ghost use Rattle.cluster_objects.specs.Apply.{fixed_nodes};
    ghost use Rattle.cluster_types.specs.Cluster.{no_objects, IsState};
    ghost use Rattle.cluster_types.specs.Groups.{in_group, ns_labels};
    ghost use Rattle.cluster_types.specs.Pod.{counts, has_address};
    ghost use Rattle.label_select.specs.Selection.{selects};

    /// The static tiers and nothing else, with the nodes not fixed.
    pub fn new(alloc: Global) -> Result<Cluster, NoMemory>
        ensures { IfOk result (λ c. c.cluster ≡ no_objects) }
    {
        Ok(Cluster {
            nodes: Vec::new(alloc),
            fixed: false,
            namespaces: Vec::new(alloc),
            pods: Pods::new(alloc),
            tiers: static_tiers(alloc)?,
            policies: Vec::new(alloc),
            egresses: Vec::new(alloc),
        })
    }

    /// An equal cluster. It may have fewer places.
    pub fn copy(&self) -> Result<Cluster, NoMemory>
        ensures { IfOk result (λ c. c.cluster ≡ self.now.cluster) }
    {
        let alloc = *self.tiers.allocator();
        Ok(Cluster {
            nodes: copied(alloc, self.nodes.as_slice())?,
            fixed: self.fixed,
            namespaces: copied(alloc, self.namespaces.as_slice())?,
            pods: self.pods.copy(alloc)?,
            tiers: copied(alloc, self.tiers.as_slice())?,
            policies: copied(alloc, self.policies.as_slice())?,
            egresses: copied(alloc, self.egresses.as_slice())?,
        })
    }

    /// Tells what every cluster keeps of this one. It does nothing else.
    pub fn keeps_its_form(&self)
        ensures { IsState self.now }
    {
        let _ = &self.fixed;
    }

    /// From now on no node can come, change or go.
    pub fn fix_nodes(&mut self)
        ensures { self.new.cluster ≡ fixed_nodes self.old.cluster }
    {
        self.fixed = true;
    }

    /// The nodes, by name.
    pub fn nodes(&self) -> &[NodeInfo]
        ensures { result.now ≡ self.now.cluster.nodes }
    {
        self.nodes.as_slice()
    }

    /// Whether no more node can come.
    pub fn fixed(&self) -> bool
        ensures { result ≡ self.now.cluster.fixed }
    {
        self.fixed
    }

    /// The pods, by namespace and name.
    pub fn pods(&self) -> &[Pod]
        ensures { result.now ≡ self.now.cluster.pods }
    {
        self.pods.as_slice()
    }

    /// The tiers, by priority.
    pub fn tiers(&self) -> &[Tier]
        ensures { result.now ≡ self.now.cluster.tiers }
    {
        self.tiers.as_slice()
    }

    /// The policies, by kind, namespace and name.
    pub fn policies(&self) -> &[Policy]
        ensures { result.now ≡ self.now.cluster.policies }
    {
        self.policies.as_slice()
    }

    /// The Egresses, by name.
    pub fn egresses(&self) -> &[EgressObj]
        ensures { result.now ≡ self.now.cluster.egresses }
    {
        self.egresses.as_slice()
    }

    /// The counting pod that has the address.
    pub fn pod_at(&self, a: Addr) -> Option<&Pod>
        ensures pod { option_copied result ≡ pod_at self.now.cluster.pods a }
        ensures alone { IsOnlyPodAt self.now.cluster.pods a (option_copied result) }
    {
        self.pods.at(a)
    }

    /// Whether the group contains the pod.
    pub fn in_group(&self, g: &GroupKey, p: &Pod) -> bool
        ensures { result ≡ in_group self.now.cluster g.now p.now }
    {
        let namespace = &p.key.namespace;
        let in_scope = match &g.scope {
            Scope::Namespace(name) => name == namespace,
            Scope::Namespaces(selector) => self.selects_namespace(selector, namespace),
        };
        p.counts() && in_scope && g.pods.selects(&p.labels)
    }

    // Whether the selector selects the labels of the namespace.
    fn selects_namespace(&self, selector: &Selector, name: &Text) -> bool
        ensures { result ≡ selects selector.now (ns_labels self.now.cluster name.now) }
    {
        let labels = match cl_types::find(self.namespaces.as_slice(), name) {
            Some(namespace) => Some(&namespace.labels),
            None => None,
        };
        selector.selects_with(labels, NAME_LABEL, name)
    }
}

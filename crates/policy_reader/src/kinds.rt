//! Which kinds of objects are read, and reading an object by its kind.
ghost use Rattle.std.specs.Prelude.{◌≡◌, ◌≢◌, ◌==◌, List, [], Some, None, IfOk, Result, Ok, Err, option_map, position, codes};
ghost use Rattle.serde_json.specs.View.{view};
ghost use Rattle.cl_types.specs.Bytes as byte;
ghost use Rattle.cl_types.specs.declared.keys.PolicyKind.TheVariants.{Cluster};
ghost use Rattle.cluster_types.specs.declared.change.Change.TheVariants.{Put, Remove};
ghost use Rattle.cluster_types.specs.declared.change.ObjectKey.TheVariants as key;
ghost use Rattle.cluster_types.specs.declared.references.RefItem.TheVariants.{Plain};
ghost use Rattle.json_fields.specs.declared.refusal.ReadRefusal.TheVariants.{BadShape};
ghost use Rattle.object_reader.specs.Nodes.{name_of, namespace_name};
ghost use Rattle.policy_objects.specs.Policies.{key_in_namespace};
ghost use Rattle.json_fields.specs.Answer.{Gives};
ghost use Rattle.json_fields.specs.Faults.{least};
ghost use Rattle.policy_reader.specs.Kinds.{core_kind, network_kind, antrea_policy_kind, antrea_other_kind, or_else, antrea_kind, kind_in, is_kind_name, group_of, kind_of_version, kind_of, faults_of, value_of, named_in, is_namespaced, removed_faults, removed_value};

use cl_types::{NoMemory, PolicyKind, Text};
use cluster_types::{Change, Object, ObjectKey, RefItem};
use json_fields::{NameForm, ReadRefusal, in_field, inner, metadata_fault, namespaced_fault};
use object_reader::{
    egress_fault, egress_item, group_fault, group_value, name_of, namespace_fault, namespace_name,
    namespace_value as namespace_object, node_fault, node_value, pool_fault, pool_value,
    tier_fault, tier_value,
};
use pod_reader::{pod_fault, pod_key, pod_value};
use policy_objects::{
    antrea_policy_fault, antrea_policy_value, cluster_key, cluster_policy_fault,
    cluster_policy_value, key_in_namespace, kube_policy_fault, kube_policy_value,
};
use serde_json::Value;
use std::alloc::Global;

/// A kind of objects that is read.
#[derive(Clone, Copy, Debug, PartialEq, Eq)]
pub(crate) enum ObjectKind {
    Node,
    Namespace,
    Pod,
    Tier,
    KubePolicy,
    AntreaPolicy,
    ClusterPolicy,
    Egress,
    ClusterGroup,
    Pool,
}

#[tactic(auto, unfolding(crate::specs::Kinds::core_kind))]
fn core_kind(name: &[u8]) -> Option<ObjectKind>
    ensures { result ≡ core_kind name.now }
{
    if name == b"Node".as_slice() {
        Some(ObjectKind::Node)
    } else if name == b"Namespace".as_slice() {
        Some(ObjectKind::Namespace)
    } else if name == b"Pod".as_slice() {
        Some(ObjectKind::Pod)
    } else {
        None
    }
}

#[tactic(auto, unfolding(crate::specs::Kinds::network_kind))]
fn network_kind(name: &[u8]) -> Option<ObjectKind>
    ensures { result ≡ network_kind name.now }
{
    if name == b"NetworkPolicy".as_slice() {
        Some(ObjectKind::KubePolicy)
    } else {
        None
    }
}

#[tactic(auto, unfolding(crate::specs::Kinds::antrea_policy_kind))]
fn antrea_policy_kind(name: &[u8]) -> Option<ObjectKind>
    ensures { result ≡ antrea_policy_kind name.now }
{
    if name == b"NetworkPolicy".as_slice() {
        Some(ObjectKind::AntreaPolicy)
    } else if name == b"ClusterNetworkPolicy".as_slice() {
        Some(ObjectKind::ClusterPolicy)
    } else {
        None
    }
}

#[tactic(auto, unfolding(crate::specs::Kinds::antrea_other_kind))]
fn antrea_other_kind(name: &[u8]) -> Option<ObjectKind>
    ensures { result ≡ antrea_other_kind name.now }
{
    if name == b"Tier".as_slice() {
        Some(ObjectKind::Tier)
    } else if name == b"Egress".as_slice() {
        Some(ObjectKind::Egress)
    } else if name == b"ClusterGroup".as_slice() {
        Some(ObjectKind::ClusterGroup)
    } else if name == b"ExternalIPPool".as_slice() {
        Some(ObjectKind::Pool)
    } else {
        None
    }
}

#[tactic(auto, unfolding(crate::specs::Kinds::antrea_kind))]
fn antrea_kind(name: &[u8]) -> Option<ObjectKind>
    ensures { result ≡ antrea_kind name.now }
{
    match antrea_policy_kind(name) {
        Some(kind) => Some(kind),
        None => antrea_other_kind(name),
    }
}

// The kind with this name in a group of kinds.
#[tactic(auto, unfolding(crate::specs::Kinds::kind_in))]
fn kind_in(group: &[u8], name: &[u8]) -> Option<ObjectKind>
    ensures { result ≡ kind_in group.now name.now }
{
    if group == b"".as_slice() {
        core_kind(name)
    } else if group == b"networking.k8s.io".as_slice() {
        network_kind(name)
    } else if group == b"crd.antrea.io".as_slice() {
        antrea_kind(name)
    } else {
        None
    }
}

#[tactic(auto, unfolding(crate::specs::Kinds::is_kind_name))]
fn is_kind_name(name: &[u8]) -> bool
    ensures { result ≡ is_kind_name name.now }
{
    core_kind(name).is_some() || network_kind(name).is_some() || antrea_kind(name).is_some()
}

fn slash(text: &[u8]) -> Option<usize>
    ensures { result ≡ position (λ b. b == byte.slash) text.now }
{
    text.iter().position(|b| *b == b'/')
}

// The text before the first `/`, empty where there is none.
fn group_of(version: &[u8]) -> &[u8]
    ensures { result.now ≡ group_of version.now }
{
    match slash(version) {
        Some(i) => &version[..i],
        None => b"".as_slice(),
    }
}

fn kind_of_version(
    alloc: Global,
    name: &[u8],
    version: Option<&str>,
) -> Result<Option<ObjectKind>, ReadRefusal>
    ensures { Gives (λ (k : _). k) result (kind_of_version name.now (option_map (λ s. s.now) version.entry)) }
{
    match version {
        Some(version) => Ok(kind_in(group_of(version.as_bytes()), name)),
        None if is_kind_name(name) => Err(misshapen(alloc, b"apiVersion")?),
        None => Ok(None),
    }
}

/// The fault that the value at this path is missing or of another kind.
pub(crate) fn misshapen(alloc: Global, path: &[u8]) -> Result<ReadRefusal, NoMemory>
    ensures { IfOk result (λ f. f ≡ BadShape path.now) }
{
    Ok(ReadRefusal::BadShape(Text::of(Vec::from_slice(alloc, path)?)))
}

/// The kind of an object by the name of its kind and its apiVersion; none where it isn't read.
#[tactic(auto, unfolding(crate::specs::Kinds::kind_of))]
pub(crate) fn kind_of(
    alloc: Global,
    name: &[u8],
    version: Option<&Value>,
) -> Result<Option<ObjectKind>, ReadRefusal>
    ensures { Gives (λ (k : _). k) result (kind_of name.now (option_map (λ v. view v.now) version.entry)) }
{
    match version {
        Some(version) => kind_of_version(alloc, name, version.as_str()),
        None => Ok(core_kind(name)),
    }
}

/// The fault of an object of this kind that counts.
pub(crate) fn object_fault(
    alloc: Global,
    kind: ObjectKind,
    object: &Value,
) -> Result<Option<ReadRefusal>, NoMemory>
    ensures { IfOk result (λ f. f ≡ least (faults_of kind (view object.now))) }
{
    match kind {
        ObjectKind::Node => node_fault(alloc, object),
        ObjectKind::Namespace => namespace_fault(alloc, object),
        ObjectKind::Pod => pod_fault(alloc, object),
        ObjectKind::Tier => tier_fault(alloc, object),
        ObjectKind::KubePolicy => kube_policy_fault(alloc, object),
        ObjectKind::AntreaPolicy => antrea_policy_fault(alloc, object),
        ObjectKind::ClusterPolicy => cluster_policy_fault(alloc, object),
        ObjectKind::Egress => egress_fault(alloc, object),
        ObjectKind::ClusterGroup => group_fault(alloc, object),
        ObjectKind::Pool => pool_fault(alloc, object),
    }
}

/// What an object of this kind says that has no fault.
pub(crate) fn object_value(
    alloc: Global,
    kind: ObjectKind,
    object: &Value,
) -> Result<RefItem, NoMemory>
    ensures { IfOk result (λ i. i ≡ value_of kind (view object.now)) }
{
    match kind {
        ObjectKind::Node => Ok(put(Object::Node(node_value(alloc, object)?))),
        ObjectKind::Namespace => Ok(put(Object::Namespace(namespace_object(alloc, object)?))),
        ObjectKind::Pod => Ok(put(Object::Pod(pod_value(alloc, object)?))),
        ObjectKind::Tier => Ok(put(Object::Tier(tier_value(alloc, object)?))),
        ObjectKind::KubePolicy => Ok(put(Object::Policy(kube_policy_value(alloc, object)?))),
        ObjectKind::AntreaPolicy => Ok(put(Object::Policy(antrea_policy_value(alloc, object)?))),
        ObjectKind::ClusterPolicy => Ok(RefItem::PutPolicy(cluster_policy_value(alloc, object)?)),
        ObjectKind::Egress => egress_item(alloc, object),
        ObjectKind::ClusterGroup => Ok(RefItem::PutGroup(group_value(alloc, object)?)),
        ObjectKind::Pool => Ok(RefItem::PutPool(pool_value(alloc, object)?)),
    }
}

fn put(object: Object) -> RefItem
    ensures { result ≡ Plain (Put object) }
{
    RefItem::Plain(Change::Put(object))
}

// ---- objects that were deleted

fn is_namespaced(kind: ObjectKind) -> bool
    ensures { result ≡ is_namespaced kind }
{
    matches!(
        kind,
        ObjectKind::Pod | ObjectKind::KubePolicy | ObjectKind::AntreaPolicy
    )
}

// The fault of the metadata of an object that is in a namespace or in none.
fn named_in(
    alloc: Global,
    namespaced: bool,
    metadata: Option<&Value>,
) -> Result<Option<ReadRefusal>, NoMemory>
    ensures { IfOk result (λ f. f ≡ least (named_in namespaced (option_map (λ v. view v.now) metadata.entry))) }
{
    if namespaced {
        namespaced_fault(alloc, metadata)
    } else {
        metadata_fault(alloc, NameForm::ObjectName, metadata)
    }
}

/// The fault of the metadata of a deleted object that counts.
#[tactic(auto, using(json_fields::specs::FaultLaws::least_at), unfolding(crate::specs::Kinds::removed_faults, json_fields::specs::Shapes::in_field))]
pub(crate) fn removed_fault(
    alloc: Global,
    kind: ObjectKind,
    object: &Value,
) -> Result<Option<ReadRefusal>, NoMemory>
    ensures { IfOk result (λ f. f ≡ least (removed_faults kind (view object.now))) }
{
    let metadata = inner(Some(object), "metadata");
    let fault = match kind {
        ObjectKind::Namespace => metadata_fault(alloc, NameForm::NamespaceName, metadata)?,
        _ => named_in(alloc, is_namespaced(kind), metadata)?,
    };
    in_field(alloc, "metadata", fault)
}

// The key of a policy that is in a namespace.
fn policy_of(alloc: Global, kind: PolicyKind, object: &Value) -> Result<ObjectKey, NoMemory>
    requires { kind ≢ Cluster }
    ensures { IfOk result (λ k. k ≡ key.Policy (key_in_namespace kind (view object.now))) }
{
    Ok(ObjectKey::Policy(key_in_namespace(alloc, kind, object)?))
}

/// What the removal of an object of this kind says whose metadata has no fault.
pub(crate) fn removed_value(
    alloc: Global,
    kind: ObjectKind,
    object: &Value,
) -> Result<RefItem, NoMemory>
    ensures { IfOk result (λ i. i ≡ removed_value kind (view object.now)) }
{
    match kind {
        ObjectKind::Node => Ok(remove(ObjectKey::Node(name_of(alloc, object)?))),
        ObjectKind::Namespace => Ok(remove(ObjectKey::Namespace(namespace_name(alloc, object)?))),
        ObjectKind::Pod => Ok(remove(ObjectKey::Pod(pod_key(alloc, object)?))),
        ObjectKind::Tier => Ok(remove(ObjectKey::Tier(name_of(alloc, object)?))),
        ObjectKind::KubePolicy => Ok(remove(policy_of(alloc, PolicyKind::Kube, object)?)),
        ObjectKind::AntreaPolicy => Ok(remove(policy_of(alloc, PolicyKind::Antrea, object)?)),
        ObjectKind::ClusterPolicy => Ok(remove(ObjectKey::Policy(cluster_key(alloc, object)?))),
        ObjectKind::Egress => Ok(remove(ObjectKey::Egress(name_of(alloc, object)?))),
        ObjectKind::ClusterGroup => Ok(RefItem::RemoveGroup(name_of(alloc, object)?)),
        ObjectKind::Pool => Ok(RefItem::RemovePool(name_of(alloc, object)?)),
    }
}

fn remove(key: ObjectKey) -> RefItem
    ensures { result ≡ Plain (Remove key) }
{
    RefItem::Plain(Change::Remove(key))
}

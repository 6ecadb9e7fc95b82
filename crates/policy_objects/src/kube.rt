//! Reading policies of Kubernetes.
ghost use Rattle.std.specs.Prelude.{◌≡◌, ◌≢◌, ◌≤◌, ◌∷◌, [], List, IfOk, IsTrue, Some, map, option_map, length, codes};
ghost use Rattle.serde_json.specs.View.{view};
ghost use Rattle.cl_types.specs.declared.keys.PolicyKind.TheVariants.{Cluster, Kube};
ghost use Rattle.cl_types.specs.PolicyName.{HasNoSlash};
ghost use Rattle.label_select.specs.Forms.{is_namespace_name};
ghost use Rattle.json_fields.specs.Faults.{least};
ghost use Rattle.json_fields.specs.Shapes.{in_field};
ghost use Rattle.object_reader.specs.Groups.{pod_selector_faults};
ghost use Rattle.object_reader.specs.Nodes.{spec_of, name_of as the_name};
ghost use Rattle.policy_objects.specs.Peers.{namespace_pods};
ghost use Rattle.policy_objects.specs.Rules.{rule_room};
ghost use Rattle.policy_objects.specs.Policies.{metadata_faults, namespace_of, key_in_namespace, isolates_in, isolates_out, kept, kube_spec_faults, kube_policy_faults, namespaced_frame, kube_frame, kube_rules, kube_value, kube_policy_value};

use crate::peers::own_pods;
use crate::rules::{Frame, egress_fault, egress_items, ingress_fault, ingress_items, rules_value};
use cl_types::{Copies, List, NoMemory, PolicyKey, PolicyKind, Text};
use cluster_types::{Policy, Rule};
use json_fields::{
    ReadRefusal, earlier, in_field, inner, namespace_value, namespaced_fault, object_fault,
    selector_field_fault, selector_value,
};
use label_select::{GroupKey, Scope};
use object_reader::{metadata_of, name_of, spec_of};
use policy_parts::{has_egress, has_ingress, types_fault, types_of};
use serde_json::Value;
use std::alloc::Global;

// ---- a policy in a namespace

/// The fault of the metadata of a policy in a namespace.
#[tactic(auto, using(json_fields::specs::FaultLaws::least_at), unfolding(crate::specs::Policies::metadata_faults, json_fields::specs::Shapes::in_field))]
pub(crate) fn metadata_fault(alloc: Global, object: &Value) -> Result<Option<ReadRefusal>, NoMemory>
    ensures { IfOk result (λ f. f ≡ least (metadata_faults (view object.now))) }
{
    let fault = namespaced_fault(alloc, inner(Some(object), "metadata"))?;
    in_field(alloc, "metadata", fault)
}

#[tactic(auto, using(crate::proofs::Names::namespace_has_form), unfolding(crate::specs::Policies::namespace_of))]
fn namespace_of(alloc: Global, object: &Value) -> Result<Text, NoMemory>
    ensures value { IfOk result (λ (t : List _). t ≡ namespace_of (view object.now)) }
    ensures form { IfOk result (λ (t : List _). IsTrue (is_namespace_name t)) }
{
    namespace_value(alloc, inner(metadata_of(object), "namespace"))
}

/// The name of a policy.
pub(crate) fn policy_name(alloc: Global, object: &Value) -> Result<Text, NoMemory>
    ensures value { IfOk result (λ (t : List _). t ≡ the_name (view object.now)) }
    ensures form { IfOk result (λ (t : List _). HasNoSlash t) }
{
    let name = name_of(alloc, object)?;
    label_select::names_have_no_slash();
    Ok(name)
}

/// The key of a policy in a namespace.
pub fn key_in_namespace(
    alloc: Global,
    kind: PolicyKind,
    object: &Value,
) -> Result<PolicyKey, NoMemory>
    requires { kind ≢ Cluster }
    ensures value { IfOk result (λ k. k ≡ key_in_namespace kind (view object.now)) }
    ensures form { IfOk result (λ k. IsTrue (is_namespace_name k.namespace)) }
{
    let namespace = namespace_of(alloc, object)?;
    let name = policy_name(alloc, object)?;
    label_select::names_have_no_slash();
    Ok(PolicyKey {
        kind,
        namespace,
        name,
    })
}

fn namespace_pods(alloc: Global, namespace: &Text) -> Result<GroupKey, NoMemory>
    requires { IsTrue (is_namespace_name namespace.now) }
    ensures { IfOk result (λ (g : _). g ≡ namespace_pods namespace.now) }
{
    Ok(GroupKey {
        scope: Scope::Namespace(namespace.copy()?),
        pods: selector_value(alloc, None)?,
    })
}

/// What the rules of a policy in a namespace share.
pub(crate) fn namespaced_frame(
    alloc: Global,
    key: PolicyKey,
    priority: u16,
    baseline: bool,
) -> Result<Frame, NoMemory>
    requires { IsTrue (is_namespace_name key.namespace) }
    ensures { IfOk result (λ (f : _). f ≡ namespaced_frame key priority baseline) }
{
    let own = namespace_pods(alloc, &key.namespace)?;
    Ok(Frame {
        key,
        priority,
        baseline,
        own,
    })
}

// ---- the directions of a policy

#[tactic(auto, unfolding(crate::specs::Policies::isolates_in))]
fn isolates_in(alloc: Global, spec: Option<&Value>) -> Result<bool, NoMemory>
    ensures { IfOk result (λ b. b ≡ isolates_in (option_map (λ v. view v.now) spec.entry)) }
{
    let types = types_of(alloc, spec)?;
    Ok(has_ingress(types.as_slice()))
}

#[tactic(auto, unfolding(crate::specs::Policies::isolates_out))]
fn isolates_out(alloc: Global, spec: Option<&Value>) -> Result<bool, NoMemory>
    ensures { IfOk result (λ b. b ≡ isolates_out (option_map (λ v. view v.now) spec.entry)) }
{
    let types = types_of(alloc, spec)?;
    Ok(has_egress(types.as_slice(), egress_items(spec)))
}

// The rules of a direction, where the policy has it.
fn kept(has: bool, rules: &[Value]) -> &[Value]
    requires { length rules.now ≤ rule_room }
    ensures value { map view result.now ≡ kept has (map view rules.now) }
    ensures room { length result.now ≤ rule_room }
{
    let none: &[Value] = &[];
    if has { rules } else { none }
}

// ---- policies

#[tactic(auto, unfolding(object_reader::specs::Groups::pod_selector_faults))]
fn pod_selector_fault(alloc: Global, spec: Option<&Value>) -> Result<Option<ReadRefusal>, NoMemory>
    ensures { IfOk result (λ f. f ≡ least (pod_selector_faults (option_map (λ v. view v.now) spec.entry))) }
{
    selector_field_fault(alloc, "podSelector", spec)
}

#[tactic(auto, using(json_fields::specs::FaultLaws::least_append), unfolding(crate::specs::Policies::kube_spec_faults))]
fn kube_spec_fault(alloc: Global, spec: Option<&Value>) -> Result<Option<ReadRefusal>, NoMemory>
    ensures { IfOk result (λ f. f ≡ least (kube_spec_faults (option_map (λ v. view v.now) spec.entry))) }
{
    let pods = pod_selector_fault(alloc, spec)?;
    let types = types_fault(alloc, spec)?;
    let ingress = ingress_fault(alloc, PolicyKind::Kube, false, spec)?;
    let egress = egress_fault(alloc, PolicyKind::Kube, false, spec)?;
    let selected = earlier(earlier(object_fault(alloc, spec), pods), types);
    Ok(earlier(earlier(selected, ingress), egress))
}

#[tactic(auto, using(json_fields::specs::FaultLaws::least_at), unfolding(json_fields::specs::Shapes::in_field))]
fn kube_spec_field_fault(alloc: Global, object: &Value) -> Result<Option<ReadRefusal>, NoMemory>
    ensures { IfOk result (λ f. f ≡ least (in_field (codes "spec") kube_spec_faults (Some (view object.now)))) }
{
    let fault = kube_spec_fault(alloc, inner(Some(object), "spec"))?;
    in_field(alloc, "spec", fault)
}

/// The fault of a policy of Kubernetes.
#[tactic(auto, using(json_fields::specs::FaultLaws::least_append), unfolding(crate::specs::Policies::kube_policy_faults))]
pub fn kube_policy_fault(alloc: Global, object: &Value) -> Result<Option<ReadRefusal>, NoMemory>
    ensures { IfOk result (λ f. f ≡ least (kube_policy_faults (view object.now))) }
{
    let metadata = metadata_fault(alloc, object)?;
    let spec = kube_spec_field_fault(alloc, object)?;
    Ok(earlier(metadata, spec))
}

#[tactic(auto, unfolding(crate::specs::Policies::kube_frame))]
fn kube_frame(alloc: Global, object: &Value) -> Result<Frame, NoMemory>
    ensures { IfOk result (λ (f : _). f ≡ kube_frame (view object.now)) }
{
    let key = key_in_namespace(alloc, PolicyKind::Kube, object)?;
    namespaced_frame(alloc, key, 0, false)
}

#[tactic(auto, unfolding(crate::specs::Policies::kube_rules))]
fn kube_rules(alloc: Global, frame: &Frame, spec: Option<&Value>) -> Result<List<Rule>, NoMemory>
    ensures { IfOk result (λ (l : List _). l ≡ kube_rules frame.now (option_map (λ v. view v.now) spec.entry)) }
{
    let ingress = kept(isolates_in(alloc, spec)?, ingress_items(spec));
    let egress = kept(isolates_out(alloc, spec)?, egress_items(spec));
    rules_value(alloc, frame, ingress, egress)
}

fn one_group(alloc: Global, group: GroupKey) -> Result<List<GroupKey>, NoMemory>
    ensures { IfOk result (λ (l : List _). l ≡ group ∷ []) }
{
    let mut groups = Vec::with_capacity(alloc, 1)?;
    groups.push(group)?;
    Ok(List::of(groups))
}

#[tactic(auto, unfolding(crate::specs::Policies::kube_value))]
fn kube_value(alloc: Global, frame: Frame, spec: Option<&Value>) -> Result<Policy, NoMemory>
    requires kind { frame.key.kind ≡ Kube }
    requires priority { frame.priority ≡ 0 }
    ensures { IfOk result (λ (p : _). p ≡ kube_value frame (option_map (λ v. view v.now) spec.entry)) }
{
    let applied = one_group(alloc, own_pods(alloc, &frame.own, spec)?)?;
    let isolates_in = isolates_in(alloc, spec)?;
    let isolates_out = isolates_out(alloc, spec)?;
    let rules = kube_rules(alloc, &frame, spec)?;
    Ok(Policy {
        key: frame.key,
        tier: Text::new(alloc),
        priority: 0,
        applied,
        isolates_in,
        isolates_out,
        rules,
    })
}

/// The policy that an object of Kubernetes is.
#[tactic(auto, unfolding(crate::specs::Policies::kube_policy_value, crate::specs::Policies::kube_frame))]
pub fn kube_policy_value(alloc: Global, object: &Value) -> Result<Policy, NoMemory>
    ensures { IfOk result (λ (p : _). p ≡ kube_policy_value (view object.now)) }
{
    let frame = kube_frame(alloc, object)?;
    kube_value(alloc, frame, spec_of(object))
}

//! Reading policies of Antrea, for a namespace and for the whole cluster.
ghost use Rattle.std.specs.Prelude.{◌≡◌, ◌≢◌, [], List, IfOk, Some, option_map, codes};
ghost use Rattle.serde_json.specs.View.{view};
ghost use Rattle.cl_types.specs.declared.keys.PolicyKind.TheVariants.{Cluster, Kube};
ghost use Rattle.json_fields.specs.Faults.{least};
ghost use Rattle.json_fields.specs.Shapes.{in_field};
ghost use Rattle.object_reader.specs.Nodes.{named_faults, spec_of, name_of as the_name};
ghost use Rattle.policy_parts.specs.Places.{tier_name, is_in_baseline};
ghost use Rattle.policy_objects.specs.Applied.{applied_items, applied_value};
ghost use Rattle.policy_objects.specs.Peers.{all_pods};
ghost use Rattle.policy_objects.specs.Rules.{ingress_items, egress_items, rules_value as the_rules};
ghost use Rattle.policy_objects.specs.Policies.{cluster_key, native_spec_faults, native_value, antrea_policy_faults, antrea_frame, antrea_policy_value, cluster_policy_faults, cluster_frame, applied_references, rule_references, cluster_policy_value};

use crate::applied::{applied_groups, applied_items, applied_to_fault};
use crate::kube::{key_in_namespace, metadata_fault, namespaced_frame, policy_name};
use crate::peers::references_of;
use crate::rules::{
    Frame, egress_fault, egress_items, ingress_fault, ingress_items, references_of_rules,
    rules_value,
};
use cl_types::{List, NoMemory, PolicyKey, PolicyKind, Text};
use cluster_types::{Policy, RefPolicy, Rule};
use json_fields::{
    NameForm, ReadRefusal, earlier, in_field, inner, metadata_fault as named_fault_of,
    object_fault, selector_value,
};
use label_select::{GroupKey, Scope};
use object_reader::spec_of;
use policy_parts::{is_in_baseline, priority_fault, priority_value, tier_fault, tier_name};
use serde_json::Value;
use std::alloc::Global;

// ---- faults

#[tactic(auto, using(json_fields::specs::FaultLaws::least_append), unfolding(crate::specs::Policies::native_spec_faults))]
fn native_spec_fault(
    alloc: Global,
    kind: PolicyKind,
    spec: Option<&Value>,
) -> Result<Option<ReadRefusal>, NoMemory>
    ensures { IfOk result (λ f. f ≡ least (native_spec_faults kind (option_map (λ v. view v.now) spec.entry))) }
{
    let tier = tier_fault(alloc, spec)?;
    let applied = applied_to_fault(alloc, kind, spec)?;
    let baseline = is_in_baseline(alloc, spec)?;
    let ingress = ingress_fault(alloc, kind, baseline, spec)?;
    let egress = egress_fault(alloc, kind, baseline, spec)?;
    let placed = earlier(
        earlier(object_fault(alloc, spec), tier),
        priority_fault(spec),
    );
    Ok(earlier(earlier(earlier(placed, applied), ingress), egress))
}

#[tactic(auto, using(json_fields::specs::FaultLaws::least_at), unfolding(json_fields::specs::Shapes::in_field))]
fn native_spec_field_fault(
    alloc: Global,
    kind: PolicyKind,
    object: &Value,
) -> Result<Option<ReadRefusal>, NoMemory>
    ensures { IfOk result (λ f. f ≡ least (in_field (codes "spec") (native_spec_faults kind) (Some (view object.now)))) }
{
    let fault = native_spec_fault(alloc, kind, inner(Some(object), "spec"))?;
    in_field(alloc, "spec", fault)
}

/// The fault of a policy of Antrea in a namespace.
#[tactic(auto, using(json_fields::specs::FaultLaws::least_append), unfolding(crate::specs::Policies::antrea_policy_faults))]
pub fn antrea_policy_fault(alloc: Global, object: &Value) -> Result<Option<ReadRefusal>, NoMemory>
    ensures { IfOk result (λ f. f ≡ least (antrea_policy_faults (view object.now))) }
{
    let metadata = metadata_fault(alloc, object)?;
    let spec = native_spec_field_fault(alloc, PolicyKind::Antrea, object)?;
    Ok(earlier(metadata, spec))
}

#[tactic(auto, using(json_fields::specs::FaultLaws::least_at), unfolding(object_reader::specs::Nodes::named_faults, json_fields::specs::Shapes::in_field))]
fn named_fault(alloc: Global, object: &Value) -> Result<Option<ReadRefusal>, NoMemory>
    ensures { IfOk result (λ f. f ≡ least (named_faults (view object.now))) }
{
    let fault = named_fault_of(alloc, NameForm::ObjectName, inner(Some(object), "metadata"))?;
    in_field(alloc, "metadata", fault)
}

/// The fault of a policy of Antrea for the cluster.
#[tactic(auto, using(json_fields::specs::FaultLaws::least_append), unfolding(crate::specs::Policies::cluster_policy_faults))]
pub fn cluster_policy_fault(alloc: Global, object: &Value) -> Result<Option<ReadRefusal>, NoMemory>
    ensures { IfOk result (λ f. f ≡ least (cluster_policy_faults (view object.now))) }
{
    let named = named_fault(alloc, object)?;
    let spec = native_spec_field_fault(alloc, PolicyKind::Cluster, object)?;
    Ok(earlier(named, spec))
}

// ---- what a policy means

fn native_rules(alloc: Global, frame: &Frame, spec: Option<&Value>) -> Result<List<Rule>, NoMemory>
    ensures { IfOk result (λ (l : List _). l ≡ the_rules frame.now (ingress_items (option_map (λ v. view v.now) spec.entry)) (egress_items (option_map (λ v. view v.now) spec.entry))) }
{
    rules_value(alloc, frame, ingress_items(spec), egress_items(spec))
}

fn native_applied(
    alloc: Global,
    own: &GroupKey,
    spec: Option<&Value>,
) -> Result<List<GroupKey>, NoMemory>
    ensures { IfOk result (λ (l : List _). l ≡ applied_value own.now (applied_items (option_map (λ v. view v.now) spec.entry))) }
{
    applied_groups(alloc, own, applied_items(spec))
}

fn tier_text(alloc: Global, spec: Option<&Value>) -> Result<Text, NoMemory>
    ensures { IfOk result (λ (t : List _). t ≡ tier_name (option_map (λ v. view v.now) spec.entry)) }
{
    Ok(Text::of(Vec::from_slice(alloc, tier_name(spec))?))
}

#[tactic(auto, unfolding(crate::specs::Policies::native_value))]
fn native_value(alloc: Global, frame: Frame, spec: Option<&Value>) -> Result<Policy, NoMemory>
    requires kind { frame.key.kind ≢ Kube }
    requires baseline { frame.baseline ≡ is_in_baseline (option_map (λ v. view v.now) spec) }
    ensures { IfOk result (λ (p : _). p ≡ native_value frame (option_map (λ v. view v.now) spec.entry)) }
{
    let tier = tier_text(alloc, spec)?;
    let applied = native_applied(alloc, &frame.own, spec)?;
    let rules = native_rules(alloc, &frame, spec)?;
    Ok(Policy {
        key: frame.key,
        tier,
        priority: frame.priority,
        applied,
        isolates_in: false,
        isolates_out: false,
        rules,
    })
}

#[tactic(auto, unfolding(crate::specs::Policies::antrea_frame))]
fn antrea_frame(alloc: Global, object: &Value) -> Result<Frame, NoMemory>
    ensures { IfOk result (λ (f : _). f ≡ antrea_frame (view object.now)) }
{
    let key = key_in_namespace(alloc, PolicyKind::Antrea, object)?;
    let baseline = is_in_baseline(alloc, spec_of(object))?;
    namespaced_frame(alloc, key, priority_value(spec_of(object)), baseline)
}

/// The policy of Antrea that an object in a namespace is.
#[tactic(auto, unfolding(crate::specs::Policies::antrea_policy_value, crate::specs::Policies::antrea_frame))]
pub fn antrea_policy_value(alloc: Global, object: &Value) -> Result<Policy, NoMemory>
    ensures { IfOk result (λ (p : _). p ≡ antrea_policy_value (view object.now)) }
{
    let frame = antrea_frame(alloc, object)?;
    native_value(alloc, frame, spec_of(object))
}

// ---- policies for the cluster

fn all_pods(alloc: Global) -> Result<GroupKey, NoMemory>
    ensures { IfOk result (λ (g : _). g ≡ all_pods) }
{
    let namespaces = selector_value(alloc, None)?;
    let pods = selector_value(alloc, None)?;
    Ok(GroupKey {
        scope: Scope::Namespaces(namespaces),
        pods,
    })
}

/// The key of a policy for the cluster.
pub fn cluster_key(alloc: Global, object: &Value) -> Result<PolicyKey, NoMemory>
    ensures { IfOk result (λ (k : _). k ≡ cluster_key (view object.now)) }
{
    let name = policy_name(alloc, object)?;
    Ok(PolicyKey {
        kind: PolicyKind::Cluster,
        namespace: Text::new(alloc),
        name,
    })
}

#[tactic(auto, unfolding(crate::specs::Policies::cluster_frame))]
fn cluster_frame(alloc: Global, object: &Value) -> Result<Frame, NoMemory>
    ensures { IfOk result (λ (f : _). f ≡ cluster_frame (view object.now)) }
{
    let key = cluster_key(alloc, object)?;
    let baseline = is_in_baseline(alloc, spec_of(object))?;
    let own = all_pods(alloc)?;
    Ok(Frame {
        key,
        priority: priority_value(spec_of(object)),
        baseline,
        own,
    })
}

#[tactic(auto, unfolding(crate::specs::Policies::applied_references))]
fn applied_references(alloc: Global, spec: Option<&Value>) -> Result<List<Text>, NoMemory>
    ensures { IfOk result (λ (l : List _). l ≡ applied_references (option_map (λ v. view v.now) spec.entry)) }
{
    references_of(alloc, applied_items(spec))
}

#[tactic(auto, unfolding(crate::specs::Policies::rule_references))]
fn rule_references(alloc: Global, spec: Option<&Value>) -> Result<List<List<Text>>, NoMemory>
    ensures { IfOk result (λ (l : List _). l ≡ rule_references (option_map (λ v. view v.now) spec.entry)) }
{
    references_of_rules(alloc, ingress_items(spec), egress_items(spec))
}

#[tactic(auto, unfolding(crate::specs::Policies::cluster_frame))]
fn cluster_plain_policy(alloc: Global, object: &Value) -> Result<Policy, NoMemory>
    ensures { IfOk result (λ (p : _). p ≡ native_value (cluster_frame (view object.now)) (spec_of (view object.now))) }
{
    let frame = cluster_frame(alloc, object)?;
    native_value(alloc, frame, spec_of(object))
}

/// The policy of Antrea for the cluster that an object is, with its references to cluster groups.
#[tactic(auto, unfolding(crate::specs::Policies::cluster_policy_value))]
pub fn cluster_policy_value(alloc: Global, object: &Value) -> Result<RefPolicy, NoMemory>
    ensures { IfOk result (λ (p : _). p ≡ cluster_policy_value (view object.now)) }
{
    let policy = cluster_plain_policy(alloc, object)?;
    let applied_refs = applied_references(alloc, spec_of(object))?;
    let rule_refs = rule_references(alloc, spec_of(object))?;
    Ok(RefPolicy {
        policy,
        applied_refs,
        rule_refs,
    })
}

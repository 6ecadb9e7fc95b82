//! Reading the rules of a policy.
ghost use Rattle.std.specs.Prelude.{◌≡◌, ◌≤◌, ◌+◌, ◌++◌, List, IfOk, map, take, option_map, length};
ghost use Rattle.serde_json.specs.View.{view};
ghost use Rattle.json_fields.specs.Faults.{least};
ghost use Rattle.json_fields.specs.Shapes.{items_of};
ghost use Rattle.policy_objects.specs.Peers.{peers_value};
ghost use Rattle.policy_objects.specs.Rules.{peers_field, beside_kube, beside_native, beside_rule, action_of, action_faults, rule_peers_faults, rule_faults, peer_items, rule_references, tier_number, rule_key, rule_at, rules_from, rules_value, references_of_rules, rule_room, ingress_items, egress_items, ingress_faults, egress_faults};

use crate::peers::{PeerEntry, peers_of, references_of};
use cl_types::{Action, Copies, Dir, List, NoMemory, PolicyKey, PolicyKind, RuleKey, Text};
use cluster_types::{KUBE_TIER, Peer, Rule};
use json_fields::{
    ReadRefusal, Reading, earlier, inner, items_in, list_field_fault, object_fault, other_field,
    unsupported,
};
use label_select::GroupKey;
use policy_parts::{given_action, names_of, ports_fault, services_of};
use serde_json::Value;
use std::alloc::Global;

// A rule's place in its direction is below this, so that it fits its key.
const RULE_ROOM: usize = 1 << 32;

/// How the rules of a list are read: those of a policy of this kind for a direction, and whether its tier is
/// Baseline.
#[derive(Clone, Copy, Debug)]
pub(crate) struct RuleForm {
    pub kind: PolicyKind,
    pub baseline: bool,
    pub dir: Dir,
}

/// What the rules of a policy share; `own` has the pods of its namespace, or of the whole cluster.
#[derive(Debug, Drop)]
pub(crate) struct Frame {
    pub key: PolicyKey,
    pub priority: u16,
    pub baseline: bool,
    pub own: GroupKey,
}

// ---- the fields of a rule

fn peers_field(dir: Dir) -> &'static str
    ensures { result.now ≡ peers_field dir }
{
    match dir {
        Dir::Ingress => "from",
        Dir::Egress => "to",
    }
}

#[tactic(auto, unfolding(crate::specs::Rules::beside_kube))]
fn beside_kube(dir: Dir, rule: &Value) -> Option<&str>
    ensures { option_map (λ s. s.now) result ≡ beside_kube dir (view rule.now) }
{
    other_field([peers_field(dir), "ports"].as_slice(), Some(rule))
}

#[tactic(auto, unfolding(crate::specs::Rules::beside_native))]
fn beside_native(dir: Dir, rule: &Value) -> Option<&str>
    ensures { option_map (λ s. s.now) result ≡ beside_native dir (view rule.now) }
{
    other_field(
        [
            "action",
            peers_field(dir),
            "ports",
            "name",
            "enableLogging",
            "logLabel",
        ]
        .as_slice(),
        Some(rule),
    )
}

// A field that no rule of such a policy has.
fn beside_rule(kind: PolicyKind, dir: Dir, rule: &Value) -> Option<&str>
    ensures { option_map (λ s. s.now) result ≡ beside_rule kind dir (view rule.now) }
{
    match kind {
        PolicyKind::Cluster => beside_native(dir, rule),
        PolicyKind::Antrea => beside_native(dir, rule),
        PolicyKind::Kube => beside_kube(dir, rule),
    }
}

// ---- the action

fn action_of(kind: PolicyKind, baseline: bool, rule: &Value) -> Option<Action>
    ensures { result ≡ action_of kind baseline (view rule.now) }
{
    match kind {
        PolicyKind::Cluster => given_action(baseline, rule),
        PolicyKind::Antrea => given_action(baseline, rule),
        PolicyKind::Kube => Some(Action::Allow),
    }
}

// ---- faults

#[tactic(auto, unfolding(crate::specs::Rules::action_faults, json_fields::specs::Faults::least, json_fields::specs::Faults::earlier))]
fn action_fault(form: RuleForm, rule: &Value) -> Option<ReadRefusal>
    ensures { result ≡ least (action_faults form (view rule.now)) }
{
    match action_of(form.kind, form.baseline, rule) {
        Some(_) => None,
        None => Some(ReadRefusal::BadAction),
    }
}

#[tactic(auto, unfolding(crate::specs::Rules::rule_peers_faults))]
fn rule_peers_fault(
    alloc: Global,
    form: RuleForm,
    rule: &Value,
) -> Result<Option<ReadRefusal>, NoMemory>
    ensures { IfOk result (λ f. f ≡ least (rule_peers_faults form (view rule.now))) }
{
    let peers = PeerEntry { kind: form.kind };
    list_field_fault(alloc, &peers, peers_field(form.dir), Some(rule))
}

#[tactic(auto, using(json_fields::specs::FaultLaws::least_append), unfolding(crate::specs::Rules::rule_faults))]
fn rule_fault(alloc: Global, form: RuleForm, rule: &Value) -> Result<Option<ReadRefusal>, NoMemory>
    ensures { IfOk result (λ f. f ≡ least (rule_faults form (view rule.now))) }
{
    let other = unsupported(alloc, beside_rule(form.kind, form.dir, rule))?;
    let peers = rule_peers_fault(alloc, form, rule)?;
    let ports = ports_fault(alloc, rule)?;
    let whole = earlier(object_fault(alloc, Some(rule)), other);
    Ok(earlier(
        earlier(earlier(whole, action_fault(form, rule)), peers),
        ports,
    ))
}

impl Reading for RuleForm {
    type Item = List<Text>;

    ghost faults = { λ form. rule_faults form };

    ghost meaning = { λ form. rule_references form.dir };

    fn fault(&self, alloc: Global, value: &Value) -> Result<Option<ReadRefusal>, NoMemory> {
        rule_fault(alloc, *self, value)
    }

    fn read(&self, alloc: Global, value: &Value) -> Result<List<Text>, NoMemory> {
        rule_references(alloc, self.dir, value)
    }
}

// ---- what a rule means

#[tactic(auto, unfolding(crate::specs::Rules::peer_items))]
fn peer_items(dir: Dir, rule: &Value) -> &[Value]
    ensures { map view result.now ≡ peer_items dir (view rule.now) }
{
    items_in(inner(Some(rule), peers_field(dir)))
}

#[tactic(auto, unfolding(crate::specs::Rules::rule_references))]
fn rule_references(alloc: Global, dir: Dir, rule: &Value) -> Result<List<Text>, NoMemory>
    ensures { IfOk result (λ (l : List _). l ≡ rule_references dir (view rule.now)) }
{
    references_of(alloc, peer_items(dir, rule))
}

fn rule_peers(
    alloc: Global,
    own: &GroupKey,
    dir: Dir,
    rule: &Value,
) -> Result<Option<List<Peer>>, NoMemory>
    ensures { IfOk result (λ (o : _). o ≡ peers_value own.now (peer_items dir (view rule.now))) }
{
    peers_of(alloc, own, peer_items(dir, rule))
}

fn tier_number(kind: PolicyKind) -> u16
    ensures { result ≡ tier_number kind }
{
    match kind {
        PolicyKind::Cluster => 0,
        PolicyKind::Antrea => 0,
        PolicyKind::Kube => KUBE_TIER,
    }
}

fn rule_key(frame: &Frame, dir: Dir, index: u32) -> Result<RuleKey, NoMemory>
    ensures { IfOk result (λ (k : _). k ≡ rule_key frame.now dir index) }
{
    Ok(RuleKey {
        tier: tier_number(frame.key.kind),
        priority: frame.priority,
        policy: frame.key.copy()?,
        dir,
        index,
    })
}

#[tactic(auto, unfolding(crate::specs::Rules::rule_at))]
fn rule_at(
    alloc: Global,
    frame: &Frame,
    dir: Dir,
    index: u32,
    rule: &Value,
) -> Result<Rule, NoMemory>
    ensures { IfOk result (λ (r : _). r ≡ rule_at frame.now dir index (view rule.now)) }
{
    let key = rule_key(frame, dir, index)?;
    let action = action_of(frame.key.kind, frame.baseline, rule).unwrap_or(Action::Drop);
    let peers = rule_peers(alloc, &frame.own, dir, rule)?;
    let services = services_of(alloc, rule)?;
    let named = names_of(alloc, rule)?;
    Ok(Rule {
        key,
        action,
        peers,
        services,
        named,
    })
}

// The rules with those of a direction after them.
#[tactic(auto, unfolding(crate::specs::Rules::rules_from))]
fn add_rules(
    alloc: Global,
    frame: &Frame,
    dir: Dir,
    mut rules: Vec<Rule>,
    items: &[Value],
) -> Result<Vec<Rule>, NoMemory>
    requires { length items.now ≤ rule_room }
    ensures { IfOk result (λ v. v.items ≡ rules.items ++ rules_from frame.now dir 0 (map view items.now)) }
{
    for (index, item) in items.iter().enumerate() {
        rules.push(rule_at(alloc, frame, dir, index as u32, item)?)?;
    }
    Ok(rules)
}

/// The rules of both directions.
#[tactic(auto, unfolding(crate::specs::Rules::rules_value))]
pub(crate) fn rules_value(
    alloc: Global,
    frame: &Frame,
    ingress: &[Value],
    egress: &[Value],
) -> Result<List<Rule>, NoMemory>
    requires ingress { length ingress.now ≤ rule_room }
    requires egress { length egress.now ≤ rule_room }
    ensures { IfOk result (λ (l : List _). l ≡ rules_value frame.now (map view ingress.now) (map view egress.now)) }
{
    let rules = add_rules(alloc, frame, Dir::Ingress, Vec::new(alloc), ingress)?;
    let rules = add_rules(alloc, frame, Dir::Egress, rules, egress)?;
    Ok(List::of(rules))
}

// The references with those of a direction's rules after them.
fn add_references(
    alloc: Global,
    dir: Dir,
    mut references: Vec<List<Text>>,
    items: &[Value],
) -> Result<Vec<List<Text>>, NoMemory>
    ensures { IfOk result (λ v. v.items ≡ references.items ++ map (rule_references dir) (map view items.now)) }
{
    for item in items {
        references.push(rule_references(alloc, dir, item)?)?;
    }
    Ok(references)
}

/// The references of each rule of both directions.
#[tactic(auto, unfolding(crate::specs::Rules::references_of_rules))]
pub(crate) fn references_of_rules(
    alloc: Global,
    ingress: &[Value],
    egress: &[Value],
) -> Result<List<List<Text>>, NoMemory>
    ensures { IfOk result (λ (l : List _). l ≡ references_of_rules (map view ingress.now) (map view egress.now)) }
{
    let references = add_references(alloc, Dir::Ingress, Vec::new(alloc), ingress)?;
    let references = add_references(alloc, Dir::Egress, references, egress)?;
    Ok(List::of(references))
}

// ---- the two lists

fn first_rules(items: &[Value]) -> &[Value]
    ensures { result.now ≡ take rule_room items.now }
{
    if items.len() <= RULE_ROOM {
        items
    } else {
        &items[..RULE_ROOM]
    }
}

// The elements of a list of rules that have a place.
fn rules_in(value: Option<&Value>) -> &[Value]
    ensures value { map view result.now ≡ take rule_room (items_of (option_map (λ v. view v.now) value.entry)) }
    ensures room { length result.now ≤ rule_room }
{
    first_rules(items_in(value))
}

/// The elements of the list of ingress rules.
#[tactic(auto, unfolding(crate::specs::Rules::ingress_items))]
pub(crate) fn ingress_items(spec: Option<&Value>) -> &[Value]
    ensures value { map view result.now ≡ ingress_items (option_map (λ v. view v.now) spec.entry) }
    ensures room { length result.now ≤ rule_room }
{
    rules_in(inner(spec, "ingress"))
}

/// The elements of the list of egress rules.
#[tactic(auto, unfolding(crate::specs::Rules::egress_items))]
pub(crate) fn egress_items(spec: Option<&Value>) -> &[Value]
    ensures value { map view result.now ≡ egress_items (option_map (λ v. view v.now) spec.entry) }
    ensures room { length result.now ≤ rule_room }
{
    rules_in(inner(spec, "egress"))
}

/// The fault of the ingress rules.
#[tactic(auto, unfolding(crate::specs::Rules::ingress_faults))]
pub(crate) fn ingress_fault(
    alloc: Global,
    kind: PolicyKind,
    baseline: bool,
    spec: Option<&Value>,
) -> Result<Option<ReadRefusal>, NoMemory>
    ensures { IfOk result (λ f. f ≡ least (ingress_faults kind baseline (option_map (λ v. view v.now) spec.entry))) }
{
    let form = RuleForm {
        kind,
        baseline,
        dir: Dir::Ingress,
    };
    list_field_fault(alloc, &form, "ingress", spec)
}

/// The fault of the egress rules.
#[tactic(auto, unfolding(crate::specs::Rules::egress_faults))]
pub(crate) fn egress_fault(
    alloc: Global,
    kind: PolicyKind,
    baseline: bool,
    spec: Option<&Value>,
) -> Result<Option<ReadRefusal>, NoMemory>
    ensures { IfOk result (λ f. f ≡ least (egress_faults kind baseline (option_map (λ v. view v.now) spec.entry))) }
{
    let form = RuleForm {
        kind,
        baseline,
        dir: Dir::Egress,
    };
    list_field_fault(alloc, &form, "egress", spec)
}

//! What a line says, as a text.
use cl_types::{
    Action, List, NamedPort, PolicyKey, Text, write_addr, write_bytes, write_number, write_pod,
    write_policy, write_prefix, write_rule,
};
use cluster_types::{
    Change, ClusterGroup, EgressObj, GroupBody, NodeInfo, Object, ObjectKey, Peer, Pod, Policy,
    Pool, PooledEgress, RefItem, RefPolicy, Rule,
};
use label_select::{GroupKey, write_group};
use policy_reader::LineItem;
use std::alloc::Global;
use std::process::Abort;

// ---- words

fn put(rt: &impl Abort, out: &mut Text, bytes: &[u8]) {
    write_bytes(out, bytes).expect(rt, "memory");
}

fn put_number(rt: &impl Abort, out: &mut Text, n: u64) {
    write_number(out, n).expect(rt, "memory");
}

fn put_names(rt: &impl Abort, out: &mut Text, names: &List<Text>) {
    for name in names.as_slice() {
        put(rt, out, b" @");
        put(rt, out, name.as_slice());
    }
}

fn put_group(rt: &impl Abort, out: &mut Text, group: &GroupKey) {
    put(rt, out, b" ");
    write_group(out, group).expect(rt, "memory");
}

// ---- pods and nodes

fn put_port(rt: &impl Abort, out: &mut Text, port: &NamedPort) {
    put(rt, out, b" ");
    put(rt, out, port.name.as_slice());
    put(rt, out, b"=");
    put_number(rt, out, u64::from(port.port));
}

fn put_pod(rt: &impl Abort, out: &mut Text, pod: &Pod) {
    put(rt, out, b"pod ");
    write_pod(out, &pod.key).expect(rt, "memory");
    put(rt, out, b" on ");
    put(rt, out, pod.node.as_slice());
    for address in pod.addresses.as_slice() {
        put(rt, out, b" ");
        write_addr(out, *address).expect(rt, "memory");
    }
    put_state(rt, out, pod);
}

fn put_state(rt: &impl Abort, out: &mut Text, pod: &Pod) {
    if pod.host {
        put(rt, out, b" host");
    }
    if pod.ended {
        put(rt, out, b" ended");
    }
    for port in pod.ports.as_slice() {
        put_port(rt, out, port);
    }
}

fn put_node(rt: &impl Abort, out: &mut Text, node: &NodeInfo) {
    put(rt, out, b"node ");
    put(rt, out, node.name.as_slice());
    put(rt, out, b" ");
    write_prefix(out, &node.cidr).expect(rt, "memory");
    if let Some(block) = &node.cidr6 {
        put(rt, out, b" ");
        write_prefix(out, block).expect(rt, "memory");
    }
}

// ---- policies

fn action_word(action: Action) -> &'static [u8] {
    match action {
        Action::Allow => b" allow",
        Action::Drop => b" drop",
        Action::Reject => b" reject",
        Action::Pass => b" pass",
    }
}

fn put_peer(rt: &impl Abort, out: &mut Text, peer: &Peer) {
    match peer {
        Peer::Group(group) => put_group(rt, out, group),
        Peer::Block(block) => {
            put(rt, out, b" ");
            write_prefix(out, &block.cidr).expect(rt, "memory");
            put(rt, out, b"-");
            put_number(rt, out, block.excepts.as_slice().len() as u64);
        }
        Peer::Never => put(rt, out, b" never"),
    }
}

fn put_peers(rt: &impl Abort, out: &mut Text, rule: &Rule) {
    let Some(peers) = &rule.peers else {
        put(rt, out, b" all");
        return;
    };
    for peer in peers.as_slice() {
        put_peer(rt, out, peer);
    }
}

fn put_services(rt: &impl Abort, out: &mut Text, rule: &Rule) {
    let Some(services) = &rule.services else {
        put(rt, out, b" any");
        return;
    };
    for service in services.as_slice() {
        put(rt, out, b" ");
        put_number(rt, out, u64::from(service.lo));
        put(rt, out, b"-");
        put_number(rt, out, u64::from(service.hi));
    }
    for port in rule.named.as_slice() {
        put(rt, out, b" ");
        put(rt, out, port.name.as_slice());
    }
}

fn put_rule(rt: &impl Abort, out: &mut Text, rule: &Rule) {
    put(rt, out, b"; ");
    write_rule(out, &rule.key).expect(rt, "memory");
    put(rt, out, action_word(rule.action));
    put_peers(rt, out, rule);
    put_services(rt, out, rule);
}

fn put_directions(rt: &impl Abort, out: &mut Text, policy: &Policy) {
    if policy.isolates_in {
        put(rt, out, b" in");
    }
    if policy.isolates_out {
        put(rt, out, b" out");
    }
}

fn put_policy_of(rt: &impl Abort, out: &mut Text, policy: &Policy) {
    write_policy(out, &policy.key).expect(rt, "memory");
    put(rt, out, b" ");
    put(rt, out, policy.tier.as_slice());
    put(rt, out, b" ");
    put_number(rt, out, u64::from(policy.priority));
    put_directions(rt, out, policy);
    for group in policy.applied.as_slice() {
        put_group(rt, out, group);
    }
}

fn put_rules(rt: &impl Abort, out: &mut Text, policy: &Policy) {
    for rule in policy.rules.as_slice() {
        put_rule(rt, out, rule);
    }
}

fn put_references(rt: &impl Abort, out: &mut Text, policy: &RefPolicy) {
    put_policy_of(rt, out, &policy.policy);
    put_names(rt, out, &policy.applied_refs);
    put_rules(rt, out, &policy.policy);
    for names in policy.rule_refs.as_slice() {
        put(rt, out, b";");
        put_names(rt, out, names);
    }
}

// ---- Egresses, groups and pools

fn put_egress(rt: &impl Abort, out: &mut Text, egress: &EgressObj) {
    put(rt, out, b"egress ");
    put(rt, out, egress.name.as_slice());
    put(rt, out, b" ");
    write_addr(out, egress.address).expect(rt, "memory");
    put(rt, out, b" by ");
    put(rt, out, egress.node.as_slice());
    put_group(rt, out, &egress.applied);
}

fn put_pooled(rt: &impl Abort, out: &mut Text, egress: &PooledEgress) {
    put(rt, out, b"pooled ");
    put(rt, out, egress.name.as_slice());
    put(rt, out, b" of ");
    put(rt, out, egress.pool.as_slice());
    if let Some(address) = egress.asked {
        put(rt, out, b" ");
        write_addr(out, address).expect(rt, "memory");
    }
    put_group(rt, out, &egress.applied);
}

fn put_pool(rt: &impl Abort, out: &mut Text, pool: &Pool) {
    put(rt, out, b"pool ");
    put(rt, out, pool.name.as_slice());
    for range in pool.ranges.as_slice() {
        put(rt, out, b" ");
        write_addr(out, range.lo).expect(rt, "memory");
        put(rt, out, b"-");
        write_addr(out, range.hi).expect(rt, "memory");
    }
}

fn put_cluster_group(rt: &impl Abort, out: &mut Text, group: &ClusterGroup) {
    put(rt, out, b"group ");
    put(rt, out, group.name.as_slice());
    match &group.body {
        GroupBody::Selected(key) => put_group(rt, out, key),
        GroupBody::Children(names) => put_names(rt, out, names),
        GroupBody::Blocks(blocks) => {
            put(rt, out, b" blocks ");
            put_number(rt, out, blocks.as_slice().len() as u64);
        }
    }
}

// ---- items

fn put_object(rt: &impl Abort, out: &mut Text, object: &Object) {
    match object {
        Object::Node(node) => put_node(rt, out, node),
        Object::Namespace(namespace) => {
            put(rt, out, b"namespace ");
            put(rt, out, namespace.name.as_slice());
        }
        Object::Pod(pod) => put_pod(rt, out, pod),
        Object::Tier(tier) => {
            put(rt, out, b"tier ");
            put(rt, out, tier.name.as_slice());
            put(rt, out, b" ");
            put_number(rt, out, u64::from(tier.priority));
        }
        Object::Policy(policy) => {
            put_policy_of(rt, out, policy);
            put_rules(rt, out, policy);
        }
        Object::Egress(egress) => put_egress(rt, out, egress),
    }
}

fn put_named(rt: &impl Abort, out: &mut Text, kind: &[u8], name: &Text) {
    put(rt, out, kind);
    put(rt, out, name.as_slice());
}

fn put_policy_key(rt: &impl Abort, out: &mut Text, key: &PolicyKey) {
    write_policy(out, key).expect(rt, "memory");
}

fn put_key(rt: &impl Abort, out: &mut Text, key: &ObjectKey) {
    put(rt, out, b"no ");
    match key {
        ObjectKey::Node(name) => put_named(rt, out, b"node ", name),
        ObjectKey::Namespace(name) => put_named(rt, out, b"namespace ", name),
        ObjectKey::Pod(key) => write_pod(out, key).expect(rt, "memory"),
        ObjectKey::Tier(name) => put_named(rt, out, b"tier ", name),
        ObjectKey::Policy(key) => put_policy_key(rt, out, key),
        ObjectKey::Egress(name) => put_named(rt, out, b"egress ", name),
    }
}

fn put_item(rt: &impl Abort, out: &mut Text, item: &RefItem) {
    match item {
        RefItem::Plain(Change::Put(object)) => put_object(rt, out, object),
        RefItem::Plain(Change::Remove(key)) => put_key(rt, out, key),
        RefItem::PutGroup(group) => put_cluster_group(rt, out, group),
        RefItem::RemoveGroup(name) => put_named(rt, out, b"no group ", name),
        RefItem::PutPolicy(policy) => put_references(rt, out, policy),
        RefItem::PutPool(pool) => put_pool(rt, out, pool),
        RefItem::RemovePool(name) => put_named(rt, out, b"no pool ", name),
        RefItem::PutPooled(egress) => put_pooled(rt, out, egress),
    }
}

/// What the line says, but for orders.
pub(crate) fn shown(rt: &impl Abort, alloc: Global, item: &LineItem) -> Text {
    let mut out = Text::new(alloc);
    match item {
        LineItem::Objects(items) => {
            for item in items.as_slice() {
                put(rt, &mut out, b"(");
                put_item(rt, &mut out, item);
                put(rt, &mut out, b")");
            }
        }
        LineItem::Ignored(kind) => put_named(rt, &mut out, b"ignored ", kind),
        LineItem::Control(_) => put(rt, &mut out, b"control"),
        LineItem::Order(_) => put(rt, &mut out, b"order"),
        LineItem::Blank => put(rt, &mut out, b"blank"),
    }
    out
}

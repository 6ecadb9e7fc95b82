ghost use Rattle.std.specs.Prelude.{◌≡◌};
ghost use Rattle.std.specs.List.{list_any};
ghost use Rattle.cluster_types.specs.Evaluation.{service_matches, is_port};
ghost use Rattle.held_maps.specs.Held.{maps_of, map_on};
ghost use Rattle.watch_streams.specs.HeldEvaluation.{held_member, destination, member_defines, held_name_matches, held_services_match};

use crate::complete::{resolving_groups, resolving_stream};
use crate::groups::is_at;
use crate::held::Held;
use cl_types::{Addr, Dir, NamedPort, PortName, Question, Service, Stream};
use label_select::GroupKey;
use watch_streams::{HeldMember, NetPolicy, NetRule};

fn service_matches(q: &Question, service: &Service) -> bool
    ensures { result ≡ service_matches q.now service.now }
{
    service.proto.is(q.proto) && service.lo <= q.port && q.port <= service.hi
}

fn any_service_matches(q: &Question, services: &[Service]) -> bool
    ensures { result ≡ list_any (service_matches q.now) services.now }
{
    services.iter().any(|service| service_matches(q, service))
}

fn is_port(q: &Question, name: &PortName, port: &NamedPort) -> bool
    ensures { result ≡ is_port q.now name.now port.now }
{
    port.name == name.name && port.proto.is(name.proto) && port.port == q.port
}

fn any_is_port(q: &Question, name: &PortName, ports: &[NamedPort]) -> bool
    ensures { result ≡ list_any (is_port q.now name.now) ports.now }
{
    ports.iter().any(|port| is_port(q, name, port))
}

fn destination(q: &Question) -> Addr
    ensures { result ≡ destination q.now q.now.dir }
{
    match q.dir {
        Dir::Ingress => q.own,
        Dir::Egress => q.peer,
    }
}

fn defines(q: &Question, name: &PortName, member: &HeldMember) -> bool
    ensures { result ≡ member_defines q.now name.now member.now }
{
    is_at(destination(q), member)
        && name.proto.is(q.proto)
        && any_is_port(q, name, member.ports.as_slice())
}

fn any_defines(q: &Question, name: &PortName, members: &[HeldMember]) -> bool
    ensures { result ≡ list_any (member_defines q.now name.now) members.now }
{
    members.iter().any(|member| defines(q, name, member))
}

fn group_defines(held: &Held, s: Stream, q: &Question, name: &PortName, g: &GroupKey) -> bool
    ensures { result ≡ held_member (member_defines q.now name.now) (map_on s (maps_of held.now)) g.now }
{
    match held.group(s, g) {
        Some(members) => any_defines(q, name, members.as_slice()),
        None => false,
    }
}

fn any_group_defines(
    held: &Held,
    s: Stream,
    q: &Question,
    name: &PortName,
    groups: &[GroupKey],
) -> bool
    ensures { result ≡ list_any (held_member (member_defines q.now name.now) (map_on s (maps_of held.now))) groups.now }
{
    groups.iter().any(|g| group_defines(held, s, q, name, g))
}

fn name_matches(
    held: &Held,
    policy: &NetPolicy,
    rule: &NetRule,
    q: &Question,
    name: &PortName,
) -> bool
    ensures { result ≡ held_name_matches (maps_of held.now) policy.now rule.now q.now name.now }
{
    let groups = resolving_groups(held, policy, rule, q.dir);
    any_group_defines(held, resolving_stream(q.dir), q, name, groups)
}

fn names_match(held: &Held, policy: &NetPolicy, rule: &NetRule, q: &Question) -> bool
    ensures { result ≡ list_any (held_name_matches (maps_of held.now) policy.now rule.now q.now) rule.now.named }
{
    rule.named
        .as_slice()
        .iter()
        .any(|name| name_matches(held, policy, rule, q, name))
}

/// Whether a rule matches the traffic of the question, by what is held.
pub(crate) fn services_match(held: &Held, policy: &NetPolicy, rule: &NetRule, q: &Question) -> bool
    ensures { result ≡ held_services_match (maps_of held.now) policy.now rule.now q.now rule.now.services }
{
    match &rule.services {
        None => true,
        Some(services) => any_service_matches(q, services.as_slice())
            || names_match(held, policy, rule, q),
    }
}

ghost use Rattle.std.specs.Prelude.{◌≡◌, ◌&&◌};
ghost use Rattle.std.specs.List.{list_any};
ghost use Rattle.cluster_types.specs.Evaluation.{service_matches, is_port, defines, name_matches, services_match, peers_contain_pod};
ghost use Rattle.cluster_types.specs.Pod.{has_address};

use crate::asked::Asked;
use crate::peers::peers_contain_pod;
use cl_types::{Dir, NamedPort, PortName, Question, Service};
use cluster_objects::{Pod, Rule};

fn service_matches(q: &Question, service: &Service) -> bool
    ensures { result ≡ service_matches q.now service.now }
{
    service.proto.is(q.proto) && service.lo <= q.port && q.port <= service.hi
}

fn is_port(q: &Question, name: &PortName, port: &NamedPort) -> bool
    ensures { result ≡ is_port q.now name.now port.now }
{
    port.name == name.name && port.proto.is(name.proto) && port.port == q.port
}

fn defines(q: &Question, name: &PortName, pod: &Pod) -> bool
    ensures { result ≡ defines q.now name.now pod.now }
{
    name.proto.is(q.proto) && any_is_port(q, name, pod.ports.as_slice())
}

fn any_is_port(q: &Question, name: &PortName, ports: &[NamedPort]) -> bool
    ensures { result ≡ list_any (is_port q.now name.now) ports.now }
{
    ports.iter().any(|port| is_port(q, name, port))
}

// Whether the pod is among the rule's peers, by a group, and defines the name.
fn names_port(asked: &Asked, pod: &Pod, rule: &Rule, name: &PortName) -> bool
    ensures { result ≡ (peers_contain_pod asked.now.cluster.now.cluster pod.now rule.now.peers && defines asked.now.question.now name.now pod.now) }
{
    peers_contain_pod(asked.cluster, pod, &rule.peers) && defines(asked.question, name, pod)
}

// Whether the one counting pod at the peer's address is among the rule's peers and defines the name.
fn peer_defines(asked: &Asked, rule: &Rule, name: &PortName) -> bool
    ensures { result ≡ list_any (λ d. has_address asked.now.question.now.peer d && peers_contain_pod asked.now.cluster.now.cluster d rule.now.peers && defines asked.now.question.now name.now d) asked.now.cluster.now.cluster.pods }
{
    match asked.peer {
        Some(pod) => names_port(asked, pod, rule, name),
        None => false,
    }
}

fn name_matches(asked: &Asked, rule: &Rule, name: &PortName) -> bool
    ensures { result ≡ name_matches asked.now.cluster.now.cluster rule.now asked.now.pod.now asked.now.question.now name.now }
{
    match asked.question.dir {
        Dir::Ingress => defines(asked.question, name, asked.pod),
        Dir::Egress => peer_defines(asked, rule, name),
    }
}

fn names_match(asked: &Asked, rule: &Rule) -> bool
    ensures { result ≡ list_any (name_matches asked.now.cluster.now.cluster rule.now asked.now.pod.now asked.now.question.now) rule.now.named }
{
    rule.named
        .as_slice()
        .iter()
        .any(|name| name_matches(asked, rule, name))
}

/// Whether a rule matches the traffic of the question.
pub(crate) fn services_match(asked: &Asked, rule: &Rule) -> bool
    ensures { result ≡ services_match asked.now.cluster.now.cluster rule.now asked.now.pod.now asked.now.question.now rule.now.services }
{
    match &rule.services {
        None => true,
        Some(services) => any_service_matches(asked.question, services.as_slice())
            || names_match(asked, rule),
    }
}

fn any_service_matches(q: &Question, services: &[Service]) -> bool
    ensures { result ≡ list_any (service_matches q.now) services.now }
{
    services.iter().any(|service| service_matches(q, service))
}

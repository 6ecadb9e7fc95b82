use crate::addr::Addr;
use crate::copies::Copies;
use crate::keys::{Dir, PodKey, PolicyKey, PolicyKind, RuleKey};
use crate::list::List;
use crate::memory::NoMemory;
use crate::order::AgentOrder;
use crate::prefix::Prefix;
use crate::same::Same;
use crate::service::{Masked, NamedPort, PortName, Proto, Service};
use crate::text::Text;
use std::alloc::Global;

fn text(alloc: Global, bytes: &[u8]) -> Result<Text, NoMemory> {
    Ok(Text::of(Vec::from_slice(alloc, bytes)?))
}

fn rule(alloc: Global) -> Result<RuleKey, NoMemory> {
    let namespace = Text::of(Vec::from_slice(alloc, b"shop")?);
    let name = Text::of(Vec::from_slice(alloc, b"deny")?);
    Ok(RuleKey {
        tier: 250,
        priority: 5,
        policy: PolicyKey {
            kind: PolicyKind::Antrea,
            namespace,
            name,
        },
        dir: Dir::Egress,
        index: 10,
    })
}

fn pod(alloc: Global) -> Result<PodKey, NoMemory> {
    Ok(PodKey {
        namespace: text(alloc, b"shop")?,
        name: text(alloc, b"web-0")?,
    })
}

fn port_name(alloc: Global) -> Result<PortName, NoMemory> {
    Ok(PortName {
        name: text(alloc, b"http")?,
        proto: Proto::Tcp,
    })
}

fn named_port(alloc: Global) -> Result<NamedPort, NoMemory> {
    Ok(NamedPort {
        name: text(alloc, b"http")?,
        proto: Proto::Tcp,
        port: 8080,
    })
}

fn words(alloc: Global) -> Result<List<Text>, NoMemory> {
    let mut words = List::new(alloc);
    words.vec_mut().push(text(alloc, b"get")?)?;
    words.vec_mut().push(text(alloc, b"networkpolicy")?)?;
    Ok(words)
}

// Whether the value and its copy are one value.
fn copied<T: Copies + Same + Drop>(value: Result<T, NoMemory>) -> Result<bool, NoMemory> {
    let value = value?;
    Ok(value.copy()?.same(&value))
}

fn copied_order(alloc: Global) -> Result<bool, NoMemory> {
    let order = AgentOrder::Antctl(words(alloc)?);
    match (&order, order.copy()?) {
        (AgentOrder::Antctl(a), AgentOrder::Antctl(b)) => Ok(a.same(&b)),
        _ => Ok(false),
    }
}

fn copied_ports() -> Result<bool, NoMemory> {
    let ports = Masked {
        value: 1000,
        mask: 0xfff8,
    };
    Ok(ports.copy()? == ports)
}

#[test]
fn copies_are_the_same(rt: HostRuntime) {
    let alloc = rt.alloc();
    let web = Prefix {
        base: Addr::V4(0x0a00_0000),
        len: 8,
    };
    let ports = Service {
        proto: Proto::Udp,
        lo: 53,
        hi: 54,
    };
    let rows = [
        ("address", copied(Ok(Addr::V6(7)))),
        ("address that may be missing", copied(Ok(Some(Addr::V4(7))))),
        ("block", copied(Ok(web))),
        ("service", copied(Ok(ports))),
        ("masked ports", copied_ports()),
        ("port by name", copied(port_name(alloc))),
        ("container's port", copied(named_port(alloc))),
        ("pod", copied(pod(alloc))),
        ("rule", copied(rule(alloc))),
        ("texts", copied(words(alloc))),
        ("order", copied_order(alloc)),
    ];
    for (name, answer) in rows {
        assert!(rt; answer == Ok(true), "{name}");
    }
}

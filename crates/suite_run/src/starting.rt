//! A run begins where its nodes are fixed.
ghost use Rattle.std.specs.Prelude.{◌≡◌, IfOk, replicate};
ghost use Rattle.command_words.specs.Words.{IsRing};
ghost use Rattle.cluster_types.specs.Cluster.{HasNodesAlone};
ghost use Rattle.held_maps.specs.Held.{nothing_held};
ghost use Rattle.suite_run.specs.RunState.{begun_run};
ghost use Rattle.suite_run.specs.Starting.{empty_ports};

use crate::run::Run;
use cl_types::{List, NoMemory};
use cluster_objects::Cluster;
use ctl_core::{Controller, Trio};
use held_maps::Held;
use std::alloc::Global;
use watch_streams::QueuePort;

fn empty_ports(alloc: Global, ring: u32) -> Result<Trio<QueuePort>, NoMemory>
    requires { IsRing ring }
    ensures { IfOk result (λ ports. ports ≡ empty_ports ring) }
{
    Ok(Trio {
        policies: QueuePort::new(alloc, ring)?,
        addresses: QueuePort::new(alloc, ring)?,
        applied: QueuePort::new(alloc, ring)?,
    })
}

// The ports of so many nodes.
fn first_ports(alloc: Global, nodes: usize, ring: u32) -> Result<List<Trio<QueuePort>>, NoMemory>
    requires { IsRing ring }
    ensures { IfOk result (λ ports. ports ≡ replicate nodes (empty_ports ring)) }
{
    let mut ports = Vec::with_capacity(alloc, nodes)?;
    for _i in 0..nodes {
        ports.push(empty_ports(alloc, ring)?)?;
    }
    Ok(List::of(ports))
}

// The agents of so many nodes, which hold nothing.
fn first_agents(alloc: Global, nodes: usize) -> Result<Vec<Held>, NoMemory>
    ensures { IfOk result (λ agents. agents.items ≡ replicate nodes nothing_held) }
{
    let mut agents = Vec::with_capacity(alloc, nodes)?;
    for _i in 0..nodes {
        agents.push(Held::new(alloc))?;
    }
    Ok(agents)
}

impl Run {
    /// A run of these nodes, which are fixed from now on, at revision 0. Nothing was sent, and the agents hold nothing.
    pub(crate) fn new(alloc: Global, cluster: Cluster, ring: u32) -> Result<Run, NoMemory>
        requires alone { HasNodesAlone cluster.cluster }
        requires ring { IsRing ring }
        ensures { IfOk result (λ run. run ≡ begun_run cluster.cluster ring) }
    {
        let nodes = cluster.nodes().len();
        let ports = first_ports(alloc, nodes, ring)?;
        let controller = Controller::new(alloc, cluster, ports)?;
        let agents = first_agents(alloc, nodes)?;
        Ok(Run {
            controller,
            agents,
            ring,
        })
    }
}

//! A run whose nodes are fixed: the controller with its queues, and the agents.
ghost use Rattle.std.specs.Prelude.{◌≡◌};
ghost use Rattle.suite_run.specs.Doing.{is_listed};
ghost use Rattle.suite_run.specs.RunState.{IsRun, RunData, run_of};

use cl_types::Text;
use cluster_objects::Cluster;
use ctl_core::Controller;
use held_maps::Held;
use std::marker::Model;
use watch_streams::QueuePort;

/// The controller, and what each node's agent holds in the order of the nodes. A stream has `ring` places.
#[derive(Drop)]
pub(crate) struct Run {
    pub(crate) controller: Controller<QueuePort>,
    pub(crate) agents: Vec<Held>,
    pub(crate) ring: u32,
}

impl Model for Run {
    ghost Value = { RunData };

    ghost view = { λ run. run_of run.controller run.agents.items run.ring };

    ghost invariant = { λ run. IsRun run.controller run.agents.items run.ring };
}

impl Run {
    /// For how many messages a stream has places.
    pub(crate) fn ring(&self) -> u32
        ensures { result ≡ self.now.ring }
    {
        self.ring
    }
}

impl Run {
    /// The last revision.
    pub(crate) fn revision(&self) -> u64
        ensures { result ≡ self.now.revision }
    {
        self.controller.revision().0
    }

    /// The cluster of the last revision.
    pub(crate) fn cluster(&self) -> &Cluster
        ensures { result.now.cluster ≡ self.now.cluster }
    {
        self.controller.cluster()
    }

    /// Whether the node is one of the run's.
    pub(crate) fn is_listed(&self, node: &Text) -> bool
        ensures { result ≡ is_listed node.now self.now.sites }
    {
        self.controller.keeps_its_form();
        self.controller.is_listed(node)
    }
}

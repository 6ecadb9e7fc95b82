//! What agents take of their streams.
ghost use Rattle.std.specs.Prelude.{◌≡◌, [], ◌∷◌, ◌<◌, IfOk, OnOk, false, length, true};
ghost use Rattle.run_machine.specs.Machine.{take as take_one};
ghost use Rattle.suite_run.specs.Doing.{NameAt, is_listed, node_names, run_after, stream_at, waiting_at};
ghost use Rattle.suite_run.specs.RunState.{Does};
ghost use Rattle.suite_run.specs.Taking.{HasWaited};

use crate::run::Run;
use cl_types::{Copies, NoMemory, Stream, Text, search};

impl Run {
    // Where the node stands among the agents.
    pub(crate) fn place(&self, node: &Text) -> usize
        requires { is_listed node.now self.now.sites ≡ true }
        ensures { NameAt (node_names self.now.sites) result node.now }
    {
        self.controller.keeps_its_form();
        match search(self.controller.cluster().nodes(), node) {
            Ok(i) => i,
            Err(i) => i,
        }
    }

    /// The name of the node at a place among the agents.
    pub(crate) fn name(&self, i: usize) -> Result<Text, NoMemory>
        requires { i < length self.now.sites }
        ensures { IfOk result (NameAt (node_names self.now.sites) i) }
    {
        self.controller.keeps_its_form();
        let node = &self.controller.cluster().nodes()[i];
        node.name.copy()
    }

    /// The agent of a listed node takes the oldest message of a stream, where there is one. It tells whether there was.
    pub(crate) fn take(&mut self, node: &Text, stream: Stream) -> Result<bool, NoMemory>
        requires { is_listed node.now self.old.sites ≡ true }
        ensures taken { OnOk result (self.new ≡ run_after (take_one (stream_at node.now stream)) self.old) }
        ensures does { OnOk result (Does (λ w. take_one (stream_at node.now stream) ∷ []) self.old self.new) }
        ensures none { IfOk result (λ took. took ≡ false → self.new ≡ self.old) }
        ensures waited { IfOk result (HasWaited (waiting_at (stream_at node.now stream) self.old.sites)) }
    {
        self.controller.keeps_its_form();
        let place = self.place(node);
        match self.controller.take(node, stream) {
            Some(m) => {
                self.agents[place].take(stream, m)?;
                Ok(true)
            }
            None => Ok(false),
        }
    }
}

//! A run that is settled: all that waits is taken, and each cut stream begins again.
ghost use Rattle.std.specs.Prelude.{◌≡◌, ◌<◌, [], ◌∷◌, OnOk, get_or, length, true};
ghost use Rattle.run_machine.specs.Lines.{every_stream};
ghost use Rattle.run_machine.specs.Machine.{rejoin, take as take_one};
ghost use Rattle.run_machine.specs.Settling.{settling};
ghost use Rattle.suite_run.specs.Delivering.{on_streams};
ghost use Rattle.suite_run.specs.Doing.{channel_at, is_listed, node_names, run_after_all, stream_at};
ghost use Rattle.suite_run.specs.Resting.{settling_on};
ghost use Rattle.suite_run.specs.RunState.{Does};

use crate::run::Run;
use cl_types::{NoMemory, Stream, Text};

impl Run {
    /// Whether a stream of a listed node is live. It does not allocate.
    pub(crate) fn is_live(&self, node: &Text, stream: Stream) -> bool
        requires { is_listed node.now self.now.sites ≡ true }
        ensures { result ≡ (channel_at (stream_at node.now stream) self.now.sites).live }
    {
        self.controller.keeps_its_form();
        self.controller.live(node, stream)
    }

    // Begins a cut stream again, and its snapshot is taken where nothing waited. (A stream on which nothing waits has a
    // place.)
    fn begin_again(&mut self, node: &Text, stream: Stream) -> Result<(), NoMemory>
        requires { is_listed node.now self.old.sites ≡ true }
        ensures { OnOk result (self.new ≡ run_after_all (rejoin (stream_at node.now stream) ∷ take_one (stream_at node.now stream) ∷ []) self.old) }
    {
        match self.rejoin(node, stream) {
            Ok(_) => {}
            Err(_) => return Err(NoMemory),
        }
        self.take(node, stream)?;
        Ok(())
    }

    fn settle_stream(&mut self, node: &Text, stream: Stream) -> Result<(), NoMemory>
        requires { is_listed node.now self.old.sites ≡ true }
        ensures { OnOk result (self.new ≡ run_after_all (settling_on (stream_at node.now stream) (channel_at (stream_at node.now stream) self.old.sites)) self.old) }
    {
        let live = self.is_live(node, stream);
        self.deliver_stream(node, stream, None)?;
        if live {
            return Ok(());
        }
        self.begin_again(node, stream)
    }

    fn settle_node(&mut self, node: &Text) -> Result<(), NoMemory>
        requires { is_listed node.now self.old.sites ≡ true }
        ensures { OnOk result (self.new ≡ run_after_all (on_streams settling_on every_stream node.now self.old.sites) self.old) }
    {
        self.settle_stream(node, Stream::Policies)?;
        self.settle_stream(node, Stream::Addresses)?;
        self.settle_stream(node, Stream::Applied)
    }

    // One more node, by its place.
    fn settle_at(&mut self, i: usize) -> Result<(), NoMemory>
        requires { i < length self.old.sites }
        ensures { OnOk result (self.new ≡ run_after_all (on_streams settling_on every_stream (get_or (node_names self.old.sites) i []) self.old.sites) self.old) }
    {
        let node = self.name(i)?;
        self.settle_node(&node)
    }

    /// Takes all that waits. A cut stream begins again then, and its snapshot is taken.
    pub(crate) fn settle(&mut self) -> Result<(), NoMemory>
        ensures { OnOk result (Does settling self.old self.new) }
    {
        self.controller.keeps_its_form();
        for i in 0..self.agents.len() {
            self.settle_at(i)?;
        }
        Ok(())
    }
}

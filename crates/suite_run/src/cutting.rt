//! Streams that are cut, and rejoined.
ghost use Rattle.std.specs.Prelude.{◌≡◌, [], ◌∷◌, true};
ghost use Rattle.run_machine.specs.Machine.{cut};
ghost use Rattle.suite_run.specs.Doing.{channel_at, is_listed, run_after, stream_at};
ghost use Rattle.suite_run.specs.RunState.{Does};
ghost use Rattle.suite_run.specs.Cutting.{DoesLine, Rejoins};

use crate::run::Run;
use cl_types::{Rev, Stream, Text};
use ctl_core::RejoinFault;

impl Run {
    /// Cuts a stream of a listed node, and tells whether it was live. It does not allocate.
    pub(crate) fn cut(&mut self, node: &Text, stream: Stream) -> bool
        requires { is_listed node.now self.old.sites ≡ true }
        ensures cut { self.new ≡ run_after (cut (stream_at node.now stream)) self.old }
        ensures does { Does (λ w. cut (stream_at node.now stream) ∷ []) self.old self.new }
        ensures was { result ≡ (channel_at (stream_at node.now stream) self.old.sites).live }
    {
        self.controller.keeps_its_form();
        self.controller.cut(node, stream)
    }

    /// Begins a cut stream of a listed node again with a snapshot, which stands behind the messages that wait there.
    pub(crate) fn rejoin(&mut self, node: &Text, stream: Stream) -> Result<Rev, RejoinFault>
        requires { is_listed node.now self.old.sites ≡ true }
        ensures rejoins { Rejoins (stream_at node.now stream) result self.old self.new }
        ensures does { DoesLine (stream_at node.now stream) result self.old self.new }
    {
        self.controller.keeps_its_form();
        self.controller.rejoin(node, stream)
    }
}

//! What an agent answers of what it holds.
ghost use Rattle.std.specs.Prelude.{◌≡◌, true, ℕ};
ghost use Rattle.cl_types.specs.Judgement.{judgement_of};
ghost use Rattle.suite_run.specs.Doing.{is_listed};
ghost use Rattle.suite_run.specs.Answering.{AnswersOf};

use crate::run::Run;
use cl_types::{Judged, Question, Rev, Text};

impl Run {
    /// The revisions of the maps that a listed node's agent holds, in the order of the streams, and the verdict of what
    /// it holds. It does not allocate.
    pub(crate) fn held_judgement<'h>(
        &'h self,
        node: &Text,
        question: &Question,
    ) -> ([Rev; 3], Judged<'h>)
        requires { is_listed node.now self.now.sites ≡ true }
        ensures { AnswersOf node.now question.now self.now.sites result.0 (judgement_of result.1) }
    {
        self.controller.keeps_its_form();
        let held = &self.agents[self.place(node)];
        (held.revisions(), held.judge(question))
    }
}

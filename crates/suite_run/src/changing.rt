//! A line of changes, taken by a run whose nodes are fixed.
ghost use Rattle.std.specs.Prelude.{◌^◌, ◌<◌, IfOk};
ghost use Rattle.suite_run.specs.Changing.{IsHeard, TakesLine};

use crate::run::Run;
use cl_types::{List, NoMemory};
use cluster_objects::{Change, ClusterRefusal};
use ctl_core::Outcome;

/// The run after a line, and what is answered of the line.
pub(crate) struct Changed {
    pub(crate) run: Run,
    pub(crate) answer: Result<Outcome, ClusterRefusal>,
}

// What was answered, unless memory was wanting.
fn heard(
    answer: Result<Outcome, ClusterRefusal>,
) -> Result<Result<Outcome, ClusterRefusal>, NoMemory>
    ensures { IfOk result (IsHeard answer) }
{
    match answer {
        Ok(outcome) => Ok(Ok(outcome)),
        Err(ClusterRefusal::NoMemory) => Err(NoMemory),
        Err(refusal) => Ok(Err(refusal)),
    }
}

impl Run {
    /// Takes a line of changes, all of them or none. Where one makes a difference, they make the next revision, and each
    /// live stream is told what changed on it. Where memory is wanting, the run ends.
    pub(crate) fn line(self, changes: List<Change>) -> Result<Changed, NoMemory>
        requires { self.revision < 2 ^ 32 }
        ensures { IfOk result (λ changed. TakesLine changes changed.answer self changed.run) }
    {
        let Run {
            mut controller,
            agents,
            ring,
        } = self;
        controller.keeps_its_form();
        let answer = heard(controller.line(changes))?;
        controller.keeps_its_form();
        let run = Run {
            controller,
            agents,
            ring,
        };
        Ok(Changed { run, answer })
    }
}

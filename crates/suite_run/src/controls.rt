//! Control lines: what is delivered, cut, rejoined and settled, and questions.
ghost use Rattle.std.specs.Prelude.{◌≡◌, IfOk, option_copied};
ghost use Rattle.suite_run.specs.declared.item.Item.TheVariants.{Ask, AskHeld, Cut, Deliver, Rejoin, Settle};
ghost use Rattle.suite_run.specs.Controls.{RunMakes, TellsRejoined, is_served};
ghost use Rattle.suite_run.specs.Shown.{IsReady, Makes, outcome_of};
ghost use Rattle.suite_run.specs.World.{told_of_cut};

use crate::fixing::Early;
use crate::run::Run;
use crate::world::{LineOutcome, World};
use cl_types::{NoMemory, Question, Rev, Stream, Text};
use ctl_core::RejoinFault;
use line_refusals::Refusal;
use policy_order::judge;

const NO_NODE: LineOutcome<'static> = LineOutcome::Refused(Refusal::NoNode);

fn cut_told(was_live: bool) -> LineOutcome<'static>
    ensures { outcome_of result ≡ told_of_cut was_live }
{
    if was_live {
        LineOutcome::Cut
    } else {
        LineOutcome::Unchanged
    }
}

fn rejoin_told(rejoined: Result<Rev, RejoinFault>) -> Result<LineOutcome<'static>, NoMemory>
    ensures { IfOk result (λ told. TellsRejoined rejoined (outcome_of told)) }
{
    match rejoined {
        Ok(rev) => Ok(LineOutcome::Rejoined(rev.0)),
        Err(RejoinFault::NotCut) => Ok(LineOutcome::Refused(Refusal::NotCut)),
        Err(RejoinFault::Full) => Ok(LineOutcome::Refused(Refusal::Full)),
        Err(RejoinFault::NoMemory) => Err(NoMemory),
    }
}

impl Run {
    fn ask(&self, node: &Text, question: &Question) -> LineOutcome<'_>
        ensures { RunMakes (Ask node.now question.now) self.now self.now result }
    {
        if !self.is_listed(node) {
            return NO_NODE;
        }
        LineOutcome::Controller(self.revision(), judge(self.cluster(), node, question))
    }

    fn ask_held(&self, node: Text, question: &Question) -> LineOutcome<'_>
        ensures { RunMakes (AskHeld node question.now) self.now self.now result }
    {
        if !self.is_listed(&node) {
            return NO_NODE;
        }
        let (revisions, judged) = self.held_judgement(&node, question);
        LineOutcome::Held(node, revisions, judged)
    }

    // Whether messages can be delivered to the node: it is listed, or all are meant.
    fn is_served(&self, node: Option<&Text>) -> bool
        ensures { result ≡ is_served (option_copied node.entry) self.now.sites }
    {
        match node {
            Some(node) => self.is_listed(node),
            None => true,
        }
    }

    fn deliver_line(
        &mut self,
        node: Option<&Text>,
        stream: Option<Stream>,
        count: Option<u32>,
    ) -> Result<LineOutcome<'static>, NoMemory>
        ensures { IfOk result (RunMakes (Deliver (option_copied node.entry) stream count) self.old self.new) }
    {
        if !self.is_served(node) {
            return Ok(NO_NODE);
        }
        Ok(LineOutcome::Delivered(self.deliver(node, stream, count)?))
    }

    fn cut_line(&mut self, node: &Text, stream: Stream) -> LineOutcome<'static>
        ensures { RunMakes (Cut node.now stream) self.old self.new result }
    {
        if !self.is_listed(node) {
            return NO_NODE;
        }
        cut_told(self.cut(node, stream))
    }

    fn rejoin_line(&mut self, node: &Text, stream: Stream) -> Result<LineOutcome<'static>, NoMemory>
        ensures { IfOk result (RunMakes (Rejoin node.now stream) self.old self.new) }
    {
        if !self.is_listed(node) {
            return Ok(NO_NODE);
        }
        rejoin_told(self.rejoin(node, stream))
    }

    fn settle_line(&mut self) -> Result<LineOutcome<'static>, NoMemory>
        ensures { IfOk result (RunMakes Settle self.old self.new) }
    {
        let revision = self.revision();
        self.settle()?;
        Ok(LineOutcome::Settled(revision))
    }
}

// (Before the nodes are fixed no node is listed, and nothing waits.)
impl World {
    /// Answers a question about the policies.
    pub(crate) fn ask(&self, node: &Text, question: &Question) -> LineOutcome<'_>
        requires { IsReady self.now }
        ensures { Makes (Ask node.now question.now) self.now self.now result }
    {
        match &self.early {
            Early::Bare(_) => NO_NODE,
            Early::Fixed(run) => run.ask(node, question),
        }
    }

    /// Answers a question about what the node's agent holds.
    pub(crate) fn ask_held(&self, node: Text, question: &Question) -> LineOutcome<'_>
        requires { IsReady self.now }
        ensures { Makes (AskHeld node question.now) self.now self.now result }
    {
        match &self.early {
            Early::Bare(_) => NO_NODE,
            Early::Fixed(run) => run.ask_held(node, question),
        }
    }

    /// Delivers messages.
    pub(crate) fn deliver(
        &mut self,
        node: Option<&Text>,
        stream: Option<Stream>,
        count: Option<u32>,
    ) -> Result<LineOutcome<'static>, NoMemory>
        requires { IsReady self.old }
        ensures { IfOk result (Makes (Deliver (option_copied node.entry) stream count) self.old self.new) }
    {
        match &mut self.early {
            Early::Bare(_) if node.is_some() => Ok(NO_NODE),
            Early::Bare(_) => Ok(LineOutcome::Delivered(0)),
            Early::Fixed(run) => run.deliver_line(node, stream, count),
        }
    }

    /// Cuts a stream.
    pub(crate) fn cut(&mut self, node: &Text, stream: Stream) -> LineOutcome<'static>
        requires { IsReady self.old }
        ensures { Makes (Cut node.now stream) self.old self.new result }
    {
        match &mut self.early {
            Early::Bare(_) => NO_NODE,
            Early::Fixed(run) => run.cut_line(node, stream),
        }
    }

    /// Rejoins a stream.
    pub(crate) fn rejoin(
        &mut self,
        node: &Text,
        stream: Stream,
    ) -> Result<LineOutcome<'static>, NoMemory>
        requires { IsReady self.old }
        ensures { IfOk result (Makes (Rejoin node.now stream) self.old self.new) }
    {
        match &mut self.early {
            Early::Bare(_) => Ok(NO_NODE),
            Early::Fixed(run) => run.rejoin_line(node, stream),
        }
    }

    /// Delivers all messages, and rejoins what is cut.
    pub(crate) fn settle(&mut self) -> Result<LineOutcome<'static>, NoMemory>
        requires { IsReady self.old }
        ensures { IfOk result (Makes Settle self.old self.new) }
    {
        match &mut self.early {
            Early::Bare(_) => Ok(LineOutcome::Settled(0)),
            Early::Fixed(run) => run.settle_line(),
        }
    }
}

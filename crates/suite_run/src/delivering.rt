//! Messages that are delivered: of a stream, of a node, of all nodes.
ghost use Rattle.std.specs.Prelude.{◌≡◌, ◌+◌, ◌<◌, [], IfOk, IfSome, get_or, length, option_copied, true};
ghost use Rattle.run_machine.specs.Lines.{every_stream};
ghost use Rattle.suite_run.specs.Delivering.{Delivers, HasDone, delivering_on, meant_streams, on_nodes, on_streams};
ghost use Rattle.suite_run.specs.Doing.{channel_at, is_listed, node_names, stream_at};

use crate::run::Run;
use cl_types::{NoMemory, Stream, Text};

// (No run has so many messages that a sum doesn't fit.)
fn sum(a: u64, b: u64) -> Result<u64, NoMemory>
    ensures { IfOk result (λ n. n ≡ a + b) }
{
    a.checked_add(b).ok_or(NoMemory)
}

fn sum_of_three(a: u64, b: u64, c: u64) -> Result<u64, NoMemory>
    ensures { IfOk result (λ n. n ≡ a + (b + c)) }
{
    sum(a, sum(b, c)?)
}

// As many as are asked for, or all that there can be.
fn most_of(count: Option<u32>) -> u64
    ensures { IfSome count (λ n. result ≡ n) }
{
    match count {
        Some(count) => u64::from(count),
        None => u64::MAX,
    }
}

impl Run {
    /// Delivers the oldest messages of a stream of a listed node, at most so many where that is said, and counts them.
    pub(crate) fn deliver_stream(
        &mut self,
        node: &Text,
        stream: Stream,
        count: Option<u32>,
    ) -> Result<u64, NoMemory>
        requires { is_listed node.now self.old.sites ≡ true }
        ensures { IfOk result (HasDone (delivering_on count (stream_at node.now stream) (channel_at (stream_at node.now stream) self.old.sites)) self.old self.new) }
    {
        let most = most_of(count);
        for taken in 0..most {
            if !self.take(node, stream)? {
                return Ok(taken);
            }
        }
        match count {
            Some(_) => Ok(most),
            None => Err(NoMemory),
        }
    }

    fn deliver_streams(&mut self, node: &Text, count: Option<u32>) -> Result<u64, NoMemory>
        requires { is_listed node.now self.old.sites ≡ true }
        ensures { IfOk result (HasDone (on_streams (delivering_on count) every_stream node.now self.old.sites) self.old self.new) }
    {
        let policies = self.deliver_stream(node, Stream::Policies, count)?;
        let addresses = self.deliver_stream(node, Stream::Addresses, count)?;
        let applied = self.deliver_stream(node, Stream::Applied, count)?;
        sum_of_three(policies, addresses, applied)
    }

    fn deliver_node(
        &mut self,
        node: &Text,
        stream: Option<Stream>,
        count: Option<u32>,
    ) -> Result<u64, NoMemory>
        requires { is_listed node.now self.old.sites ≡ true }
        ensures { IfOk result (HasDone (on_streams (delivering_on count) (meant_streams stream) node.now self.old.sites) self.old self.new) }
    {
        match stream {
            Some(stream) => self.deliver_stream(node, stream, count),
            None => self.deliver_streams(node, count),
        }
    }

    // One more node, by its place.
    fn deliver_at(
        &mut self,
        i: usize,
        stream: Option<Stream>,
        count: Option<u32>,
    ) -> Result<u64, NoMemory>
        requires { i < length self.old.sites }
        ensures { IfOk result (HasDone (on_streams (delivering_on count) (meant_streams stream) (get_or (node_names self.old.sites) i []) self.old.sites) self.old self.new) }
    {
        let node = self.name(i)?;
        self.deliver_node(&node, stream, count)
    }

    fn deliver_all(&mut self, stream: Option<Stream>, count: Option<u32>) -> Result<u64, NoMemory>
        ensures { IfOk result (HasDone (on_nodes (delivering_on count) (meant_streams stream) self.old.sites (node_names self.old.sites)) self.old self.new) }
    {
        self.controller.keeps_its_form();
        let mut delivered = 0;
        for i in 0..self.agents.len() {
            delivered = sum(delivered, self.deliver_at(i, stream, count)?)?;
        }
        Ok(delivered)
    }

    /// Delivers the oldest messages of one listed node or of all, of one stream or of all, at most so many of each
    /// where that is said, and counts them.
    pub(crate) fn deliver(
        &mut self,
        node: Option<&Text>,
        stream: Option<Stream>,
        count: Option<u32>,
    ) -> Result<u64, NoMemory>
        requires { IfSome node (λ name. is_listed name.now self.old.sites ≡ true) }
        ensures { IfOk result (Delivers (option_copied node.entry) stream count self.old self.new) }
    {
        self.controller.keeps_its_form();
        match node {
            Some(node) => self.deliver_node(node, stream, count),
            None => self.deliver_all(stream, count),
        }
    }
}

//! The streams of the nodes.
ghost use Rattle.std.specs.Prelude.{◌≡◌, ◌++◌, IfOk, IfSome, IsSome, OnOk, is_some, option_copied, option_map, false, true, Some};
ghost use Rattle.std.specs.List.{slice_get};
ghost use Rattle.cl_types.specs.Ascending.{Ascends, IsPlace};
ghost use Rattle.cl_types.specs.Text.{text_order};
ghost use Rattle.node_streams.specs.Telling.{IsTold, NodeIsTold, TellsTheLive, cuts_of, was_cut};
ghost use Rattle.node_streams.specs.Streams.{Begins, ChangesOne, ChangesStream, IsCut, TakesFrom, at_node, first_streams, live_stream, live_streams, stream_of, streams_at, streams_for};

use crate::messages::{NodeCuts, NodeMessages, Trio};
use cl_types::{Copies, Keyed, List, NoMemory, Stream, Text, find, search};
use cluster_types::NodeInfo;
use std::alloc::Global;
use std::marker::Model;
use watch_streams::{Msg, Port, QueuePort};

/// Whether a stream is live, and its port.
#[derive(Drop)]
pub struct StreamPort<P: Port> {
    live: bool,
    port: P,
}

impl<P: Port> Model for StreamPort<P> {
    ghost use Rattle.node_streams.specs.Streams.{StreamData};

    ghost Value = { StreamData P };

    ghost view = { λ s. record { live = s.live; port = s.port } };
}

impl<P: Port> StreamPort<P> {
    fn live(port: P) -> StreamPort<P>
        ensures { result ≡ live_stream port }
    {
        StreamPort { live: true, port }
    }

    fn cut(&mut self) -> bool
        ensures { IsCut result self.old self.new }
    {
        let live = self.live;
        self.live = false;
        live
    }

    // Offers a message to the port of a cut stream, and tells whether it was taken in.
    fn begin(&mut self, m: Msg) -> bool
        requires { self.old.live ≡ false }
        ensures { Begins P.state P.same m result self.old self.new }
    {
        match self.port.offer(m) {
            Ok(()) => {
                self.live = true;
                true
            }
            Err(_) => false,
        }
    }

    // Offers a message to the port of a live stream, and cuts it where the message comes back. It tells whether it was
    // cut.
    fn offer(&mut self, m: Msg) -> bool
        requires { self.old.live ≡ true }
        ensures told { IsTold P.state P.same (Some m) result self.old self.new }
        ensures cut { result ≡ was_cut self.old self.new }
    {
        match self.port.offer(m) {
            Ok(()) => false,
            Err(_) => {
                self.live = false;
                true
            }
        }
    }

    fn tell(&mut self, m: Option<Msg>) -> bool
        requires { IfSome m (λ _. self.old.live ≡ true) }
        ensures told { IsTold P.state P.same m result self.old self.new }
        ensures cut { result ≡ was_cut self.old self.new }
    {
        match m {
            Some(m) => self.offer(m),
            None => false,
        }
    }

    pub fn is_live(&self) -> bool
        ensures { result ≡ self.now.live }
    {
        self.live
    }

    pub fn port(&self) -> &P
        ensures { result.now ≡ self.now.port }
    {
        &self.port
    }
}

impl StreamPort<QueuePort> {
    fn take(&mut self) -> Option<Msg>
        ensures { TakesFrom result self.old self.new }
    {
        self.port.take()
    }
}

/// The streams of a node.
#[derive(Drop)]
pub struct NodePorts<P: Port> {
    node: Text,
    policies: StreamPort<P>,
    addresses: StreamPort<P>,
    applied: StreamPort<P>,
}

impl<P: Port> Model for NodePorts<P> {
    ghost use Rattle.node_streams.specs.Streams.{NodeStreams};

    ghost Value = { NodeStreams P };

    ghost view = { λ n. record { node = n.node; policies = n.policies; addresses = n.addresses; applied = n.applied } };
}

impl<P: Port> Keyed for NodePorts<P> {
    type Key = Text;

    ghost key = { λ n. n.node };

    fn key(&self) -> &Text {
        &self.node
    }
}

impl<P: Port> NodePorts<P> {
    fn of(node: Text, ports: Trio<P>) -> NodePorts<P>
        ensures { result ≡ live_streams node ports }
    {
        NodePorts {
            node,
            policies: StreamPort::live(ports.policies),
            addresses: StreamPort::live(ports.addresses),
            applied: StreamPort::live(ports.applied),
        }
    }

    pub fn node(&self) -> &Text
        ensures { result.now ≡ self.now.node }
    {
        &self.node
    }

    pub fn stream(&self, s: Stream) -> &StreamPort<P>
        ensures { result.now ≡ stream_of s self.now }
    {
        match s {
            Stream::Policies => &self.policies,
            Stream::Addresses => &self.addresses,
            Stream::Applied => &self.applied,
        }
    }

    fn cut(&mut self, s: Stream) -> bool
        ensures changes { ChangesStream s (IsCut result) self.old self.new }
        ensures node { self.new.node ≡ self.old.node }
    {
        match s {
            Stream::Policies => self.policies.cut(),
            Stream::Addresses => self.addresses.cut(),
            Stream::Applied => self.applied.cut(),
        }
    }
}

impl<P: Port + Drop> NodePorts<P> {
    fn begin(&mut self, s: Stream, m: Msg) -> bool
        requires { (stream_of s self.old).live ≡ false }
        ensures changes { ChangesStream s (Begins P.state P.same m result) self.old self.new }
        ensures node { self.new.node ≡ self.old.node }
    {
        match s {
            Stream::Policies => self.policies.begin(m),
            Stream::Addresses => self.addresses.begin(m),
            Stream::Applied => self.applied.begin(m),
        }
    }
}

impl<P: Port + Drop> NodePorts<P> {
    /// Tells each stream its message, where there is one, and which streams were cut.
    pub fn tell(&mut self, m: NodeMessages) -> NodeCuts
        requires { TellsTheLive m self.old }
        ensures told { NodeIsTold P.state P.same m result self.old self.new }
        ensures cuts { result ≡ cuts_of self.old self.new }
    {
        let policies = self.policies.tell(m.policies);
        let addresses = self.addresses.tell(m.addresses);
        let applied = self.applied.tell(m.applied);
        NodeCuts {
            policies,
            addresses,
            applied,
        }
    }
}

impl NodePorts<QueuePort> {
    fn take(&mut self, s: Stream) -> Option<Msg>
        ensures changes { ChangesStream s (TakesFrom result) self.old self.new }
        ensures node { self.new.node ≡ self.old.node }
    {
        match s {
            Stream::Policies => self.policies.take(),
            Stream::Addresses => self.addresses.take(),
            Stream::Applied => self.applied.take(),
        }
    }
}

// Where the node stands.
fn place_of<P: Port>(nodes: &[NodePorts<P>], node: &Text) -> usize
    requires ascend { Ascends (λ n. n.node) text_order nodes.now }
    requires listed { IsSome (streams_at node.now nodes.now) }
    ensures { IsPlace (at_node node.now) nodes.now result }
{
    match search(nodes, node) {
        Ok(i) => i,
        Err(i) => i,
    }
}

/// Whether the node is listed.
pub fn is_listed<P: Port>(nodes: &[NodePorts<P>], node: &Text) -> bool
    requires { Ascends (λ n. n.node) text_order nodes.now }
    ensures { result ≡ is_some (streams_at node.now nodes.now) }
{
    find(nodes, node).is_some()
}

/// The streams of a listed node.
pub fn streams_at<'a, P: Port>(nodes: &'a [NodePorts<P>], node: &Text) -> &'a NodePorts<P>
    requires ascend { Ascends (λ n. n.node) text_order nodes.now }
    requires listed { IsSome (streams_at node.now nodes.now) }
    ensures { streams_at node.now nodes.now ≡ Some result.now }
{
    &nodes[place_of(nodes, node)]
}

/// Cuts a stream of a listed node, and tells whether it was live.
pub fn cut_at<P: Port + Drop>(nodes: &mut Vec<NodePorts<P>>, node: &Text, s: Stream) -> bool
    requires ascend { Ascends (λ n. n.node) text_order nodes.old.items }
    requires listed { IsSome (streams_at node.now nodes.old.items) }
    ensures { ChangesOne node.now s (IsCut result) nodes.old.items nodes.new.items }
{
    let i = place_of(nodes.as_slice(), node);
    nodes[i].cut(s)
}

/// Offers a message to a cut stream of a listed node, and tells whether its port took it in.
pub fn begin_at<P: Port + Drop>(
    nodes: &mut Vec<NodePorts<P>>,
    node: &Text,
    s: Stream,
    m: Msg,
) -> bool
    requires ascend { Ascends (λ n. n.node) text_order nodes.old.items }
    requires cut { option_map (λ n. (stream_of s n).live) (streams_at node.now nodes.old.items) ≡ Some false }
    ensures { ChangesOne node.now s (Begins P.state P.same m result) nodes.old.items nodes.new.items }
{
    let i = place_of(nodes.as_slice(), node);
    nodes[i].begin(s, m)
}

/// Takes a message from a stream of a listed node.
pub fn take_at(nodes: &mut Vec<NodePorts<QueuePort>>, node: &Text, s: Stream) -> Option<Msg>
    requires ascend { Ascends (λ n. n.node) text_order nodes.old.items }
    requires listed { IsSome (streams_at node.now nodes.old.items) }
    ensures { ChangesOne node.now s (TakesFrom result) nodes.old.items nodes.new.items }
{
    let i = place_of(nodes.as_slice(), node);
    nodes[i].take(s)
}

// Appends the live streams of the node, where there is one.
fn push_streams<P: Port + Drop>(
    nodes: &mut Vec<NodePorts<P>>,
    info: Option<&NodeInfo>,
    ports: Trio<P>,
) -> Result<(), NoMemory>
    ensures { OnOk result (nodes.new.items ≡ nodes.old.items ++ streams_for (option_copied info.entry) ports) }
{
    if let Some(info) = info {
        let name = info.name.copy()?;
        nodes.push(NodePorts::of(name, ports))?;
    }
    Ok(())
}

fn info_at(infos: &[NodeInfo], i: usize) -> Option<&NodeInfo>
    ensures { option_copied result ≡ slice_get infos.now i }
{
    infos.get(i)
}

fn streams_of<P: Port + Drop>(
    alloc: Global,
    infos: &[NodeInfo],
    trios: Vec<Trio<P>>,
) -> Result<Vec<NodePorts<P>>, NoMemory>
    ensures { IfOk result (λ nodes. nodes.items ≡ first_streams infos.now trios.items) }
{
    let mut nodes = Vec::new(alloc);
    for trio in trios {
        let info = info_at(infos, nodes.as_slice().len());
        push_streams(&mut nodes, info, trio)?;
    }
    Ok(nodes)
}

/// The live streams of the nodes, with a trio of ports for each of them.
pub fn first_streams<P: Port + Drop>(
    alloc: Global,
    infos: &[NodeInfo],
    mut ports: List<Trio<P>>,
) -> Result<Vec<NodePorts<P>>, NoMemory>
    ensures { IfOk result (λ nodes. nodes.items ≡ first_streams infos.now ports) }
{
    let mut trios = Vec::new(alloc);
    trios.append(ports.vec_mut())?;
    streams_of(alloc, infos, trios)
}

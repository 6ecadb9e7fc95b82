ghost use Rattle.std.specs.Prelude.{◌≡◌, ◌<◌, ◌^◌, IfOk, IsSome, Some, false, is_some, length, option_map};
ghost use Rattle.cluster_types.specs.Cluster.{HasNodesAlone};
ghost use Rattle.ctl_core.specs.Controller.{ChangesOneStream, IsController, IsNew, IsUnspent, Rejoins, live_at};
ghost use Rattle.ctl_core.specs.Line.{TakesLine};
ghost use Rattle.stream_messages.specs.Messages.{snapshot};
ghost use Rattle.node_streams.specs.Streams.{Begins, IsCut, TakesFrom, stream_of, streams_at};

use crate::applying::{by_text, is_under_way, make_line};
use crate::outcome::{Outcome, RejoinFault};
use crate::side::Side;
use crate::turns::tell_all;
use cl_types::{List, NoMemory, Rev, Stream, Text};
use cluster_objects::{Change, Cluster, ClusterRefusal};
use group_index::GroupIndex;
use node_objects::objects_on;
use node_streams::{
    NodePorts, Trio, begin_at, cut_at, first_streams, is_listed, streams_at, take_at,
};
use std::alloc::Global;
use std::marker::Model;
use touched_names::touched_names_join;
use watch_streams::{Msg, Port, QueuePort};

/// The cluster of the last revision, the groups in use, and the streams of each node.
#[derive(Drop)]
pub struct Controller<P: Port> {
    // The cluster stands twice, with its groups each time: a line is taken on the next side, while the present one is
    // still the last revision's, and then on that.
    present: Side,
    next: Side,
    revision: Rev,
    spent: bool,
    nodes: Vec<NodePorts<P>>,
}

impl<P: Port> Model for Controller<P> {
    ghost use Rattle.ctl_core.specs.Controller.{ControllerData, KeepsSides};

    ghost Value = { ControllerData P };

    ghost view = { λ c. record { cluster = c.present.cluster.cluster; groups = c.present.groups; revision = c.revision; spent = c.spent; nodes = c.nodes.items } };

    ghost invariant = { λ c. KeepsSides {P = P} (record { cluster = c.present.cluster.cluster; groups = c.present.groups; revision = c.revision; spent = c.spent; nodes = c.nodes.items }) c.next.cluster.cluster c.next.groups };
}

impl<P: Port + Drop> Controller<P> {
    /// A controller of these nodes, which are fixed from now on, at revision 0. All streams are live, with the ports
    /// that are given in the order of the nodes.
    pub fn new(
        alloc: Global,
        mut cluster: Cluster,
        ports: List<Trio<P>>,
    ) -> Result<Controller<P>, NoMemory>
        requires alone { HasNodesAlone cluster.cluster }
        requires ports { length ports ≡ length cluster.cluster.nodes }
        ensures { IfOk result (IsNew cluster.cluster ports) }
    {
        cluster.fix_nodes();
        cluster.keeps_its_form();
        let nodes = first_streams(alloc, cluster.nodes(), ports)?;
        let next = Side {
            cluster: cluster.copy()?,
            groups: GroupIndex::new(alloc)?,
        };
        let groups = GroupIndex::new(alloc)?;
        Ok(Controller {
            present: Side { cluster, groups },
            next,
            revision: Rev(0),
            spent: false,
            nodes,
        })
    }

    /// Tells what every controller keeps of this one. It does nothing else.
    pub fn keeps_its_form(&self)
        ensures { IsController self.now }
    {
        let _ = &self.spent;
    }

    /// The revision of the last line that made one.
    pub fn revision(&self) -> Rev
        ensures { result ≡ self.now.revision }
    {
        self.revision
    }

    /// The cluster of the last revision.
    pub fn cluster(&self) -> &Cluster
        ensures { result.now.cluster ≡ self.now.cluster }
    {
        &self.present.cluster
    }

    /// The groups in use.
    pub fn groups(&self) -> &GroupIndex
        ensures { result.now ≡ self.now.groups }
    {
        &self.present.groups
    }

    /// Whether it ran out of memory in the middle of a line. Nothing else spends it.
    pub fn is_spent(&self) -> bool
        ensures { result ≡ self.now.spent }
    {
        self.spent
    }

    /// Whether the node is listed: its streams are there. It does not allocate.
    pub fn is_listed(&self, node: &Text) -> bool
        ensures { result ≡ is_some (streams_at node.now self.now.nodes) }
    {
        is_listed(self.nodes.as_slice(), node)
    }

    /// Whether the stream is live. It does not allocate.
    pub fn live(&self, node: &Text, stream: Stream) -> bool
        requires { IsSome (streams_at node.now self.now.nodes) }
        ensures { live_at node.now stream self.now ≡ Some result }
    {
        streams_at(self.nodes.as_slice(), node)
            .stream(stream)
            .is_live()
    }

    /// The port of the stream. It does not allocate.
    pub fn port(&self, node: &Text, stream: Stream) -> &P
        requires { IsSome (streams_at node.now self.now.nodes) }
        ensures { option_map (λ n. (stream_of stream n).port) (streams_at node.now self.now.nodes) ≡ Some result.now }
    {
        streams_at(self.nodes.as_slice(), node)
            .stream(stream)
            .port()
    }

    /// Cuts a stream, and tells whether it was live. It does not allocate.
    pub fn cut(&mut self, node: &Text, stream: Stream) -> bool
        requires listed { IsSome (streams_at node.now self.old.nodes) }
        requires unspent { IsUnspent self.old }
        ensures { ChangesOneStream node.now stream (IsCut result) self.old self.new }
    {
        cut_at(&mut self.nodes, node, stream)
    }

    /// Takes a line of changes, all of them or none. Where one makes a difference, they make the next revision, and each
    /// live stream is told what changed on it.
    pub fn line(&mut self, changes: List<Change>) -> Result<Outcome, ClusterRefusal>
        requires unspent { IsUnspent self.old }
        requires revision { self.old.revision.0 < 2 ^ 32 }
        ensures { TakesLine P.state P.same changes result self.old self.new }
    {
        touched_names_join();
        let alloc = *self.nodes.allocator();
        let mut touched = Vec::new(alloc);
        let made = make_line(alloc, &mut self.next, changes.as_slice(), &mut touched);
        // Until all of it is made the controller is spent.
        self.spent = is_under_way(&made);
        if !made? {
            return Ok(Outcome::Unchanged);
        }
        let touched = by_text(alloc, touched)?;
        let rev = Rev(self.revision.0 + 1);
        let Ok(cut) = tell_all(
            alloc,
            &mut self.present,
            &self.next,
            touched.as_slice(),
            changes.as_slice(),
            rev,
            &mut self.nodes,
        ) else {
            self.present.cluster.keeps_its_form();
            return Err(ClusterRefusal::NoMemory);
        };
        self.present.cluster.keeps_its_form();
        self.present.has_all_in_use();
        self.revision = rev;
        self.spent = false;
        Ok(Outcome::Revision {
            rev,
            cut: List::of(cut),
        })
    }

    /// All that belongs on a stream at the last revision.
    pub fn snapshot(&self, node: &Text, stream: Stream) -> Result<Msg, NoMemory>
        requires { IsUnspent self.now }
        ensures { IfOk result (λ m. m ≡ snapshot self.now.cluster self.now.revision stream node.now) }
    {
        let alloc = *self.nodes.allocator();
        let Side { cluster, groups } = &self.present;
        let objects = objects_on(alloc, cluster, groups, stream, node)?;
        Ok(Msg::Snapshot(self.revision, objects))
    }

    /// Begins a cut stream again with a snapshot of the last revision.
    pub fn rejoin(&mut self, node: &Text, stream: Stream) -> Result<Rev, RejoinFault>
        requires listed { IsSome (streams_at node.now self.old.nodes) }
        requires unspent { IsUnspent self.old }
        ensures { Rejoins P.state P.same node.now stream result self.old self.new }
    {
        if self.live(node, stream) {
            return Err(RejoinFault::NotCut);
        }
        let m = self.snapshot(node, stream)?;
        if !self.begin(node, stream, m) {
            return Err(RejoinFault::Full);
        }
        Ok(self.revision)
    }

    // Offers a message to a cut stream, and tells whether its port took it in.
    fn begin(&mut self, node: &Text, stream: Stream, m: Msg) -> bool
        requires { live_at node.now stream self.old ≡ Some false }
        ensures { ChangesOneStream node.now stream (Begins P.state P.same m result) self.old self.new }
    {
        begin_at(&mut self.nodes, node, stream, m)
    }
}

impl Controller<QueuePort> {
    /// Takes the oldest message of a stream. It does not allocate.
    pub fn take(&mut self, node: &Text, stream: Stream) -> Option<Msg>
        requires listed { IsSome (streams_at node.now self.old.nodes) }
        requires unspent { IsUnspent self.old }
        ensures { ChangesOneStream node.now stream (TakesFrom result) self.old self.new }
    {
        take_at(&mut self.nodes, node, stream)
    }
}

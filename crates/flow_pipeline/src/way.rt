use cl_types::{Addr, Dir, Judged, Text};
use flow_entries::{Flow, Table};

/// By which address a packet leaves the cluster.
#[derive(Clone, Copy, Debug)]
pub enum Choice3<'t> {
    /// By the node's own.
    Plain,
    /// By an Egress's, here.
    Here(Addr),
    /// By an Egress's, at another node.
    There { node: &'t Text, address: Addr },
}

/// Where a packet ends.
#[derive(Clone, Copy, Debug)]
pub enum End<'t> {
    /// Dropped: its source isn't an address of the port by which it came.
    Spoof,
    /// Dropped: nothing leads on.
    NoPort,
    /// Dropped or rejected by what this side says.
    Stopped(Dir),
    /// Goes out by this port.
    Delivered(u16),
    /// Goes through the tunnel to this node.
    Tunnelled(&'t Text),
    /// Leaves the cluster.
    Leaves(Choice3<'t>),
}

impl End<'_> {
    ghost use Rattle.std.specs.Prelude.{◌≡◌};
    ghost use Rattle.flow_pipeline.specs.Way.{goes_through};
    ghost use Rattle.flow_pipeline.specs.Views.{ending_of};

    /// Whether a packet that ends so is let through: it is delivered, tunnelled or leaves.
    pub fn goes_through(&self) -> bool
        ensures { result ≡ goes_through (ending_of self.now) }
    {
        match self {
            End::Spoof | End::NoPort | End::Stopped(_) => false,
            End::Delivered(_) | End::Tunnelled(_) | End::Leaves(_) => true,
        }
    }
}

/// A packet's way: what each side that was asked says of it, and where it ends.
#[derive(Clone, Copy, Debug)]
pub struct Way<'t> {
    pub egress: Option<Judged<'t>>,
    pub ingress: Option<Judged<'t>>,
    pub end: End<'t>,
}

/// A table that a packet passed, and the flow that it hit there.
#[derive(Clone, Copy, Debug)]
pub struct Visit<'t> {
    pub table: Table,
    pub flow: &'t Flow,
}

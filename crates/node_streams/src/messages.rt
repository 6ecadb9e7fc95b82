use watch_streams::Msg;

/// A port for each stream of a node.
#[derive(Drop)]
pub struct Trio<P> {
    pub policies: P,
    pub addresses: P,
    pub applied: P,
}

/// What the streams of a node are told, where they are told anything.
#[derive(Drop)]
pub struct NodeMessages {
    pub policies: Option<Msg>,
    pub addresses: Option<Msg>,
    pub applied: Option<Msg>,
}

/// Which streams of a node were cut.
#[derive(Clone, Copy, Debug, PartialEq, Eq)]
pub struct NodeCuts {
    pub policies: bool,
    pub addresses: bool,
    pub applied: bool,
}

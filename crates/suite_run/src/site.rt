//! The place where a run keeps its agents.

/// The place where a run keeps its agents. So far there are none.
#[derive(Debug, Drop)]
pub struct Site {
    agents: (),
}

impl Site {
    /// A place with no agents.
    pub fn new() -> Site {
        Site { agents: () }
    }
}

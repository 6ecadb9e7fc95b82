/// Who comes to a gate: the controller, or an agent by its place among the nodes.
#[derive(Clone, Copy, Debug, PartialEq, Eq)]
pub enum Who {
    Controller,
    Agent(u32),
}

/// A place that each worker passes before each of its turns, so that a test can hold one until another has come.
pub trait Gate: Sync {
    /// Turns are counted by the worker itself.
    fn pass(&self, who: Who, turn: u64);
}

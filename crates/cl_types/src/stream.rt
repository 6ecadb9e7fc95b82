/// The three streams from the controller to an agent.
#[derive(Clone, Copy, Debug, PartialEq, Eq)]
pub enum Stream {
    Policies,
    Addresses,
    Applied,
}

/// A revision of the cluster. The nodes alone are revision 0.
#[derive(Clone, Copy, Debug, PartialEq, Eq, PartialOrd, Ord)]
pub struct Rev(pub u64);

//! Groups that are in use, each with its members, as the cluster changes.
#![tactic(auto)]

mod change;
mod concern;
mod draft;
mod entry;
mod gather;
mod index;
mod laws;
mod member;
mod moves;
mod scope;
mod settle;
mod sorted;
mod stretch;

pub use change::GroupChange;
pub use index::GroupIndex;
pub use laws::index_stands_before;
pub use member::Member;

//! Addresses, blocks, keys, the rule order and their texts: the plain data on which every crate stands.
#![tactic(auto)]

mod addr;
mod blocks;
mod copies;
mod keyed;
mod keys;
mod laws;
mod list;
mod memory;
mod order;
mod prefix;
mod question;
mod reading;
mod same;
mod service;
mod stream;
mod text;
mod verdict;
mod writing;

pub use addr::Addr;
pub use blocks::{blocks_of_range, blocks_without};
pub use copies::Copies;
pub use keyed::{Keyed, find, put, remove, search};
pub use keys::{Dir, PodKey, PolicyKey, PolicyKind, RuleKey, rule_cmp};
pub use laws::{
    decimals_have_one_text, gap_is_the_longest_run, orders_are_exact, orders_are_total,
    texts_are_read_as_functions, texts_have_one_reading, texts_tell_names_apart, written_is_read,
};
pub use list::List;
pub use memory::NoMemory;
pub use order::AgentOrder;
pub use prefix::Prefix;
pub use question::{Packet, Question};
pub use reading::{BadAddr, BadPrefix, read_addr, read_prefix};
pub use same::Same;
pub use service::{Masked, NamedPort, PortName, Proto, Service};
pub use stream::{Rev, Stream};
pub use text::Text;
pub use verdict::{Action, Cause, Judged, Verdict};
pub use writing::{
    Written, write_addr, write_bytes, write_hexadecimal, write_judged, write_number, write_pod,
    write_policy, write_prefix, write_rule,
};

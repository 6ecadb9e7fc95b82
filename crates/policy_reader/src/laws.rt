//! The law of lines that are read.
ghost use Rattle.policy_reader.specs.Laws.{WhatIsReadIsWhole};

use object_reader::{egresses_are_whole, groups_are_whole, nodes_are_whole};
use pod_reader::pods_are_whole;
use policy_objects::policies_are_whole;

/// Each object of a line that is read has what the types of its parts keep, whatever the line is: a cluster may take
/// it. The types keep the same, so the code could make nothing else; the law says it of what a line means.
pub fn what_is_read_is_whole()
    ensures { WhatIsReadIsWhole }
{
    nodes_are_whole();
    groups_are_whole();
    egresses_are_whole();
    pods_are_whole();
    policies_are_whole();
}

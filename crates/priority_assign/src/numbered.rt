ghost use Rattle.std.proofs.Common.{rules};
ghost use Rattle.std.proofs.lemmas.Grind.{common_steps};

use cl_types::{Copies, List, NoMemory, RuleKey};

/// A rule with its flow number.
#[derive(Clone, Debug, Drop)]
pub struct Numbered {
    pub key: RuleKey,
    pub number: u16,
}

impl Copies for Numbered {
    ghost exact = { λ x y h. Prim.search (rules, common_steps) };
}

/// What an insertion answers: the new rule's number, and the other rules whose number changed, with their
/// new numbers, in the rule order.
#[derive(Clone, Debug, Drop)]
pub struct Placed {
    pub number: u16,
    pub relabelled: List<Numbered>,
}

impl Copies for Placed {
    ghost exact = { λ x y h. Prim.search (rules, common_steps) };
}

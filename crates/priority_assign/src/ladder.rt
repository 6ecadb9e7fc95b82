ghost use Rattle.std.proofs.Common.{rules};
ghost use Rattle.std.proofs.lemmas.Grind.{common_steps};
ghost use Rattle.std.specs.Prelude.{◌≡◌, ◌≢◌, ◌+◌, ◌<◌, ◌↔◌, ◌≤◌, [], length, IsNone, IsSome, IfOk, OnOk, OnErr, Some, None};
ghost use Rattle.std.specs.Option.{option_or};
ghost use Rattle.cl_types.specs.declared.keys.RuleKey.{RuleKey};

use crate::insertion::{insert_rule, is_rule, place_of};
use crate::numbered::{Numbered, Placed};
use cl_types::{Copies, List, NoMemory, RuleKey};
use std::alloc::Global;
use std::marker::Model;

/// Rules with their flow numbers, in the rule order: at most 16,000, with numbers from 100 to 64000 that
/// fall strictly.
#[derive(Clone, Debug, Drop)]
pub struct Ladder {
    rules: List<Numbered>,
}

impl Model for Ladder {
    ghost use Rattle.std.specs.Prelude.{List as Items};
    ghost use Rattle.priority_assign.specs.declared.numbered.Numbered.{Numbered};
    ghost use Rattle.priority_assign.specs.Rules.{IsLadder};

    ghost Value = { Items Numbered };

    ghost view = { λ l. l.rules };

    ghost invariant = { λ l. IsLadder l.rules };
}

impl Ladder {
    ghost use Rattle.priority_assign.specs.Rules.{IsLadder, number_of, without, most_rules};
    ghost use Rattle.priority_assign.specs.Insertion.{inserted, relabelled, gap};

    /// No rules.
    pub fn new(alloc: Global) -> Result<Ladder, NoMemory>
        ensures { IfOk result (λ ladder. ladder ≡ []) }
    {
        Ok(Ladder {
            rules: List::new(alloc),
        })
    }

    /// Inserts a rule. It gets the number halfway between those of its neighbours; where these differ by 1,
    /// the rules of the least window with room are spread evenly.
    pub fn insert(&mut self, k: RuleKey) -> Result<Placed, NoMemory>
        requires absent { IsNone (number_of self.old k) }
        requires few { length self.old < most_rules }
        ensures rules { OnOk result (self.new ≡ inserted self.old k) }
        ensures number { IfOk result (λ placed. number_of self.new k ≡ Some placed.number) }
        ensures relabelled { IfOk result (λ placed. placed.relabelled ≡ relabelled self.old k) }
        ensures only_where_full { IfOk result
            (λ placed. (placed.relabelled ≢ []) ↔ (gap self.old k ≡ 1)) }
        ensures others { IfOk result (λ placed. (j : RuleKey) → j ≢ k
            → number_of self.new j ≡ option_or (number_of placed.relabelled j) (number_of self.old j)) }
        ensures count { OnOk result (length self.new ≡ length self.old + 1) }
        ensures err { OnErr result (self.new ≡ self.old) }
        ensures falls { IsLadder self.new }
    {
        insert_rule(self.rules.vec_mut(), k)
    }

    /// Removes a rule; the others keep their numbers.
    pub fn remove(&mut self, k: &RuleKey)
        requires there { IsSome (number_of self.old k.now) }
        ensures rules { self.new ≡ without self.old k.now }
        ensures gone { number_of self.new k.now ≡ None }
        ensures others { (j : RuleKey) → j ≢ k.now → number_of self.new j ≡ number_of self.old j }
        ensures count { length self.new + 1 ≡ length self.old }
        ensures falls { IsLadder self.new }
    {
        let place = place_of(self.rules.as_slice(), k);
        let _ = self.rules.vec_mut().remove(place);
    }

    /// The number of a rule, where it is there.
    pub fn number(&self, k: &RuleKey) -> Option<u16>
        ensures number { result ≡ number_of self.now k.now }
        ensures kept { IsLadder self.now }
    {
        let place = place_of(self.rules.as_slice(), k);
        let rule = self.rules.as_slice().get(place)?;
        if is_rule(rule, k) {
            Some(rule.number)
        } else {
            None
        }
    }
}

impl Copies for Ladder {
    ghost exact = { λ x y h. Prim.search (rules, common_steps) };
}

#[cfg(test)]
mod tests;

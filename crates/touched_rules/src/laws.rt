//! What holds of everything that is held, whatever the code.
ghost use Rattle.std.specs.Prelude.{◌≡◌, ℕ, List, false};
ghost use Rattle.std.specs.List.{list_any};
ghost use Rattle.cl_types.specs.declared.addr.Addr.{Addr};
ghost use Rattle.cl_types.specs.declared.question.Question.{Question};
ghost use Rattle.cl_types.specs.Addr.{addr_eq};
ghost use Rattle.watch_streams.specs.declared.rule_changes.Choice.TheVariants.{Plain};
ghost use Rattle.watch_streams.specs.declared.rule_changes.RuleParts.{RuleParts};
ghost use Rattle.watch_streams.specs.HeldEvaluation.{HeldMaps, held_isolated};
ghost use Rattle.watch_streams.specs.InForce.{AreRulesInForce, egress_pods, held_choice, isolated_addresses};
ghost use Rattle.touched_rules.specs.Touching.{ChangesTouchOnlyThese};
ghost use Rattle.touched_rules.specs.Touched.{ChangesOfRulesAreOfTouchedPolicies, ChangesOfRulesAreUnderTouchedKeys, RulesAreInForce};

/// What is held puts one list of rules in force.
pub fn rules_in_force_are_one()
    ensures { (h : HeldMaps) (a b : List RuleParts) → AreRulesInForce h a → AreRulesInForce h b → a ≡ b }
{}

/// An address is listed as isolated exactly where the verdict of what is held takes it to be isolated.
pub fn isolated_addresses_are_listed()
    ensures { (h : HeldMaps) (q : Question) → list_any (λ a. addr_eq a q.own) (isolated_addresses h q.dir) ≡ held_isolated h q }
{}

/// An address that isn't listed among those of Egresses' pods goes out by no Egress.
pub fn unlisted_addresses_go_out_plain()
    ensures { (node : List ℕ) (h : HeldMaps) (a : Addr) → list_any (λ x. addr_eq x a) (egress_pods h) ≡ false → held_choice node h a ≡ Plain }
{}

/// What differs between the rules that two held states put in force differs under the touched keys, where the same is in
/// force under every other key.
pub fn changes_of_rules_are_under_touched_keys()
    ensures { ChangesOfRulesAreUnderTouchedKeys }
{}

/// What is held puts some rules in force.
pub fn rules_are_in_force()
    ensures { RulesAreInForce }
{}

/// Where the other policies stay, and the same is held of what their rules need, all changes of rules are those of the
/// touched policies.
pub fn changes_of_rules_are_of_touched_policies()
    ensures { ChangesOfRulesAreOfTouchedPolicies }
{}

/// Changes of a stream touch the policies that they change themselves, and those that read a group that they change.
pub fn changes_touch_only_these()
    ensures { ChangesTouchOnlyThese }
{}

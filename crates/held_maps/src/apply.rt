ghost use Rattle.std.specs.Prelude.{◌≡◌, ℕ, ◌+◌, vec_len};
ghost use Rattle.held_maps.specs.Held.{policy_title, egress_title};
ghost use Rattle.watch_streams.specs.Names.{object_text};
ghost use Rattle.held_maps.specs.Rows.{HasRows};
ghost use Rattle.held_maps.specs.Steps.{after_step, after_steps, policies_after, policies_after_steps, egresses_after, egresses_after_steps};

use crate::rows::Rows;
use crate::steps::{Named, Step};
use watch_streams::{NetEgress, NetPolicy, StreamObject};

fn apply(rows: &mut Rows<StreamObject>, step: Step)
    requires { HasRows object_text 1 rows.old }
    ensures objects { rows.new.objects.items ≡ after_step step rows.old.objects.items }
    ensures rows { (more : ℕ) → HasRows object_text (more + 1) rows.old → HasRows object_text more rows.new }
{
    match step {
        Step::Put(named) => {
            let Named { title, object } = named;
            rows.put(title, object);
        }
        Step::Remove(title) => rows.remove(&title),
    }
}

/// Takes the steps from the last on.
pub(crate) fn apply_all(rows: &mut Rows<StreamObject>, mut steps: Vec<Step>)
    requires { HasRows object_text (vec_len steps) rows.old }
    ensures objects { rows.new.objects.items ≡ after_steps steps.items rows.old.objects.items }
    ensures rows { HasRows object_text 0 rows.new }
{
    while let Some(step) = steps.pop() {
        apply(rows, step);
    }
}

// Puts the object where its kind stands.
fn put_policy(policies: &mut Rows<NetPolicy>, egresses: &mut Rows<NetEgress>, named: Named)
    requires policies { HasRows policy_title 1 policies.old }
    requires egresses { HasRows egress_title 1 egresses.old }
    ensures policies { policies.new.objects.items ≡ policies_after (Step.Put named) policies.old.objects.items }
    ensures egresses { egresses.new.objects.items ≡ egresses_after (Step.Put named) egresses.old.objects.items }
    ensures policy_rows { (more : ℕ) → HasRows policy_title (more + 1) policies.old → HasRows policy_title more policies.new }
    ensures egress_rows { (more : ℕ) → HasRows egress_title (more + 1) egresses.old → HasRows egress_title more egresses.new }
{
    let Named { title, object } = named;
    match object {
        StreamObject::Policy(policy) => policies.put(title, policy),
        StreamObject::Egress(egress) => egresses.put(title, egress),
        StreamObject::Group { .. } => {}
    }
}

fn apply_policy(policies: &mut Rows<NetPolicy>, egresses: &mut Rows<NetEgress>, step: Step)
    requires policies { HasRows policy_title 1 policies.old }
    requires egresses { HasRows egress_title 1 egresses.old }
    ensures policies { policies.new.objects.items ≡ policies_after step policies.old.objects.items }
    ensures egresses { egresses.new.objects.items ≡ egresses_after step egresses.old.objects.items }
    ensures policy_rows { (more : ℕ) → HasRows policy_title (more + 1) policies.old → HasRows policy_title more policies.new }
    ensures egress_rows { (more : ℕ) → HasRows egress_title (more + 1) egresses.old → HasRows egress_title more egresses.new }
{
    match step {
        Step::Put(named) => put_policy(policies, egresses, named),
        Step::Remove(title) => {
            policies.remove(&title);
            egresses.remove(&title);
        }
    }
}

/// Takes the steps of policies and Egresses from the last on.
pub(crate) fn apply_policies(
    policies: &mut Rows<NetPolicy>,
    egresses: &mut Rows<NetEgress>,
    mut steps: Vec<Step>,
)
    requires policies { HasRows policy_title (vec_len steps) policies.old }
    requires egresses { HasRows egress_title (vec_len steps) egresses.old }
    ensures policies { policies.new.objects.items ≡ policies_after_steps steps.items policies.old.objects.items }
    ensures egresses { egresses.new.objects.items ≡ egresses_after_steps steps.items egresses.old.objects.items }
    ensures policy_rows { HasRows policy_title 0 policies.new }
    ensures egress_rows { HasRows egress_title 0 egresses.new }
{
    while let Some(step) = steps.pop() {
        apply_policy(policies, egresses, step);
    }
}

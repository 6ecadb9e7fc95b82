ghost use Rattle.std.specs.Prelude.{◌≡◌, ◌+◌, ◌≤◌, length};
ghost use Rattle.held_maps.specs.Ready.{start, after_ready, FitsIn};
ghost use Rattle.held_maps.specs.Rows.{IsRoom, HasRows};
ghost use Rattle.held_maps.specs.Steps.{after_steps, policies_after_steps, egresses_after_steps};

use crate::apply::{apply_all, apply_policies};
use crate::held::Held;
use crate::places::Places;
use crate::ready::{Ready, Room};
use crate::rows::Rows;
use crate::shelf::{Shelf, Titled};
use crate::steps::Step;
use watch_streams::{NetEgress, NetPolicy, StreamObject};

// Moves what is there to the places, but for a whole map, which starts from nothing.
fn begin<T: Titled + Drop>(shelf: &mut Shelf<T>, whole: bool, rows: &mut Rows<T>, more: usize)
    requires { IsRoom (length (start whole shelf.old) + more) rows.old }
    ensures objects { rows.new.objects.items ≡ start whole shelf.old }
    ensures rows { HasRows T.title more rows.new }
{
    if !whole {
        shelf.move_to(rows);
    }
}

// The rows with what is there, but for a whole map, and places for so many more.
fn filled<T: Titled + Drop>(
    shelf: &mut Shelf<T>,
    whole: bool,
    places: Places<T>,
    more: usize,
) -> Rows<T>
    requires { length (start whole shelf.old) + more ≤ places }
    ensures objects { result.objects.items ≡ start whole shelf.old }
    ensures rows { HasRows T.title more result }
{
    let mut rows = places.into_rows();
    begin(shelf, whole, &mut rows, more);
    rows
}

fn finish_groups(
    shelf: &mut Shelf<StreamObject>,
    whole: bool,
    places: Places<StreamObject>,
    steps: Vec<Step>,
)
    requires { length (start whole shelf.old) + length steps.items ≤ places }
    ensures { shelf.new ≡ after_steps steps.items (start whole shelf.old) }
{
    let mut rows = filled(shelf, whole, places, steps.len());
    apply_all(&mut rows, steps);
    *shelf = Shelf::of_rows(rows);
}

fn finish_policies(
    policies: &mut Shelf<NetPolicy>,
    egresses: &mut Shelf<NetEgress>,
    whole: bool,
    policy_places: Places<NetPolicy>,
    egress_places: Places<NetEgress>,
    steps: Vec<Step>,
)
    requires policies { length (start whole policies.old) + length steps.items ≤ policy_places }
    requires egresses { length (start whole egresses.old) + length steps.items ≤ egress_places }
    ensures policies { policies.new ≡ policies_after_steps steps.items (start whole policies.old) }
    ensures egresses { egresses.new ≡ egresses_after_steps steps.items (start whole egresses.old) }
{
    let mut policy_rows = filled(policies, whole, policy_places, steps.len());
    let mut egress_rows = filled(egresses, whole, egress_places, steps.len());
    apply_policies(&mut policy_rows, &mut egress_rows, steps);
    *policies = Shelf::of_rows(policy_rows);
    *egresses = Shelf::of_rows(egress_rows);
}

impl Held {
    /// Takes the message that is ready. It does not allocate.
    pub fn finish(&mut self, r: Ready)
        requires { FitsIn r self.old }
        ensures { self.new ≡ after_ready r self.old }
    {
        let Ready {
            rev,
            whole,
            steps,
            room,
        } = r;
        match room {
            Room::Same(s) => self.revisions.set(s, rev),
            Room::Policies(policies, egresses) => {
                finish_policies(
                    &mut self.policies,
                    &mut self.egresses,
                    whole,
                    policies,
                    egresses,
                    steps,
                );
                self.revisions.policies = rev;
            }
            Room::Addresses(places) => {
                finish_groups(&mut self.addresses, whole, places, steps);
                self.revisions.addresses = rev;
            }
            Room::Applied(places) => {
                finish_groups(&mut self.applied, whole, places, steps);
                self.revisions.applied = rev;
            }
        }
    }
}

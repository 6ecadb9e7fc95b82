ghost use Rattle.std.specs.Prelude.{◌≡◌};
ghost use Rattle.cl_types.specs.Judgement.{judgement_of};
ghost use Rattle.held_maps.specs.Held.{maps_of};
ghost use Rattle.watch_streams.specs.HeldEvaluation.{held_side};

use crate::held::Held;
use crate::rules::{Asked, find_rules};
use cl_types::{Judged, Question};
use cluster_types::{allowed_by_default, allowed_first, decided_first};

impl Held {
    /// The verdict of what is held on one side of some traffic, by the rules whose groups are all held. It
    /// does not allocate.
    pub fn judge<'h>(&'h self, q: &Question) -> Judged<'h>
        ensures { judgement_of result ≡ held_side (maps_of self.now) q.now }
    {
        let asked = Asked {
            held: self,
            question: q,
        };
        let found = find_rules(&asked);
        let otherwise = if found.isolated {
            allowed_first(found.kubernetes)
        } else {
            decided_first(found.baseline, allowed_by_default())
        };
        decided_first(found.native, otherwise)
    }
}

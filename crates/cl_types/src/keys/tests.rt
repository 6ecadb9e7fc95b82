ghost use Rattle.std.specs.Prelude.{◌<◌};

use crate::keys::{Dir, PolicyKey, PolicyKind, RuleKey, rule_cmp};
use crate::memory::NoMemory;
use crate::text::Text;
use std::alloc::Global;
use std::test::Fail;

// What tells the rules of the table apart: tier, priority, whether the policy is an Antrea NetworkPolicy and
// no Kubernetes one, direction, index. All policies are named `shop/deny`.
type Place = (u16, u16, bool, Dir, u32);

// Each of these is looked at before the next.
const PLACES: &[Place] = &[
    (50, 9, false, Dir::Egress, 7),
    (250, 1, false, Dir::Egress, 7),
    (250, 2, true, Dir::Egress, 7),
    (250, 2, false, Dir::Ingress, 8),
    (250, 2, false, Dir::Egress, 2),
    (250, 2, false, Dir::Egress, 10),
];

fn rule_key(alloc: Global, place: Place) -> Result<RuleKey, NoMemory> {
    let (tier, priority, native, dir, index) = place;
    let kind = if native {
        PolicyKind::Antrea
    } else {
        PolicyKind::Kube
    };
    let namespace = Text::of(Vec::from_slice(alloc, b"shop")?);
    let name = Text::of(Vec::from_slice(alloc, b"deny")?);
    Ok(RuleKey {
        tier,
        priority,
        policy: PolicyKey {
            kind,
            namespace,
            name,
        },
        dir,
        index,
    })
}

// Compares the rule with each one of the table.
fn stands_at(alloc: Global, i: usize) -> Result<bool, NoMemory>
    requires { i < 6 }
{
    let rule = rule_key(alloc, PLACES[i])?;
    let mut agrees = true;
    for (j, other) in PLACES.iter().enumerate() {
        agrees = agrees && rule_cmp(&rule, &rule_key(alloc, *other)?) == i.cmp(&j);
    }
    Ok(agrees)
}

#[test]
fn rules_in_their_order(rt: HostRuntime) -> Result<(), Fail> {
    for i in 0..6 {
        assert!(rt; stands_at(rt.alloc(), i)?);
    }
    Ok(())
}

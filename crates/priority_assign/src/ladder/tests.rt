use super::*;
use cl_types::{Dir, PolicyKey, PolicyKind, Text};
use std::process::Abort;
use std::test::Fail;

/// The key of a policy's rule; the lower the index, the earlier the rule.
fn key(alloc: Global, index: u32) -> RuleKey {
    RuleKey {
        tier: 50,
        priority: 5,
        policy: PolicyKey {
            kind: PolicyKind::Cluster,
            namespace: Text::new(alloc),
            name: Text::new(alloc),
        },
        dir: Dir::Ingress,
        index,
    }
}

// Each of seventeen rules comes before all others. At the last there is no number left between 64000 and
// 64001, and a window of five rules has room.
#[test]
fn a_window_is_relabelled_where_no_number_is_left(rt: HostRuntime) -> Result<(), Fail> {
    let alloc = rt.alloc();
    let mut ladder = Ladder::new(alloc)?;
    let rules = [
        (16, 32050),
        (15, 48025),
        (14, 56013),
        (13, 60007),
        (12, 62004),
        (11, 63002),
        (10, 63501),
        (9, 63751),
        (8, 63876),
        (7, 63938),
        (6, 63969),
        (5, 63985),
        (4, 63993),
        (3, 63997),
        (2, 63999),
        (1, 64000),
    ];
    for (index, number) in rules {
        let placed = insert(&rt, alloc, &mut ladder, index)?;
        assert_eq!(rt; placed.number, number, "at {index}");
        assert!(rt; placed.relabelled.as_slice().is_empty(), "at {index}");
    }
    let before = ladder.copy()?;
    let placed = insert(&rt, alloc, &mut ladder, 0)?.copy()?;
    assert_eq!(rt; placed.number, 63998);
    let changed = [(1, 63995), (2, 63993), (3, 63990), (4, 63987)];
    assert_eq!(rt; placed.relabelled.as_slice().len(), changed.len());
    for (rule, (index, number)) in placed.relabelled.as_slice().iter().zip(changed.iter()) {
        assert_eq!(rt; rule.key.index, *index);
        assert_eq!(rt; rule.number, *number);
        assert_eq!(rt; ladder.number(&rule.key), Some(*number));
    }
    for (index, number) in rules {
        let k = key(alloc, index);
        assert_eq!(rt; before.number(&k), Some(number), "in the copy, at {index}");
        if index > 4 {
            assert_eq!(rt; ladder.number(&k), Some(number), "at {index}");
        }
    }
    Ok(())
}

#[test]
fn a_removed_rule_leaves_the_others_alone(rt: HostRuntime) -> Result<(), Fail> {
    let alloc = rt.alloc();
    let mut ladder = Ladder::new(alloc)?;
    insert(&rt, alloc, &mut ladder, 1)?;
    insert(&rt, alloc, &mut ladder, 0)?;
    let k = key(alloc, 1);
    assert_eq!(rt; ladder.number(&k), Some(32050));
    ladder.remove(&k);
    assert_eq!(rt; ladder.number(&k), None);
    assert_eq!(rt; ladder.number(&key(alloc, 0)), Some(48025));
    Ok(())
}

fn insert(
    rt: &impl Abort,
    alloc: Global,
    ladder: &mut Ladder,
    index: u32,
) -> Result<Placed, NoMemory> {
    let k = key(alloc, index);
    assert!(rt; ladder.number(&k).is_none());
    assert!(rt; ladder.rules.as_slice().len() < 16000);
    ladder.insert(k)
}

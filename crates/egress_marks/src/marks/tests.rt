ghost use Rattle.std.specs.Prelude.{◌≡◌, is_some, count_by};

use super::*;
use std::process::Abort;
use std::test::Fail;

// The mark of an address that has none, where a mark is left.
fn take(rt: &impl Abort, marks: &mut Marks, a: Addr) -> u8 {
    assert_eq!(rt; marks.mark_of(a), None);
    assert!(rt; held(marks.places.as_slice()) < 255);
    marks.take(a)
}

fn held(places: &[Option<Addr>]) -> usize
    ensures { result ≡ count_by is_some places.now }
{
    places.iter().filter(|place| place.is_some()).count()
}

#[test]
fn the_least_free_mark_is_taken(rt: HostRuntime) -> Result<(), Fail> {
    let mut marks = Marks::new(rt.alloc())?;
    assert_eq!(rt; take(&rt, &mut marks, Addr::V4(7)), 1);
    assert_eq!(rt; take(&rt, &mut marks, Addr::V6(7)), 2);
    assert_eq!(rt; take(&rt, &mut marks, Addr::V4(9)), 3);
    assert_eq!(rt; marks.mark_of(Addr::V6(7)), Some(2));
    marks.give(Addr::V6(7));
    assert_eq!(rt; marks.mark_of(Addr::V6(7)), None);
    assert_eq!(rt; marks.mark_of(Addr::V4(9)), Some(3));
    assert_eq!(rt; take(&rt, &mut marks, Addr::V4(8)), 2);
    let mut copied = marks.copy()?;
    for i in 4..=255 {
        assert_eq!(rt; take(&rt, &mut copied, Addr::V4(1000 + i)), i as u8);
    }
    assert_eq!(rt; copied.mark_of(Addr::V4(8)), marks.mark_of(Addr::V4(8)));
    assert_eq!(rt; copied.mark_of(Addr::V4(1255)), Some(255));
    assert_eq!(rt; marks.mark_of(Addr::V4(1255)), None);
    Ok(())
}

use crate::addr::Addr;
use crate::blocks::{blocks_of_range, blocks_without};
use crate::list::List;
use crate::prefix::Prefix;
use crate::service::Masked;
use std::test::Fail;

fn masked(value: u16, mask: u16) -> Masked {
    Masked { value, mask }
}

#[test]
fn ranges_of_ports(rt: HostRuntime) -> Result<(), Fail> {
    let blocks = blocks_of_range(rt.alloc(), 1000, 1999)?;
    let wanted = [
        masked(1000, 0xfff8),
        masked(1008, 0xfff0),
        masked(1024, 0xfe00),
        masked(1536, 0xff00),
        masked(1792, 0xff80),
        masked(1920, 0xffc0),
        masked(1984, 0xfff0),
    ];
    assert_eq!(rt; blocks.as_slice(), wanted.as_slice());
    let all = blocks_of_range(rt.alloc(), 0, 65535)?;
    assert_eq!(rt; all.as_slice(), [masked(0, 0)].as_slice());
    let last = blocks_of_range(rt.alloc(), 65535, 65535)?;
    assert_eq!(rt; last.as_slice(), [masked(65535, 65535)].as_slice());
    Ok(())
}

#[test]
fn blocks_with_excepts(rt: HostRuntime) -> Result<(), Fail> {
    let whole = Prefix {
        base: Addr::V4(0x0a00_0000),
        len: 24,
    };
    let part = Prefix {
        base: Addr::V4(0x0a00_0040),
        len: 26,
    };
    let other = Prefix {
        base: Addr::V6(0),
        len: 0,
    };
    let front = Prefix {
        base: Addr::V4(0x0a00_0000),
        len: 26,
    };
    let back = Prefix {
        base: Addr::V4(0x0a00_0080),
        len: 25,
    };
    let excepts = List::of(vec![in rt.alloc(); part, other]?);
    let rest = blocks_without(rt.alloc(), whole, &excepts)?;
    assert_eq!(rt; rest.as_slice(), [front, back].as_slice());
    let itself = List::of(vec![in rt.alloc(); whole]?);
    let none = blocks_without(rt.alloc(), whole, &itself)?;
    assert_eq!(rt; none.as_slice().len(), 0);
    let free = List::new(rt.alloc());
    let all = blocks_without(rt.alloc(), other, &free)?;
    assert_eq!(rt; all.as_slice(), [other].as_slice());
    Ok(())
}

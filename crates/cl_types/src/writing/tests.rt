ghost use Rattle.std.specs.Prelude.{◌≡◌, IfOk};

use crate::addr::Addr;
use crate::copies::Copies;
use crate::keys::{Dir, PodKey, PolicyKey, PolicyKind, RuleKey};
use crate::memory::NoMemory;
use crate::prefix::Prefix;
use crate::text::Text;
use crate::verdict::{Cause, Judged, Verdict};
use crate::writing::{write_addr, write_judged, write_pod, write_prefix};
use std::alloc::Global;
use std::test::Fail;

fn text(alloc: Global, bytes: &[u8]) -> Result<Text, NoMemory>
    ensures { IfOk result (λ text. text ≡ bytes.now) }
{
    Ok(Text::of(Vec::from_slice(alloc, bytes)?))
}

// The examples of RFC 5952, and one of each family.
const ADDRESSES: &[(Addr, &[u8])] = &[
    (Addr::V4(0x0a00_01ff), b"10.0.1.255"),
    (
        Addr::V6(0xfd00_0000_0000_0001_0000_0000_0000_0005),
        b"fd00:0:0:1::5",
    ),
    (Addr::V6(0), b"::"),
    (Addr::V6(1), b"::1"),
    (
        Addr::V6(0x2001_0db8_0000_0000_0000_0000_0002_0001),
        b"2001:db8::2:1",
    ),
    (
        Addr::V6(0x2001_0db8_0000_0001_0001_0001_0001_0001),
        b"2001:db8:0:1:1:1:1:1",
    ),
    (
        Addr::V6(0x2001_0000_0000_0001_0000_0000_0000_0001),
        b"2001:0:0:1::1",
    ),
    (
        Addr::V6(0x2001_0db8_0000_0000_0001_0000_0000_0001),
        b"2001:db8::1:0:0:1",
    ),
    (
        Addr::V6(0x0001_0002_0003_0004_0005_0006_0000_0000),
        b"1:2:3:4:5:6::",
    ),
];

#[test]
fn addresses(rt: HostRuntime) -> Result<(), Fail> {
    for (a, wanted) in ADDRESSES {
        let mut out = Text::new(rt.alloc());
        write_addr(&mut out, *a)?;
        assert_eq!(rt; out.as_slice(), *wanted);
    }
    Ok(())
}

#[test]
fn prefix_and_pod(rt: HostRuntime) -> Result<(), Fail> {
    let p = Prefix {
        base: Addr::V4(0x0a00_0000),
        len: 8,
    };
    let pod = PodKey {
        namespace: text(rt.alloc(), b"shop")?,
        name: text(rt.alloc(), b"web-0")?,
    };
    let mut out = text(rt.alloc(), b"> ")?;
    write_prefix(&mut out, &p.copy()?)?;
    write_pod(&mut out, &pod.copy()?)?;
    assert_eq!(rt; out.as_slice(), b"> 10.0.0.0/8shop/web-0".as_slice());
    Ok(())
}

#[test]
fn verdict_of_a_rule(rt: HostRuntime) -> Result<(), Fail> {
    let rule = RuleKey {
        tier: 250,
        priority: 5,
        policy: PolicyKey {
            kind: PolicyKind::Antrea,
            namespace: text(rt.alloc(), b"shop")?,
            name: text(rt.alloc(), b"deny")?,
        },
        dir: Dir::Egress,
        index: 10,
    };
    let copied = rule.copy()?;
    let judged = Judged {
        verdict: Verdict::Reject,
        by: Cause::Rule(&copied),
    };
    let mut out = Text::new(rt.alloc());
    write_judged(&mut out, &judged)?;
    assert_eq!(rt;
        out.as_slice(),
        b"reject by anp:shop/deny egress[10]".as_slice()
    );
    Ok(())
}

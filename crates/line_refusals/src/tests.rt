use crate::{Refusal, write_refusal};
use cl_types::{NoMemory, PodKey, Text};
use cluster_objects::ClusterRefusal;
use json_fields::ReadRefusal;
use std::alloc::Global;
use std::test::Fail;

fn text(alloc: Global, bytes: &[u8]) -> Result<Text, NoMemory> {
    Ok(Text::of(Vec::from_slice(alloc, bytes)?))
}

// The name and the detail of a refusal by reading, of two by the run, and of one by the cluster.
#[test]
fn refusals_with_and_without_details(rt: HostRuntime) -> Result<(), Fail> {
    let pod = PodKey {
        namespace: text(rt.alloc(), b"shop")?,
        name: text(rt.alloc(), b"web-0")?,
    };
    let path = text(rt.alloc(), b"spec.podCIDR")?;
    let mut out = Text::new(rt.alloc());
    write_refusal(&mut out, &Refusal::Reading(ReadRefusal::BadShape(path)))?;
    write_refusal(&mut out, &Refusal::NoNode)?;
    write_refusal(&mut out, &Refusal::TooLong(1_048_577))?;
    write_refusal(
        &mut out,
        &Refusal::Applying(ClusterRefusal::AddressInUse(pod)),
    )?;
    assert_eq!(rt;
        out.as_slice(),
        b"BadShape spec.podCIDRNoNodeTooLong 1048577AddressInUse shop/web-0".as_slice()
    );
    Ok(())
}

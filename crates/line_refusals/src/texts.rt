//! The texts of refusals.
ghost use Rattle.std.specs.Prelude.{◌≡◌, ◌++◌, OnOk};
ghost use Rattle.std.specs.Fmt.{decimal};
ghost use Rattle.line_refusals.specs.Texts.{reading_text, applying_text, refusal_text};

use crate::refusal::Refusal;
use cl_types::{NoMemory, Text, write_bytes, write_number, write_pod, write_policy};
use cluster_objects::ClusterRefusal;
use json_fields::ReadRefusal;

/// Appends a word and a number.
pub fn write_counted(out: &mut Text, word: &[u8], count: u64) -> Result<(), NoMemory>
    ensures { OnOk result (out.new ≡ out.old ++ (word.now ++ decimal count)) }
{
    write_bytes(out, word)?;
    write_number(out, count)
}

/// Appends a word and what is told beside it.
pub fn write_detail(out: &mut Text, word: &[u8], detail: &Text) -> Result<(), NoMemory>
    ensures { OnOk result (out.new ≡ out.old ++ (word.now ++ detail.now)) }
{
    write_bytes(out, word)?;
    write_bytes(out, detail.as_slice())
}

/// Appends the refusal's name, and a space and the detail where there is one.
pub fn write_refusal(out: &mut Text, refusal: &Refusal) -> Result<(), NoMemory>
    ensures { OnOk result (out.new ≡ out.old ++ refusal_text refusal.now) }
{
    match refusal {
        Refusal::Reading(refusal) => write_reading(out, refusal),
        Refusal::NotBuilt => write_bytes(out, b"NotBuilt"),
        Refusal::TooLong(count) => write_counted(out, b"TooLong ", *count),
        Refusal::Applying(refusal) => write_applying(out, refusal),
        Refusal::NoNode => write_bytes(out, b"NoNode"),
        Refusal::NotCut => write_bytes(out, b"NotCut"),
        Refusal::Full => write_bytes(out, b"Full"),
    }
}

fn write_reading(out: &mut Text, refusal: &ReadRefusal) -> Result<(), NoMemory>
    ensures { OnOk result (out.new ≡ out.old ++ reading_text refusal.now) }
{
    match refusal {
        ReadRefusal::NotJson => write_bytes(out, b"NotJson"),
        ReadRefusal::BadShape(path) => write_detail(out, b"BadShape ", path),
        ReadRefusal::Unsupported(field) => write_detail(out, b"Unsupported ", field),
        ReadRefusal::BadName => write_bytes(out, b"BadName"),
        ReadRefusal::BadLabel => write_bytes(out, b"BadLabel"),
        ReadRefusal::BadSelector => write_bytes(out, b"BadSelector"),
        ReadRefusal::BadAddr => write_bytes(out, b"BadAddr"),
        ReadRefusal::BadPrefix => write_bytes(out, b"BadPrefix"),
        ReadRefusal::BadPort => write_bytes(out, b"BadPort"),
        ReadRefusal::BadPriority => write_bytes(out, b"BadPriority"),
        ReadRefusal::BadAction => write_bytes(out, b"BadAction"),
        ReadRefusal::BadControl => write_bytes(out, b"BadControl"),
        ReadRefusal::NoMemory => Ok(()),
    }
}

fn write_applying(out: &mut Text, refusal: &ClusterRefusal) -> Result<(), NoMemory>
    ensures { OnOk result (out.new ≡ out.old ++ applying_text refusal.now) }
{
    match refusal {
        ClusterRefusal::NodesFixed => write_bytes(out, b"NodesFixed"),
        ClusterRefusal::CidrOverlap(node) => write_detail(out, b"CidrOverlap ", node),
        ClusterRefusal::TierFixed => write_bytes(out, b"TierFixed"),
        ClusterRefusal::TierTaken(tier) => write_detail(out, b"TierTaken ", tier),
        ClusterRefusal::TierInUse(policy) => {
            write_bytes(out, b"TierInUse ")?;
            write_policy(out, policy)
        }
        ClusterRefusal::NoSuchTier(tier) => write_detail(out, b"NoSuchTier ", tier),
        ClusterRefusal::AddressInUse(pod) => {
            write_bytes(out, b"AddressInUse ")?;
            write_pod(out, pod)
        }
        ClusterRefusal::TooMany(limit) => write_counted(out, b"TooMany ", u64::from(*limit)),
        ClusterRefusal::TooManyMarks(node) => write_detail(out, b"TooManyMarks ", node),
        ClusterRefusal::NoMemory => Ok(()),
    }
}

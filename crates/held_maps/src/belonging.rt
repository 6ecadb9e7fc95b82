ghost use Rattle.std.specs.Prelude.{◌≡◌, IfOk};
ghost use Rattle.watch_streams.specs.Difference.{belongs, name_belongs, settled, is_policies};

use cl_types::{NoMemory, Stream};
use watch_streams::{StreamName, StreamObject, ascending_members};

fn is_policies(s: Stream) -> bool
    ensures { result ≡ is_policies s }
{
    matches!(s, Stream::Policies)
}

/// Whether what has the name belongs on the stream.
pub(crate) fn name_belongs(s: Stream, name: &StreamName) -> bool
    ensures { result ≡ name_belongs s name.now }
{
    match name {
        StreamName::Policy(_) => is_policies(s),
        StreamName::Egress(_) => is_policies(s),
        StreamName::Group(_) => !is_policies(s),
    }
}

/// Whether the object belongs on the stream.
pub(crate) fn belongs(s: Stream, object: &StreamObject) -> bool
    ensures { result ≡ belongs s object.now }
{
    match object {
        StreamObject::Policy(_) => is_policies(s),
        StreamObject::Egress(_) => is_policies(s),
        StreamObject::Group { .. } => !is_policies(s),
    }
}

/// The object with a group's members ascending, each once.
pub(crate) fn settled(object: StreamObject) -> Result<StreamObject, NoMemory>
    ensures { IfOk result (λ o. o ≡ settled object) }
{
    match object {
        StreamObject::Policy(policy) => Ok(StreamObject::Policy(policy)),
        StreamObject::Egress(egress) => Ok(StreamObject::Egress(egress)),
        StreamObject::Group { group, members } => {
            let members = ascending_members(members)?;
            Ok(StreamObject::Group { group, members })
        }
    }
}

ghost use Rattle.std.specs.Prelude.{◌≡◌, ◌++◌, codes, IfOk};
ghost use Rattle.cl_types.specs.Written.{policy_text};
ghost use Rattle.label_select.specs.Written.{group_text};
ghost use Rattle.watch_streams.specs.Names.{name_text, object_text};

use cl_types::{NoMemory, PolicyKey, Text, write_bytes, write_policy};
use label_select::{GroupKey, write_group};
use std::alloc::Global;
use watch_streams::{StreamName, StreamObject};

fn policy_title(alloc: Global, key: &PolicyKey) -> Result<Text, NoMemory>
    ensures { IfOk result (λ title. title ≡ policy_text key.now) }
{
    let mut title = Text::new(alloc);
    write_policy(&mut title, key)?;
    Ok(title)
}

fn egress_title(alloc: Global, name: &Text) -> Result<Text, NoMemory>
    ensures { IfOk result (λ title. title ≡ codes "egress:" ++ name.now) }
{
    let mut title = Text::new(alloc);
    write_bytes(&mut title, b"egress:")?;
    write_bytes(&mut title, name.as_slice())?;
    Ok(title)
}

/// The text of a group.
pub(crate) fn group_title(alloc: Global, group: &GroupKey) -> Result<Text, NoMemory>
    ensures { IfOk result (λ title. title ≡ group_text group.now) }
{
    let mut title = Text::new(alloc);
    write_group(&mut title, group)?;
    Ok(title)
}

/// The text of a name.
pub(crate) fn name_title(alloc: Global, name: &StreamName) -> Result<Text, NoMemory>
    ensures { IfOk result (λ title. title ≡ name_text name.now) }
{
    match name {
        StreamName::Policy(key) => policy_title(alloc, key),
        StreamName::Egress(name) => egress_title(alloc, name),
        StreamName::Group(group) => group_title(alloc, group),
    }
}

/// The text of an object's name.
pub(crate) fn object_title(alloc: Global, object: &StreamObject) -> Result<Text, NoMemory>
    ensures { IfOk result (λ title. title ≡ object_text object.now) }
{
    match object {
        StreamObject::Policy(policy) => policy_title(alloc, &policy.key),
        StreamObject::Egress(egress) => egress_title(alloc, &egress.name),
        StreamObject::Group { group, .. } => group_title(alloc, group),
    }
}

//! Messages as text.
use cl_types::{NoMemory, Text, write_addr, write_bytes, write_number, write_policy};
use label_select::write_group;
use std::alloc::Global;
use std::process::Abort;
use watch_streams::{HeldMember, Msg, StreamChange, StreamObject};

fn write_members(out: &mut Text, word: &[u8], members: &[HeldMember]) -> Result<(), NoMemory> {
    for m in members {
        write_bytes(out, word)?;
        write_addr(out, m.address)?;
    }
    Ok(())
}

fn write_change(out: &mut Text, change: &StreamChange) -> Result<(), NoMemory> {
    match change {
        StreamChange::Put(_) => write_bytes(out, b" put"),
        StreamChange::Remove(_) => write_bytes(out, b" remove"),
        StreamChange::Patch {
            group,
            added,
            removed,
        } => {
            write_bytes(out, b" patch ")?;
            write_group(out, group)?;
            write_members(out, b" +", added.as_slice())?;
            write_members(out, b" -", removed.as_slice())
        }
    }
}

fn write_changes(out: &mut Text, changes: &[StreamChange]) -> Result<(), NoMemory> {
    for change in changes {
        write_change(out, change)?;
    }
    Ok(())
}

fn write_object(out: &mut Text, object: &StreamObject) -> Result<(), NoMemory> {
    write_bytes(out, b" ")?;
    match object {
        StreamObject::Policy(policy) => write_policy(out, &policy.key),
        StreamObject::Egress(egress) => write_bytes(out, egress.name.as_slice()),
        StreamObject::Group { group, members } => {
            write_group(out, group)?;
            write_members(out, b" ", members.as_slice())
        }
    }
}

fn write_objects(out: &mut Text, objects: &[StreamObject]) -> Result<(), NoMemory> {
    for object in objects {
        write_object(out, object)?;
    }
    Ok(())
}

fn write_message(out: &mut Text, m: &Msg) -> Result<(), NoMemory> {
    match m {
        Msg::Delta(rev, changes) => {
            write_bytes(out, b"delta ")?;
            write_number(out, rev.0)?;
            write_changes(out, changes.as_slice())
        }
        Msg::Snapshot(rev, objects) => {
            write_bytes(out, b"snapshot ")?;
            write_number(out, rev.0)?;
            write_objects(out, objects.as_slice())
        }
    }
}

/// `delta 5 patch default/[app in (cli)] +10.10.2.8`, `snapshot 6 knp:default/web-in`, or `none`.
pub(crate) fn shown(rt: &impl Abort, alloc: Global, m: Option<&Msg>) -> Text {
    let mut text = Text::new(alloc);
    match m {
        Some(m) => write_message(&mut text, m).expect(rt, "memory"),
        None => write_bytes(&mut text, b"none").expect(rt, "memory"),
    }
    text
}

//! The files of a command, and what is told beside the output.
ghost use Rattle.std.specs.Prelude.{◌≡◌, ◌++◌};
ghost use Rattle.suite_run.specs.Words.{complaint, files_of, last_of, line_of, Says};

use crate::status::Status;
use cl_io::{Failed, Lines, Sink, put};
use cl_types::{List, Text};
use command_words::Command;

/// The names of the command's files.
pub(crate) fn files_of(command: &Command) -> &List<Text>
    ensures { result.now ≡ files_of command.now }
{
    match command {
        Command::Check { files } | Command::Replay { files, .. } => files,
    }
}

/// The name that was begun last.
pub(crate) fn last_begun(lines: &Lines) -> &[u8]
    ensures { result.now ≡ last_of lines.now.begun lines.now.names }
{
    match lines.last_begun() {
        Some(name) => name.as_slice(),
        None => b"",
    }
}

/// Tells why there isn't the whole output, where the status wants it. A failure changes nothing.
#[tactic(auto, unfolding(crate::specs::Words::complaint))]
pub(crate) fn complain<E: Sink>(err: &mut E, status: Status, name: &[u8])
    ensures { Says (complaint status name.now) (E.state err.old) (E.state err.new) }
{
    match status {
        Status::BadWords => say(
            err,
            b"usage: antrea check FILE... | replay [--ring N] FILE... | live [--ring N] FILE... | drill N\n",
        ),
        Status::OpenFault => say_of(err, b"antrea: cannot open ", name),
        Status::ReadFault => say_of(err, b"antrea: cannot read ", name),
        Status::InputTooLong => say(err, b"antrea: input too long\n"),
        Status::Done | Status::SomeRefused | Status::WriteFault | Status::NoMemory => say(err, b""),
    }
}

fn say<E: Sink>(err: &mut E, text: &[u8])
    ensures { Says text.now (E.state err.old) (E.state err.new) }
{
    let _ = put(err, text);
}

fn say_of<E: Sink>(err: &mut E, front: &[u8], name: &[u8])
    ensures { Says (front.now ++ line_of name.now) (E.state err.old) (E.state err.new) }
{
    let _ = put_of(err, front, name);
}

fn put_of<E: Sink>(err: &mut E, front: &[u8], name: &[u8]) -> Result<(), Failed>
    ensures { Says (front.now ++ line_of name.now) (E.state err.old) (E.state err.new) }
{
    put(err, front)?;
    put(err, name)?;
    put(err, b"\n")
}

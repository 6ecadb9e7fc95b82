//! The run over the lines of files.
ghost use Rattle.std.specs.Prelude.{◌≡◌, ◌↔◌, ◌++◌, [], IsTrue, IfOk, OnOk};
ghost use Rattle.cl_io.specs.Files.{FilesState};
ghost use Rattle.cl_io.specs.Reader.{Stands, reading_of};
ghost use Rattle.command_words.specs.Words.{HasRing, IsRing};
ghost use Rattle.suite_run.specs.Blocks.{count_if, counts_text, ending, ring_of, shows};
ghost use Rattle.suite_run.specs.Ends.{Concludes, Replayed};
ghost use Rattle.suite_run.specs.Shown.{part_of};
ghost use Rattle.suite_run.specs.World.{line_limit, input_limit};

use crate::blocks::LineBlock;
use crate::status::Status;
use crate::take::take_line;
use crate::world::World;
use cl_io::{Files, Line, Lines, Sink, put};
use cl_types::{NoMemory, Text, write_bytes, write_number};
use command_words::Command;
use std::alloc::Global;

/// Writes what the command shows of each line of the files, in order, and what it ends with. The reader is one that
/// gave no line yet.
pub(crate) fn replay<F: Files, O: Sink>(
    alloc: Global,
    command: &Command,
    lines: &mut Lines,
    files: &mut F,
    out: &mut O,
) -> Status
    requires ring { HasRing command.now }
    requires fresh { lines.old ≡ reading_of lines.old.names line_limit input_limit }
    requires stands { (base : FilesState) → Stands base [] lines.old base }
    ensures { Replayed command.now lines.old.names (F.state files.old) (O.state out.old) result lines.new (F.state files.new) (O.state out.new) }
{
    let Ok(mut world) = World::new(alloc, ring_of(command)) else {
        return Status::NoMemory;
    };
    let mut refused = 0;
    for number in 1..u64::MAX {
        let line = match lines.next(files) {
            Ok(line) => line,
            Err(fault) => return Status::of_fault(fault),
        };
        if is_end(&line) {
            return conclude(alloc, command, number - 1, refused, out);
        }
        let Ok(taken) = take_line(alloc, world, number, &line) else {
            return Status::NoMemory;
        };
        if put(out, part_of(command, &taken.block)).is_err() {
            return Status::WriteFault;
        }
        refused += count_if(taken.block.refusal);
        world = taken.world;
    }
    // Each line uses up a byte of the input, which has a limit.
    unreachable!()
}

fn ring_of(command: &Command) -> u32
    requires { HasRing command.now }
    ensures ring { result ≡ ring_of command.now }
    ensures range { IsRing result }
{
    match command {
        Command::Check { .. } => 256,
        Command::Replay { ring, .. } => *ring,
    }
}

fn is_end(line: &Line) -> bool
    ensures { IsTrue result ↔ (line.now ≡ Line.End) }
{
    matches!(line, Line::End)
}

fn count_if(is_refused: bool) -> u64
    ensures { result ≡ count_if is_refused }
{
    match is_refused {
        true => 1,
        false => 0,
    }
}

fn shows(command: &Command, is_refused: bool) -> bool
    ensures { result ≡ shows command.now is_refused }
{
    match command {
        Command::Check { .. } => is_refused,
        Command::Replay { .. } => true,
    }
}

// What the command shows of the block.
fn part_of<'a>(command: &Command, block: &'a LineBlock) -> &'a [u8]
    ensures { result.now ≡ part_of command.now block.now }
{
    if shows(command, block.refusal) {
        block.text.as_slice()
    } else {
        b""
    }
}

#[tactic(auto, unfolding(crate::specs::Blocks::counts_text))]
fn write_counts(out: &mut Text, lines: u64, refused: u64) -> Result<(), NoMemory>
    ensures { OnOk result (out.new ≡ out.old ++ counts_text lines refused) }
{
    write_number(out, lines)?;
    write_bytes(out, b" lines ")?;
    write_number(out, refused)?;
    write_bytes(out, b" refused\n")
}

fn ending(alloc: Global, command: &Command, lines: u64, refused: u64) -> Result<Text, NoMemory>
    ensures { IfOk result (λ text. text ≡ ending command.now lines refused) }
{
    let mut text = Text::new(alloc);
    match command {
        Command::Check { .. } => write_counts(&mut text, lines, refused)?,
        Command::Replay { .. } => {}
    }
    Ok(text)
}

// Writes what the command ends with.
fn conclude<O: Sink>(
    alloc: Global,
    command: &Command,
    lines: u64,
    refused: u64,
    out: &mut O,
) -> Status
    ensures { Concludes (ending command.now lines refused) refused (O.state out.old) result (O.state out.new) }
{
    let Ok(text) = ending(alloc, command, lines, refused) else {
        return Status::NoMemory;
    };
    if put(out, text.as_slice()).is_err() {
        return Status::WriteFault;
    }
    Status::of_whole(refused)
}

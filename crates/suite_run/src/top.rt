//! The top call.
ghost use Rattle.std.specs.Prelude.{IfOk, map, string_bytes};
ghost use Rattle.command_words.specs.Words.{HasRing};
ghost use Rattle.suite_run.specs.Run.{Causes, Complains, IsFinal, MeansNothing, Prints, Ran, Stays, Stops};
ghost use Rattle.suite_run.specs.Words.{files_of, meant};

use crate::replay::replay;
use crate::site::Site;
use crate::status::Status;
use crate::words::{complain, files_of, last_begun};
use cl_io::{Files, Lines, Sink};
use cl_types::Copies;
use command_words::{Command, WordsFault, read_words};
use std::alloc::Global;

/// The most bytes of a line that is read.
const LINE_LIMIT: u64 = 1_048_576;

/// The most bytes that are read of all files.
const INPUT_LIMIT: u64 = 4_294_967_296;

// Writes what the command shows of the lines of its files, and tells why it stopped.
fn run<F: Files, O: Sink, E: Sink>(
    alloc: Global,
    command: &Command,
    files: &mut F,
    out: &mut O,
    err: &mut E,
) -> Status
    requires { HasRing command.now }
    ensures ran { Ran command.now (files_of command.now) (F.state files.old) (O.state out.old) result (F.state files.new) (O.state out.new) }
    ensures complains { Complains (files_of command.now) (F.state files.old) (E.state err.old) result (F.state files.new) (E.state err.new) }
{
    let Ok(names) = files_of(command).copy() else {
        complain(err, Status::NoMemory, b"");
        return Status::NoMemory;
    };
    let mut lines = Lines::new(alloc, names, LINE_LIMIT, INPUT_LIMIT);
    let status = replay(alloc, command, &mut lines, files, out);
    complain(err, status, last_begun(&lines));
    status
}

/// Does what the words after the program's name say. `replay` writes the block of each line of its files. `check`
/// writes the blocks of refused lines alone, and then how many lines there are and how many of them are refused. With
/// every other status than these of the whole input the text stops where the clause `stops` says.
///
/// The blocks are read off the machine of `run_machine`. What holds of its world after any lines is the law
/// `lines_lead_to_sound_worlds`; that a refused line is as a blank one is `refused_lines_change_nothing`; the laws of
/// `run_machine` say the same of every list of events, and that every world settles.
pub fn calm<F: Files, O: Sink, E: Sink>(
    alloc: Global,
    words: &Vec<String>,
    files: &mut F,
    out: &mut O,
    err: &mut E,
    _site: &mut Site,
) -> Status
    ensures words { MeansNothing (map string_bytes words.now.items)
        (F.state files.old) (O.state out.old) result (F.state files.new) (O.state out.new) }
    ensures prints { IsFinal result → Prints (meant (map string_bytes words.now.items)) (files_of (meant (map string_bytes words.now.items)))
        (F.state files.old) (O.state out.old) result (F.state files.new) (O.state out.new) }
    ensures stops { Stops (meant (map string_bytes words.now.items)) (files_of (meant (map string_bytes words.now.items)))
        (F.state files.old) (O.state out.old) result (F.state files.new) (O.state out.new) }
    ensures causes { Causes (meant (map string_bytes words.now.items)) (files_of (meant (map string_bytes words.now.items)))
        (F.state files.old) (O.state out.old) result (F.state files.new) (O.state out.new) }
    ensures complains { Complains (files_of (meant (map string_bytes words.now.items)))
        (F.state files.old) (E.state err.old) result (F.state files.new) (E.state err.new) }
    ensures stays { Stays (files_of (meant (map string_bytes words.now.items)))
        (F.state files.old) (O.state out.old) (F.state files.new) (O.state out.new) }
{
    match read_words(alloc, words.as_slice()) {
        Ok(command) => run(alloc, &command, files, out, err),
        Err(WordsFault::BadWords) => {
            complain(err, Status::BadWords, b"");
            Status::BadWords
        }
        Err(WordsFault::NoMemory) => {
            complain(err, Status::NoMemory, b"");
            Status::NoMemory
        }
    }
}

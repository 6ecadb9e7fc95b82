//! Words by `clap`.
ghost use Rattle.std.specs.Prelude.{◌≡◌, ◌≢◌, false, true, None, map, string_bytes, IfOk, IfErr, unwrap_or, OnOk};
ghost use Rattle.clap.specs.Words.{app_of, found_of, is_simple_and_free, kind_of, matches_of, rows_of, rule_of};
ghost use Rattle.clap.specs.Simple.{is_simple};
ghost use Rattle.command_words.specs.Words.{HasRing, IsRing, Reads, are_taken, check_app, check_of, files_in, files_rule, replay_app, replay_of, ring_in, ring_rule, words_mean};

use crate::command::{Command, WordsFault};
use cl_types::{List, NoMemory, Text};
use clap::error::ErrorKind;
use clap::{Arg, ArgAction, ArgMatches, Error};
use std::alloc::Global;

fn files_argument<'a>(alloc: Global) -> Arg<'a>
    ensures rule { rule_of result ≡ files_rule }
    ensures local { result.global ≡ false }
{
    Arg::new(alloc, "file")
        .action(ArgAction::Append)
        .required(true)
}

fn ring_argument<'a>(alloc: Global) -> Arg<'a>
    ensures rule { rule_of result ≡ ring_rule }
    ensures local { result.global ≡ false }
{
    Arg::new(alloc, "ring")
        .long("ring")
        .value_parser(clap::value_parser!(u32).range(1..=4096))
        .default_value("256")
}

fn check_command<'a>(alloc: Global) -> Result<clap::Command<'a>, NoMemory>
    ensures { IfOk result (λ c. app_of c ≡ check_app) }
{
    Ok(clap::Command::new(alloc, "check").arg(files_argument(alloc))?)
}

fn replay_command<'a>(alloc: Global) -> Result<clap::Command<'a>, NoMemory>
    ensures { IfOk result (λ c. app_of c ≡ replay_app) }
{
    Ok(
        clap::Command::new(alloc, "replay")
            .arg(ring_argument(alloc))?
            .arg(files_argument(alloc))?,
    )
}

// Why words aren't of a command's form: memory ran out, or they are bad.
fn fault_of(error: &Error) -> WordsFault
    ensures memory { result ≡ WordsFault.NoMemory → kind_of error.now ≡ ErrorKind.OutOfMemory }
    ensures bad { result ≡ WordsFault.BadWords → kind_of error.now ≢ ErrorKind.OutOfMemory }
{
    match error.kind() {
        ErrorKind::OutOfMemory => WordsFault::NoMemory,
        _ => WordsFault::BadWords,
    }
}

// What words of the command's form give.
fn matched<'a>(
    command: clap::Command<'a>,
    words: &'a [String],
) -> Result<ArgMatches<'a>, WordsFault>
    requires free { is_simple_and_free (app_of command) ≡ true }
    requires simple { is_simple (app_of command) ≡ true }
    ensures taken { IfOk result (λ _. are_taken (app_of command.entry) (map string_bytes words.entry.now) ≡ true) }
    ensures rows { IfOk result (λ m. rows_of (found_of m) ≡ matches_of (app_of command.entry) (map string_bytes words.entry.now)) }
    ensures bad { IfErr result (λ fault. fault ≡ WordsFault.BadWords → are_taken (app_of command.entry) (map string_bytes words.entry.now) ≡ false) }
{
    match command.try_get_matches_from(words) {
        Ok(matches) => Ok(matches),
        Err(error) => Err(fault_of(&error)),
    }
}

fn text_of(alloc: Global, text: &str) -> Result<Text, NoMemory>
    ensures { IfOk result (λ t. t ≡ text.now) }
{
    Ok(Text::of(Vec::from_slice(alloc, text.as_bytes())?))
}

fn texts(alloc: Global, names: &[&str]) -> Result<List<Text>, NoMemory>
    ensures { IfOk result (λ l. l ≡ map (λ name. name.now) names.now) }
{
    let mut texts = Vec::with_capacity(alloc, names.len())?;
    for name in names {
        texts.push(text_of(alloc, name)?)?;
    }
    Ok(List::of(texts))
}

// The values of the files' argument.
fn files(alloc: Global, matches: &ArgMatches) -> Result<List<Text>, NoMemory>
    ensures { IfOk result (λ l. l ≡ files_in (rows_of (found_of matches.now))) }
{
    match matches.get_strs("file") {
        Some(names) => texts(alloc, names),
        None => Ok(List::of(Vec::new(alloc))),
    }
}

// The number of `--ring`. A value that passed its parser is one from 1 to 4096.
fn ring(matches: &ArgMatches) -> Result<u32, NoMemory>
    ensures value { IfOk result (λ places. places ≡ ring_in (rows_of (found_of matches.now))) }
    ensures range { IfOk result IsRing }
{
    let Some(ring) = matches.get_one::<u32>("ring") else {
        return Err(NoMemory);
    };
    if ring < 1 || ring > 4096 {
        return Err(NoMemory);
    }
    Ok(ring)
}

fn check(alloc: Global, words: &[String]) -> Result<Command, WordsFault>
    ensures reads { Reads (check_of (map string_bytes words.now)) result }
    ensures ring { IfOk result HasRing }
{
    let command = check_command(alloc)?;
    match matched(command, words) {
        Ok(matches) => Ok(Command::Check {
            files: files(alloc, &matches)?,
        }),
        Err(fault) => return Err(fault),
    }
}

fn replay(alloc: Global, words: &[String]) -> Result<Command, WordsFault>
    ensures reads { Reads (replay_of (map string_bytes words.now)) result }
    ensures ring { IfOk result HasRing }
{
    let command = replay_command(alloc)?;
    match matched(command, words) {
        Ok(matches) => Ok(Command::Replay {
            ring: ring(&matches)?,
            files: files(alloc, &matches)?,
        }),
        Err(fault) => return Err(fault),
    }
}

/// Reads the words after the program's name: a command's name, its options, and its files. An option may stand among
/// the files, `--` ends the options, and `-` is a file's name like any other. It answers `BadWords` exactly where the
/// words mean no command, a call for help among them.
#[tactic(auto, unfolding(crate::specs::Words::words_mean))]
pub fn read_words(alloc: Global, words: &[String]) -> Result<Command, WordsFault>
    ensures reads { Reads (words_mean (map string_bytes words.now)) result }
    ensures ring { IfOk result HasRing }
{
    match words {
        [] => Err(WordsFault::BadWords),
        [name, ..] if name.as_str() == "check" => check(alloc, words),
        [name, ..] if name.as_str() == "replay" => replay(alloc, words),
        _ => Err(WordsFault::BadWords),
    }
}

use crate::{Command, WordsFault, read_words};
use cl_types::{List, Text};
use std::alloc::{AllocError, Global};
use std::process::Abort;

fn strings(alloc: Global, words: &[&str]) -> Result<Vec<String>, AllocError> {
    let mut strings = Vec::new(alloc);
    for word in words {
        strings.push(String::from_str(alloc, word)?)?;
    }
    Ok(strings)
}

// Whether the files are these.
fn are(files: &List<Text>, names: &[&str]) -> bool {
    let files = files.as_slice();
    files.len() == names.len()
        && (0..names.len()).all(|i| files[i].as_slice() == names[i].as_bytes())
}

struct Row<'a> {
    words: &'a [&'a str],
    // The places of a ring; none for `check`.
    ring: Option<u32>,
    files: &'a [&'a str],
}

fn means(rt: &impl Abort, alloc: Global, row: &Row) -> bool {
    let words = strings(alloc, row.words).expect(rt, "memory");
    match read_words(alloc, words.as_slice()) {
        Ok(Command::Check { files }) => row.ring.is_none() && are(&files, row.files),
        Ok(Command::Replay { ring, files }) => row.ring == Some(ring) && are(&files, row.files),
        Err(_) => false,
    }
}

fn are_bad(rt: &impl Abort, alloc: Global, words: &[&str]) -> bool {
    let words = strings(alloc, words).expect(rt, "memory");
    matches!(
        read_words(alloc, words.as_slice()),
        Err(WordsFault::BadWords)
    )
}

const COMMANDS: [Row<'static>; 8] = [
    Row {
        words: &["check", "F"],
        ring: None,
        files: &["F"],
    },
    Row {
        words: &["check", "F", "-", "G"],
        ring: None,
        files: &["F", "-", "G"],
    },
    // 256 places where no number is given
    Row {
        words: &["replay", "F"],
        ring: Some(256),
        files: &["F"],
    },
    Row {
        words: &["replay", "--ring", "1", "F", "G"],
        ring: Some(1),
        files: &["F", "G"],
    },
    Row {
        words: &["replay", "--ring=4096", "F"],
        ring: Some(4096),
        files: &["F"],
    },
    // an option stands among the files
    Row {
        words: &["replay", "F", "--ring", "7", "G"],
        ring: Some(7),
        files: &["F", "G"],
    },
    // after `--` there are files alone
    Row {
        words: &["replay", "--", "--ring"],
        ring: Some(256),
        files: &["--ring"],
    },
    Row {
        words: &["check", "check"],
        ring: None,
        files: &["check"],
    },
];

const BAD: [&[&str]; 13] = [
    &[],
    &["check"],
    &["replay"],
    &["replay", "--ring", "1"],
    &["replay", "--ring", "0", "F"],
    &["replay", "--ring", "4097", "F"],
    &["replay", "--ring", "a", "F"],
    &["replay", "--ring", "1", "--ring", "2", "F"],
    &["check", "--ring", "1", "F"],
    &["check", "--help"],
    &["Check", "F"],
    &["live", "F"],
    &["drill", "10"],
];

#[test]
fn words_mean_commands(rt: HostRuntime) {
    let alloc = rt.alloc();
    for row in &COMMANDS {
        assert!(rt; means(&rt, alloc, row));
    }
}

#[test]
fn bad_words_mean_none(rt: HostRuntime) {
    let alloc = rt.alloc();
    for words in &BAD {
        assert!(rt; are_bad(&rt, alloc, words));
    }
}

use crate::{Site, Status, calm};
use cl_io::{MemFiles, MemSink, NamedBytes};
use cl_types::{List, NoMemory, Text};
use std::alloc::{AllocError, Global};
use std::process::Abort;

mod objects;
mod rows;
mod streams;

// What a run over files and sinks in memory came to.
#[derive(Drop)]
pub(crate) struct Ran {
    pub(crate) status: Status,
    pub(crate) out: Vec<u8>,
    pub(crate) err: Vec<u8>,
}

// Where the files and the sinks fail: the numbers of calls, counted from 1, and the place after so many bytes.
#[derive(Clone, Copy)]
pub(crate) struct Faults<'a> {
    files: &'a [u64],
    file_at: Option<u64>,
    out: &'a [u64],
    err: &'a [u64],
}

pub(crate) const NONE: Faults<'static> = Faults {
    files: &[],
    file_at: None,
    out: &[],
    err: &[],
};

// Two lines that are values of JSON and no objects.
const LINES: &[u8] = b"1\n2\n";

const BLOCKS: &[u8] = b"1 refused BadShape .\n2 refused BadShape .\n";

fn text(alloc: Global, bytes: &[u8]) -> Result<Text, AllocError> {
    Ok(Text::of(bytes.to_vec(alloc)?))
}

fn strings(alloc: Global, words: &[&str]) -> Result<Vec<String>, AllocError> {
    let mut strings = Vec::new(alloc);
    for word in words {
        strings.push(String::from_str(alloc, word)?)?;
    }
    Ok(strings)
}

// The file `F` of these bytes, read in pieces of two. It is known that there is no file `nofile`.
fn file_of(alloc: Global, bytes: &[u8], faults: &Faults) -> Result<MemFiles, NoMemory> {
    let mut files = Vec::new(alloc);
    files.push(NamedBytes {
        name: text(alloc, b"F")?,
        bytes: text(alloc, bytes)?,
    })?;
    let mut missing = Vec::new(alloc);
    missing.push(text(alloc, b"nofile")?)?;
    let fail_calls = List::of(faults.files.to_vec(alloc)?);
    MemFiles::new(
        alloc,
        List::of(files),
        List::of(missing),
        2,
        fail_calls,
        faults.file_at,
    )
}

fn sink_of(alloc: Global, fail_calls: &[u64]) -> Result<MemSink, NoMemory> {
    MemSink::new(alloc, List::of(fail_calls.to_vec(alloc)?), 1, 999)
}

// Runs the words over the file `F` of these bytes.
pub(crate) fn replayed(
    rt: &impl Abort,
    alloc: Global,
    words: &[&str],
    bytes: &[u8],
    faults: Faults,
) -> Ran {
    let given = strings(alloc, words).expect(rt, "memory");
    let mut files = file_of(alloc, bytes, &faults).expect(rt, "memory");
    let mut out = sink_of(alloc, faults.out).expect(rt, "memory");
    let mut err = sink_of(alloc, faults.err).expect(rt, "memory");
    let status = calm(
        alloc,
        &given,
        &mut files,
        &mut out,
        &mut err,
        &mut Site::new(),
    );
    Ran {
        status,
        out: out.written().to_vec(alloc).expect(rt, "memory"),
        err: err.written().to_vec(alloc).expect(rt, "memory"),
    }
}

#[test]
fn words_that_are_no_command(rt: HostRuntime) {
    let cases: [&[&str]; 6] = [
        &[],
        &["replay"],
        &["check"],
        &["replay", "--ring", "0", "F"],
        &["live", "F"],
        &["drill", "10"],
    ];
    for words in cases {
        let ran = replayed(&rt, rt.alloc(), words, LINES, NONE);
        assert_eq!(rt; ran.status.exit_code(), 2);
        assert!(rt; ran.out.is_empty());
        assert_eq!(rt;
            ran.err.as_slice(),
            b"usage: antrea check FILE... | replay [--ring N] FILE... | live [--ring N] FILE... | drill N\n".as_slice()
        );
    }
}

// A run over the two lines that ends with the status, after this many bytes of the blocks, and says so.
fn ends(rt: &impl Abort, alloc: Global, faults: Faults, status: u8, count: usize, said: &[u8]) {
    let ran = replayed(rt, alloc, &["replay", "F"], LINES, faults);
    assert_eq!(rt; ran.status.exit_code(), status);
    assert_eq!(rt; ran.out.len(), count);
    assert!(rt; BLOCKS.starts_with(ran.out.as_slice()));
    assert_eq!(rt; ran.err.as_slice(), said);
}

#[test]
fn faults_of_files_and_sinks(rt: HostRuntime) {
    let unopened: &[u8] = b"antrea: cannot open F\n";
    let unreadable: &[u8] = b"antrea: cannot read F\n";
    ends(&rt, rt.alloc(), NONE, 1, 42, b"");
    ends(
        &rt,
        rt.alloc(),
        Faults {
            files: &[1],
            ..NONE
        },
        3,
        0,
        unopened,
    );
    // The words on standard error fail at their first byte, and after the words before the name.
    ends(
        &rt,
        rt.alloc(),
        Faults {
            files: &[1],
            err: &[1],
            ..NONE
        },
        3,
        0,
        b"",
    );
    ends(
        &rt,
        rt.alloc(),
        Faults {
            files: &[1],
            err: &[21],
            ..NONE
        },
        3,
        0,
        &unopened[..20],
    );
    // A read fails after so many bytes: the blocks of the lines that are whole by then are written.
    for (place, count) in [0, 0, 21, 21, 42].into_iter().enumerate() {
        let faults = Faults {
            file_at: Some(place as u64),
            ..NONE
        };
        ends(&rt, rt.alloc(), faults, 4, count, unreadable);
    }
    // Each write of one byte fails.
    for call in 1..43 {
        ends(
            &rt,
            rt.alloc(),
            Faults {
                out: &[call],
                ..NONE
            },
            5,
            call as usize - 1,
            b"",
        );
    }
}

#[test]
fn a_missing_file(rt: HostRuntime) {
    let ran = replayed(&rt, rt.alloc(), &["replay", "nofile"], LINES, NONE);
    assert_eq!(rt; ran.status.exit_code(), 3);
    assert!(rt; ran.out.is_empty());
    assert_eq!(rt;
        ran.err.as_slice(),
        b"antrea: cannot open nofile\n".as_slice()
    );
}

#[test]
fn an_empty_file_prints_nothing(rt: HostRuntime) {
    let ran = replayed(&rt, rt.alloc(), &["replay", "F"], b"", NONE);
    assert_eq!(rt; ran.status, Status::Done);
    assert!(rt; ran.out.is_empty());
}

// Runs the words over the two lines, as often as they name the file `F`.
fn writes(rt: &impl Abort, alloc: Global, words: &[&str], status: u8, out: &[u8], said: &[u8]) {
    let ran = replayed(rt, alloc, words, LINES, NONE);
    assert_eq!(rt; ran.status.exit_code(), status);
    assert_eq!(rt; ran.out.as_slice(), out);
    assert_eq!(rt; ran.err.as_slice(), said);
}

#[test]
fn commands_over_several_files(rt: HostRuntime) {
    let alloc = rt.alloc();
    let twice: &[u8] =
        b"1 refused BadShape .\n2 refused BadShape .\n3 refused BadShape .\n4 refused BadShape .\n";
    writes(
        &rt,
        alloc,
        &["replay", "--ring", "1", "F", "F"],
        1,
        twice,
        b"",
    );
    // The second file is missing: what is due of the first is written, and no count.
    let missing: &[u8] = b"antrea: cannot open nofile\n";
    writes(&rt, alloc, &["replay", "F", "nofile"], 3, BLOCKS, missing);
    writes(
        &rt,
        alloc,
        &["check", "F", "nofile", "F"],
        3,
        BLOCKS,
        missing,
    );
    writes(
        &rt,
        alloc,
        &["check", "F"],
        1,
        b"1 refused BadShape .\n2 refused BadShape .\n2 lines 2 refused\n",
        b"",
    );
}

#[test]
fn check_writes_refusals_and_counts(rt: HostRuntime) {
    // A blank line counts as a line, and as no refusal.
    let lines: &[u8] =
        b"\n1\n{\"kind\":\"Service\",\"apiVersion\":\"v1\",\"metadata\":{\"name\":\"s\"}}\n";
    let ran = replayed(&rt, rt.alloc(), &["check", "F"], lines, NONE);
    assert_eq!(rt; ran.status, Status::SomeRefused);
    assert_eq!(rt;
        ran.out.as_slice(),
        b"2 refused BadShape .\n3 lines 1 refused\n".as_slice()
    );
    let ran = replayed(&rt, rt.alloc(), &["check", "F"], b"", NONE);
    assert_eq!(rt; ran.status, Status::Done);
    assert_eq!(rt; ran.out.as_slice(), b"0 lines 0 refused\n".as_slice());
}

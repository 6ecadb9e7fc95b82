use crate::{
    Failed, Files, Line, LineFault, Lines, MemFiles, MemSink, NamedBytes, Sink, StdFiles, StdSink,
    put,
};
use cl_types::{Copies, List, Text};
use std::alloc::{AllocError, Global};
use std::process::Abort;
use std::test::Fail;
use std::{env, fs};

fn text(alloc: Global, bytes: &[u8]) -> Result<Text, AllocError> {
    Ok(Text::of(bytes.to_vec(alloc)?))
}

// The texts of one byte each.
fn texts(alloc: Global, bytes: &[u8]) -> Result<List<Text>, AllocError> {
    let mut texts = Vec::new(alloc);
    for byte in bytes {
        texts.push(text(alloc, &[*byte])?)?;
    }
    Ok(List::of(texts))
}

// Files of these contents, named by the letters from `a` on in order.
fn named(alloc: Global, contents: &[&[u8]]) -> Result<List<NamedBytes>, AllocError> {
    let mut files = Vec::new(alloc);
    for (place, bytes) in contents.iter().enumerate() {
        let name = text(alloc, &[b'a' + (place % 26) as u8])?;
        let bytes = text(alloc, bytes)?;
        files.push(NamedBytes { name, bytes })?;
    }
    Ok(List::of(files))
}

fn files_of(
    rt: &impl Abort,
    alloc: Global,
    contents: &[&[u8]],
    missing: &[u8],
    fail_calls: &[u64],
    fail_at: Option<u64>,
) -> MemFiles {
    let files = named(alloc, contents).expect(rt, "memory");
    let missing = texts(alloc, missing).expect(rt, "memory");
    let fail_calls = List::of(fail_calls.to_vec(alloc).expect(rt, "memory"));
    MemFiles::new(alloc, files, missing, 9, fail_calls, fail_at).expect(rt, "memory")
}

fn word(fault: LineFault) -> &'static [u8] {
    match fault {
        LineFault::Begin => b"begin",
        LineFault::Read => b"read",
        LineFault::InputTooLong => b"input",
        LineFault::NoMemory => b"memory",
    }
}

fn add_line(rt: &impl Abort, out: &mut Vec<u8>, words: &[u8]) {
    out.extend_from_slice(words).expect(rt, "memory");
    out.push(b'\n').expect(rt, "memory");
}

// What a reader of the files with these names answers, each answer on a line of its own, up to the last. A
// line that is too long is `#` and the last digit of its length.
fn answers(
    rt: &impl Abort,
    alloc: Global,
    files: &mut MemFiles,
    names: &[u8],
    line_limit: u64,
    input_limit: u64,
) -> Vec<u8> {
    let names = texts(alloc, names).expect(rt, "memory");
    let mut lines = Lines::new(alloc, names, line_limit, input_limit);
    let mut out = Vec::new(alloc);
    for _ in 0..99 {
        match lines.next(files) {
            Ok(Line::Whole(line)) => add_line(rt, &mut out, line.as_slice()),
            Ok(Line::TooLong(count)) => {
                add_line(rt, &mut out, &[b'#', b'0' + (count % 10) as u8])
            }
            Ok(Line::End) => return out,
            Err(fault) => {
                add_line(rt, &mut out, word(fault));
                return out;
            }
        }
    }
    out
}

// The contents of files, the names that are read, the limits of a line and of the input, and the answers.
const READINGS: &[(&[&[u8]], &[u8], u64, u64, &[u8])] = &[
    (&[b"x\ny"], b"a", 9, 99, b"x\ny\n"),
    (&[b"x\n\ny\n"], b"a", 9, 99, b"x\n\ny\n"),
    (&[b""], b"a", 9, 99, b""),
    (&[b"x", b"y\n"], b"ab", 9, 99, b"x\ny\n"),
    (&[b"abc\nabcd\n"], b"a", 3, 99, b"abc\n#4\n"),
    (&[b"ab\ncd"], b"a", 9, 4, b"ab\ninput\n"),
    (&[b"ab\nc"], b"a", 9, 4, b"ab\nc\n"),
    (&[b"ab\nc", b"d"], b"ab", 9, 4, b"ab\nc\ninput\n"),
    (&[b"x\ny"], b"az", 9, 99, b"x\ny\nbegin\n"),
];

#[test]
fn lines_of_files(rt: HostRuntime) {
    let alloc = rt.alloc();
    for (contents, names, line_limit, input_limit, wanted) in READINGS {
        let mut files = files_of(&rt, alloc, contents, b"z", &[], None);
        let got = answers(&rt, alloc, &mut files, names, *line_limit, *input_limit);
        assert_eq!(rt; got.as_slice(), *wanted);
    }
}

// The calls that fail, the place where a read fails, the answers, and the count of faults.
const FAULTS: &[(&[u64], Option<u64>, &[u8], u64)] = &[
    (&[], None, b"ab\ncd\n", 0),
    (&[1], None, b"begin\n", 1),
    (&[2], None, b"read\n", 1),
    (&[], Some(0), b"read\n", 1),
    (&[], Some(4), b"ab\nread\n", 1),
    (&[], Some(6), b"ab\ncd\nread\n", 1),
];

#[test]
fn faults_where_they_are_told(rt: HostRuntime) {
    let alloc = rt.alloc();
    for (fail_calls, fail_at, wanted, faults) in FAULTS {
        let mut files = files_of(&rt, alloc, &[b"ab\ncd\n"], b"", fail_calls, *fail_at);
        let got = answers(&rt, alloc, &mut files, b"a", 9, 99);
        assert_eq!(rt; got.as_slice(), *wanted);
        assert_eq!(rt; files.faults(), *faults);
    }
}

// The calls that fail, the piece, the room, what is written of `abc`, and the count of faults.
const WRITINGS: &[(&[u64], u32, u64, &[u8], u64)] = &[
    (&[], 9, 9, b"abc", 0),
    (&[], 1, 9, b"abc", 0),
    (&[], 9, 2, b"ab", 1),
    (&[1], 9, 9, b"", 1),
    (&[3], 1, 9, b"ab", 1),
];

#[test]
fn a_sink_takes_what_it_is_told(rt: HostRuntime) {
    let alloc = rt.alloc();
    for (fail_calls, piece, room, wanted, faults) in WRITINGS {
        assert!(rt; *piece >= 1);
        let fail_calls = List::of(fail_calls.to_vec(alloc).expect(&rt, "memory"));
        let mut sink = MemSink::new(alloc, fail_calls, *piece, *room).expect(&rt, "memory");
        let result = put(&mut sink, b"abc");
        assert_eq!(rt; result.is_ok(), *faults == 0);
        assert_eq!(rt; sink.written(), *wanted);
        assert_eq!(rt; sink.faults(), *faults);
    }
}

fn is_copied_file(rt: &impl Abort, file: &NamedBytes) -> bool {
    let copy = file.copy().expect(rt, "memory");
    copy.name == file.name && copy.bytes == file.bytes
}

fn is_copied_line(rt: &impl Abort, line: &Line) -> bool {
    match (&line.copy().expect(rt, "memory"), line) {
        (Line::Whole(copy), Line::Whole(text)) => copy == text,
        _ => false,
    }
}

#[test]
fn a_copy_equals_its_source(rt: HostRuntime) {
    let alloc = rt.alloc();
    let files = named(alloc, &[b"xy"]).expect(&rt, "memory");
    assert!(rt;
        files
            .as_slice()
            .iter()
            .all(|file| is_copied_file(&rt, file))
    );
    let line = Line::Whole(text(alloc, b"z").expect(&rt, "memory"));
    assert!(rt; is_copied_line(&rt, &line));
}

#[test]
fn files_of_the_system(rt: HostRuntime) -> Result<(), Fail> {
    let alloc = rt.alloc();
    let path = env::temp_dir(&rt)?.join(alloc, "cl_io_files_of_the_system")?;
    let name = text(alloc, path.as_path().as_str().as_bytes())?;
    fs::write(&rt, path.as_path(), b"xy")?;
    let mut files = StdFiles::new(rt.clone()?);
    let mut buffer = [0; 4];
    assert_eq!(rt; files.read(&mut buffer), Ok(0));
    assert_eq!(rt; files.begin(&text(alloc, b"\xff")?), Err(Failed));
    assert_eq!(rt; files.begin(&name), Ok(()));
    assert_eq!(rt; files.read(&mut buffer), Ok(2));
    assert_eq!(rt; buffer, *b"xy\0\0");
    assert_eq!(rt; files.read(&mut buffer), Ok(0));
    fs::remove_file(&rt, path.as_path())?;
    assert_eq!(rt; files.begin(&name), Err(Failed));
    let mut bytes = Vec::new(alloc);
    let mut sink = StdSink::new(&mut bytes);
    assert_eq!(rt; put(&mut sink, b"xyz"), Ok(()));
    assert_eq!(rt; bytes.as_slice(), b"xyz".as_slice());
    Ok(())
}

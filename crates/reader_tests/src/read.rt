//! What a line is read as, in words.
use crate::shown::shown;
use cl_types::Text;
use policy_reader::{ReadRefusal, read_line};
use std::alloc::Global;
use std::process::Abort;

fn detail(rt: &impl Abort, alloc: Global, name: &str, text: &Text) -> String {
    let text = str::from_utf8(text.as_slice()).unwrap_or("?");
    format!(in alloc; "{name} {text}").expect(rt, "memory")
}

// The name of a refusal, and its detail.
fn refused(rt: &impl Abort, alloc: Global, refusal: &ReadRefusal) -> String {
    match refusal {
        ReadRefusal::BadShape(path) => detail(rt, alloc, "BadShape", path),
        ReadRefusal::Unsupported(name) => detail(rt, alloc, "Unsupported", name),
        other => format!(in alloc; "{other:?}").expect(rt, "memory"),
    }
}

// What the line says, or its refusal.
pub(crate) fn told(rt: &impl Abort, alloc: Global, line: &str) -> String {
    match read_line(alloc, line.as_bytes()) {
        Ok(item) => {
            let text = shown(rt, alloc, &item);
            let text = str::from_utf8(text.as_slice()).unwrap_or("?");
            format!(in alloc; "{text}").expect(rt, "memory")
        }
        Err(refusal) => refused(rt, alloc, &refusal),
    }
}

/// Reads each first part of a row as a line, and compares what it says with the second part.
pub(crate) fn expect_lines(rt: &impl Abort, alloc: Global, rows: &[(&str, &str)]) {
    for (line, expected) in rows {
        assert_eq!(rt; told(rt, alloc, line).as_str(), *expected, "of {line}");
    }
}

// The fault of the line, nothing where it is read.
fn fault_of(rt: &impl Abort, alloc: Global, line: &str) -> String {
    match read_line(alloc, line.as_bytes()) {
        Ok(_) => String::new(alloc),
        Err(refusal) => refused(rt, alloc, &refusal),
    }
}

/// The same where the first part of a row is the middle of a line. A row without a second part is read.
pub(crate) fn expect_parts(
    rt: &impl Abort,
    alloc: Global,
    before: &str,
    after: &str,
    rows: &[(&str, &str)],
) {
    for (part, expected) in rows {
        let line = format!(in alloc; "{before}{part}{after}").expect(rt, "memory");
        assert_eq!(rt; fault_of(rt, alloc, &line).as_str(), *expected, "of {part}");
    }
}

//! The outside: files that are read, sinks that are written, and the lines of files.
#![tactic(auto)]

mod files;
mod gate;
mod lines;
mod mem_files;
mod mem_sink;
mod script;
mod sink;
mod std_files;
mod std_sink;

pub use files::{Failed, Files};
pub use gate::{Gate, Who};
pub use lines::{Line, LineFault, Lines};
pub use mem_files::{MemFiles, NamedBytes};
pub use mem_sink::MemSink;
pub use sink::{Sink, put};
pub use std_files::StdFiles;
pub use std_sink::StdSink;

#[cfg(test)]
mod tests;

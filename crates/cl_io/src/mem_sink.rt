ghost use Rattle.std.specs.Prelude.{◌≡◌, ◌≤◌, ◌<◌, ◌+◌, Some, IfOk, vec_len, vec_capacity};

use crate::files::Failed;
use crate::script::Script;
use crate::sink::Sink;
use cl_types::{List, NoMemory};
use std::alloc::Global;

/// A sink in memory, which fails where it is told to.
#[derive(Drop)]
pub struct MemSink {
    bytes: Vec<u8>,
    script: Script,
    piece: u32,
    room: u64,
    ghost some: { 0 < piece },
    ghost roomy: { vec_len bytes + room ≤ vec_capacity bytes },
}

impl MemSink {
    ghost use Rattle.cl_io.specs.Memory.{is_empty, fresh_sink};
    ghost use Rattle.cl_io.specs.MemoryStates.{failing_writes, writes_made, piece_of};

    /// A sink with room for so many bytes, which takes at most `piece` bytes at once. The writes whose numbers, counted
    /// from 1, are in `fail_calls` fail, and so does each one where there is no room.
    pub fn new(
        alloc: Global,
        fail_calls: List<u64>,
        piece: u32,
        room: u64,
    ) -> Result<MemSink, NoMemory>
        requires { 1 ≤ piece }
        ensures state { IfOk result (λ made. ⟦<MemSink as Sink>⟧.state made
            ≡ fresh_sink room (is_empty fail_calls)) }
        ensures failing { IfOk result (λ made. failing_writes made ≡ fail_calls) }
        ensures calls { IfOk result (λ made. writes_made made ≡ 0) }
        ensures piece { IfOk result (λ made. piece_of made ≡ piece) }
    {
        Ok(MemSink {
            bytes: Vec::with_capacity(alloc, room as usize)?,
            script: Script::new(fail_calls),
            piece,
            room,
        })
    }

    /// The bytes that it took.
    pub fn written(&self) -> &[u8]
        ensures { (⟦<MemSink as Sink>⟧.state self.now).written ≡ Some result.now }
    {
        self.bytes.as_slice()
    }

    /// How often it failed.
    pub fn faults(&self) -> u64
        ensures { result ≡ (⟦<MemSink as Sink>⟧.state self.now).faults }
    {
        self.script.faults
    }
}

impl Sink for MemSink {
    ghost use Rattle.std.specs.Prelude.{ℕ, ◌-◌, ◌^◌, min, length, IsTrue, IfSome, OnErr};
    ghost use Rattle.cl_types.specs.Causes.{Rose};
    ghost use Rattle.cl_io.specs.Files.{Succeeds};
    ghost use Rattle.cl_io.specs.Sink.{Endures, Writes, WritesNothing};
    ghost use Rattle.cl_io.specs.MemoryStates.{sink_state, failing_writes, writes_made, piece_of, Counted, Fails};

    ghost state = { sink_state };

    fn write(&mut self, bytes: &[u8]) -> Result<usize, Failed>
        requires { 0 < length bytes.now }
        ensures endures { Endures (sink_state self.old) (sink_state self.new) }
        ensures writes { IfOk result (λ n. Writes bytes.now n (sink_state self.old) (sink_state self.new)) }
        ensures writes_nothing { OnErr result (WritesNothing (sink_state self.old) (sink_state self.new)) }
        ensures cause { OnErr result (Rose (sink_state self.old).faults (sink_state self.new).faults) }
        ensures succeeds { IsTrue (sink_state self.old).steady → IfSome (sink_state self.old).free
            (λ room. 0 < room → Succeeds result (sink_state self.old).faults (sink_state self.new).faults) }

        // When it fails, and how much it takes.
        ensures counted { Counted (failing_writes self.old) (failing_writes self.new)
            (writes_made self.old) (writes_made self.new) }
        ensures fails { Fails result (failing_writes self.old) (writes_made self.new)
            ((sink_state self.old).free ≡ Some 0) }
        ensures exact { IfOk result (λ n. IfSome (sink_state self.old).free
            (λ room. n ≡ min (min (length bytes.now) room) (piece_of self.old))) }
        ensures piece { piece_of self.new ≡ piece_of self.old }
    {
        let count = (bytes.len() as u64)
            .min(self.room)
            .min(u64::from(self.piece));
        if self.script.fails() {
            return Err(self.script.fail());
        }
        if count == 0 {
            return Err(self.script.fail());
        }
        if self
            .bytes
            .extend_from_slice(&bytes[..count as usize])
            .is_err()
        {
            return Err(self.script.fail());
        }
        self.room -= count;
        Ok(count as usize)
    }
}

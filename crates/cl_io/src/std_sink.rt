ghost use Rattle.std.specs.Prelude.{◌≡◌};

use crate::files::Failed;
use crate::sink::Sink;
use std::io::Write;

/// A writer of std as a sink: standard output, standard error, a file. It tells nothing.
#[derive(Drop)]
pub struct StdSink<W> {
    to: W,
    faults: u64,
}

impl<W: Write> StdSink<W> {
    pub fn new(to: W) -> StdSink<W>
        ensures { (⟦<StdSink<W> as Sink>⟧.state result).faults ≡ 0 }
    {
        StdSink { to, faults: 0 }
    }
}

impl<W: Write> Sink for StdSink<W> {
    ghost use Rattle.cl_io.specs.MemoryStates.{outer_sink};

    ghost state = { outer_sink };

    fn write(&mut self, bytes: &[u8]) -> Result<usize, Failed> {
        match self.to.write(bytes) {
            Ok(count) if count > 0 => Ok(count),
            _ => {
                self.faults = self.faults.saturating_add(1);
                Err(Failed)
            }
        }
    }
}

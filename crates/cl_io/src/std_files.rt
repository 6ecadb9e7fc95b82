ghost use Rattle.std.specs.Prelude.{◌≡◌};

use crate::files::{Failed, Files};
use cl_types::Text;
use std::fs;
use std::io::Read;

// What is read: a file, or standard input.
#[derive(Drop)]
enum Source<F, I> {
    File(F),
    Input(I),
}

/// The files and standard input of a runtime, the latter under the name `-`. It tells nothing.
#[derive(Drop)]
pub struct StdFiles<R: std::rt::Files + Input> {
    rt: R,
    source: Option<Source<R::File, R::Reader>>,
    faults: u64,
}

impl<R: std::rt::Files + Input> StdFiles<R> {
    pub fn new(rt: R) -> StdFiles<R>
        ensures { (⟦<StdFiles<R> as Files>⟧.state result).faults ≡ 0 }
    {
        StdFiles {
            rt,
            source: None,
            faults: 0,
        }
    }
}

impl<R: std::rt::Files + Input> Files for StdFiles<R> {
    ghost use Rattle.cl_io.specs.MemoryStates.{outer_files};

    ghost state = { outer_files };

    ghost truthful = { λ _. tt };

    fn begin(&mut self, name: &Text) -> Result<(), Failed> {
        if name.as_slice() == b"-".as_slice() {
            self.source = Some(Source::Input(self.rt.reader()));
            return Ok(());
        }
        let opened = str::from_utf8(name.as_slice())
            .ok()
            .and_then(|path| fs::open(&self.rt, path).ok());
        match opened {
            Some(file) => {
                self.source = Some(Source::File(file));
                Ok(())
            }
            None => {
                self.faults = self.faults.saturating_add(1);
                Err(Failed)
            }
        }
    }

    fn read(&mut self, buf: &mut [u8]) -> Result<usize, Failed> {
        let count = match &mut self.source {
            Some(Source::File(file)) => file.read(buf),
            Some(Source::Input(input)) => input.read(buf),
            None => Ok(0),
        };
        match count {
            Ok(count) => Ok(count),
            Err(_) => {
                self.faults = self.faults.saturating_add(1);
                Err(Failed)
            }
        }
    }
}

ghost use Rattle.std.specs.Prelude.{◌≡◌, ℕ, ◌<◌, ◌≤◌, IsTrue, List, length, IfSome, IfOk, OnErr};
ghost use Rattle.cl_types.specs.Causes.{Rose};
ghost use Rattle.cl_io.specs.Files.{Succeeds};
ghost use Rattle.cl_io.specs.Sink.{SinkState, Endures, Takes, Writes, WritesNothing};

use crate::files::Failed;

/// A place that takes bytes one after another.
pub trait Sink {
    /// What it took, where it tells that, how much more it has room for, and how often it failed.
    ghost state: { Self → SinkState };

    /// Takes the first bytes of these, at least one, and answers how many.
    fn write(&mut self, bytes: &[u8]) -> Result<usize, Failed>
        requires { 0 < length bytes.now }
        ensures endures { Endures (state self.old) (state self.new) }
        ensures writes { IfOk result (λ n. Writes bytes.now n (state self.old) (state self.new)) }
        ensures writes_nothing { OnErr result (WritesNothing (state self.old) (state self.new)) }
        ensures cause { OnErr result (Rose (state self.old).faults (state self.new).faults) }
        ensures succeeds { IsTrue (state self.old).steady → IfSome (state self.old).free
            (λ room. 0 < room → Succeeds result (state self.old).faults (state self.new).faults) };
}

/// Appends the bytes. After a failure a prefix of them stands there. It does not allocate.
pub fn put<O: Sink>(out: &mut O, bytes: &[u8]) -> Result<(), Failed>
    ensures endures { Endures (O.state out.old) (O.state out.new) }
    ensures takes { Takes bytes.now result (O.state out.old) (O.state out.new) }
    ensures cause { OnErr result (Rose (O.state out.old).faults (O.state out.new).faults) }
    ensures succeeds { IsTrue (O.state out.old).steady → IfSome (O.state out.old).free
        (λ room. length bytes.now ≤ room → Succeeds result (O.state out.old).faults (O.state out.new).faults) }
{
    let mut rest = bytes;
    while !rest.is_empty() {
        let count = out.write(rest)?;
        rest = &rest[count..];
    }
    Ok(())
}

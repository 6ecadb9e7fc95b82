ghost use Rattle.std.specs.Prelude.{◌≡◌, ℕ, ◌<◌, ◌≤◌, IsTrue, List, [], ◌∷◌, length, take, All, IfSome, IfOk, OnOk, OnErr};
ghost use Rattle.cl_types.specs.Causes.{Rose};
ghost use Rattle.cl_io.specs.Files.{FilesState, Adds, begun_entry, IsOfContent, Lasts, Tries, Reads, ReadsNothing, Succeeds};

use cl_types::Text;

/// The outside failed, and counted it.
#[derive(Clone, Copy, Debug, PartialEq, Eq)]
pub struct Failed;

/// Files that are read one after another: the one that was begun last is the one that is read.
pub trait Files {
    /// The files' content, what they tell of their use, and how often they failed.
    ghost state: { Self → FilesState };

    /// Goes to the first byte of a file.
    fn begin(&mut self, name: &Text) -> Result<(), Failed>
        ensures lasts { Lasts (state self.old) (state self.new) }
        ensures tries { Tries name.now (state self.old) (state self.new) }
        ensures begun { OnOk result
            (Adds (state self.old).taken (begun_entry name.now ∷ []) (state self.new).taken) }
        ensures not_begun { OnErr result (Adds (state self.old).taken [] (state self.new).taken) }
        ensures cause { OnErr result (Rose (state self.old).faults (state self.new).faults) }
        ensures succeeds { IsTrue (state self.old).steady → IsTrue ((state self.old).there name.now)
            → Succeeds result (state self.old).faults (state self.new).faults };

    /// The next bytes, into the front of the buffer. None are the end of the file.
    fn read(&mut self, buf: &mut [u8]) -> Result<usize, Failed>
        requires { 0 < length buf.old }
        ensures lasts { Lasts (state self.old) (state self.new) }
        ensures count { IfOk result (λ n. n ≤ length buf.old) }
        ensures reads { IfOk result (λ n. Reads (take n buf.new) (state self.old) (state self.new)) }
        ensures reads_nothing { OnErr result (ReadsNothing (state self.old) (state self.new)) }
        ensures cause { OnErr result (Rose (state self.old).faults (state self.new).faults) }
        ensures succeeds { IsTrue (state self.old).steady
            → Succeeds result (state self.old).faults (state self.new).faults };

    /// What was taken of a file is the front of its content, and all of it at its end.
    ghost truthful: { (files : Self) → IfSome (state files).taken (All (IsOfContent (state files).content)) };
}

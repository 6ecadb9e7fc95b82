ghost use Rattle.std.specs.Prelude.{◌≡◌, ◌↔◌, ◌+◌, ◌-◌, ◌^◌, ◌<◌, ◌≤◌, [], IsTrue, Contains};
ghost use Rattle.cl_types.specs.Causes.{Rose};

use crate::files::Failed;
use cl_types::List;

// Which calls fail, counted from 1, and how many failed so far.
#[derive(Drop)]
pub struct Script {
    pub fail_calls: List<u64>,
    pub calls: u64,
    pub faults: u64,
}

impl Script {
    pub fn new(fail_calls: List<u64>) -> Script
        ensures calls { result.fail_calls ≡ fail_calls }
        ensures made { result.calls ≡ 0 }
        ensures faults { result.faults ≡ 0 }
    {
        Script {
            fail_calls,
            calls: 0,
            faults: 0,
        }
    }

    // Counts a call, and says whether it is one that fails.
    pub fn fails(&mut self) -> bool
        ensures counted { self.old.calls < 2 ^ 64 - 1 → self.new.calls ≡ self.old.calls + 1 }
        ensures exact { IsTrue result ↔ Contains self.old.fail_calls self.new.calls }
        ensures never { IsTrue result → self.old.fail_calls ≡ [] → ⊥ }
        ensures calls { self.new.fail_calls ≡ self.old.fail_calls }
        ensures faults { self.new.faults ≡ self.old.faults }
    {
        self.calls = self.calls.saturating_add(1);
        self.fail_calls.as_slice().contains(&self.calls)
    }

    // Counts a failure.
    pub fn fail(&mut self) -> Failed
        ensures calls { self.new.fail_calls ≡ self.old.fail_calls }
        ensures counted { self.new.calls ≡ self.old.calls }
        ensures rose { Rose self.old.faults self.new.faults }
        ensures later { self.old.faults ≤ self.new.faults }
    {
        self.faults = self.faults.saturating_add(1);
        Failed
    }
}

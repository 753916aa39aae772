ghost use Rattle.std.specs.Prelude.{◌≡◌, ◌+◌, ◌↔◌, IsTrue, Contains};
ghost use Rattle.qtc_outside.specs.Counts.{risen};

use qtc_base::List;

/// Which calls of an object in memory fail, and how many calls and faults there were.
#[derive(Drop)]
pub struct FaultPlan {
    pub fails: List<u64>,
    pub calls: u64,
    pub faults: u64,
}

impl FaultPlan {
    /// The calls whose numbers, from 0, stand in `fails` fail.
    pub fn new(fails: List<u64>) -> FaultPlan
        ensures fails { result.fails ≡ fails }
        ensures calls { result.calls ≡ 0 }
        ensures faults { result.faults ≡ 0 }
    {
        FaultPlan {
            fails,
            calls: 0,
            faults: 0,
        }
    }

    /// Counts a call, and says whether it is one that fails.
    pub fn next_fails(&mut self) -> bool
        ensures fails { IsTrue result ↔ Contains self.old.fails self.old.calls }
        ensures calls { self.new.calls ≡ risen self.old.calls 1 }
        ensures plan { self.new.fails ≡ self.old.fails }
        ensures faults { self.new.faults ≡ self.old.faults }
    {
        let call = self.calls;
        self.calls = call.saturating_add(1);
        self.fails.as_slice().contains(&call)
    }

    pub fn count_fault(&mut self)
        ensures faults { self.new.faults ≡ risen self.old.faults 1 }
        ensures calls { self.new.calls ≡ self.old.calls }
        ensures plan { self.new.fails ≡ self.old.fails }
    {
        self.faults = self.faults.saturating_add(1);
    }
}

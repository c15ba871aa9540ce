// Which calls of a folder or host in memory should fail.
ghost use Rattle.std.specs.Prelude.{◌≡◌, ◌≤◌, OnOk, OnErr};
ghost use Rattle.kr_outside.specs.Faults.{Rose, HasCause};
ghost use Rattle.kr_memory_disk.specs.Plan.{calls_at_start, FailsNow, after_success, after_failure};

use kr_outside::Failed;
use std::marker::Model;

/// Which calls should fail, by the call's number; all calls are counted from 0.
#[derive(Drop)]
pub struct CallPlan {
    failing: Vec<u64>,
    calls: u64,
    faults: u64,
}

impl Model for CallPlan {
    ghost use Rattle.kr_memory_disk.specs.Plan.{PlannedCalls};

    ghost Value = { PlannedCalls };

    ghost view = { λ p. record { failing = p.failing.items; calls = p.calls; faults = p.faults } };
}

impl CallPlan {
    /// The plan before the first call.
    pub fn new(failing: Vec<u64>) -> CallPlan
        ensures { result ≡ calls_at_start failing.items }
    {
        CallPlan {
            failing,
            calls: 0,
            faults: 0,
        }
    }

    /// Counts a call, and a fault if it should fail.
    pub fn call(&mut self) -> Result<(), Failed>
        ensures done { OnOk result (¬ (FailsNow self.old) × (self.new ≡ after_success self.old)) }
        ensures failed { OnErr result (FailsNow self.old × (self.new ≡ after_failure self.old)) }
        ensures cause { HasCause self.old.faults self.new.faults result }
    {
        let fails = self.failing.contains(&self.calls);
        self.calls = self.calls.saturating_add(1);
        if !fails {
            return Ok(());
        }
        self.faults = self.faults.saturating_add(1);
        Err(Failed)
    }

    /// Counts a call that fails, whatever was planned.
    pub fn fail(&mut self) -> Failed
        ensures counted { self.new ≡ after_failure self.old }
        ensures cause { Rose self.old.faults self.new.faults }
        ensures later { self.old.faults ≤ self.new.faults }
    {
        self.calls = self.calls.saturating_add(1);
        self.faults = self.faults.saturating_add(1);
        Failed
    }
}

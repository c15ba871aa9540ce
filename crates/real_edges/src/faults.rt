// Each error of the system is counted.
ghost use Rattle.std.specs.Prelude.{◌≡◌, ◌≤◌, OnOk, IfOk};
ghost use Rattle.kr_outside.specs.Faults.{Rose, HasCause};

use kr_outside::Failed;
use std::io;

/// What the system returned; an error is counted, and nothing else of it is passed on.
pub fn counted<T>(faults: &mut u64, answer: io::Result<T>) -> Result<T, Failed>
    ensures passed { IfOk result (λ value. answer ≡ Ok value) }
    ensures cause { HasCause faults.old faults.new result }
    ensures kept { OnOk result (faults.new ≡ faults.old) }
{
    match answer {
        Ok(value) => Ok(value),
        Err(_) => {
            count(faults);
            Err(Failed)
        }
    }
}

/// Counts one more error.
pub fn count(faults: &mut u64)
    ensures rose { Rose faults.old faults.new }
    ensures later { faults.old ≤ faults.new }
{
    *faults = faults.saturating_add(1);
}

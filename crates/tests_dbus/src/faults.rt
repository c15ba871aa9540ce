// How the faults of a handshake are printed.

use crate::checks::same_text;
use dbus_auth::AuthFault;
use std::alloc::AllocGlobal;
use std::process::Abort;
use std::test::Fail;

fn is_printed(rt: &(impl AllocGlobal + Abort), fault: AuthFault, want: &str) -> Result<(), Fail> {
    let printed = fault.to_string(rt.alloc())?;
    same_text(rt, printed.as_str(), want, want);
    Ok(())
}

#[test]
fn faults_are_printed_by_their_names(rt: HostRuntime) -> Result<(), Fail> {
    is_printed(&rt, AuthFault::NoZero, "NoZero")?;
    is_printed(&rt, AuthFault::LineTooLong, "LineTooLong")?;
    is_printed(&rt, AuthFault::BeginTooSoon, "BeginTooSoon")?;
    is_printed(&rt, AuthFault::EndedEarly, "EndedEarly")
}

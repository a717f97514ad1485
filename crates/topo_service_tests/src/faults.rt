//! The faults of a service as errors of any kind.

use std::alloc::Global;
use std::error::Error;
use std::process::Abort;
use std::test::Fail;
use topo_core::calls::Refusal;
use topo_service::{EndFault, PassFault, ServiceFault};
use topo_test_support::errors::text_of_error;

/// A fault that `?` has made an error of any kind is printed as this text.
fn check_error<E: Error>(rt: &impl Abort, alloc: Global, fault: E, text: &str) -> Result<(), Fail> {
    let printed = text_of_error(alloc, fault)?;
    assert!(rt; printed.as_str() == text, "{printed}");
    Ok(())
}

#[test]
fn faults_are_errors(rt: HostRuntime) -> Result<(), Fail> {
    let alloc = rt.alloc();
    check_error(&rt, alloc, ServiceFault::NoSeat, "41 NoSeat")?;
    check_error(&rt, alloc, PassFault::NoView, "42 NoView")?;
    check_error(
        &rt,
        alloc,
        PassFault::Refused(Refusal::NoRoute),
        "9 NoRoute",
    )?;
    check_error(&rt, alloc, EndFault::PassMissing(2), "43 PassMissing 2")?;
    check_error(&rt, alloc, EndFault::Mismatch(1, 5), "40 Mismatch 1 5")
}

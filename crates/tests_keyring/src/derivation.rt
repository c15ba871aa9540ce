// key_derivation.

use crate::checks::{cell, number, same_text};
use crate::words::{decimal, digits_of, joined, salt_of};
use key_derivation::{Derived, derive};
use kr_base::Bytes;
use std::alloc::Global;
use std::test::Fail;

// The password, the salt, the iterations, and the key followed by the vector, all in hex except the
// iterations. The first row's text is an example of FIPS 180-4 for SHA-256; the values are those of
// Python's hashlib over OpenSSL 3.0.19.
const ROWS: &str = "\
6162636462636465636465666465666765666768666768696768696a68696a6b696a6b6c6a6b6c6d6b6c6d6e6c6d6e6f|6\
    d6e6f706e6f7071|1|\
    248d6a61d20638b8e5c026930c3e6039a33ce45964ff2167f6ecedd419db06c1
6162636462636465636465666465666765666768666768696768696a68696a6b696a6b6c6a6b6c6d6b6c6d6e6c6d6e6f|6\
    d6e6f706e6f7071|0|\
    248d6a61d20638b8e5c026930c3e6039a33ce45964ff2167f6ecedd419db06c1
|0000000000000000|2|\
    7ef0ca626bbb058dd443bb78e33b888bdec8295c96e51f5545f96370870c10b9
|ff19d215c9473ecd|0|\
    030aa3d2e0b6797c0152a251c2487b86ff28edfe3d9ea0c3e9a88f7c705f4bc1
6c6f6164|4c8b50d19729022c|2|\
    b72c35da2770705ca7de7d8b37b7dd500f7d58ca4ff352516f7d8780bd562bb7
00ff80|ffffffffffffffff|3|\
    38cee607c7020d0cd644ad2fcf4fa86fddb19fe31a2c01a3f93bc9745756a8f4
636f727265637420686f727365206261747465727920737461706c65|3039d5e9d0c02545|1000|\
    ff64655964e18e54249347dd6c987e7bc1f100563a7b9df516df25740c36165e
00ff8020616e79206279746573|98f21ee40234c6e9|10000|\
    4353ab36e7223466bacc7a789ba948f98ea74d9343fb850b4128302eb6227c77
74bdc04062162b467e6bcd0febf9e8c7fd62ce2df8770a88d0f2c23a843120c5c1371dad782cfe6a482013fa634be9e392\
    b6da455131a0b6fd659e4cb6912470b07c0697af70|8811d882c098d559|2|\
    605df9aaba153f731da1732f443cc06bfeac01c9fafb27dce700cb0c5233860e
";

// This function returns the rows, so that no proof looks into the text.
fn rows() -> &'static str {
    ROWS
}

fn derived_of(alloc: Global, row: &str) -> Result<Derived, Fail> {
    let password = Bytes::new(hex::decode(alloc, cell(row, 0))?);
    let salt = salt_of(cell(row, 1))?;
    Ok(derive(password, salt, number(cell(row, 2))?))
}

/// The key and the vector of a row.
fn halves_of(alloc: Global, row: &str) -> Result<String, Fail> {
    let derived = derived_of(alloc, row)?;
    let key = digits_of(alloc, derived.key().as_slice())?;
    let vector = digits_of(alloc, derived.vector().as_slice())?;
    joined(alloc, &[key.as_str(), vector.as_str()])
}

#[test]
fn another_implementation_derives_the_same(rt: HostRuntime) -> Result<(), Fail> {
    for row in rows().lines() {
        let halves = halves_of(rt.alloc(), row)?;
        same_text(&rt, halves.as_str(), cell(row, 3), row);
    }
    Ok(())
}

fn parts_told(alloc: Global, derived: &Derived) -> Result<String, Fail> {
    let password = digits_of(alloc, derived.password().as_slice())?;
    let salt = digits_of(alloc, derived.salt().as_slice())?;
    let iterations = decimal(alloc, u64::from(derived.iterations()))?;
    joined(
        alloc,
        &[
            password.as_str(),
            "|",
            salt.as_str(),
            "|",
            iterations.as_str(),
        ],
    )
}

#[test]
fn a_derived_value_keeps_what_it_was_derived_from(rt: HostRuntime) -> Result<(), Fail> {
    let row = "736563726574|73616c7473616c74|3";
    let parts = parts_told(rt.alloc(), &derived_of(rt.alloc(), row)?)?;
    same_text(&rt, parts.as_str(), row, "the parts");
    Ok(())
}

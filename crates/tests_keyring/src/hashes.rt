// attribute_hash.

use crate::checks::{cell, number, same_bytes, same_text};
use crate::words::{digits_of, hashes_told, text_of};
use attribute_hash::{hashed, number_hash, text_hash};
use kr_base::{AttrValue, Attributes};
use std::alloc::Global;
use std::test::Fail;

// A text and its hash, by Python's hashlib over OpenSSL 3.0.19.
const TEXTS: &str = "\
|d41d8cd98f00b204e9800998ecf8427e
abc|900150983cd24fb0d6963f7d28e17f72
message digest|f96b697d7cb7938d525a2f31aaf161d0
äß|4008ceb0f413fa2e369e067d0d43b179
";

// A number and its hash in hex.
const NUMBERS: &str = "\
0|18273645
1|18263644
65537|18273645
993|1bc635a4
4294967295|18273645
";

#[test]
fn texts_have_the_digits_of_their_digest(rt: HostRuntime) -> Result<(), Fail> {
    for row in TEXTS.lines() {
        let found = text_hash(cell(row, 0));
        same_bytes(&rt, found.as_slice(), cell(row, 1).as_bytes(), row);
    }
    Ok(())
}

fn number_hash_told(alloc: Global, digits: &str) -> Result<String, Fail> {
    let hash = number_hash(number(digits)?);
    Ok(format!(in alloc; "{hash:x}")?)
}

#[test]
fn numbers_are_mixed_with_their_halves_swapped(rt: HostRuntime) -> Result<(), Fail> {
    for row in NUMBERS.lines() {
        let found = number_hash_told(rt.alloc(), cell(row, 0))?;
        same_text(&rt, found.as_str(), cell(row, 1), row);
    }
    Ok(())
}

fn pairs(alloc: Global) -> Result<Attributes, Fail> {
    let port = text_of(alloc, "port")?;
    let host = text_of(alloc, "host")?;
    let abc = text_of(alloc, "abc")?;
    let mut values = Vec::new(alloc);
    values.push((port, AttrValue::Number(1)))?;
    values.push((host, AttrValue::Text(abc)))?;
    Ok(Attributes::from_values(alloc, values)?)
}

fn pairs_hashed(alloc: Global) -> Result<String, Fail> {
    let hashes = hashed(alloc, &pairs(alloc)?)?;
    hashes_told(alloc, hashes.as_slice())
}

// The pairs in the order of their names: the digits of the digest of `abc`, each a byte in hex, and the
// hash of 1, which is 18263644 in hex.
const HASHED: &str =
    "host=3930303135303938336364323466623064363936336637643238653137663732;port=#405157444;";

#[test]
fn attributes_are_hashed_in_their_order(rt: HostRuntime) -> Result<(), Fail> {
    let told = pairs_hashed(rt.alloc())?;
    same_text(&rt, told.as_str(), HASHED, "the pairs");
    Ok(())
}

use crate::checks::{holds, same_bytes};
use kr_items::Items;
use std::alloc::Global;
use std::test::Fail;

fn made(alloc: Global) -> Result<Items<u8>, Fail> {
    let mut items = Items::new(Vec::from_slice(alloc, &[3u8, 5])?);
    items.push(3)?;
    Ok(items)
}

#[test]
fn a_list_is_made_and_given_back(rt: HostRuntime) -> Result<(), Fail> {
    let items = made(rt.alloc())?;
    same_bytes(&rt, items.as_slice(), b"\x03\x05\x03", "three items");
    holds(&rt, items.len() == 3 && !items.is_empty(), "their number");
    let none: Items<u8> = Items::empty(rt.alloc());
    holds(&rt, none.is_empty(), "no items");
    let vector = items.into_vec();
    same_bytes(&rt, vector.as_slice(), b"\x03\x05\x03", "the vector");
    Ok(())
}

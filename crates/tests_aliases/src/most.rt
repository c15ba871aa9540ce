// How many aliases there may be.

use crate::checks::same_text;
use crate::tables::{set, slot_of, stems_of, table_of};
use std::alloc::Global;
use std::test::Fail;

// The lines of so many aliases, the last two of which stand for y and the others for x.
fn many(alloc: Global, count: usize) -> Result<Vec<u8>, Fail> {
    let mut bytes = Vec::new(alloc);
    for place in 0..count {
        let stem = if place.saturating_add(2) < count {
            'x'
        } else {
            'y'
        };
        let line = format!(in alloc; "a{place}={stem}\n")?;
        bytes.extend_from_slice(line.as_bytes())?;
    }
    Ok(bytes)
}

// What a change of so many aliases comes to, and how many calls of the device it made.
fn outcome(alloc: Global, count: usize, live: &str, change: &str) -> Result<String, Fail> {
    let live = stems_of(alloc, live)?;
    let lines = many(alloc, count)?;
    let mut table = table_of(alloc, lines.as_slice(), "", "")?;
    let answer = set(alloc, &mut table, change, live.as_slice())?;
    let aliases = table.aliases().len();
    let slot = slot_of(table);
    let calls = slot.calls().len();
    Ok(format!(in alloc; "{answer} {aliases} {calls}")?)
}

#[test]
fn a_1025th_alias_is_refused_before_anything_is_written(rt: HostRuntime) -> Result<(), Fail> {
    let rows = [
        (1_023, "x,y", "b=x", "ok 1024 4"),
        (1_024, "x,y", "b=x", "too many 1024 0"),
        (1_024, "x,y", "a7=y", "ok 1024 4"),
        (1_024, "x", "b=x", "ok 1023 4"),
        (1_030, "x,y", "a7=", "too many 1030 0"),
        (1_030, "y", "a7=y", "ok 3 4"),
    ];
    for (count, live, change, want) in rows {
        let found = outcome(rt.alloc(), count, live, change)?;
        same_text(&rt, found.as_str(), want, change);
    }
    Ok(())
}

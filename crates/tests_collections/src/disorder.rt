// A file whose items aren't in order of their ids, with the hashes of their own attributes.

use crate::checks::over;
use crate::damage::step_rows;
use crate::made::{loaded, made};
use crate::steps::change;
use collection_store::Collection;
use kr_base::Bytes;
use kr_memory_disk::MemorySlot;
use std::alloc::Global;
use std::test::Fail;

// The file of a collection with two items, whose attributes are k=v, and k=v and l=w.
fn two_items(alloc: Global) -> Result<Vec<u8>, Fail> {
    let mut collection = made(alloc)?;
    let _first = change(alloc, &mut collection, "add||k=v", 1000)?;
    let _second = change(alloc, &mut collection, "add||k=v l=w", 1000)?;
    match collection.into_cell().image() {
        Some(image) => Ok(image.bytes().to_vec(alloc)?),
        None => Err("no file")?,
    }
}

// The same with the ids 9 and 2. The first id is in the bytes 85 to 88.
fn disordered(alloc: Global) -> Result<Collection<MemorySlot>, Fail> {
    let mut file = two_items(alloc)?;
    match file.get_mut(88) {
        Some(id) => *id = 9,
        None => Err("too short")?,
    }
    loaded(alloc, Bytes::new(file))
}

// Steps over this file, and the answers.
const STEPS: &str = "\
search||k=v|2 9
search||l=w|2
unlock||password|ok
search||k=v|2 9
search||l=w|2
lock|||ok
search||l=w|2
unlock||password|ok
label|9|other|changed 9
add||l=w|made 10
lock|||ok
search||k=v|2 9
search||l=w|2 10
unlock||password|ok
search||k=v|2 9
search||l=w|2 10
";

#[test]
fn items_in_another_order_are_put_in_order_of_their_ids(rt: HostRuntime) -> Result<(), Fail> {
    over(
        disordered(rt.alloc())?,
        |collection| step_rows(&rt, collection, STEPS),
    )
}

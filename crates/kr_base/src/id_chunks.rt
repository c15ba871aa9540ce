ghost use Rattle.std.specs.Prelude.{◌≡◌, ◌+◌, ◌<◌, ◌≤◌, ◌∷◌, ◌++◌, [], IsTrue, OnOk, OnErr, IfOk, length, slice_index, slice_index_or, slice_set};
ghost use Rattle.std.specs.List.{remove};
ghost use Rattle.std.specs.List.Sorted.{IsStrictlySortedBy};
ghost use Rattle.std.specs.Ordering.{nat_cmp};
ghost use Rattle.kr_base.specs.declared.id_chunks.Key.TheVariants as key;
ghost use Rattle.kr_base.specs.IdLists.{IsCounted, IsFilled, IsLaid, has_id, ids_in, keys, parts, with_id, without_id};

use crate::OutOfMemory;
use std::alloc::{AllocError, Global};

/// The most ids that a chunk has, unless no memory was left to split it.
const MOST_IN_CHUNK: usize = 512;

/// Some ids of a list, one after the other, and how many ids come before them. A change in the middle of
/// a long list moves only the ids of one chunk.
#[derive(Drop)]
pub struct Chunk {
    before: usize,
    ids: Vec<u32>,
}

/// What a search among chunks compares.
#[derive(Clone, Copy)]
enum Key {
    /// The chunk's first id.
    First,
    /// How many ids come before the chunk.
    Before,
}

/// The key of the chunk at a position.
fn key_at(chunks: &[Chunk], by: Key, place: usize) -> usize
    requires { place < length chunks.now }
    ensures { result ≡ slice_index (keys by chunks.now) place }
{
    let chunk = &chunks[place];
    match by {
        Key::First => match chunk.ids.first() {
            Some(id) => *id as usize,
            None => 0,
        },
        Key::Before => chunk.before,
    }
}

/// The position of the last chunk whose key is at most the bound, or 0, if the keys rise.
fn last_up_to(chunks: &[Chunk], by: Key, bound: usize) -> usize
    requires { 0 < length chunks.now }
    ensures within { result < length chunks.now }
    ensures from { 0 < result → slice_index (keys by chunks.now) result ≤ bound }
    ensures to { result + 1 < length chunks.now
        → bound < slice_index (keys by chunks.now) (result + 1) }
{
    let mut low = 0;
    let mut high = chunks.len();
    while high - low > 1 {
        let middle = low + (high - low) / 2;
        if key_at(chunks, by, middle) <= bound {
            low = middle;
        } else {
            high = middle;
        }
    }
    low
}

/// Whether the id is one of these.
pub fn has_in(ids: &[u32], id: u32) -> bool
    requires { IsStrictlySortedBy nat_cmp ids.now }
    ensures { result ≡ has_id ids.now id }
{
    match ids.binary_search(&id) {
        Ok(_) => true,
        Err(_) => false,
    }
}

/// Whether an id comes after all of these.
fn comes_last(ids: &[u32], id: u32) -> bool
    requires { IsStrictlySortedBy nat_cmp ids.now }
    ensures { IsTrue result → with_id id ids.now ≡ ids.now ++ id ∷ [] }
{
    match ids.last() {
        Some(last) => *last < id,
        None => true,
    }
}

/// Inserts an id at its position in the order. One that comes after all others takes no search.
fn put_in(ids: &mut Vec<u32>, id: u32) -> Result<(), OutOfMemory>
    requires { IsStrictlySortedBy nat_cmp ids.old.items }
    ensures put { OnOk result (ids.new.items ≡ with_id id ids.old.items) }
    ensures unchanged { OnErr result (ids.new.items ≡ ids.old.items) }
{
    if comes_last(ids.as_slice(), id) {
        return match ids.push(id) {
            Ok(()) => Ok(()),
            Err(_) => Err(AllocError),
        };
    }
    match ids.as_slice().binary_search(&id) {
        Ok(_) => Ok(()),
        Err(place) => match ids.insert(place, id) {
            Ok(()) => Ok(()),
            Err(_) => Err(AllocError),
        },
    }
}

/// Removes an id.
fn take_in(ids: &mut Vec<u32>, id: u32)
    requires { IsStrictlySortedBy nat_cmp ids.old.items }
    ensures { ids.new.items ≡ without_id id ids.old.items }
{
    match ids.as_slice().binary_search(&id) {
        Ok(place) => {
            ids.remove(place);
        }
        Err(_) => {}
    }
}

/// The position of the chunk that an id is put into. An id that comes after the first one of the last chunk
/// takes no search.
fn place_of(chunks: &[Chunk], id: u32) -> usize
    requires { 0 < length chunks.now }
    ensures within { result < length chunks.now }
    ensures from { 0 < result → slice_index (keys key.First chunks.now) result ≤ id }
    ensures to { result + 1 < length chunks.now
        → id < slice_index (keys key.First chunks.now) (result + 1) }
{
    let last = chunks.len() - 1;
    if key_at(chunks, Key::First, last) <= id as usize {
        return last;
    }
    last_up_to(chunks, Key::First, id as usize)
}

/// The ids of the chunk at a position.
fn part_at(chunks: &[Chunk], place: usize) -> &[u32]
    requires { place < length chunks.now }
    ensures { result.now ≡ slice_index_or (parts chunks.now) place [] }
{
    chunks[place].ids.as_slice()
}

/// Inserts an id into the chunk at a position.
fn put_at(chunks: &mut Vec<Chunk>, place: usize, id: u32) -> Result<(), OutOfMemory>
    requires within { place < length chunks.old.items }
    requires rising { IsStrictlySortedBy nat_cmp
        (slice_index_or (parts chunks.old.items) place []) }
    ensures put { OnOk result (parts chunks.new.items ≡ slice_set (parts chunks.old.items) place
        (with_id id (slice_index_or (parts chunks.old.items) place []))) }
    ensures unchanged { OnErr result (parts chunks.new.items ≡ parts chunks.old.items) }
    ensures before { keys key.Before chunks.new.items ≡ keys key.Before chunks.old.items }
{
    put_in(&mut chunks[place].ids, id)
}

/// Removes an id from the chunk at a position.
fn take_at(chunks: &mut Vec<Chunk>, place: usize, id: u32)
    requires within { place < length chunks.old.items }
    requires rising { IsStrictlySortedBy nat_cmp
        (slice_index_or (parts chunks.old.items) place []) }
    ensures { parts chunks.new.items ≡ slice_set (parts chunks.old.items) place
        (without_id id (slice_index_or (parts chunks.old.items) place [])) }
{
    take_in(&mut chunks[place].ids, id);
}

/// Splits the chunk at a position in two if it has too many ids. If no memory is left, it stays whole.
fn split(alloc: Global, chunks: &mut Vec<Chunk>, place: usize)
    requires within { place < length chunks.old.items }
    ensures ids { ids_in chunks.new.items ≡ ids_in chunks.old.items }
    ensures filled { IsFilled (parts chunks.old.items) → IsFilled (parts chunks.new.items) }
    ensures whole { length chunks.new.items ≡ place + 1 → chunks.new.items ≡ chunks.old.items }
{
    let ids = part_at(chunks.as_slice(), place);
    let half = ids.len() / 2;
    if half < MOST_IN_CHUNK / 2 {
        return;
    }
    let Ok(ids) = Vec::from_slice(alloc, &ids[half..]) else {
        return;
    };
    if let Err(_) = chunks.insert(place + 1, Chunk { before: 0, ids }) {
        return;
    }
    chunks[place].ids.truncate(half);
}

/// Removes the chunk at a position if it has no ids.
fn close(chunks: &mut Vec<Chunk>, place: usize)
    requires within { place < length chunks.old.items }
    requires others { IsFilled (remove (parts chunks.old.items) place) }
    ensures ids { ids_in chunks.new.items ≡ ids_in chunks.old.items }
    ensures filled { IsFilled (parts chunks.new.items) }
{
    if part_at(chunks.as_slice(), place).is_empty() {
        chunks.remove(place);
    }
}

/// Recounts how many ids come before each chunk.
fn count(chunks: &mut Vec<Chunk>)
    requires { length (ids_in chunks.old.items) ≤ 4294967296 }
    ensures parts { parts chunks.new.items ≡ parts chunks.old.items }
    ensures counted { IsCounted (keys key.Before chunks.new.items) (parts chunks.new.items) }
{
    let mut total = 0;
    for place in 0..chunks.as_slice().len() {
        let more = part_at(chunks.as_slice(), place).len();
        chunks[place].before = total;
        total += more;
    }
}

/// Inserts an id at its position among the ids of the chunks, of which there is at least one. An id that comes
/// after all others takes no search, and no recount unless the last chunk is split.
pub fn put(alloc: Global, chunks: &mut Vec<Chunk>, id: u32) -> Result<(), OutOfMemory>
    requires laid { IsLaid chunks.old.items }
    requires some { 0 < length chunks.old.items }
    ensures laid { IsLaid chunks.new.items }
    ensures put { OnOk result (ids_in chunks.new.items ≡ with_id id (ids_in chunks.old.items)) }
    ensures unchanged { OnErr result (ids_in chunks.new.items ≡ ids_in chunks.old.items) }
{
    let place = place_of(chunks.as_slice(), id);
    put_at(chunks, place, id)?;
    split(alloc, chunks, place);
    if chunks.as_slice().len() == place + 1 {
        return Ok(());
    }
    count(chunks);
    Ok(())
}

/// Removes an id from the chunks. It takes no memory.
pub fn take(chunks: &mut Vec<Chunk>, id: u32)
    requires { IsLaid chunks.old.items }
    ensures laid { IsLaid chunks.new.items }
    ensures taken { ids_in chunks.new.items ≡ without_id id (ids_in chunks.old.items) }
{
    if chunks.is_empty() {
        return;
    }
    let place = last_up_to(chunks.as_slice(), Key::First, id as usize);
    take_at(chunks, place, id);
    close(chunks, place);
    count(chunks);
}

/// Whether one of the chunks has the id.
pub fn has(chunks: &[Chunk], id: u32) -> bool
    requires { IsLaid chunks.now }
    ensures { result ≡ has_id (ids_in chunks.now) id }
{
    if chunks.is_empty() {
        return false;
    }
    let place = last_up_to(chunks, Key::First, id as usize);
    has_in(part_at(chunks, place), id)
}

/// The id at a position, counted over all chunks.
pub fn at(chunks: &[Chunk], place: usize) -> u32
    requires laid { IsLaid chunks.now }
    requires within { place < length (ids_in chunks.now) }
    ensures { result ≡ slice_index (ids_in chunks.now) place }
{
    let chunk = last_up_to(chunks, Key::Before, place);
    let before = key_at(chunks, Key::Before, chunk);
    part_at(chunks, chunk)[place - before]
}

/// The number of ids in all chunks.
pub fn len(chunks: &[Chunk]) -> usize
    requires { IsLaid chunks.now }
    ensures { result ≡ length (ids_in chunks.now) }
{
    if chunks.is_empty() {
        return 0;
    }
    let last = chunks.len() - 1;
    key_at(chunks, Key::Before, last) + part_at(chunks, last).len()
}

/// Chunks with two ids.
pub fn of_two(alloc: Global, one: u32, other: u32) -> Result<Vec<Chunk>, OutOfMemory>
    requires { one < other }
    ensures laid { IfOk result (λ chunks. IsLaid chunks.items) }
    ensures ids { IfOk result (λ chunks. ids_in chunks.items ≡ one ∷ other ∷ []) }
    ensures some { IfOk result (λ chunks. 0 < length chunks.items) }
{
    let ids = vec![in alloc; one, other]?;
    Ok(vec![in alloc; Chunk { before: 0, ids }]?)
}

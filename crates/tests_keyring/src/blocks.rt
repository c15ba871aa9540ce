// aes_cbc.

ghost use Rattle.std.specs.Prelude.{◌≡◌, ◌%◌, length, IfOk};

use crate::checks::{cell, same_text};
use crate::vectors::{examples, rows};
use crate::words::digits_of;
use aes_cbc::{Key, decrypting_undoes_encrypting, encrypting_undoes_decrypting};
use std::alloc::Global;
use std::process::Abort;
use std::test::Fail;

fn sixteen(digits: &str) -> Result<[u8; 16], Fail> {
    let mut bytes = [0; 16];
    hex::decode_to_slice(digits, &mut bytes)?;
    Ok(bytes)
}

fn blocks_of(alloc: Global, digits: &str) -> Result<Vec<u8>, Fail>
    ensures { IfOk result (λ blocks. length blocks.items % 16 ≡ 0) }
{
    let blocks = hex::decode(alloc, digits)?;
    if blocks.len() % 16 > 0 {
        return Err("blocks")?;
    }
    Ok(blocks)
}

/// A row's clear blocks, encrypted.
fn encrypted(alloc: Global, row: &str) -> Result<String, Fail> {
    let key = Key::new(sixteen(cell(row, 0))?);
    let vector = sixteen(cell(row, 1))?;
    let mut blocks = blocks_of(alloc, cell(row, 2))?;
    key.encrypt_in_place(vector, blocks.as_mut_slice());
    digits_of(alloc, blocks.as_slice())
}

/// A row's encrypted blocks, decrypted.
fn decrypted(alloc: Global, row: &str) -> Result<String, Fail> {
    let key = Key::new(sixteen(cell(row, 0))?);
    let vector = sixteen(cell(row, 1))?;
    let mut blocks = blocks_of(alloc, cell(row, 3))?;
    key.decrypt_in_place(vector, blocks.as_mut_slice());
    digits_of(alloc, blocks.as_slice())
}

fn both_ways(rt: &impl Abort, alloc: Global, row: &str) -> Result<(), Fail> {
    let back = decrypted(alloc, row)?;
    same_text(rt, back.as_str(), cell(row, 2), row);
    let forth = encrypted(alloc, row)?;
    same_text(rt, forth.as_str(), cell(row, 3), row);
    Ok(())
}

#[test]
fn the_standards_examples_are_met_in_both_directions(rt: HostRuntime) -> Result<(), Fail> {
    for row in examples().lines() {
        both_ways(&rt, rt.alloc(), row)?;
    }
    Ok(())
}

#[test]
fn another_implementation_gives_the_same_in_both_directions(rt: HostRuntime) -> Result<(), Fail> {
    for row in rows().lines() {
        both_ways(&rt, rt.alloc(), row)?;
    }
    Ok(())
}

#[test]
fn the_laws_can_be_called(_rt: HostRuntime) {
    decrypting_undoes_encrypting([0; 16], [1; 16], &[2; 32]);
    encrypting_undoes_decrypting([0; 16], [1; 16], &[2; 32]);
}

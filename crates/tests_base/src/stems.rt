use crate::checks::{cell, holds, number, same_number, same_text};
use crate::words::{joined, letters, text_of};
use kr_base::Stem;
use std::alloc::{AllocGlobal, Global};
use std::process::Abort;
use std::test::Fail;
use stem_choice::{UsedStems, chosen_stem};

fn stem_of(alloc: Global, text: &str) -> Result<Stem, Fail> {
    Ok(Stem::new(alloc, text)?.ok_or("no stem")?)
}

// The stems of a cell, each followed by a comma.
fn used_of(alloc: Global, stems: &str) -> Result<UsedStems, Fail> {
    let mut used = UsedStems::new(alloc);
    for stem in stems.split_terminator(',') {
        used.add(&stem_of(alloc, stem)?)?;
    }
    Ok(used)
}

fn chosen(alloc: Global, label: &str, used: &UsedStems) -> Result<Stem, Fail> {
    Ok(chosen_stem(alloc, &text_of(alloc, label)?, used)?)
}

// Each label, the stems that are used, and the stem that a new collection gets.
const CHOICES: &str = "\
My Keys||My_Keys
My Keys|My_Keys,|My_Keys_2
My Keys|My_Keys,My_Keys_2,|My_Keys_3
|login,|keyring
|keyring,|keyring_2
keyring|keyring,keyring_2,|keyring_3
\u{e9}||__
\u{ff01}|__,___,|____2
a.b/c-d_e||a_b_c_d_e
09AZaz@[`{/:||09AZaz______
Login|login,|Login
login|My_Keys,login,login_3,|login_2
login|login_2,login_3,|login
login|login,login_02,login_2_2,|login_2
login_2|login_2,|login_2_2
login_2|login,login_2,login_2_2,login_3,|login_2_3
a|a,a_2,a_3,a_4,a_5,a_6,a_7,a_8,a_9,|a_10
";

fn is_chosen(rt: &(impl AllocGlobal + Abort), row: &str) -> Result<(), Fail> {
    let used = used_of(rt.alloc(), cell(row, 1))?;
    let stem = chosen(rt.alloc(), cell(row, 0), &used)?;
    same_text(rt, stem.as_str(), cell(row, 2), row);
    Ok(())
}

#[test]
fn a_new_collection_gets_the_first_stem_that_is_free(rt: HostRuntime) -> Result<(), Fail> {
    for row in CHOICES.lines() {
        is_chosen(&rt, row)?;
    }
    Ok(())
}

// Letters of a label before some other text of it, those in the stem, and what follows them in the stem.
const CUT: &str = "\
63||63|
64||64|
65||64|
1000||64|
62|\u{e9}|62|__
63|\u{e9}|63|_
64|\u{e9}|64|
";

fn counted(alloc: Global, count: &str, more: &str) -> Result<String, Fail> {
    let letters = letters(alloc, number(count)?)?;
    joined(alloc, &[letters.as_str(), more])
}

// The stem of a label, and the next one, which is longer.
fn is_cut(rt: &(impl AllocGlobal + Abort), row: &str) -> Result<(), Fail> {
    let label = counted(rt.alloc(), cell(row, 0), cell(row, 1))?;
    let want = counted(rt.alloc(), cell(row, 2), cell(row, 3))?;
    let mut used = UsedStems::new(rt.alloc());
    let stem = chosen(rt.alloc(), label.as_str(), &used)?;
    same_text(rt, stem.as_str(), want.as_str(), row);
    used.add(&stem)?;
    let next = chosen(rt.alloc(), label.as_str(), &used)?;
    let want = joined(rt.alloc(), &[want.as_str(), "_2"])?;
    same_text(rt, next.as_str(), want.as_str(), row);
    Ok(())
}

#[test]
fn a_label_is_cut_to_64_bytes_before_a_number_follows(rt: HostRuntime) -> Result<(), Fail> {
    for row in CUT.lines() {
        is_cut(&rt, row)?;
    }
    Ok(())
}

// The stems, each followed by a comma.
fn told(alloc: Global, used: &UsedStems) -> Result<String, Fail> {
    let mut told = String::new(alloc);
    for stem in used.as_slice() {
        told.push_str(stem.as_str())?;
        told.push_str(",")?;
    }
    Ok(told)
}

// Stems as they are put in, the same in order, and one that isn't used.
const ADDED: &str = "\
||a
b,a,c,|a,b,c,|d
a,b,a,b,a,|a,b,|A
\u{e9},z,A,_,a_2,a,|A,_,a,a_2,z,\u{e9},|a_3
";

// The stems of a cell, put in where room was made for them.
fn inserted(alloc: Global, stems: &str) -> Result<UsedStems, Fail> {
    let mut used = UsedStems::new(alloc);
    for stem in stems.split_terminator(',') {
        let stem = stem_of(alloc, stem)?;
        used.reserve()?;
        used.insert(stem);
    }
    Ok(used)
}

// Asserts that these are the stems, each once and in order.
fn are_stems(rt: &(impl AllocGlobal + Abort), used: &UsedStems, row: &str) -> Result<(), Fail> {
    let stems = told(rt.alloc(), used)?;
    same_text(rt, stems.as_str(), cell(row, 1), row);
    same_number(
        rt,
        used.len(),
        cell(row, 1).split_terminator(',').count(),
        row,
    );
    let other = stem_of(rt.alloc(), cell(row, 2))?;
    holds(rt, !used.has(&other), row);
    Ok(())
}

// Whether each stem of the cell is used.
fn are_used(alloc: Global, used: &UsedStems, stems: &str) -> Result<bool, Fail> {
    for stem in stems.split_terminator(',') {
        if !used.has(&stem_of(alloc, stem)?) {
            return Ok(false);
        }
    }
    Ok(true)
}

#[test]
fn a_used_stem_is_kept_once_in_byte_order(rt: HostRuntime) -> Result<(), Fail> {
    for row in ADDED.lines() {
        let used = used_of(rt.alloc(), cell(row, 0))?;
        are_stems(&rt, &used, row)?;
        holds(&rt, are_used(rt.alloc(), &used, cell(row, 0))?, row);
        are_stems(&rt, &inserted(rt.alloc(), cell(row, 0))?, row)?;
    }
    Ok(())
}

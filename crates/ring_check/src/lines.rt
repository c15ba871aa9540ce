// The line of a file in the report.
ghost use Rattle.std.specs.Prelude.{◌≡◌, ◌++◌, IfOk, OnOk};
ghost use Rattle.ring_check.specs.Lines.{clear_name, area_name, summary_text, row_text, line_of, report_of};

use crate::time::{put_number, put_time};
use crate::verdict::{Row, Summary, Verdict};
use keyring_file::{AreaFault, ClearFault};
use kr_base::{Bytes, OutOfMemory};
use std::alloc::Global;

/// The name of a fault of the clear part.
fn clear_name(fault: ClearFault) -> &'static str
    ensures { result.now ≡ clear_name fault }
{
    match fault {
        ClearFault::Magic => "Magic",
        ClearFault::Version => "Version",
        ClearFault::Short => "Short",
        ClearFault::BadText => "BadText",
        ClearFault::TooManyIterations => "TooManyIterations",
        ClearFault::AreaLength => "AreaLength",
        ClearFault::Trailing => "Trailing",
        ClearFault::DuplicateId => "DuplicateId",
        ClearFault::BadKind => "BadKind",
        ClearFault::DuplicateName => "DuplicateName",
    }
}

/// The name of a fault of the area.
fn area_name(fault: AreaFault) -> &'static str
    ensures { result.now ≡ area_name fault }
{
    match fault {
        AreaFault::CheckDiffers => "CheckDiffers",
        AreaFault::Short => "Short",
        AreaFault::BadText => "BadText",
        AreaFault::BadKind => "BadKind",
        AreaFault::DuplicateName => "DuplicateName",
    }
}

/// Appends a text.
fn put_text(text: &mut Vec<u8>, more: &str) -> Result<(), OutOfMemory>
    ensures { OnOk result (text.new.items ≡ text.old.items ++ more.now) }
{
    text.extend_from_slice(more.as_bytes())
}

/// Appends the number of items and the two times.
#[tactic(auto, unfolding(crate::specs::Lines::summary_text))]
fn put_summary(text: &mut Vec<u8>, summary: &Summary) -> Result<(), OutOfMemory>
    ensures { OnOk result (text.new.items ≡ text.old.items ++ summary_text summary.now) }
{
    put_number(text, summary.items as u64)?;
    put_text(text, " items, created ")?;
    put_time(text, summary.created)?;
    put_text(text, ", modified ")?;
    put_time(text, summary.modified)
}

/// Appends what was found of a file.
#[tactic(auto, unfolding(crate::specs::Lines::row_text))]
fn put_row(text: &mut Vec<u8>, row: &Row) -> Result<(), OutOfMemory>
    ensures { OnOk result (text.new.items ≡ text.old.items ++ row_text row.now) }
{
    match row {
        Row::Sound(summary) => {
            put_text(text, "ok ")?;
            put_summary(text, summary)
        }
        Row::TooLarge => put_text(text, "TooLarge"),
        Row::Clear(fault) => put_text(text, clear_name(*fault)),
        Row::OtherPassword(summary) => {
            put_text(text, "other password, ")?;
            put_summary(text, summary)
        }
        Row::Area(fault) => {
            put_text(text, "area ")?;
            put_text(text, area_name(*fault))
        }
    }
}

/// Appends the line of a file.
#[tactic(auto, unfolding(crate::specs::Lines::line_of))]
fn put_line(text: &mut Vec<u8>, verdict: &Verdict) -> Result<(), OutOfMemory>
    ensures { OnOk result (text.new.items ≡ text.old.items ++ line_of verdict.now) }
{
    put_text(text, verdict.name.as_str())?;
    put_text(text, ": ")?;
    put_row(text, &verdict.row)?;
    put_text(text, "\n")
}

/// The line of a file: its name, what was found of it, and a line feed.
pub fn line(alloc: Global, verdict: &Verdict) -> Result<Bytes, OutOfMemory>
    ensures { IfOk result (λ line. line ≡ line_of verdict.now) }
{
    let mut text = Vec::new(alloc);
    put_line(&mut text, verdict)?;
    Ok(Bytes::new(text))
}

/// The lines of files, in order, as one text.
pub fn report(alloc: Global, verdicts: &[Verdict]) -> Result<Vec<u8>, OutOfMemory>
    ensures { IfOk result (λ text. text.items ≡ report_of verdicts.now) }
{
    let mut text = Vec::new(alloc);
    for verdict in verdicts {
        put_line(&mut text, verdict)?;
    }
    Ok(text)
}

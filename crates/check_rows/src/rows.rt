// The rows of standard input: a kind, a space, cells with bars between them, ` => ` and the expected result, as in
// `label 1025 => 0`. A line that begins with `# ` is the heading of the rows after it, one that begins with `##` a note, and
// an empty line separates rows.

use crate::Line;
use std::alloc::AllocGlobal;
use std::io::{self, Input, Print};

/// What is tested by rows.
pub trait Subject {
    /// Runs a row of this kind on these cells, and writes its result.
    fn run(&mut self, kind: &str, cells: &str, line: &mut Line);
}

/// The cell at this index, counted from 0; `no such cell` if there are fewer.
pub fn cell(cells: &str, index: usize) -> &str {
    cells.split('|').nth(index).unwrap_or("no such cell")
}

fn is_row(line: &str) -> bool {
    !line.is_empty() && !line.starts_with('#')
}

// Runs a row, and returns whether its result is the expected one. A row without ` => ` expects nothing, so it differs.
fn agrees<S: Subject>(subject: &mut S, line: &mut Line, row: &str) -> bool {
    line.clear();
    let Some((front, want)) = row.split_once(" => ") else {
        line.add("no expected result");
        return false;
    };
    let (kind, cells) = front.split_once(' ').unwrap_or((front, ""));
    subject.run(kind, cells, line);
    line.as_str() == want
}

// Replaces a text; the old one is dropped here.
fn replace(place: &mut String, text: String) {
    *place = text;
}

/// Runs the rows of standard input in order. Prints each row whose result isn't the expected one, after its heading and with its
/// result, and at last how many rows agree. A text that was cut short for lack of memory differs from every expected one. Fails
/// only if the rows can't be read as text or a line can't be printed.
pub fn check_rows<R: AllocGlobal + Input + Print, S: Subject>(
    rt: &R,
    subject: &mut S,
) -> io::Result<()> {
    let mut line = Line::new(rt.alloc());
    let mut heading = String::new(rt.alloc());
    let mut count = 0u64;
    for row in rt.lines(rt.alloc()) {
        let row = row?;
        if !is_row(row.as_str()) {
            if row.starts_with("# ") {
                replace(&mut heading, row);
            }
        } else if agrees(subject, &mut line, row.as_str()) {
            count = count.saturating_add(1);
        } else {
            println!(rt;
                "{}\n{}\n  result: {}",
                heading.as_str(),
                row.as_str(),
                line.as_str()
            )?;
        }
    }
    println!(rt; "{count} rows agree")
}

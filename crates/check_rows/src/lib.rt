//! Tests as rows of data: a program reads rows from its standard input, and prints each row whose result differs from the one
//! that the row expects, and how many agree. Rows need no proof; the code that reads and compares them is proved here, once.
#![tactic(auto)]

mod line;
mod rows;

pub use line::Line;
pub use rows::{Subject, cell, check_rows};

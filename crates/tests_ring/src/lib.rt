//! Tests of ring_check, over folders in memory: the line of each kind of file, the order of the lines, why a check ends
//! before its last line, and a folder of 3,000 files, whose report is that of its files one by one.
#![tactic(auto)]

#[cfg(test)]
mod checks;
#[cfg(test)]
mod faults;
#[cfg(test)]
mod files;
#[cfg(test)]
mod many;
#[cfg(test)]
mod rows;

//! Tests of alias_table, over the disk in memory. They show worked changes of the aliases, what a set
//! comes to where each call of the device fails, and what a crash at each moment leaves, read again.
#![tactic(auto)]

#[cfg(test)]
mod changes;
#[cfg(test)]
mod checks;
#[cfg(test)]
mod faults;
#[cfg(test)]
mod most;
#[cfg(test)]
mod tables;

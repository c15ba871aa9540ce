//! Tests of the programs, through the public items of their crates: whole conversations over
//! streams and hosts in memory, and each way in which a run ends early. Expected bytes are those of
//! another program. A table is one text, with a row on each line.
#![tactic(auto)]

#[cfg(test)]
mod answered;
#[cfg(test)]
mod answers;
#[cfg(test)]
mod checking;
#[cfg(test)]
mod checks;
#[cfg(test)]
mod conversations;
#[cfg(test)]
mod desktop;
#[cfg(test)]
mod ends;
#[cfg(test)]
mod loads;
#[cfg(test)]
mod locked;
#[cfg(test)]
mod parts;
#[cfg(test)]
mod runs;
#[cfg(test)]
mod serving;

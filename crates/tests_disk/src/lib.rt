//! Tests of the crates of the disk layer: alias_text, replace_slot and folder_store, over the disk
//! in memory. They show worked files of aliases, what each fault of a device call leads to, what a
//! crash leaves at each moment, and which files a load lists.
#![tactic(auto)]

#[cfg(test)]
mod aliases;
#[cfg(test)]
mod checks;
#[cfg(test)]
mod replace;
#[cfg(test)]
mod store;
#[cfg(test)]
mod words;

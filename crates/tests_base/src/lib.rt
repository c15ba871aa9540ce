//! Tests of the crates of the base layer: kr_base, kr_names, kr_items, stem_choice and command_words.
//! They show what no clause of those crates says: worked examples of the standards, printed texts, and
//! that each public function returns a value if there is memory.
#![tactic(auto)]

#[cfg(test)]
mod base;
#[cfg(test)]
mod checks;
#[cfg(test)]
mod command_lines;
#[cfg(test)]
mod items;
#[cfg(test)]
mod names;
#[cfg(test)]
mod stems;
#[cfg(test)]
mod words;

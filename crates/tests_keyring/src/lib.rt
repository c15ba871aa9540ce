//! Tests of the crates of crypto and keyring files: aes_cbc, attribute_hash, key_derivation,
//! keyring_text, keyring_file and keyring_seal. Expected values are those of the standards, of
//! GNOME keyring, or of a program in Python. A table is one text, with a row on each line.
#![tactic(auto)]

#[cfg(test)]
mod blocks;
#[cfg(test)]
mod checks;
#[cfg(test)]
mod derivation;
#[cfg(test)]
mod fields;
#[cfg(test)]
mod files;
#[cfg(test)]
mod hashes;
#[cfg(test)]
mod known_parts;
#[cfg(test)]
mod two_texts;
#[cfg(test)]
mod vectors;
#[cfg(test)]
mod whole_files;
#[cfg(test)]
mod words;

//! The command line of keyringd: which words are one, and which command they are. It follows our own
//! rules (docs/SERVICE.md, "Command line"). Contracts see words as lists of bytes. Callers may rely on
//! these: `read_words` returns the command line that the words are, and None exactly if they are none;
//! it lacks memory only if they are one; and words are one command line at most.
#![tactic(auto)]

mod arguments;
mod beginning;
mod command_line;
mod commands;
mod line_laws;
mod numbers;

pub use command_line::CommandLine;
pub use commands::read_words;
pub use line_laws::words_are_one_command_line;

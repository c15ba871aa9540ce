//! The client tool as a machine: which calls `secret_tool` makes for a command, and what it prints, given the
//! replies that it gets (Secret Service API draft 0.2). It makes no connection and reads no bytes. Callers may rely
//! on these: the words that are a command are those of the definition `command_of`; after each reply the next step is
//! the next call of `script`, or the end that `print` says; and each call can be asked.
//!
//! ```text
//! let script = Script::new(words, secret)?;
//! let step = script.next(None)?;          // Send(call): the first call
//! let step = script.next(Some(reply))?;   // Send(call), or End(status and text)
//! ```
#![tactic(auto)]

mod calls;
mod command;
mod printed;
mod replies;
mod script;
mod script_laws;
mod steps;

pub use command::Command;
pub use script::Script;
pub use script_laws::{a_script_goes_on_or_ends, a_script_grows_by_its_next_call};
pub use steps::{ScriptEnd, ScriptStatus, ToolStep};

/// No memory was left for a call. It is the only refusal that may come at any time.
pub type OutOfMemory = kr_base::OutOfMemory;

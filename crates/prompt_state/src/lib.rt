//! The prompts of all connections, and the agent that answers them (Secret Service API draft 0.2,
//! interface Prompt; docs/SERVICE.md). A connection's calls find only its own prompts, the agent's
//! find all. Callers may rely on these: a connection has at most 64 prompts, no number and no round
//! is used twice, a prompt that ended is gone with its number, and only `begin`, `rows` and `asks_to`
//! take memory. The time of a call grows with the logarithm of the number of all prompts, and with the
//! number of its connection's; `unregister`, and `gone` of the agent, go through all prompts, as
//! does a caller that asks each again after `register`.
#![tactic(auto)]

mod completion_laws;
mod owned;
mod row;
mod rows;
mod table;
mod targets;

pub use completion_laws::a_prompt_completes_once;
pub use row::{Ask, Ended, PromptKind, PromptRow, Prompts, Stage};
pub use table::{PromptRefused, PromptState};
pub use targets::{Target, Targets};

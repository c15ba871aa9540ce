//! Tests of the client tool over a link in memory: client_tool and dialers. They show that each stream failing once in
//! the middle has its status, and what was written and printed by then. What the tool does over a running keyringd is
//! shown by `scripts/tool-rows`.
#![tactic(auto)]

#[cfg(test)]
mod checks;
#[cfg(test)]
mod faults;

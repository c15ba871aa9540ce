//! Who the senders of a message bus are to the service, without streams, threads or clocks
//! (docs/SERVICE.md, "Senders"). A sender is unknown, or its user is being looked up while its calls
//! wait, or it has a connection of the service. Callers may rely on these: a sender gets a connection
//! only once the bus has answered an open question about it with the right user; messages of others
//! than the bus that aren't calls change nothing; the calls of a sender are served in order, each once,
//! or turned away, or dropped if the sender goes; and what waits is bounded. `AgentStart` says when the
//! agent is started, and when its prompts are refused instead.
#![tactic(auto)]

mod action;
mod agent_start;
mod board;
mod board_laws;
mod hearing;
mod message;
mod rows;

pub use action::{Action, Refusal};
pub use agent_start::{AgentStart, Start};
pub use board::Board;
pub use board_laws::{
    a_connection_is_for_a_sender_that_was_looked_up, a_question_is_open_only_if_it_was_asked,
    only_the_bus_and_calls_count, what_waits_is_bounded,
};
pub use message::{Call, Kind, Message};
pub use rows::{Joined, Waiting};

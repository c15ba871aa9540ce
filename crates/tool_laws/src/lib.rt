//! What the script of the client tool does to the service: laws over the definitions of tool_script and service_events
//! (Secret Service API draft 0.2). The calls of a script are made one after the other, from a state that the service reaches, and no
//! other request is made and no key is brought meanwhile. If each reply is the one that the service puts out for its call, and none is
//! an error, then `lookup` prints the value of the first match in an unlocked collection, `clear` leaves none of these matches,
//! and `store` leaves an item with its label, its attributes and its secret. Each law is the contract of a function that does
//! nothing.
#![tactic(auto)]

mod clear;
mod conversations;
mod lookup;
mod ready;
mod store;

pub use clear::clear_leaves_no_match;
pub use conversations::answered_steps_are_those_of_the_script;
pub use lookup::lookup_prints_the_first_match;
pub use ready::each_state_of_a_service_is_ready;
pub use store::store_leaves_its_item;

//! Laws over the definitions of service_events (Secret Service API draft 0.2, and the agent of docs/SERVICE.md): what is true
//! of every list of events. A secret is shown only in the reply to a request of the connection that owns the secret's
//! session, and it is that of an item whose collection is unlocked there; whatever a plan says, it can answer with no other.
//! What waits for a connection, and is taken, was put out to it by an earlier event. From a sound state on, a prompt completes
//! at most once, and to its owner alone; once it has, or its owner has gone, no prompt has its number again, and a key that is
//! derived for it does nothing. Ask goes to the agent alone. A signal that announces a change goes to everyone, and depends on no
//! secret. What is to be shown is shown, too: a secret that the owner of a session asks for, Completed when a prompt ends, and
//! Ask when it is asked. Each law is the contract of a function that does nothing.
#![tactic(auto)]

mod agent;
mod announcing;
mod delivery;
mod prompts;
mod secrets;

pub use agent::{a_prompt_that_is_asked_is_put_to_the_agent, ask_goes_to_the_agent};
pub use announcing::{changes_are_announced_to_everyone, no_announcement_depends_on_a_secret};
pub use delivery::what_waits_was_put_out;
pub use prompts::{
    a_prompt_completes_at_most_once, a_prompt_that_ends_completes, a_prompt_that_is_over_stays_so,
    completed_goes_to_the_owner,
};
pub use secrets::{
    a_secret_goes_to_its_sessions_owner, an_unlocked_item_is_shown_to_a_sessions_owner,
    any_plan_answers_with_open_secrets_of_its_callers_sessions,
    each_secret_of_a_history_goes_to_its_sessions_owner,
    unlocked_items_are_shown_to_a_sessions_owner,
};

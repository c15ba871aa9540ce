//! What the agent's answer to a prompt leads to (docs/SERVICE.md, "Prompts"): the work that it gives, which is
//! to derive a key outside the service, and what becomes of the prompt once the key was derived. Callers
//! may rely on these: an answer and a derived key lead to what their plans do (`Leads` of `service_calls`,
//! `Settles` in `specs/Settled.antt`); a key that comes too late changes nothing; all memory is taken before the first
//! call of a device; and what is sent has room before anything changes. A password is in no answer.
#![tactic(auto)]

mod answering;
mod changing;
mod derived_key;

pub use answering::{answer_prompt, password_in, work_of};
pub use derived_key::{Settled, settle};
pub use service_calls;
pub use service_calls::{collection_store, secret_calls, service_events, service_tables};

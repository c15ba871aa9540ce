//! A load for the service: the calls that make so many items, search for them and read them, the bytes that a client
//! sends for them, and what is counted over the replies (docs/SERVICE.md, "The load"). The items depend on a seed
//! alone, by ChaCha20, so that two loads of one size and one seed are the same. Callers may rely on these: the calls
//! are those of the definition `plan`, in its order; what is sent is a handshake and their messages; and over all
//! that the service wrote, a count rises exactly for the replies that `counted` says.
#![tactic(auto)]

mod answered;
mod counts;
mod lines;
mod parts;
mod plan;
mod sending;
mod words;

pub use answered::count_replies;
pub use counts::Counts;
pub use lines::summary;
pub use plan::load_plan;
pub use sending::conversation;

/// No memory was left for a call. It is the only refusal that may come at any time.
pub type OutOfMemory = kr_base::OutOfMemory;

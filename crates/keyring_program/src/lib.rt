//! What the program keyringd does, as a function of its arguments, its streams, its host and a
//! seed: it opens a service over its folder, and serves one client on its streams, or the clients of a
//! socket, many at once: the handshake, and the calls of docs/SERVICE.md; or it tries all that with a client of
//! its own, in memory; or it checks the keyring files of a folder. Callers may rely on the contract of `run`, which
//! says what is written for what was read or what the folder has, what was recorded, in one history for all
//! clients, and why the run ended; and on the number and the text of each status. The program only makes the real
//! streams, the real host and the spawner of threads.
#![tactic(auto)]

mod check;
mod connection;
mod first_line;
mod folder;
mod load;
mod program;
mod run_laws;
mod serve;
mod server_number;
mod status;
mod stdio;
mod until_eof;
mod words;

pub use program::run;
pub use ring_check::{Progress, Unwatched};
pub use run_laws::{each_request_has_its_reply, what_is_written_is_one};
pub use serve::HostSpawner;
pub use service_hub::daemon;
pub use status::Status;
pub use until_eof::{await_end, ends_with_input};
pub use words::words_of;

//! What is done for one connection, over any source and any sink: the handshake, and then each call
//! with its reply and with the key that an answer asks for, on one thread; or by a reader that hands
//! the calls in and a writer that takes what waits and writes it, each on its own thread. Callers may
//! rely on these: what is written is what the definitions of the handshake and of the service give for
//! what was read, however that was cut, and a writer writes what its desk gave, in order; the desk's own
//! events are those of the requests and of their keys in order, each with its moment, and each request
//! with its salt; each end has its cause; what was recorded was answered, and what was taken was
//! written, unless the sink failed or memory ran out; and a stream that is open stays open.
#![tactic(auto)]

mod ending;
mod lines;
mod opening;
mod outs;
mod reading;
mod salts;
mod serials;
mod serving;
mod serving_laws;
mod single;
mod writing;

pub use call_wire;
pub use ending::End;
pub use opening::handshake;
pub use reading::read_side;
pub use salts::{Salts, next_cells};
pub use service_desk;
pub use serving_laws::{
    complete_messages_are_read_to_their_end, each_request_has_one_reply,
    each_request_is_answered_at_once, no_reply_is_lost, short_announcements_fit,
    what_is_given_was_taken,
};
pub use single::one_thread;
pub use writing::write_side;

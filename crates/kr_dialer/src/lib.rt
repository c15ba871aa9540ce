//! What a client asks of the world outside it, as a trait: a dialer, which connects to a path once, and is then read and
//! written. It keeps the rules of the sources and sinks of kr_outside, with one count of faults for all that it does.
//! Contracts see it by ghost meanings: the path that it has dialled, the bytes that it has left, the bytes that it has
//! taken, and how often it has failed. Callers may rely on this: a call fails only if the count rose in that very call.
#![tactic(auto)]

mod dialer;
mod reading;
mod sending;

pub use dialer::Dialer;
pub use reading::read_piece;
pub use sending::send_all;

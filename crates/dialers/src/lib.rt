//! The forms of the trait of kr_dialer. `JoinedDialer` gives a link of any source and any sink, as those in memory of
//! kr_memory, for tests. `UnixDialer` connects to a Unix stream socket; it is a part of the trusted edge, and says
//! nothing of the bytes that come. Callers may rely on this: a call is refused only if the system, the source or the sink
//! returned an error, or if no memory was left, and each error raises the dialer's count by one.
#![tactic(auto)]

mod joined;
mod unix;

pub use joined::JoinedDialer;
pub use unix::UnixDialer;

//! From the bytes of a link to a message bus to messages (D-Bus Specification, "Message Format";
//! docs/DBUS.md, "Messages that can't be read on a message bus"). A message whose header is valid, and whose body isn't
//! or is too long, is heard without its body, so that its sender gets an answer and no sender can end the
//! link. A body that is too long is skipped, and never kept. Callers may rely on these: what the calls of
//! `next` return is what is heard in all bytes that were fed, in order, however the bytes were cut; None is
//! returned exactly if more bytes are awaited; and a violation is one of the header alone.
#![tactic(auto)]

mod framer;
mod heard;
mod hearing_laws;
mod looking;

pub use framer::LinkFramer;
pub use heard::{BodyFault, Headed, Heard};
pub use hearing_laws::what_is_heard_does_not_depend_on_cuts;

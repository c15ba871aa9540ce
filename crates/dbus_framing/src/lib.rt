//! From a stream of bytes to messages (D-Bus Specification, "Message Format"). Contracts speak of
//! whole lists of bytes: a message is its whole spelling (`IsMessage`), and a stream is
//! spellings, one after the other, and a rest of which no prefix is a message (`Stream`). Callers
//! may rely on these: the messages that the calls of `next` return are those of the stream of all
//! bytes that were fed, in order, however the bytes were cut; None is returned exactly if no
//! further message is complete and no violation shows; a violation is the first one, and is
//! returned again by every later call.
#![tactic(auto)]

mod framer;
mod head;
mod header;
mod names;
mod opened;
mod progress;
mod reading;
mod stream_laws;
mod violation;

pub use framer::Framer;
pub use head::{Head, body_start, head_of, word_at};
pub use header::{Header, has_needed};
pub use names::{is_interface_name, is_member_name};
pub use reading::{FieldTypes, bodied, fields_at};
pub use stream_laws::{
    a_message_has_one_meaning, a_message_is_a_header_and_a_body, a_spelling_begins_no_other,
    answers_add_up, answers_begin_the_stream, answers_begin_the_stream_of_any_pieces,
    bytes_are_one_stream, no_bytes_end_inside, violations_stay,
};
pub use violation::{FrameRefused, Violation};

/// No memory was left for a call. This refusal alone may come at any time.
pub type OutOfMemory = kr_base::OutOfMemory;

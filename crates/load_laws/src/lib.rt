//! What a load is answered (docs/SERVICE.md, "The load"): the laws that lead from the definitions of a service's steps to the
//! numbers that a load counts. What the client of a load sends is read as its calls, whole and in order; and over a service that
//! starts with no collection and on a disk that doesn't fail, each item is made, found in the ten searches and read as it was
//! stored, and no call is refused, whatever signals come between the replies, of which none is too many to wait. Each law is the
//! contract of a function that does nothing.
#![tactic(auto)]

mod answer_laws;

pub use answer_laws::{
    a_load_counts_all, a_load_has_few_events, a_load_is_read_whole, a_load_loses_no_output,
};

//! The server's half of the D-Bus authentication handshake with the mechanism EXTERNAL, as a table
//! of one line in and one answer out (D-Bus Specification, "Authentication Protocol"). Callers may
//! rely on these: each line is answered by its row of the table, whatever bytes it contains; no
//! client gets `OK` before it has shown the awaited user id or has left it out; and the run of the
//! table over a stream of bytes is stated as a function of the whole stream, which doesn't depend
//! on how the stream was cut. Nothing here takes memory.
#![tactic(auto)]

mod answer;
mod auth;
mod command;
mod handshake_laws;

pub use answer::Answer;
pub use auth::{Auth, AuthFault, LINE_LIMIT, State, Step};
pub use handshake_laws::{
    a_line_has_16_384_bytes_at_most, accepted_arguments, begins_with_zero, cut_anywhere,
    cut_at_the_first_line_end, each_answer_has_its_line, each_refusal_has_its_cause,
    lines_one_by_one, ok_answers_an_accepted_argument, ok_decides_begin, only_begin_opens,
    runs_line_by_line, waits_for_the_end_of_a_line,
};

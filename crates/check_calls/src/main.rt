//! The tests of calls and outputs: messages that are read as calls, and outputs that are written as messages, compared with those
//! of other programs. The rows are in the file `stdin`.
#![tactic(auto)]

mod bodies;
mod called;
mod messages;
mod outputs;
mod replies;
mod requests;
mod shown;
mod signals;

use check_rows::{Line, Subject, check_rows};
use std::io;

#[derive(Clone, Copy)]
struct Calls;

impl Subject for Calls {
    fn run(&mut self, kind: &str, cells: &str, line: &mut Line) {
        match kind {
            "message" => messages::write_message(line, cells),
            "call" => messages::write_call(line, cells),
            "output" => outputs::write_output(line, cells),
            "signal" => signals::write_signal(line, cells),
            "fault" => outputs::write_fault(line, cells),
            "reply" => replies::write_reply(line, cells),
            "label" => signals::write_label(line, cells),
            "alias" => signals::write_alias(line, cells),
            _ => line.add("no such kind"),
        }
    }
}

fn main(rt: HostRuntime) -> io::Result<()> {
    check_rows(&rt, &mut Calls)
}

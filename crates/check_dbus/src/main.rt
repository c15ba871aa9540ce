//! The tests of D-Bus: signatures and object paths, values and messages that other programs marshal or refuse, small inputs, and
//! the lines of a handshake. The rows are in the file `stdin`.
#![tactic(auto)]

mod bytes;
mod handshake;
mod marshalling;
mod messages;
mod shown;
mod spelling;
mod streams;
mod types;

use check_rows::{Line, Subject, check_rows};
use dbus_auth::Auth;
use std::io;

/// The server of the handshake to which lines are sent, and the bytes of the messages so far.
#[derive(Drop)]
struct Dbus {
    server: Auth,
    stream: Vec<u8>,
}

impl Subject for Dbus {
    fn run(&mut self, kind: &str, cells: &str, line: &mut Line) {
        match kind {
            "server" => handshake::start(&mut self.server, cells, line),
            "line" => handshake::write_answer(&mut self.server, cells, line),
            "message" => streams::add_message(&mut self.stream, cells, line),
            "pieces" => streams::write_pieces(self.stream.as_slice(), cells, line),
            "cuts" => streams::write_cuts(self.stream.as_slice(), line),
            "feed" => messages::write_feed(cells, line),
            "fronts" => streams::write_fronts(cells, line),
            "name" => messages::write_name(cells, line),
            "signature" => types::write_signature(cells, line),
            "path" => types::write_path(cells, line),
            _ => marshalling::write(kind, cells, line),
        }
    }
}

fn main(rt: HostRuntime) -> io::Result<()> {
    let mut dbus = Dbus {
        server: handshake::new_server(0),
        stream: Vec::new(rt.alloc()),
    };
    check_rows(&rt, &mut dbus)
}

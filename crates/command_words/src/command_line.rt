use kr_base::Text;

/// A command line, as the table of commands has it (docs/SERVICE.md, "Command line").
#[derive(Drop)]
pub enum CommandLine {
    /// `stdio DIR UID`: serves one connection on the standard streams.
    Stdio {
        /// DIR, the folder of keyring files.
        folder: Text,
        /// UID, the user who is let in.
        uid: u32,
    },
    /// `serve DIR SOCKET --uid U [--connections N]`: serves the connections of a socket.
    Serve {
        /// DIR, the folder of keyring files.
        folder: Text,
        /// SOCKET, the path of the socket.
        socket: Text,
        /// U, the user who is let in.
        uid: u32,
        /// N, the number of connections to accept before the end; without it there is no such end.
        connections: Option<u64>,
    },
    /// `serve DIR SOCKET --uid U [--connections N] --until-eof`: does the same, and accepts no further
    /// connection once standard input has ended.
    ServeUntilEof {
        /// DIR, the folder of keyring files.
        folder: Text,
        /// SOCKET, the path of the socket.
        socket: Text,
        /// U, the user who is let in.
        uid: u32,
        /// N, the number of connections to accept before the end; without it there is no such end.
        connections: Option<u64>,
    },
    /// `load N SEED`: makes items in memory, searches for them and reads them.
    Load {
        /// N, the number of items: 1 to 1,000.
        items: u32,
        /// SEED, which determines the items.
        seed: u64,
    },
    /// `check DIR [--password]`: checks the keyring files of a folder.
    Check {
        /// DIR, the folder of keyring files.
        folder: Text,
        /// Whether the files are opened by a password, which standard input gives.
        password: bool,
    },
}

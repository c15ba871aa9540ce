// How far a check of a folder has come, on standard error.
use keyring_program::Progress;
use std::fmt;
use std::io::IsTerminal;

/// A number of files, in decimal with a comma before each three digits, as 12,000.
#[derive(Clone, Copy, Drop)]
struct Grouped(usize);

impl fmt::Display for Grouped {
    fn fmt<W: fmt::Write>(&self, f: &mut fmt::Formatter<W>) -> fmt::Result {
        let thousands = self.0 / 1_000;
        let units = self.0 % 1_000;
        if thousands == 0 {
            write!(f, "{units}")
        } else if thousands < 1_000 {
            write!(f, "{thousands},{units:03}")
        } else {
            let millions = thousands / 1_000;
            let thousands = thousands % 1_000;
            write!(f, "{millions},{thousands:03},{units:03}")
        }
    }
}

/// A line on standard error after each batch of files but the last one, if standard error is a terminal.
#[derive(Drop)]
pub struct ProgressLines {
    rt: HostRuntime,
    is_shown: bool,
    waiting: usize,
}

impl ProgressLines {
    /// Before the first file.
    pub fn new(rt: HostRuntime) -> ProgressLines {
        ProgressLines {
            rt,
            is_shown: rt.stderr().is_terminal(),
            waiting: 0,
        }
    }
}

impl Progress for ProgressLines {
    fn looked(&mut self, waiting: usize, looked: usize, of: usize) {
        // The files that waited were judged, as fewer wait than before.
        if self.is_shown && waiting < self.waiting {
            let checked = Grouped(looked.saturating_sub(waiting));
            let of = Grouped(of);
            // If standard error fails, there is nobody to report that to.
            let _ = eprintln!(self.rt; "checked {checked} of {of} files");
        }
        self.waiting = waiting;
    }

    fn ended(&mut self, _files: usize) {}
}

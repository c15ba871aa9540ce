//! The tests of the service over one thread: conversations over folders in memory, whose calls may fail and which may crash.
//! The rows are in the file `stdin`: `image` keeps the image of a file, `open` opens a service over a folder, and the rows after
//! it act on that service.
#![tactic(auto)]

mod acts;
mod clock;
mod closing;
mod many;
mod opening;
mod play;
mod taken;

use check_rows::check_rows;
use play::Play;
use std::io;

fn main(rt: HostRuntime) -> io::Result<()> {
    let mut play = Play::new(rt.alloc());
    check_rows(&rt, &mut play)
}

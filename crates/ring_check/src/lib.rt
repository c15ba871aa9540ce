//! Whether each file of a folder is a sound keyring file (GNOME keyring file format), and the line of a report that
//! says so: what its clear part says, the first fault in it, or, with a password, what the encrypted area shows.
//! Many files are judged at once, on all processors. Callers may rely on these: the verdict on a file is a function
//! of its bytes and the password, those on many files are the verdicts on each, in order, and each verdict has one
//! line, with its moments as dates of the calendar in UTC.
#![tactic(auto)]

mod batches;
mod checking;
mod ending;
mod judging;
mod lines;
mod names;
mod progress;
mod reading;
mod time;
mod verdict;

pub use checking::{Checked, check_folder, check_within};
pub use ending::CheckEnd;
pub use judging::judge;
pub use lines::{line, report};
pub use progress::{Progress, Unwatched};
pub use reading::Looked;
pub use verdict::{Row, Summary, Verdict};

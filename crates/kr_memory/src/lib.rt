//! The outside in memory: implementations of the traits of kr_outside, for tests and for
//! statements over an outside that never fails. Sources and sinks move their bytes by a plan of
//! pieces, a clock returns a list of moments, and a listener gives a list of links. Each source,
//! sink and listener has two forms: one fails at the calls that its plan lists and counts its
//! failures, and the steady one never fails. Around a source and a sink there are forms that wait
//! for a flag and that set it, by which a test makes one connection wait for another. Callers may
//! rely on the exact outcome of each call of a source or a sink: its contract says when it fails,
//! which bytes it moves, and the whole state afterwards.
#![tactic(auto)]

mod clock;
mod gates;
mod links;
mod plan;
mod sink;
mod source;

pub use clock::ListedClock;
pub use gates::{FlagSink, GatedSource, TURNS};
pub use links::{ListedLinks, SteadyLinks};
pub use sink::{MemorySink, SteadySink};
pub use source::{MemorySource, SteadySource};

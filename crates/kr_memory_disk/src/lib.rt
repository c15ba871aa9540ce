//! The disk in memory: slots, folders and hosts, for tests and for statements over a disk that
//! never fails. A slot records its calls and computes, for every moment, what a crash might have
//! left; a folder is a list of names and bytes, which can crash, with its slots, into another
//! folder; a host has one folder, one door and a clock. Each has two forms: one fails at the calls that its
//! plan lists and counts its failures, and the steady one never fails. Callers may rely on these:
//! the form that fails is honest, so that it behaves as the rename disk does, and the contracts of
//! the steady one say exactly what it keeps.
#![tactic(auto)]

mod files;
mod folder;
mod host;
mod left;
mod place;
mod plan;
mod slot;
mod steady;

pub use files::{Files, MemoryFile};
pub use folder::{MemoryFolder, SlotPlan};
pub use host::{MemoryHost, SteadyHost};
pub use plan::CallPlan;
pub use slot::{CallEnd, CallRecord, MemorySlot, SlotCall};
pub use steady::{SteadyFolder, SteadySlot};

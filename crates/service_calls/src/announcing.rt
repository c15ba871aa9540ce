// The signals of changes on their way to everyone. They are made, and there is room for them, before anything
// changes.
ghost use Rattle.std.specs.Prelude.{◌≡◌, IfOk};
ghost use Rattle.service_calls.specs.Done.{HasRoomToReply, said_by};
ghost use Rattle.service_calls.specs.Rows.{disk_of, rows_of};
ghost use Rattle.service_events.specs.ServiceCalls.{in_order};
ghost use Rattle.service_events.specs.service_prompts.specs.Announcing.{all_closing_signals, announced};
ghost use Rattle.service_events.specs.service_tables.specs.Connections.{spread};
ghost use Rattle.service_events.specs.service_tables.specs.declared.fate.StoreFate.{StoreFate};

use crate::Tables;
use kr_base::{ConnId, OutOfMemory, Stem};
use kr_outside::Folder;
use service_events::secret_calls::{SharedSignal, Signal};
use service_events::service_prompts::lock_signals;
use service_events::service_tables::{Delivery, StoreFate};
use std::alloc::Global;
use stem_choice::UsedStems;

/// What is sent after a file was to be stored, by how that ended: nothing if it was not stored.
#[derive(Drop)]
pub struct Said {
    /// What is sent if it was stored.
    pub stored: Vec<Delivery>,
    /// What is sent if that isn't known.
    pub unsure: Vec<Delivery>,
}

impl Said {
    /// What is sent if storing the file ended so.
    pub fn by(self, alloc: Global, fate: StoreFate) -> Vec<Delivery>
        ensures { result.items ≡ said_by self.stored.items self.unsure.items fate }
    {
        match fate {
            StoreFate::Stored => self.stored,
            StoreFate::Before => Vec::new(alloc),
            StoreFate::Unsure => self.unsure,
        }
    }
}

/// These stems in byte order, each once.
pub fn in_order(alloc: Global, stems: &[Stem]) -> Result<UsedStems, OutOfMemory>
    ensures { IfOk result (λ ordered. ordered.stems ≡ in_order stems.now) }
{
    let mut ordered = UsedStems::new(alloc);
    for stem in stems {
        ordered.add(stem)?;
    }
    Ok(ordered)
}

impl<F: Folder> Tables<F> {
    /// The deliveries of these signals, in order, each to everyone.
    pub fn announced(&self, signals: Vec<Signal>) -> Result<Vec<Delivery>, OutOfMemory>
        ensures { IfOk result (λ sends. sends.items
            ≡ spread (rows_of self.now).connections.rows (announced signals.items)) }
    {
        let mut sends = Vec::new(self.alloc);
        for signal in signals {
            let shared = SharedSignal::new(self.alloc, signal)?;
            self.connections.to_everyone(&shared, &mut sends)?;
        }
        Ok(sends)
    }

    /// The signals of the collections of these stems that get locked: those that are unlocked.
    pub fn closing_signals(&self, stems: &[Stem]) -> Result<Vec<Signal>, OutOfMemory>
        ensures { IfOk result (λ signals. signals.items
            ≡ all_closing_signals stems.now (rows_of self.now).collections) }
    {
        let mut signals = Vec::new(self.alloc);
        for stem in stems {
            if self.disk.collections.is_open(stem) {
                signals.append(&mut lock_signals(self.alloc, stem, true)?)?;
            }
        }
        Ok(signals)
    }

    /// What is sent after a file was to be stored, with room for it: these signals if it was stored, and the others if that
    /// isn't known.
    pub fn prepare_said(
        &mut self,
        conn: ConnId,
        stored: Vec<Signal>,
        unsure: Vec<Signal>,
    ) -> Result<Said, OutOfMemory>
        ensures stored { IfOk result (λ said. said.stored.items
            ≡ spread (rows_of self.old).connections.rows (announced stored.items)) }
        ensures unsure { IfOk result (λ said. said.unsure.items
            ≡ spread (rows_of self.old).connections.rows (announced unsure.items)) }
        ensures room { IfOk result (λ said. (fate : StoreFate) → HasRoomToReply conn
            (said_by said.stored.items said.unsure.items fate) self.new.connections.rooms) }
        ensures rows { rows_of self.new ≡ rows_of self.old }
        ensures disk { disk_of self.new ≡ disk_of self.old }
    {
        let stored = self.announced(stored)?;
        let unsure = self.announced(unsure)?;
        self.connections.reserve_for(conn, &stored)?;
        self.connections.reserve_for(conn, &unsure)?;
        Ok(Said { stored, unsure })
    }
}

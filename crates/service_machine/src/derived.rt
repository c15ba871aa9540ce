// The event that a derived key was brought, which is recorded by what the key was derived from.
ghost use Rattle.std.specs.Prelude.{Ok, ◌≡◌, ◌^◌, ◌<◌, true, IsTrue, IfOk, OnErr};
ghost use Rattle.service_answers.specs.service_disk.specs.Making.{AreFree};
ghost use Rattle.service_answers.specs.service_events.specs.Derivation.{derived};
ghost use Rattle.service_answers.specs.service_events.specs.Fates.{AreFaultless, is_steady};
ghost use Rattle.service_answers.specs.service_events.specs.declared.event.Event.TheVariants as Event;
ghost use Rattle.service_answers.specs.service_events.specs.Incoming.{IsBroughtBy};
ghost use Rattle.service_machine.specs.Rows.{disk_of, rows_of};
ghost use Rattle.service_answers.specs.service_events.specs.Step.{Fits, IsSalt, step};
ghost use Rattle.service_answers.specs.service_events.specs.Stored.{KeepsMaking, StoresEvent};
ghost use Rattle.keyring_text.specs.Fields.{IsBytes};
ghost use Rattle.service_answers.specs.service_tables.specs.Connections.{has};
ghost use Rattle.service_answers.specs.service_tables.specs.Sound.{IsSound};

use crate::known::known_files;
use crate::machine::known_salt;
use crate::{Boxed, BroughtKey, Derivation, Fates, Machine};
use keyring_text::known_bytes;
use kr_base::OutOfMemory;
use kr_outside::Folder;
use service_answers::secret_calls::Finished;
use service_answers::{Settled, settle};

// What the types of a derived key guarantee that is recorded. It does nothing.
fn known_derivation(came: &Derivation)
    ensures moment { came.entry.now.now < 2 ^ 64 }
    ensures round { came.entry.now.round < 2 ^ 64 }
    ensures password { IsBytes came.entry.now.password }
    ensures salt { IsSalt came.entry.now.salt }
    ensures iterations { came.entry.now.iterations < 2 ^ 32 }
{
    known_bytes(came.password.as_slice());
    known_salt(&came.salt);
    let _moment = came.now;
    let _round = came.round;
    let _iterations = came.iterations;
}

impl<F: Folder> Machine<F> {
    /// Takes a key that was derived for a prompt and brought by an existing connection, and returns the event as it is
    /// to be recorded: its prompt continues if it still waits for the key, and otherwise nothing happens. What that
    /// sends waits for its connections. All memory is taken before the first call of a device.
    ///
    /// Refused with `OutOfMemory` alone; if its prompt creates a collection, a slot that was made for it by then is
    /// kept for the next one under its stem.
    pub fn derived(&mut self, brought: BroughtKey) -> Result<Boxed<Derivation>, OutOfMemory>
        requires there { has brought.conn (rows_of self.old).connections.rows ≡ true }
        requires sound { IsSound (rows_of self.old) }
        requires free { AreFree F.is_honest F.images F.may_leave F.made F.Cell.is_honest
            F.Cell.may_leave (disk_of self.old) }
        ensures recorded { IfOk result (IsBroughtBy brought) }
        ensures fits { IfOk result (λ came. Fits (rows_of self.old) (Event.Derived came)) }
        ensures stepped { IfOk result (λ came.
            rows_of self.new ≡ step (rows_of self.old) (Event.Derived came)) }
        ensures disk { IfOk result (λ came. StoresEvent F.is_honest F.is_steady F.faults F.images
            F.may_leave F.made F.Cell.is_honest F.Cell.is_steady
            F.Cell.faults F.Cell.moment F.Cell.left_since F.Cell.may_leave
            (Event.Derived came) (rows_of self.old) (disk_of self.old) (disk_of self.new)) }
        ensures faultless { IsTrue (is_steady F.is_steady F.Cell.is_steady (disk_of self.old))
            → IfOk result (λ came. AreFaultless came.fates) }
        ensures steady { is_steady F.is_steady F.Cell.is_steady (disk_of self.new)
            ≡ is_steady F.is_steady F.Cell.is_steady (disk_of self.old) }
        ensures free { AreFree F.is_honest F.images F.may_leave F.made F.Cell.is_honest
            F.Cell.may_leave (disk_of self.new) }
        ensures unchanged { OnErr result (rows_of self.new ≡ rows_of self.old) }
        ensures kept { OnErr result (KeepsMaking F.is_honest F.is_steady F.faults F.images
            F.may_leave F.made F.Cell.is_honest F.Cell.is_steady F.Cell.faults
            F.Cell.left_since brought (rows_of self.old) (disk_of self.old) (disk_of self.new)) }
    {
        known_files(&self.tables.disk);
        let BroughtKey { conn, done, now } = brought;
        let Finished { prompt, round, key } = done;
        let password = key.password().copy()?;
        let salt = key.salt();
        let iterations = key.iterations();
        let came = Derivation {
            conn,
            prompt,
            round,
            password,
            salt,
            iterations,
            now,
            fates: Fates::none(),
        };
        known_derivation(&came);
        self.tables.connections.are_distinct();
        let came = Boxed::new(self.tables.alloc, came)?;
        let Settled { made, done } = settle(&mut self.tables, conn, prompt, round, key, now)?;
        let (_, sends, read, fate) = done.into_parts();
        self.tables.connections.deliver(sends.into_vec());
        Ok(Derivation::ended(came, Fates::of(made, read, fate)))
    }
}

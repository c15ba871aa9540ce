// A derived key changes the password of a collection (docs/SERVICE.md, "Prompts").
ghost use Rattle.std.specs.Prelude.{◌≡◌, ◌++◌, None, true, IfOk, OnErr};
ghost use Rattle.std.specs.Option.{is_some};
ghost use Rattle.prompt_state.specs.Prompts.{row_at};
ghost use Rattle.service_answers.specs.Settled.{Settles, ended_sent, ends_by};
ghost use Rattle.service_calls.specs.Done.{HasRoomToReply};
ghost use Rattle.service_calls.specs.Rows.{disk_of, rows_of};
ghost use Rattle.service_calls.specs.collection_table.specs.Rows.{is_open};
ghost use Rattle.service_calls.specs.service_disk.specs.Making.{AreFree};
ghost use Rattle.service_calls.specs.service_events.specs.Announced.{rekey_signals};
ghost use Rattle.service_calls.specs.service_events.specs.Derivation.{new_iterations, password_changed, stored_under};
ghost use Rattle.service_calls.specs.service_events.specs.Run.{asked};
ghost use Rattle.service_calls.specs.service_prompts.specs.Announcing.{announced};
ghost use Rattle.service_calls.specs.service_prompts.specs.Prompting.{completed_sent};
ghost use Rattle.service_calls.specs.service_tables.specs.Connections.{spread};
ghost use Rattle.service_calls.specs.service_tables.specs.Sound.{IsSound};
ghost use Rattle.service_calls.specs.service_tables.specs.declared.fate.StoreFate.{StoreFate};

use crate::derived_key::{Ends, Settled, are_terms, unmade};
use key_derivation::Derived;
use kr_base::{ConnId, OutOfMemory, PromptId, Stem};
use kr_outside::Folder;
use service_calls::secret_calls::Body;
use service_calls::service_disk::rekey;
use service_calls::service_prompts::{completed_sent, lock_signals};
use service_calls::{Tables, sending};

/// Stores the collection of a prompt under the key, if the key has the terms of the prompt's work, and ends the
/// prompt: completed if the collection was stored, and otherwise dismissed. All memory is taken before the first call
/// of a device.
pub fn change_password<F: Folder>(
    tables: &mut Tables<F>,
    conn: ConnId,
    prompt: PromptId,
    stem: &Stem,
    salt: &[u8; 8],
    key: Derived,
    now: u64,
) -> Result<Settled, OutOfMemory>
    requires there { is_some (row_at prompt (rows_of tables.old).prompts) ≡ true }
    requires sound { IsSound (rows_of tables.old) }
    requires free { AreFree F.is_honest F.images F.may_leave F.made F.Cell.is_honest
        F.Cell.may_leave (disk_of tables.old) }
    ensures settles { IfOk result (Settles F.is_honest F.is_steady F.faults F.images
        F.may_leave F.made F.Cell.is_honest F.Cell.is_steady
        F.Cell.faults F.Cell.moment F.Cell.left_since F.Cell.may_leave conn
        (record { now = now; value = key.password })
        (password_changed prompt stem.now salt.now
        (record { salt = key.salt; iterations = key.iterations })
        (asked conn (record { now = now; value = key.password }) (rows_of tables.old)))
        (rows_of tables.old) (rows_of tables.new) (disk_of tables.old) (disk_of tables.new)) }
    ensures room { IfOk result (λ settled.
        HasRoomToReply conn settled.done.sends tables.new.connections.rooms) }
    ensures free { AreFree F.is_honest F.images F.may_leave F.made F.Cell.is_honest
        F.Cell.may_leave (disk_of tables.new) }
    ensures unchanged { OnErr result ((rows_of tables.new ≡ rows_of tables.old)
        × (disk_of tables.new ≡ disk_of tables.old)) }
{
    if !are_terms(salt, &key) {
        return Ok(unmade(tables.end_dismissed(conn, prompt)?));
    }
    store_under(tables, conn, prompt, stem, key, now)
}

// The same with a key that has the terms of a new password.
fn store_under<F: Folder>(
    tables: &mut Tables<F>,
    conn: ConnId,
    prompt: PromptId,
    stem: &Stem,
    key: Derived,
    now: u64,
) -> Result<Settled, OutOfMemory>
    requires there { is_some (row_at prompt (rows_of tables.old).prompts) ≡ true }
    requires sound { IsSound (rows_of tables.old) }
    requires free { AreFree F.is_honest F.images F.may_leave F.made F.Cell.is_honest
        F.Cell.may_leave (disk_of tables.old) }
    requires iterations { key.iterations ≡ new_iterations }
    ensures settles { IfOk result (Settles F.is_honest F.is_steady F.faults F.images
        F.may_leave F.made F.Cell.is_honest F.Cell.is_steady
        F.Cell.faults F.Cell.moment F.Cell.left_since F.Cell.may_leave conn
        (record { now = now; value = key.password })
        (stored_under prompt stem.now
        (record { salt = key.salt; iterations = key.iterations })
        (asked conn (record { now = now; value = key.password }) (rows_of tables.old)))
        (rows_of tables.old) (rows_of tables.new) (disk_of tables.old) (disk_of tables.new)) }
    ensures room { IfOk result (λ settled.
        HasRoomToReply conn settled.done.sends tables.new.connections.rooms) }
    ensures free { AreFree F.is_honest F.images F.may_leave F.made F.Cell.is_honest
        F.Cell.may_leave (disk_of tables.new) }
    ensures unchanged { OnErr result ((rows_of tables.new ≡ rows_of tables.old)
        × (disk_of tables.new ≡ disk_of tables.old)) }
{
    let ends = prepare_ends(tables, conn, prompt, stem)?;
    let stored = rekey(&mut tables.disk, stem, key, now)?;
    let _ended = tables.prompts.end(prompt);
    match stored {
        Some(fate) => Ok(Settled {
            made: Some(fate),
            done: sending(Ok(Body::Empty), ends.by(fate)),
        }),
        None => Ok(unmade(sending(Ok(Body::Empty), ends.before))),
    }
}

// What is sent once the collection of a stem was to be stored under another key, and room for it.
fn prepare_ends<F: Folder>(
    tables: &mut Tables<F>,
    conn: ConnId,
    prompt: PromptId,
    stem: &Stem,
) -> Result<Ends, OutOfMemory>
    ensures ends { IfOk result (λ ends.
        is_open stem.now (rows_of tables.old).collections ≡ true → (fate : StoreFate)
        → ends_by ends.stored.items ends.before.items ends.unsure.items fate
        ≡ spread (rows_of tables.old).connections.rows (announced
        (rekey_signals stem.now fate (rows_of tables.old).collections))
        ++ spread (rows_of tables.old).connections.rows
        (ended_sent prompt stem.now fate (rows_of tables.old).prompts)) }
    ensures before { IfOk result (λ ends. ends.before.items
        ≡ spread (rows_of tables.old).connections.rows
        (completed_sent prompt true None (rows_of tables.old).prompts)) }
    ensures room { IfOk result (λ ends. (fate : StoreFate) → HasRoomToReply conn
        (ends_by ends.stored.items ends.before.items ends.unsure.items fate)
        tables.new.connections.rooms) }
    ensures rows { rows_of tables.new ≡ rows_of tables.old }
    ensures disk { disk_of tables.new ≡ disk_of tables.old }
{
    let changed = Some(stem.copy()?);
    let stored = completed_sent(tables.alloc, &tables.prompts, prompt, false, &changed)?;
    let before = completed_sent(tables.alloc, &tables.prompts, prompt, true, &None)?;
    let mut dismissed = completed_sent(tables.alloc, &tables.prompts, prompt, true, &None)?;
    let signals = lock_signals(tables.alloc, stem, true)?;
    let mut unsure = tables.announced(signals)?;
    unsure.append(&mut dismissed)?;
    tables.connections.reserve_for(conn, &stored)?;
    tables.connections.reserve_for(conn, &before)?;
    tables.connections.reserve_for(conn, &unsure)?;
    Ok(Ends {
        stored,
        before,
        unsure,
    })
}

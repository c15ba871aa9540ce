// The signals of changes: to whom they go, and that none depends on a secret. Each law is the contract of a
// function that does nothing.
ghost use Rattle.std.specs.Prelude.{◌≡◌, ◌⊎◌, ℕ, false, [], List, Contains};
ghost use Rattle.machine_laws.specs.Announcing.{all_hidden, announces, is_everyone, valueless};
ghost use Rattle.service_events.specs.Announced.{demand_signals, reading_signals, unlock_signals};
ghost use Rattle.service_events.specs.Plan.{Demand, KeyTerms, Reading};
ghost use Rattle.service_events.specs.Run.{key_with};
ghost use Rattle.service_events.specs.Step.{puts_out};
ghost use Rattle.service_events.specs.collection_table.specs.Rows.{Rows};
ghost use Rattle.service_events.specs.declared.event.Event.{Event};
ghost use Rattle.service_events.specs.service_prompts.specs.Announcing.{closing_signals, lock_signals};
ghost use Rattle.service_events.specs.service_tables.specs.Sent.{Sent};
ghost use Rattle.service_events.specs.service_tables.specs.State.{State};
ghost use Rattle.service_events.specs.service_tables.specs.Storing.{Brought};
ghost use Rattle.service_events.specs.service_tables.specs.declared.fate.ReadFate.{ReadFate};
ghost use Rattle.service_events.specs.service_tables.specs.declared.fate.StoreFate.{StoreFate};

/// A signal that announces a change goes to every connection, and nothing else does: what an event puts
/// out is for everyone exactly if it is such a signal. This is true of any event in any state.
pub fn changes_are_announced_to_everyone()
    ensures { (state : State) (event : Event) (sent : Sent) → Contains (puts_out state event) sent
        → is_everyone sent.to ≡ announces sent.out }
{}

/// No signal that announces a change depends on a secret. What is announced once something was asked of the
/// disk, once a file was to be read again, and when a collection is locked, is the same if the secrets of all
/// items have other values, the keys are others, and the event brings another value, which is a secret or a
/// password. Of a key with which a collection is to be unlocked, it is announced only whether it opens it.
pub fn no_announcement_depends_on_a_secret()
    ensures stored { (brought : Brought) (demand : Demand) (ended : StoreFate) (rows : Rows)
        → demand_signals brought demand ended rows
        ≡ demand_signals (valueless brought) demand ended (all_hidden rows) }
    ensures read { (reading : Reading) (ended : ReadFate) (rows : Rows)
        → reading_signals reading ended rows ≡ reading_signals reading ended (all_hidden rows) }
    ensures locked { (stem : List ℕ) (rows : Rows)
        → closing_signals stem rows ≡ closing_signals stem (all_hidden rows) }
    ensures unlocked { (brought : Brought) (terms : KeyTerms) (stem : List ℕ) (rows : Rows)
        → (unlock_signals (key_with brought terms) stem rows ≡ [])
        ⊎ (unlock_signals (key_with brought terms) stem rows ≡ lock_signals stem false) }
{}

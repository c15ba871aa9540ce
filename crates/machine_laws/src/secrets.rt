// Who is shown a secret, and whose it is. Each law is the contract of a function that does nothing.
ghost use Rattle.std.specs.Prelude.{◌≡◌, ℕ, ◌≤◌, [], Contains, List, length, true, slice_get, IsTrue, IsSomeAnd, Some, Ok};
ghost use Rattle.kr_base.specs.declared.ids.ConnId.{ConnId};
ghost use Rattle.kr_base.specs.declared.ids.ItemId.{ItemId};
ghost use Rattle.kr_base.specs.declared.ids.SessionId.{SessionId};
ghost use Rattle.kr_names.specs.declared.object_name.ObjectName.{ObjectName};
ghost use Rattle.kr_names.specs.declared.object_name.ObjectName.TheVariants as object;
ghost use Rattle.kr_names.specs.Path.{path_text};
ghost use Rattle.service_events.specs.collection_table.specs.Rows.{has_item, is_open};
ghost use Rattle.service_events.specs.secret_calls.specs.declared.call.Call.TheVariants as call;
ghost use Rattle.service_events.specs.secret_calls.specs.declared.out.Body.TheVariants as body;
ghost use Rattle.service_events.specs.secret_calls.specs.declared.out.Out.TheVariants as Out;
ghost use Rattle.service_events.specs.secret_calls.specs.declared.secret.ItemSecret.{ItemSecret};
ghost use Rattle.service_events.specs.secret_calls.specs.declared.secret.ReturnedSecret.{ReturnedSecret};
ghost use Rattle.service_events.specs.secret_calls.specs.Outs.{spelled_body};
ghost use Rattle.session_table.specs.Sessions.{owns};
ghost use Rattle.service_events.specs.service_tables.specs.Limits.{most_body};
ghost use Rattle.service_events.specs.service_tables.specs.Sound.{IsSound};
ghost use Rattle.service_events.specs.service_tables.specs.TablesReading.{secret_of};
ghost use Rattle.service_events.specs.service_tables.specs.State.{State};
ghost use Rattle.service_events.specs.service_tables.specs.Storing.{Brought};
ghost use Rattle.service_events.specs.service_tables.specs.declared.fate.Fate.{Fate};
ghost use Rattle.service_events.specs.Plan.{Plan};
ghost use Rattle.service_events.specs.Run.{run};
ghost use Rattle.service_events.specs.service_tables.specs.Sent.{One, Sent, is_for};
ghost use Rattle.service_events.specs.declared.event.Event.{Event};
ghost use Rattle.service_events.specs.declared.event.Event.TheVariants as Event;
ghost use Rattle.service_events.specs.declared.event.Recorded.{Recorded};
ghost use Rattle.machine_laws.specs.Secrets.{AreOwnAndOpen, IsOfOpenItem, IsReturnOf, Shows, ShowsAt, ended_in, items_shown, secrets_in, secrets_shown, state_at};

/// Whatever a plan says, and whatever state it is run in: each secret that it answers is for a session that
/// the caller owns, and that of an item whose collection is unlocked, in the state in which the plan ends. What
/// it sends besides its answer has no secret. So no row of the table of calls can show another one.
pub fn any_plan_answers_with_open_secrets_of_its_callers_sessions()
    ensures answer { (caller : ConnId) (brought : Brought) (plan : Plan) (fates : List Fate)
        (state : State) → AreOwnAndOpen caller (ended_in caller brought plan fates state)
        (run caller brought plan fates state).answer }
    ensures sends { (caller : ConnId) (brought : Brought) (plan : Plan) (fates : List Fate)
        (state : State) (sent : Sent) (path : List ℕ)
        → Contains (run caller brought plan fates state).sends sent
        → secrets_in path sent.out ≡ [] }
{}

/// A message that contains a secret is the return of a request, and goes to the connection of that request
/// alone. In the state before the request each connection to which it goes owns the secret's session, and the
/// secret is that of an item whose collection is unlocked. This is true of any event in any state, whether or
/// not the event fits.
pub fn a_secret_goes_to_its_sessions_owner()
    ensures reply { (state : State) (event : Event) (sent : Sent) (shown : ItemSecret)
        → Shows state event sent shown → IsReturnOf event sent }
    ensures owned { (state : State) (event : Event) (sent : Sent) (shown : ItemSecret)
        (conn : ConnId) → Shows state event sent shown → IsTrue (is_for sent.to conn)
        → IsTrue (owns conn shown.secret.session state.sessions) }
    ensures unlocked { (state : State) (event : Event) (sent : Sent) (shown : ItemSecret)
        → Shows state event sent shown → IsOfOpenItem state.collections shown }
{}

/// The same at each place of a list of events, in the state that the events before that place lead to. So
/// it is true of a list that is legal from the start of a service.
#[tactic(auto, using(crate::proofs::SecretLemmas::reply_at, crate::proofs::SecretLemmas::owned_at, crate::proofs::SecretLemmas::unlocked_at))]
pub fn each_secret_of_a_history_goes_to_its_sessions_owner()
    ensures reply { (start : State) (events : List Event) (place : ℕ) (sent : Sent)
        (shown : ItemSecret) → ShowsAt start events place sent shown
        → IsSomeAnd (slice_get events place) (λ event. IsReturnOf event sent) }
    ensures owned { (start : State) (events : List Event) (place : ℕ) (sent : Sent)
        (shown : ItemSecret) (conn : ConnId) → ShowsAt start events place sent shown
        → IsTrue (is_for sent.to conn)
        → IsTrue (owns conn shown.secret.session (state_at start events place).sessions) }
    ensures unlocked { (start : State) (events : List Event) (place : ℕ) (sent : Sent)
        (shown : ItemSecret) → ShowsAt start events place sent shown
        → IsOfOpenItem (state_at start events place).collections shown }
{}

/// By GetSecret, the owner of a session is shown the secret of an item that is there and whose collection
/// is unlocked, if a reply is wanted and its values aren't too large. In a sound state each such item has a
/// secret; in any state it is shown if the item has one.
#[tactic(auto, using(crate::proofs::SecretLemmas::shown_if_open, crate::proofs::SecretLemmas::shown_on_call))]
pub fn an_unlocked_item_is_shown_to_a_sessions_owner()
    ensures sound { (state : State) (came : Recorded) (stem : List ℕ) (item : ItemId)
        (session : SessionId) → IsSound state
        → came.arrival.request.call ≡ Ok (call.GetSecret stem item (Some session))
        → came.arrival.request.wants_reply ≡ true
        → IsTrue (owns came.arrival.conn session state.sessions)
        → IsTrue (is_open stem state.collections)
        → IsTrue (has_item stem item.0 state.collections)
        → (secret : ReturnedSecret)
        × (secret_of session state.collections stem item ≡ Some secret)
        × (length (spelled_body (body.Secret secret)) ≤ most_body
        → Shows state (Event.Arrive came)
        (record {
          to = One came.arrival.conn;
          out = Out.Return came.arrival.request.serial (body.Secret secret);
        })
        (record { item = path_text (object.Item stem item); secret = secret })) }
    ensures any_state { (state : State) (came : Recorded) (stem : List ℕ) (item : ItemId)
        (given : SessionId) (secret : ReturnedSecret)
        → came.arrival.request.call ≡ Ok (call.GetSecret stem item (Some given))
        → came.arrival.request.wants_reply ≡ true
        → IsTrue (owns came.arrival.conn given state.sessions)
        → IsTrue (has_item stem item.0 state.collections)
        → secret_of given state.collections stem item ≡ Some secret
        → length (spelled_body (body.Secret secret)) ≤ most_body
        → Shows state (Event.Arrive came)
        (record {
          to = One came.arrival.conn;
          out = Out.Return came.arrival.request.serial (body.Secret secret);
        })
        (record { item = path_text (object.Item stem item); secret = secret }) }
{}

/// By GetSecrets, the owner of a session is shown the secret of each of the items that are there and whose
/// collections are unlocked, if a reply is wanted and its values aren't too large. In a sound state each such
/// item has a secret; in any state it is shown if the item has one.
pub fn unlocked_items_are_shown_to_a_sessions_owner()
    ensures sound { (state : State) (came : Recorded) (objects : List ObjectName)
        (stem : List ℕ) (item : ItemId) (given : SessionId) → IsSound state
        → came.arrival.request.call ≡ Ok (call.GetSecrets objects (Some given))
        → came.arrival.request.wants_reply ≡ true
        → IsTrue (owns came.arrival.conn given state.sessions)
        → Contains (items_shown state objects) (object.Item stem item)
        → length (spelled_body (body.Secrets (secrets_shown given state objects))) ≤ most_body
        → (secret : ReturnedSecret)
        × (secret_of given state.collections stem item ≡ Some secret)
        × Shows state (Event.Arrive came)
        (record {
          to = One came.arrival.conn;
          out = Out.Return came.arrival.request.serial
              (body.Secrets (secrets_shown given state objects));
        })
        (record { item = path_text (object.Item stem item); secret = secret }) }
    ensures any_state { (state : State) (came : Recorded) (objects : List ObjectName)
        (stem : List ℕ) (item : ItemId) (given : SessionId) (secret : ReturnedSecret)
        → came.arrival.request.call ≡ Ok (call.GetSecrets objects (Some given))
        → came.arrival.request.wants_reply ≡ true
        → IsTrue (owns came.arrival.conn given state.sessions)
        → Contains (items_shown state objects) (object.Item stem item)
        → secret_of given state.collections stem item ≡ Some secret
        → length (spelled_body (body.Secrets (secrets_shown given state objects))) ≤ most_body
        → Shows state (Event.Arrive came)
        (record {
          to = One came.arrival.conn;
          out = Out.Return came.arrival.request.serial
              (body.Secrets (secrets_shown given state objects));
        })
        (record { item = path_text (object.Item stem item); secret = secret }) }
{}

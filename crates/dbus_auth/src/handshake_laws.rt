ghost use Rattle.std.specs.Prelude.{◌≡◌, ◌≢◌, ℕ, ◌^◌, ◌+◌, ◌<◌, ◌↔◌, List, [], ◌∷◌, ◌++◌, take, drop, IsTrue, codes, decimal};
ghost use Rattle.std.specs.List.{AllByRecursion, concat};
ghost use Rattle.hex.specs.Hex.{encode_lower, encode_upper};
ghost use Rattle.dbus_auth.specs.Answers.{ok_line};
ghost use Rattle.dbus_auth.specs.Commands.{is_accepted};
ghost use Rattle.dbus_auth.specs.Conversation.{IsLine, ended, Runs, joined, fed, continued, in_pieces, IsAccepted, GivesAccepted, Stands, HasLine, OkStands, IsOpened, IsWaiting, HasCause};
ghost use Rattle.dbus_auth.specs.Exchange.{Exchange};
ghost use Rattle.dbus_auth.specs.Handshake.{End, waiting, refused, opened, silent, run, handshake};
ghost use Rattle.dbus_auth.specs.Lines.{EndsAt, first_cut, line_limit, word_of};
ghost use Rattle.dbus_auth.specs.Table.{fresh, step_of};
ghost use Rattle.dbus_auth.specs.declared.auth.State.{State};
ghost use Rattle.dbus_auth.specs.declared.auth.TheConstants.{LINE_LIMIT};
ghost use Rattle.dbus_auth.specs.declared.auth.Step.TheVariants as step;
ghost use Rattle.dbus_auth.specs.declared.auth.AuthFault.{AuthFault};
ghost use Rattle.dbus_auth.specs.declared.auth.AuthFault.TheVariants.{NoZero, BeginTooSoon};

/// A law: which arguments are accepted. Among them are the user id's digits in hex, of either case.
pub fn accepted_arguments()
    ensures fact { (uid : ℕ) (argument : List ℕ) →
        IsTrue (is_accepted uid argument) ↔ IsAccepted uid argument }
    ensures lower { (uid : ℕ) → uid < 2 ^ 64 →
        IsTrue (is_accepted uid (encode_lower (decimal uid))) }
    ensures upper { (uid : ℕ) → uid < 2 ^ 64 →
        IsTrue (is_accepted uid (encode_upper (decimal uid))) }
{}

/// A law: bytes are cut at the first CR LF in them.
pub fn cut_at_the_first_line_end()
    ensures first { (bytes : List ℕ) (place : ℕ) → EndsAt bytes place
        → ((k : ℕ) → k < place → EndsAt bytes k → ⊥)
        → first_cut bytes
        ≡ Some (record { line = take place bytes; rest = drop (place + 2) bytes }) }
    ensures nowhere { (bytes : List ℕ) → ((k : ℕ) → EndsAt bytes k → ⊥)
        → first_cut bytes ≡ None }
{}

/// A law: the limit for callers is the one of the definitions.
pub fn a_line_has_16_384_bytes_at_most()
    ensures { LINE_LIMIT ≡ line_limit }
{}

/// A law: a stream begins with a zero byte, and after it the table runs.
pub fn begins_with_zero()
    ensures nothing { (uid : ℕ) (guid : List ℕ) →
        handshake uid guid [] ≡ silent (waiting (fresh uid guid) []) }
    ensures zero { (uid : ℕ) (guid bytes : List ℕ) →
        handshake uid guid (0 ∷ bytes) ≡ run (fresh uid guid) bytes }
    ensures other { (uid : ℕ) (guid : List ℕ) (first : ℕ) (bytes : List ℕ) → first ≢ 0
        → handshake uid guid (first ∷ bytes) ≡ silent (refused NoZero) }
{}

/// A law: the run over bytes is that of their lines, one after the other, in these ways and no other.
pub fn runs_line_by_line()
    ensures { (at : Exchange) (bytes : List ℕ) (answers : List (List ℕ)) (end : End) →
        (run at bytes ≡ record { answers = answers; end = end }) ↔ Runs at bytes answers end }
{}

/// A law: feeding lines to the table one by one gives the run over their bytes.
pub fn lines_one_by_one()
    ensures { (at : Exchange) (lines : List (List ℕ)) → AllByRecursion IsLine lines →
        run at (joined lines) ≡ fed at lines }
{}

/// A law: a run doesn't depend on how its bytes were cut into pieces.
pub fn cut_anywhere()
    ensures more { (at : Exchange) (bytes more : List ℕ) →
        run at (bytes ++ more) ≡ continued (run at bytes) more }
    ensures run { (at : Exchange) (pieces : List (List ℕ)) →
        run at (concat pieces) ≡ in_pieces (run at []) pieces }
    ensures handshake { (uid : ℕ) (guid : List ℕ) (first : ℕ) (pieces : List (List ℕ)) →
        handshake uid guid (first ∷ concat pieces)
        ≡ in_pieces (handshake uid guid (first ∷ [])) pieces }
{}

/// A law: each answer comes from the row of one line, after the lines to which the answers before
/// it were given.
pub fn each_answer_has_its_line()
    ensures { (at : Exchange) (bytes : List ℕ) (front since : List (List ℕ)) (answer : List ℕ) →
        (run at bytes).answers ≡ front ++ answer ∷ since
        → HasLine at bytes front (λ place line rest. step_of place line ≡ step.Say answer) }
{}

/// A law: `OK` is the answer to a line that gives an accepted argument when one is awaited, and to
/// no other line. So no client gets `OK` before it has given one.
pub fn ok_answers_an_accepted_argument()
    ensures row { (at : Exchange) (line : List ℕ) →
        (step_of at line ≡ step.Say (ok_line at.guid)) ↔ GivesAccepted at line }
    ensures run { (uid : ℕ) (guid bytes : List ℕ) (front since : List (List ℕ)) →
        (run (fresh uid guid) bytes).answers ≡ front ++ ok_line guid ∷ since
        → HasLine (fresh uid guid) bytes front (λ at line rest. GivesAccepted at line) }
{}

/// A law: a handshake is open exactly after a `BEGIN` line before which `OK` was answered, and only
/// `ERROR` since.
pub fn only_begin_opens()
    ensures { (uid : ℕ) (guid bytes : List ℕ) (answers : List (List ℕ)) (rest : List ℕ) →
        (run (fresh uid guid) bytes ≡ record { answers = answers; end = opened rest })
        ↔ IsOpened uid guid bytes answers rest }
{}

/// A law: a `BEGIN` line opens the handshake if an `OK` is in force, and is refused if none is.
pub fn ok_decides_begin()
    ensures opens { (uid : ℕ) (guid lines line rest : List ℕ) (answers : List (List ℕ))
        (state : State) → Stands (fresh uid guid) lines answers state → IsLine line
        → word_of line ≡ codes "BEGIN" → OkStands guid answers
        → run (fresh uid guid) (lines ++ ended line rest)
        ≡ record { answers = answers; end = opened rest } }
    ensures refused { (uid : ℕ) (guid lines line rest : List ℕ) (answers : List (List ℕ))
        (state : State) → Stands (fresh uid guid) lines answers state → IsLine line
        → word_of line ≡ codes "BEGIN" → (OkStands guid answers → ⊥)
        → run (fresh uid guid) (lines ++ ended line rest)
        ≡ record { answers = answers; end = refused BeginTooSoon } }
{}

/// A law: after the zero byte a handshake is refused with a fault exactly if the bytes contain
/// the fault's cause.
pub fn each_refusal_has_its_cause()
    ensures { (uid : ℕ) (guid bytes : List ℕ) (answers : List (List ℕ)) (fault : AuthFault) →
        (run (fresh uid guid) bytes ≡ record { answers = answers; end = refused fault })
        ↔ HasCause uid guid bytes answers fault }
{}

/// A law: more bytes are awaited exactly if all lines that have ended were answered, and fewer
/// bytes of the next one than the limit are there, perhaps none.
pub fn waits_for_the_end_of_a_line()
    ensures { (at : Exchange) (bytes : List ℕ) (answers : List (List ℕ)) (place : Exchange)
        (left : List ℕ) →
        (run at bytes ≡ record { answers = answers; end = waiting place left })
        ↔ IsWaiting at bytes answers place left }
{}

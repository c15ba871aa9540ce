// Laws of the definitions of messages and streams. Each law is the contract of a function
// that does nothing.
ghost use Rattle.std.specs.Prelude.{◌≡◌, ◌<◌, ℕ, ◌++◌, List, [], slice_index};
ghost use Rattle.dbus_framing.specs.declared.violation.Violation.{Violation};
ghost use Rattle.dbus_framing.specs.declared.violation.Violation.TheVariants as violation;
ghost use Rattle.dbus_framing.specs.Messages.{Parts, IsHeaderAndBody, IsMessage};
ghost use Rattle.dbus_framing.specs.Streams.{Cut, Stream, BeginsNone, Breaks, Turn, LeavesRest, fed_in, answered_in};

/// No spelling of a message begins another one, not even under another limit: what was sent is read
/// again, whatever follows it.
pub fn a_spelling_begins_no_other()
    ensures { (most more : ℕ) (spelling behind : List ℕ) (one other : Parts)
        → IsMessage most spelling one → IsMessage more (spelling ++ behind) other → behind ≡ [] }
{}

/// The bytes of a message have one meaning.
pub fn a_message_has_one_meaning()
    ensures { (most : ℕ) (bytes : List ℕ) (one other : Parts)
        → IsMessage most bytes one → IsMessage most bytes other → one ≡ other }
{}

/// A message is the spelling of a header of the types `yyyyuua(yv)`, zeros up to the next multiple of 8, and
/// the spelling of its body (D-Bus Specification, "Message Format").
pub fn a_message_is_a_header_and_a_body()
    ensures { (most : ℕ) (bytes : List ℕ) (parts : Parts)
        → ((place : ℕ) → slice_index bytes place < 256) → IsMessage most bytes parts
        → IsHeaderAndBody bytes parts }
{}

/// Bytes are one stream: the complete messages in them are determined, and so is the rest.
pub fn bytes_are_one_stream()
    ensures { (most : ℕ) (bytes rest left : List ℕ) (messages others : List Parts)
        → Stream most bytes messages rest → Stream most bytes others left
        → (messages ≡ others) × (rest ≡ left) }
{}

/// The answers of successive calls of `next` add up to an answer about all bytes that were fed, in
/// whatever pieces: a further piece comes after the rest, a further answer after the answers, and
/// the stream of the rest ends the stream of all bytes.
pub fn answers_add_up()
    ensures fed { (most : ℕ) (bytes piece rest : List ℕ) (answers : List Parts)
        → Cut most bytes answers rest → Cut most (bytes ++ piece) answers (rest ++ piece) }
    ensures answered { (most : ℕ) (bytes rest left : List ℕ) (answers further : List Parts)
        → Cut most bytes answers rest → Cut most rest further left
        → Cut most bytes (answers ++ further) left }
    ensures ended { (most : ℕ) (bytes rest left : List ℕ) (answers further : List Parts)
        → Cut most bytes answers rest → Stream most rest further left
        → Stream most bytes (answers ++ further) left }
{}

/// The answers so far begin the messages of the stream, and the other messages are the stream
/// of the rest.
pub fn answers_begin_the_stream()
    ensures { (most : ℕ) (bytes left rest : List ℕ) (answers messages : List Parts)
        → Cut most bytes answers left → Stream most bytes messages rest
        → (further : List Parts) × (messages ≡ answers ++ further)
        × Stream most left further rest }
{}

/// After any sequence of pieces and answers, all answers together begin the messages of the stream
/// of all bytes that were fed, in whatever pieces they came.
pub fn answers_begin_the_stream_of_any_pieces()
    ensures { (most : ℕ) (turns : List Turn) (left rest : List ℕ) (messages : List Parts)
        → LeavesRest most turns left → Stream most (fed_in turns) messages rest
        → (further : List Parts) × (messages ≡ answered_in turns ++ further)
        × Stream most left further rest }
{}

/// A violation stays whatever is fed after it, is the only one, and is never shown by bytes that
/// begin with a message.
pub fn violations_stay()
    ensures stays { (most : ℕ) (bytes piece : List ℕ) (cause : Violation)
        → Breaks most bytes cause → Breaks most (bytes ++ piece) cause }
    ensures one { (most : ℕ) (bytes : List ℕ) (cause other : Violation)
        → Breaks most bytes cause → Breaks most bytes other → cause ≡ other }
    ensures no_message { (most : ℕ) (bytes : List ℕ) (cause : Violation)
        → Breaks most bytes cause → BeginsNone most bytes }
{}

/// `EndInside` is not a violation that bytes show, so a framer never returns it.
pub fn no_bytes_end_inside()
    ensures { (most : ℕ) (bytes : List ℕ) → Breaks most bytes violation.EndInside → ⊥ }
{}

// A law of the definition of a message that is sent. It is the contract of a function
// that does nothing.
ghost use Rattle.std.specs.Prelude.{ℕ, ◌≤◌, length};
ghost use Rattle.dbus_framing.specs.Messages.{IsMessage};
ghost use Rattle.dbus_sending.specs.Sent.{Sent, CanBeSent, spelled_message, said_by};

/// What is sent is read again: its bytes are a message that says what was sent. By
/// `a_message_has_one_meaning` of `dbus_framing` it says nothing else.
pub fn what_is_sent_is_a_message()
    ensures { (most : ℕ) (sent : Sent) → CanBeSent sent → length (spelled_message sent) ≤ most
        → IsMessage most (spelled_message sent) (said_by sent) }
{}

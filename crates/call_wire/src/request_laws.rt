// What the definitions of calls say together. Each law is the contract of a function that does nothing.
ghost use Rattle.std.specs.Prelude.{◌≡◌, ℕ};
ghost use Rattle.secret_calls.specs.declared.call.Request.{Request};
ghost use Rattle.secret_calls.specs.declared.out.Out.{Out};
ghost use Rattle.secret_calls.specs.Outs.{IsTyped, spelled};
ghost use Rattle.dbus_framing.specs.Messages.{Parts, IsMessage};
ghost use Rattle.call_wire.specs.Said.{said, IsSendable};
ghost use Rattle.call_wire.specs.CallOf.{CallOf};

/// A message is only one request: its call, or the fault that it has, is determined by the message, and
/// so are its serial, its length and whether a reply is wanted.
pub fn a_message_is_one_request()
    ensures call { (parts : Parts) (one other : Request)
        → CallOf parts one → CallOf parts other → one.call ≡ other.call }
    ensures beside { (parts : Parts) (one other : Request) → CallOf parts one → CallOf parts other
        → (one.serial ≡ other.serial) × (one.wants_reply ≡ other.wants_reply)
        × (one.length ≡ other.length) }
{}

/// What is sent is read again as the same output: its spelling is a message that says this output, and
/// by `a_message_has_one_meaning` of `dbus_framing` nothing else; and what a message says is that of
/// only one output, with one serial.
#[tactic(auto, using(crate::proofs::AgainLemmas::sent_again, crate::proofs::AgainLemmas::one_output))]
pub fn what_is_sent_is_read_again()
    ensures message { (most serial : ℕ) (out : Out) → IsSendable most out serial
        → IsMessage most (spelled out serial) (said out serial) }
    ensures one { (serial again : ℕ) (one other : Out) → IsTyped one → IsTyped other
        → said one serial ≡ said other again → (one ≡ other) × (serial ≡ again) }
{}

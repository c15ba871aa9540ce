// What the definitions of calls say together. Each law is the contract of a function that does nothing.
ghost use Rattle.std.specs.Prelude.{◌≡◌, ℕ, ◌≤◌, true, Ok, Err, None, Some, length};
ghost use Rattle.secret_calls.specs.declared.call.Call.{Call};
ghost use Rattle.secret_calls.specs.declared.call.Request.{Request};
ghost use Rattle.dbus_framing.specs.Messages.{Parts, IsMessage};
ghost use Rattle.dbus_sending.specs.Sent.{IsSerial};
ghost use Rattle.call_wire.specs.CallOf.{CallOf};
ghost use Rattle.secret_calls.specs.declared.out.Body.{Body};
ghost use Rattle.secret_calls.specs.declared.out.ErrorName.{ErrorName};
ghost use Rattle.secret_calls.specs.declared.out.Out.{Out};
ghost use Rattle.secret_calls.specs.declared.serial.Serial.{Serial};
ghost use Rattle.secret_calls.specs.declared.signal.Signal.{Signal};
ghost use Rattle.secret_calls.specs.Outs.{error_text, AreTyped, IsSignal};
ghost use Rattle.call_wire.specs.Said as service;
ghost use Rattle.client_core.specs.declared.reply.Reply.{Reply};
ghost use Rattle.client_core.specs.declared.reply.ReplyFault.{ReplyFault};
ghost use Rattle.client_core.specs.declared.reply.Shape.{Shape};
ghost use Rattle.client_core.specs.Replies.{shape_in, shape_of, reply_in, HasNumbers};
ghost use Rattle.client_core.specs.Signals.{signal_in, HasNumber};
ghost use Rattle.client_core.specs.Askable.{CanBeAsked};
ghost use Rattle.client_core.specs.Asked.{spelled, said, most_bytes};

use dbus_framing::a_message_has_one_meaning;
use kr_names::a_path_is_that_of_its_name;

/// What a client asks is read by the service as this call: its bytes are a message, they say nothing
/// else, and the request of the message, which by `a_message_is_one_request` of `call_wire` is the
/// only one, is this call, with its serial and the length of its bytes, and wants a reply.
pub fn a_call_is_read_again()
    ensures message { (serial : ℕ) (call : Call) → CanBeAsked call → IsSerial serial
        → length (spelled call serial) ≤ most_bytes
        → IsMessage most_bytes (spelled call serial) (said call serial) }
    ensures one { (serial : ℕ) (call : Call) (parts : Parts) → CanBeAsked call → IsSerial serial
        → IsMessage most_bytes (spelled call serial) parts
        → length (spelled call serial) ≤ most_bytes → parts ≡ said call serial }
    ensures call { (serial : ℕ) (call : Call) (request : Request) → CanBeAsked call
        → CallOf (said call serial) request
        → (request.call ≡ Ok call) × (request.serial.number ≡ serial)
        × (request.wants_reply ≡ true) × (request.length ≡ length (spelled call serial)) }
{
    a_message_has_one_meaning();
    a_path_is_that_of_its_name();
}

/// What the service sends is read by a client as what was sent. A return whose body has the shape of what
/// the call returns is that body, and one of any other shape isn't read; an error is the error's name. A
/// message that answers another serial, or none, is no reply.
pub fn what_the_service_sends_is_read_again()
    ensures returned { (call : Call) (to : Serial) (body : Body) (serial : ℕ)
        → AreTyped body → HasNumbers body → shape_in body ≡ shape_of call
        → reply_in (shape_of call) to.number (service.said (Out.Return to body) serial)
        ≡ Ok (Reply.Return body) }
    ensures other_shape { (call : Call) (to : Serial) (body : Body) (serial : ℕ)
        → (shape_in body ≡ shape_of call → ⊥)
        → reply_in (shape_of call) to.number (service.said (Out.Return to body) serial)
        ≡ Err ReplyFault.WrongShape }
    ensures error { (call : Call) (to : Serial) (name : ErrorName) (serial : ℕ)
        → reply_in (shape_of call) to.number (service.said (Out.Error to name) serial)
        ≡ Ok (Reply.Error (error_text name)) }
    ensures other_serial { (call : Call) (number to : ℕ) (parts : Parts)
        → parts.reply_serial ≡ Some to → (to ≡ number → ⊥)
        → reply_in (shape_of call) number parts ≡ Err ReplyFault.NotAReply }
    ensures no_serial { (call : Call) (number : ℕ) (parts : Parts) → parts.reply_serial ≡ None
        → reply_in (shape_of call) number parts ≡ Err ReplyFault.NotAReply }
{
    a_path_is_that_of_its_name();
}

/// A signal that the service sends is read by a client as what was sent, and isn't read as the answer to
/// a call. An answer isn't read as a signal.
pub fn a_signal_is_read_again()
    ensures signal { (signal : Signal) (serial : ℕ) → IsSignal signal → HasNumber signal
        → signal_in (service.said (Out.Signal signal) serial) ≡ Some signal }
    ensures no_reply { (call : Call) (number : ℕ) (signal : Signal) (serial : ℕ)
        → reply_in (shape_of call) number (service.said (Out.Signal signal) serial)
        ≡ Err ReplyFault.NotAReply }
    ensures returned { (to : Serial) (body : Body) (serial : ℕ)
        → signal_in (service.said (Out.Return to body) serial) ≡ None }
    ensures error { (to : Serial) (name : ErrorName) (serial : ℕ)
        → signal_in (service.said (Out.Error to name) serial) ≡ None }
{
    a_path_is_that_of_its_name();
}

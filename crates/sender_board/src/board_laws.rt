// Laws of the definitions of the board. Each law is the contract of a function that does nothing.
ghost use Rattle.std.specs.Prelude.{◌≡◌, ℕ, List, IsTrue, false};
ghost use Rattle.sender_board.specs.declared.action.Action.TheVariants as act;
ghost use Rattle.sender_board.specs.declared.message.Call.{Call};
ghost use Rattle.sender_board.specs.declared.message.Message.{Message};
ghost use Rattle.sender_board.specs.Hear.{hear, quiet};
ghost use Rattle.sender_board.specs.Laws.{IsBounded, IsLookedUp, WasAsked, is_from_bus, is_call, is_open};
ghost use Rattle.sender_board.specs.Rows.{Rows};

/// A sender gets a connection only once the bus has answered an open question about it, with the user
/// whose senders get connections; and its calls are those that waited.
pub fn a_connection_is_for_a_sender_that_was_looked_up<T>()
    ensures { (user serial : ℕ) (message : Message T) (rows : Rows T)
        (sender : List ℕ) (calls : List (Call T))
        → (hear user serial message rows).action ≡ act.Join sender calls
        → IsLookedUp user message rows sender calls }
{}

/// A question is open only if it was asked: it was open before, or it has the serial with which the
/// bus is asked now.
pub fn a_question_is_open_only_if_it_was_asked<T>()
    ensures { (user serial : ℕ) (message : Message T) (rows : Rows T) (question : ℕ)
        → IsTrue (is_open question (hear user serial message rows).rows)
        → WasAsked user serial message rows question }
{}

/// A message that is neither the bus's nor a call changes nothing, whatever it looks like.
pub fn only_the_bus_and_calls_count<T>()
    ensures { (user serial : ℕ) (message : Message T) (rows : Rows T)
        → is_from_bus message.sender ≡ false → is_call message.kind ≡ false
        → hear user serial message rows ≡ quiet rows }
{}

/// What waits stays bounded: the calls are at most of 16,777,216 bytes, as they are counted, and of at
/// most 256 senders.
pub fn what_waits_is_bounded<T>()
    ensures { (user serial : ℕ) (message : Message T) (rows : Rows T)
        → IsBounded rows → IsBounded (hear user serial message rows).rows }
{}

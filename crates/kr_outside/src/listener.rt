ghost use Rattle.std.specs.Prelude.{◌≡◌, ℕ, Bool, ◌&&◌, List, Option, IfSome, IfOk, OnOk, OnErr};
ghost use Rattle.std.specs.Option.{option_map};
ghost use Rattle.kr_outside.specs.Faults.{HasCause, KeepsSteady, IsBelowLast};
ghost use Rattle.kr_outside.specs.Listener.{LinkReport, GivesNext, IsNewEnd, CountsLink, NotesEnd};

use crate::{Failed, Sink, Source};

/// A connection of two streams: one that comes in and one that goes out.
#[derive(Drop)]
pub struct Link<I, O> {
    /// What the other side sends.
    pub input: I,
    /// What the other side receives.
    pub output: O,
}

/// A place at which others connect, each by a link of its own.
pub trait Listener: Drop {
    /// The type of the inputs. Another thread may read one.
    type In: Source + Drop + Send + 'static;

    /// The type of the outputs. Another thread may write one.
    type Out: Sink + Drop + Send + 'static;

    /// The path at which others connect to it. No call changes it.
    ghost address: { Self → List ℕ };

    /// The links that are still to be given, in order, if the listener reports them.
    ghost coming: { Self → Option (List LinkReport) };

    /// How many links the listener has given. The count never falls, and stays at 2^64 - 1.
    ghost given: { Self → ℕ };

    /// Whether the listener has returned None, after which it gives no link.
    ghost has_ended: { Self → Bool };

    /// How often the listener has failed. The count never falls, and stays at 2^64 - 1.
    ghost faults: { Self → ℕ };

    /// Whether the listener never fails, so that its count never rises. A link that it gives may
    /// fail all the same.
    ghost is_steady: { Self → Bool };

    /// Waits for the next link, and returns it; None if no link will come any more. Both ends of a
    /// link are open, and have no fault counted yet.
    ///
    /// Refused with `Failed` only if the count of faults rose, which it does in no other call; all
    /// else is then as before.
    fn accept(&mut self) -> Result<Option<Link<Self::In, Self::Out>>, Failed>
        // A listener that reports its links gives exactly the next one.
        ensures next { IfOk result (λ given. GivesNext (coming self.old)
            (option_map (λ link. record {
              left = Self.In.left link.input;
              written = Self.Out.written link.output;
              is_steady = Self.In.is_steady link.input && Self.Out.is_steady link.output;
            }) given) (coming self.new)) }
        ensures input { IfOk result (λ given. IfSome given (λ link.
            IsNewEnd (Self.In.is_closed link.input) (Self.In.faults link.input))) }
        ensures output { IfOk result (λ given. IfSome given (λ link.
            IsNewEnd (Self.Out.is_closed link.output) (Self.Out.faults link.output))) }
        ensures given { CountsLink (given self.old) (given self.new) result }
        ensures ended { NotesEnd (has_ended self.old) (has_ended self.new) result }
        ensures address { address self.new ≡ address self.old }

        ensures unchanged { OnErr result (coming self.new ≡ coming self.old) }
        ensures cause { HasCause (faults self.old) (faults self.new) result }
        ensures still { OnOk result (faults self.new ≡ faults self.old) }
        ensures steady { KeepsSteady (is_steady self.old) (is_steady self.new)
            (faults self.old) (faults self.new) };

    /// The count of a steady listener isn't at its maximum: as it never rises, no call fails.
    ghost steady_below: { (listener : Self) → IsBelowLast (is_steady listener) (faults listener) };
}

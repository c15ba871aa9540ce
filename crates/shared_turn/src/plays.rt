// What a thread learns from each step that it takes on the table.
use crate::chronicle::Chronicle;
use crate::known::Known;
use atomic_table::Play;
use std::marker::PhantomData;

/// A ticket is drawn.
pub(crate) struct Draw;

impl<S, B, E> Play<S, Known<B, E>> for Draw {
    ghost use Rattle.shared_turn.specs.Steps.{drawn};

    ghost then = { drawn };
}

/// The turn has come, or not yet.
pub(crate) struct Enter<C> {
    value: PhantomData<C>,
}

impl<C: Chronicle> Play<Option<C>, Known<C::Start, C::Event>> for Enter<C> {
    ghost use Rattle.shared_turn.specs.Steps.{entered};

    ghost then = { entered C.stands };
}

/// One more event is counted.
pub(crate) struct Count<C> {
    value: PhantomData<C>,
}

impl<C: Chronicle> Play<Option<C>, Known<C::Start, C::Event>> for Count<C> {
    ghost use Rattle.shared_turn.specs.Steps.{counted};

    ghost then = { counted C.newest };
}

/// The turn is passed on.
pub(crate) struct Hand;

impl<S, B, E> Play<S, Known<B, E>> for Hand {
    ghost use Rattle.shared_turn.specs.Steps.{handed};

    ghost then = { handed };
}

/// What two seats had seen is compared.
pub(crate) struct Compare;

impl<S, B, E> Play<S, Known<B, E>> for Compare {
    ghost use Rattle.shared_turn.specs.Steps.{compared};

    ghost then = { compared };
}

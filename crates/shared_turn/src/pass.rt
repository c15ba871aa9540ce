use crate::chronicle::Chronicle;
use crate::known::Place;
use std::marker::Model;

/// What a thread has seen of the run: a beginning of its history, and which of its events are the
/// thread's own. It takes no memory.
#[derive(Drop)]
pub struct Pass<C: Chronicle> {
    pub(crate) place: Place<C>,
}

impl<C: Chronicle> Model for Pass<C> {
    ghost use Rattle.shared_turn.specs.Passes.{View};

    ghost Value = { View C.Start C.Event };

    ghost use Rattle.shared_turn.specs.Passes.{view_of};
    ghost use Rattle.shared_turn.specs.Seats.{IsReady};

    ghost view = { λ pass. view_of pass.place.table_id pass.place.me.0 };

    ghost invariant = { λ pass. IsReady pass.place.me };
}

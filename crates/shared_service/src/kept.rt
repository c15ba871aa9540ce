use crate::sleepers::Sleepers;
use kr_outside::Folder;
use service_history::Service;
use service_history::service_machine::{Event, Machine};
use shared_turn::Chronicle;
use std::marker::Model;

/// The state of a service at a moment, and whether its disk is steady. It exists for contracts alone,
/// which see these two: no code makes one.
#[derive(Drop)]
pub struct Moment<F: Folder> {
    machine: Machine<F>,
    steady: bool,
}

impl<F: Folder> Model for Moment<F> {
    ghost use Rattle.shared_service.specs.Standing.{Start};

    ghost Value = { Start };

    ghost use Rattle.service_history.specs.service_machine.specs.Rows.{rows_of};

    ghost view = { λ m. record { state = rows_of m.machine; steady = m.steady } };
}

/// The service that threads use by turns, and the writers that sleep, in boxes, so that a turn moves few
/// bytes.
#[derive(Drop)]
pub struct Kept<F: Folder> {
    pub(crate) service: Box<Service<F>>,
    pub(crate) sleepers: Box<Sleepers>,
}

impl<F: Folder> Chronicle for Kept<F> {
    ghost use Rattle.shared_service.specs.Standing.{start_of, IsLedTo, newest};

    type Start = Moment<F>;

    type Event = Event;

    ghost start = { λ kept. start_of F.is_steady F.Cell.is_steady kept.service.value };

    ghost before = { λ kept. kept.service.value.history.window.era };

    ghost events = { λ kept. kept.service.value.history.window.events };

    ghost stands = { λ kept. IsLedTo F.is_steady F.Cell.is_steady kept.service.value
        kept.sleepers.value.conns.items kept.sleepers.value.due };

    ghost newest = { λ kept. newest kept.service.value.history.window.events };
}

ghost use Rattle.service_desk.specs.Views.{IsView, state_of, count_of};

use crate::kept::Kept;
use kr_outside::Folder;
use std::marker::Model;

/// What a thread has seen of the service's history, and which of its events are the thread's own.
/// Contracts see which service it belongs to, and its view. It takes no memory.
#[derive(Drop)]
pub struct Pass<F: Folder> {
    pub(crate) inner: shared_turn::Pass<Kept<F>>,
}

impl<F: Folder> Model for Pass<F> {
    ghost use Rattle.shared_service.specs.Passes.{Seen};

    ghost Value = { Seen };

    ghost use Rattle.shared_service.specs.Passes.{seen_of, IsIdle};

    ghost view = { λ pass. seen_of pass.inner };

    ghost invariant = { λ pass. IsIdle pass.inner };
}

impl<F: Folder> Pass<F> {
    /// What a pass has seen is legal from its start, and the places of its own events are in it, each
    /// once. It does nothing.
    pub fn has_seen_a_history(&self)
        ensures { IsView (state_of self.now.view) (count_of self.now.view) self.now.view }
    {
        let _inner = &self.inner;
    }
}

ghost use Rattle.std.specs.Prelude.{◌≡◌, ◌≢◌, ◌+◌, ◌%◌};
ghost use Rattle.service_desk.specs.secret_calls.specs.Serials.{last_serial};

use std::marker::Model;

/// The last serial. After it comes 1 again.
const LAST_SERIAL: u32 = 4_294_967_295;

/// The serials of a connection's outputs. A contract sees how many outputs there were, modulo the
/// number of serials.
#[derive(Drop)]
pub struct Serials {
    taken: u32,
}

impl Model for Serials {
    ghost use Rattle.std.specs.Prelude.{ℕ, ◌<◌};
    ghost use Rattle.service_desk.specs.secret_calls.specs.Serials.{last_serial};

    ghost Value = { ℕ };

    ghost view = { λ s. s.taken };

    ghost invariant = { λ s. s.taken < last_serial };
}

impl Serials {
    /// The serials from the first one on.
    pub fn new() -> Serials
        ensures { result ≡ 0 }
    {
        Serials { taken: 0 }
    }

    /// The next serial.
    pub fn next(&mut self) -> u32
        ensures serial { result ≡ self.old + 1 }
        ensures taken { self.new ≡ (self.old + 1) % last_serial }
        ensures some { result ≢ 0 }
    {
        let serial = self.taken + 1;
        self.taken = if serial == LAST_SERIAL { 0 } else { serial };
        serial
    }
}

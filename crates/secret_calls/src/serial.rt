ghost use Rattle.std.specs.Prelude.{◌≢◌, ◌≤◌};
ghost use Rattle.secret_calls.specs.Serials.{last_serial};

/// The serial of a message, by which a reply refers to it (D-Bus Specification, "Message Format").
#[derive(Clone, Copy, PartialEq, Eq)]
pub struct Serial {
    /// The number.
    pub number: u32,
    /// No message has the serial 0.
    pub ghost some: { number ≢ 0 },
    /// A serial is a number of 32 bits.
    pub ghost fits: { number ≤ last_serial },
}

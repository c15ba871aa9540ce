ghost use Rattle.std.specs.Prelude.{Some, decimal};
ghost use Rattle.std.specs.Fmt.{styled_decimal};

use std::fmt;

/// The number of a connection of the service.
#[derive(Clone, Copy, Debug, PartialEq, Eq, PartialOrd, Ord, Hash)]
pub struct ConnId(pub u64);

/// The number of a session (Secret Service API, interface Session).
#[derive(Clone, Copy, Debug, PartialEq, Eq, PartialOrd, Ord, Hash)]
pub struct SessionId(pub u64);

/// The number of a prompt (Secret Service API, interface Prompt).
#[derive(Clone, Copy, Debug, PartialEq, Eq, PartialOrd, Ord, Hash)]
pub struct PromptId(pub u64);

/// The number of an item within its collection (Secret Service API, interface Item).
#[derive(Clone, Copy, Debug, PartialEq, Eq, PartialOrd, Ord, Hash)]
pub struct ItemId(pub u32);

impl fmt::Display for ConnId {
    ghost output = { λ id. Some (decimal id.0) };

    ghost styled_output = { λ id options. Some (styled_decimal options id.0) };

    fn fmt<W: fmt::Write>(&self, f: &mut fmt::Formatter<W>) -> fmt::Result {
        fmt::Display::fmt(&self.0, f)
    }
}

impl fmt::Display for SessionId {
    ghost output = { λ id. Some (decimal id.0) };

    ghost styled_output = { λ id options. Some (styled_decimal options id.0) };

    fn fmt<W: fmt::Write>(&self, f: &mut fmt::Formatter<W>) -> fmt::Result {
        fmt::Display::fmt(&self.0, f)
    }
}

impl fmt::Display for PromptId {
    ghost output = { λ id. Some (decimal id.0) };

    ghost styled_output = { λ id options. Some (styled_decimal options id.0) };

    fn fmt<W: fmt::Write>(&self, f: &mut fmt::Formatter<W>) -> fmt::Result {
        fmt::Display::fmt(&self.0, f)
    }
}

impl fmt::Display for ItemId {
    ghost output = { λ id. Some (decimal id.0) };

    ghost styled_output = { λ id options. Some (styled_decimal options id.0) };

    fn fmt<W: fmt::Write>(&self, f: &mut fmt::Formatter<W>) -> fmt::Result {
        fmt::Display::fmt(&self.0, f)
    }
}

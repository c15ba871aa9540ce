// When the agent is started (docs/SERVICE.md, "The agent is started").
ghost use Rattle.std.specs.Prelude.{◌≡◌, if◌then◌else◌};
ghost use Rattle.sender_board.specs.Starting.{settled, returned, failed, refuses};

/// How far the start of the agent has come.
#[derive(Clone, Copy, Debug, PartialEq, Eq)]
pub enum Start {
    /// It isn't being started.
    Idle,
    /// The bus was asked to start it, with this serial.
    Asked(u32),
    /// The bus has started it, and it hasn't registered yet.
    Started,
}

/// Whether the agent is being started. The agent's name isn't part of it: whoever uses it passes on
/// only what is said about that name.
#[derive(Clone, Copy, Debug, PartialEq, Eq)]
pub struct AgentStart {
    /// How far the start has come.
    pub start: Start,
}

impl AgentStart {
    /// To be called after what each event puts out was written: whether the bus is to be asked to
    /// start the agent now, with this serial. It is if a prompt is asked, there is no agent and none is
    /// being started.
    pub fn settle(&mut self, is_asked: bool, has_agent: bool, serial: u32) -> bool
        ensures asks { result ≡ (settled is_asked has_agent serial self.old.start).asks }
        ensures start { self.new.start ≡ (settled is_asked has_agent serial self.old.start).start }
    {
        if has_agent {
            self.start = Start::Idle;
            return false;
        }
        if is_asked && matches!(self.start, Start::Idle) {
            self.start = Start::Asked(serial);
            return true;
        }
        false
    }

    /// Hears that the bus returned from the call with this serial: nothing more is asked until an agent
    /// has registered and gone.
    pub fn hear_return(&mut self, serial: u32)
        ensures { self.new.start ≡ returned serial self.old.start }
    {
        if self.is_asked_with(serial) {
            self.start = Start::Started;
        }
    }

    /// Hears that the bus answered the call with this serial by an error. Returns whether the prompts
    /// that are asked are to be refused now.
    pub fn hear_error(&mut self, serial: u32) -> bool
        ensures refuses { result ≡ failed serial self.old.start }
        ensures start { self.new.start
            ≡ (if failed serial self.old.start then Start.Idle else self.old.start) }
    {
        let is_failed = self.is_asked_with(serial);
        if is_failed {
            self.start = Start::Idle;
        }
        is_failed
    }

    /// Hears that the agent's name has no owner any more. Returns whether the prompts that are asked
    /// are to be refused now: they are if the agent was being started, and nobody has registered since.
    pub fn hear_gone(&mut self) -> bool
        ensures refuses { result ≡ refuses self.old.start }
        ensures start { self.new.start ≡ Start.Idle }
    {
        let was_started = !matches!(self.start, Start::Idle);
        self.start = Start::Idle;
        was_started
    }

    /// Whether the bus was asked with this serial, and hasn't answered yet.
    fn is_asked_with(&self, serial: u32) -> bool
        ensures { result ≡ failed serial self.now.start }
    {
        match self.start {
            Start::Asked(asked) => asked == serial,
            _ => false,
        }
    }
}

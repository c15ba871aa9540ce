// What is looked at in a message.
use bus_start::Answer;
use secret_calls::Request;
use sender_board::Message;

/// What a call asks for.
#[derive(Drop)]
pub enum Asked {
    /// A request of the service.
    Request(Request),
    /// Nothing that was read: its message is too long.
    TooLarge,
}

/// A message of the link, as it is looked at.
#[derive(Drop)]
pub struct View {
    /// Its number of bytes.
    pub size: u32,
    /// The answer of the bus that it is, if it is one.
    pub answer: Option<Answer>,
    /// What the board of senders looks at.
    pub message: Message<Asked>,
}

// What the board looks at in a message of the link.
use kr_base::Text;

/// A method call of a sender.
#[derive(Drop)]
pub struct Call<T> {
    /// Its serial.
    pub serial: u32,
    /// Whether it wants a reply.
    pub wants_reply: bool,
    /// The number of bytes of its message.
    pub size: u32,
    /// What it asks for.
    pub request: T,
}

/// The kinds of messages.
#[derive(Drop)]
pub enum Kind<T> {
    /// A method call.
    Call(Call<T>),
    /// A method return or an error.
    Answer {
        /// The serial of the call that it answers.
        question: u32,
        /// The number in the body, if it is a return with the signature `u`.
        user: Option<u32>,
    },
    /// The signal NameOwnerChanged, from the path and the interface of the bus, of a name that has no
    /// owner any more.
    OwnerLost(Text),
    /// The signal NameLost, of a name.
    NameLost(Text),
    /// Any other message.
    Other,
}

/// A message of the link.
#[derive(Drop)]
pub struct Message<T> {
    /// The header field SENDER.
    pub sender: Option<Text>,
    /// What it is.
    pub kind: Kind<T>,
}

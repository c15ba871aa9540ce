// What is to be done for a message.
use crate::message::Call;
use kr_base::{ConnId, Text};
use kr_items::Items;

/// Why calls are turned away.
#[derive(Clone, Copy, Debug, PartialEq, Eq)]
pub enum Refusal {
    /// There is no room for the call, or for another sender: the error LimitsExceeded.
    NoRoom,
    /// The sender isn't the user's: the error AccessDenied.
    OtherUser,
}

/// What is to be done for a message.
#[derive(Drop)]
pub enum Action<T> {
    /// Nothing.
    Nothing,
    /// The bus is asked for the user of this sender.
    AskUser(Text),
    /// The call is served for this connection.
    Serve(ConnId, Call<T>),
    /// The calls are turned away: each that wants a reply gets one error, in order.
    TurnAway {
        /// Their sender.
        sender: Text,
        /// Why.
        refusal: Refusal,
        /// Those that waited, in order.
        calls: Items<Call<T>>,
        /// The one that there was no room for, which comes last.
        last: Option<Call<T>>,
    },
    /// The sender gets a connection, for which the calls are served in order.
    Join {
        /// The sender.
        sender: Text,
        /// Its calls.
        calls: Items<Call<T>>,
    },
    /// The connection's sender has gone.
    Leave(ConnId),
    /// The name of the service is lost.
    NameLost,
}

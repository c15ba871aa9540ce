// Reading from the dialer.
ghost use Rattle.std.specs.Prelude.{◌≡◌, length, IsTrue};
ghost use Rattle.std.specs.Option.{is_some};
ghost use Rattle.kr_dialer.specs.Carrying.{link_of};
ghost use Rattle.client_tool.specs.Streams.{most_read};
ghost use Rattle.client_tool.specs.Receiving.{ReceivesMore};

use crate::status::{BadReply, Stop};
use dbus_framing::Framer;
use kr_dialer::Dialer;
use kr_outside::Failed;

/// The most bytes that are read at a time.
pub const MOST_READ: usize = 65_536;

/// Reads a piece, and feeds it to the framer.
pub fn feed_more<D: Dialer>(
    dialer: &mut D,
    piece: &mut [u8],
    framer: &mut Framer,
) -> Result<(), Stop>
    requires room { length piece.old ≡ most_read }
    requires has_dialled { IsTrue (is_some (D.dialled dialer.old)) }
    ensures most { framer.new.most ≡ framer.old.most }
    ensures receives { ReceivesMore framer.old framer.new
        (link_of D.dialled D.left D.written D.faults D.is_steady dialer.old)
        (link_of D.dialled D.left D.written D.faults D.is_steady dialer.new) result }
{
    match dialer.read(&mut *piece) {
        Err(Failed) => Err(Stop::LinkFault),
        Ok(0) => Err(Stop::BadReply(BadReply::Ended)),
        Ok(count) => match framer.feed(&piece[..count]) {
            Ok(()) => Ok(()),
            Err(_) => Err(Stop::Memory),
        },
    }
}

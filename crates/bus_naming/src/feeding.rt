// Reading more of a link.
ghost use Rattle.std.specs.Prelude.{◌≡◌, length, IsTrue};
ghost use Rattle.std.specs.Option.{is_some};
ghost use Rattle.kr_dialer.specs.Carrying.{link_of};
ghost use Rattle.bus_naming.specs.Feeding.{FeedsMore, most_read};

use bus_framing::LinkFramer;
use kr_dialer::{Dialer, read_piece};
use kr_outside::Failed;

/// Why no more of a link was fed.
#[derive(Clone, Copy, Debug, PartialEq, Eq)]
pub enum FeedRefused {
    /// The link failed.
    Failed,
    /// No memory was left.
    OutOfMemory,
}

/// Reads a piece, and feeds it to the framer. Returns whether there was one: if not, the input has ended.
pub fn feed_more<D: Dialer>(
    link: &mut D,
    piece: &mut [u8],
    framer: &mut LinkFramer,
) -> Result<bool, FeedRefused>
    requires room { length piece.old ≡ most_read }
    requires has_dialled { IsTrue (is_some (D.dialled link.old)) }
    ensures { FeedsMore framer.old framer.new
        (link_of D.dialled D.left D.written D.faults D.is_steady link.old)
        (link_of D.dialled D.left D.written D.faults D.is_steady link.new) result }
{
    let count = match read_piece(link, &mut *piece) {
        Ok(count) => count,
        Err(Failed) => return Err(FeedRefused::Failed),
    };
    if count == 0 {
        return Ok(false);
    }
    match framer.feed(&piece[..count]) {
        Ok(()) => Ok(true),
        Err(_) => Err(FeedRefused::OutOfMemory),
    }
}

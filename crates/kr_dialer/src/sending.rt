// Writing a whole piece.
ghost use Rattle.std.specs.Prelude.{IsTrue};
ghost use Rattle.std.specs.Option.{is_some};
ghost use Rattle.kr_dialer.specs.Carrying.{link_of, SendsAll};

use crate::Dialer;
use kr_outside::Failed;

/// Writes the whole piece, by as many calls as the dialer needs.
///
/// Refused with `Failed` at the first call that fails; a prefix of the piece is then written, perhaps an empty one.
pub fn send_all<D: Dialer>(dialer: &mut D, piece: &[u8]) -> Result<(), Failed>
    requires has_dialled { IsTrue (is_some (D.dialled dialer.old)) }
    ensures { SendsAll piece.now
        (link_of D.dialled D.left D.written D.faults D.is_steady dialer.old)
        (link_of D.dialled D.left D.written D.faults D.is_steady dialer.new) result }
{
    let mut rest = piece;
    while !rest.is_empty() {
        let count = dialer.write(rest)?;
        rest = &rest[count..];
    }
    Ok(())
}

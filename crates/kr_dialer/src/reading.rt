// Reading a piece.
ghost use Rattle.std.specs.Prelude.{ℕ, ◌<◌, length, IsTrue};
ghost use Rattle.std.specs.Option.{is_some};
ghost use Rattle.kr_dialer.specs.Carrying.{link_of, ReadsPiece};

use crate::Dialer;
use kr_outside::Failed;

/// Reads some of the bytes that are left to the start of the piece, which has room for one at least, and returns how many:
/// 0 only at the end of the input.
///
/// Refused with `Failed` only if the count of faults rose.
pub fn read_piece<D: Dialer>(dialer: &mut D, piece: &mut [u8]) -> Result<usize, Failed>
    requires room { 0 < length piece.old }
    requires has_dialled { IsTrue (is_some (D.dialled dialer.old)) }
    ensures { ReadsPiece piece.new
        (link_of D.dialled D.left D.written D.faults D.is_steady dialer.old)
        (link_of D.dialled D.left D.written D.faults D.is_steady dialer.new) result }
{
    match dialer.read(piece) {
        Ok(count) => Ok(count),
        Err(Failed) => Err(Failed),
    }
}

// The name of the service is owned.
ghost use Rattle.std.specs.Prelude.{IsTrue};
ghost use Rattle.std.specs.Option.{is_some};
ghost use Rattle.kr_dialer.specs.Carrying.{link_of};
ghost use Rattle.bus_naming.specs.Naming.{Names};

use crate::announcing::ask;
use crate::listening::{Listened, listen};
use crate::refused::NamingRefused;
use bus_framing::LinkFramer;
use bus_sending::LinkText;
use bus_views::View;
use kr_dialer::Dialer;
use std::alloc::AllocGlobal;
use std::sync::Wait;

/// The most bytes that are read at a time.
const MOST_READ: usize = 65_536;

/// A link that owns the name of the service.
#[derive(Drop)]
pub struct Named {
    /// The messages that are to be written: three were, and the next one has the serial 4.
    pub text: LinkText,
    /// What was read after the messages that were heard.
    pub framer: LinkFramer,
    /// The messages that were heard and answer none of the first calls, in order.
    pub kept: Vec<View>,
}

/// Has the link own the name of the service. `rest` is what was read after the handshake.
///
/// Refused with `Refused` if the bus answered one of the first calls by an error; with `NameTaken` if the name has another
/// owner; with `Early` if more than 16,777,216 bytes of messages came before the last answer; with `EndedEarly` if the input
/// ended before it; with `Violation` if the header of a message breaks a rule; with `ReadFault` and `WriteFault` only if the
/// link's count of faults rose; and with `OutOfMemory`.
pub fn own_name<R: AllocGlobal + Wait, D: Dialer>(
    rt: &R,
    rest: &[u8],
    link: &mut D,
) -> Result<Named, NamingRefused>
    requires has_dialled { IsTrue (is_some (D.dialled link.old)) }
    ensures { Names rest.now
        (link_of D.dialled D.left D.written D.faults D.is_steady link.old)
        (link_of D.dialled D.left D.written D.faults D.is_steady link.new) result }
{
    let alloc = rt.alloc();
    let text = match ask(alloc, link) {
        Ok(text) => text,
        Err(refused) => return Err(refused),
    };
    let Ok(mut piece) = vec![in alloc; 0; MOST_READ] else {
        return Err(NamingRefused::OutOfMemory);
    };
    let listened = match listen(rt, rest, link, &mut piece) {
        Ok(listened) => listened,
        Err(refused) => return Err(refused),
    };
    let Listened { framer, kept } = listened;
    Ok(Named { text, framer, kept })
}

// The first three calls.
ghost use Rattle.std.specs.Prelude.{◌≡◌, [], IfOk, IsTrue, OnOk};
ghost use Rattle.std.specs.Option.{is_some};
ghost use Rattle.kr_dialer.specs.Carrying.{link_of};
ghost use Rattle.bus_sending.specs.Texts.{nothing};
ghost use Rattle.bus_naming.specs.Naming.{Asks, asked};

use crate::refused::NamingRefused;
use bus_sending::{BusCall, LinkText};
use kr_base::OutOfMemory;
use kr_dialer::{Dialer, send_all};
use kr_outside::Failed;
use std::alloc::Global;

// Puts the three calls.
fn put_calls(text: &mut LinkText) -> Result<(), OutOfMemory>
    requires { text.old ≡ nothing }
    ensures { OnOk result (text.new ≡ asked) }
{
    text.put_call(&BusCall::Hello)?;
    text.put_call(&BusCall::WatchOwners)?;
    text.put_call(&BusCall::OwnName)
}

/// Writes the three calls at once.
pub fn ask<D: Dialer>(alloc: Global, link: &mut D) -> Result<LinkText, NamingRefused>
    requires has_dialled { IsTrue (is_some (D.dialled link.old)) }
    ensures { Asks (link_of D.dialled D.left D.written D.faults D.is_steady link.old)
        (link_of D.dialled D.left D.written D.faults D.is_steady link.new) result }
{
    let mut text = LinkText::new(alloc);
    if let Err(_) = put_calls(&mut text) {
        return Err(NamingRefused::OutOfMemory);
    }
    match send_all(link, text.as_slice()) {
        Ok(()) => {
            text.clear();
            Ok(text)
        }
        Err(Failed) => Err(NamingRefused::WriteFault),
    }
}

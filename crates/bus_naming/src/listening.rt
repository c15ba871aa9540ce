// Messages before the link has started.
ghost use Rattle.std.specs.Prelude.{◌≡◌, ℕ, List, Ok, IfErr, OnOk, length, IsTrue};
ghost use Rattle.std.specs.Option.{is_some};
ghost use Rattle.bus_framing.specs.Looks.{said_of};
ghost use Rattle.bus_start.specs.Starts.{Agrees, hear, rows_of};
ghost use Rattle.kr_dialer.specs.Carrying.{link_of};
ghost use Rattle.bus_naming.specs.Feeding.{most_read};
ghost use Rattle.bus_naming.specs.Naming.{HasHeard, HearsAll, HearsOne, Listens};

use crate::feeding::feed_more;
use crate::refused::{NamingRefused, end_for, end_of, fault_of};
use bus_framing::{Heard, LinkFramer};
use bus_start::{StartRefused, Starting};
use bus_views::{View, view_of};
use kr_dialer::Dialer;
use std::alloc::{AllocGlobal, Global};
use std::sync::Wait;

// Hears what is looked at in a message.
fn hear(starting: &mut Starting<View>, view: View) -> Result<(), StartRefused>
    ensures heard { OnOk result
        (hear view.answer view view.size (rows_of starting.old) ≡ Ok (rows_of starting.new)) }
    ensures refused { IfErr result (λ why.
        Agrees why (hear view.answer view view.size (rows_of starting.old))) }
{
    let answer = view.answer;
    let size = view.size;
    starting.hear(answer, view, size)
}

// Hears one message.
fn hear_one(alloc: Global, starting: &mut Starting<View>, heard: Heard) -> Result<(), NamingRefused>
    ensures { HearsOne (said_of heard) (rows_of starting.old) (rows_of starting.new) result }
{
    let view = match view_of(alloc, heard) {
        Ok(view) => view,
        Err(_) => return Err(NamingRefused::OutOfMemory),
    };
    match hear(starting, view) {
        Ok(()) => Ok(()),
        Err(refused) => Err(end_of(refused)),
    }
}

// Hears the messages that are complete, until the link has started.
fn hear_all<R: AllocGlobal + Wait>(
    rt: &R,
    framer: &mut LinkFramer,
    starting: &mut Starting<View>,
) -> Result<(), NamingRefused>
    ensures { (bytes : List ℕ) → HasHeard bytes framer.old (rows_of starting.old)
        → HearsAll bytes framer.new (rows_of starting.new) result }
{
    for _ in rt.forever() {
        if starting.has_started() {
            return Ok(());
        }
        let heard = match framer.next() {
            Ok(Some(heard)) => heard,
            Ok(None) => return Ok(()),
            Err(refused) => return Err(end_for(refused)),
        };
        if let Err(refused) = hear_one(rt.alloc(), starting, heard) {
            return Err(refused);
        }
    }
    unreachable!()
}

/// A link that has started.
#[derive(Drop)]
pub struct Listened {
    /// What was read after the messages that were heard.
    pub framer: LinkFramer,
    /// The messages that are kept.
    pub kept: Vec<View>,
}

/// Hears the messages of a link of which these bytes were read, and reads on, until the link has started.
pub fn listen<R: AllocGlobal + Wait, D: Dialer>(
    rt: &R,
    rest: &[u8],
    link: &mut D,
    piece: &mut [u8],
) -> Result<Listened, NamingRefused>
    requires room { length piece.old ≡ most_read }
    requires has_dialled { IsTrue (is_some (D.dialled link.old)) }
    ensures { Listens rest.now
        (link_of D.dialled D.left D.written D.faults D.is_steady link.old)
        (link_of D.dialled D.left D.written D.faults D.is_steady link.new) result }
{
    let mut framer = LinkFramer::new(rt.alloc());
    if let Err(_) = framer.feed(rest) {
        return Err(NamingRefused::OutOfMemory);
    }
    let mut starting = Starting::new(rt.alloc());
    for _ in rt.forever() {
        if let Err(refused) = hear_all(rt, &mut framer, &mut starting) {
            return Err(refused);
        }
        if starting.has_started() {
            return Ok(Listened {
                framer,
                kept: starting.into_kept(),
            });
        }
        let has_more = match feed_more(link, &mut *piece, &mut framer) {
            Ok(has_more) => has_more,
            Err(refused) => return Err(fault_of(refused)),
        };
        if !has_more {
            return Err(NamingRefused::EndedEarly);
        }
    }
    unreachable!()
}

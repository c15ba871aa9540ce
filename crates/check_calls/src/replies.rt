// Outputs that are read again as answers to calls.

use crate::bodies::text_of;
use crate::messages::message_in;
use crate::outputs::{output_in, serial_in};
use call_wire::message_of;
use check_rows::{Line, cell};
use client_core::{Reply, ReplyFault, reply_of};
use kr_base::{Attributes, ItemId, Stem};
use kr_items::Items;
use kr_names::ObjectName;
use secret_calls::{Call, Out, Property, Serial};
use std::alloc::Global;

fn search(alloc: Global) -> Option<Call> {
    let wanted = Attributes::from_pairs(alloc, Vec::new(alloc)).ok()?;
    Some(Call::SearchItems { wanted })
}

fn search_collection(alloc: Global) -> Option<Call> {
    let wanted = Attributes::from_pairs(alloc, Vec::new(alloc)).ok()?;
    Some(Call::SearchCollection {
        collection: ObjectName::Nothing,
        wanted,
    })
}

fn get_secret(alloc: Global) -> Option<Call> {
    let stem = Stem::new(alloc, "login").ok()??;
    Some(Call::GetSecret {
        stem,
        item: ItemId(1),
        session: None,
    })
}

fn create_collection(alloc: Global) -> Option<Call> {
    let label = text_of(alloc, "")?;
    Some(Call::CreateCollection { label, alias: None })
}

fn open_session(alloc: Global) -> Option<Call> {
    let algorithm = text_of(alloc, "plain")?;
    Some(Call::OpenSession { algorithm })
}

fn read_alias(alloc: Global) -> Option<Call> {
    let name = text_of(alloc, "default")?;
    Some(Call::ReadAlias { name })
}

fn get_all(alloc: Global) -> Call {
    Call::GetAll {
        object: ObjectName::Service,
        properties: Items::empty(alloc),
    }
}

fn set_label(alloc: Global) -> Option<Call> {
    let label = text_of(alloc, "")?;
    Some(Call::SetCollectionLabel {
        collection: ObjectName::Nothing,
        label,
    })
}

// A call of this method. Its arguments don't matter.
fn call_named(alloc: Global, name: &str) -> Option<Call> {
    match name {
        "Ping" => Some(Call::Ping),
        "OpenSession" => open_session(alloc),
        "SearchItems" => search(alloc),
        "Unlock" => Some(Call::Unlock {
            objects: Items::empty(alloc),
        }),
        "Collection.SearchItems" => search_collection(alloc),
        "CreateCollection" => create_collection(alloc),
        "ReadAlias" => read_alias(alloc),
        "ChangePassword" => Some(Call::ChangePassword {
            collection: ObjectName::Nothing,
        }),
        "GetSecret" => get_secret(alloc),
        "GetSecrets" => Some(Call::GetSecrets {
            items: Items::empty(alloc),
            session: None,
        }),
        "Get" => Some(Call::Get {
            object: ObjectName::Service,
            property: Property::Collections,
        }),
        "GetAll" => Some(get_all(alloc)),
        "Set" => set_label(alloc),
        _ => None,
    }
}

// Whether the reply is what was sent.
fn is_sent(reply: &Reply, out: &Out) -> bool {
    match (reply, out) {
        (Reply::Return(read), Out::Return { to: _, body }) => *read == *body,
        (Reply::Error(read), Out::Error { to: _, name }) => read.as_str() == name.as_str(),
        _ => false,
    }
}

fn fault_word(fault: ReplyFault) -> &'static str {
    match fault {
        ReplyFault::NotAReply => "NotAReply",
        ReplyFault::WrongShape => "WrongShape",
        ReplyFault::OutOfMemory => "no memory",
    }
}

// Writes what the output is read as, in answer to a call that was sent with this serial.
fn write_read(line: &mut Line, out: &Out, call: &Call, serial: Serial) {
    let Ok(bytes) = message_of(line.alloc(), out, 1) else {
        return line.lack();
    };
    let Some(message) = message_in(line.alloc(), bytes.as_slice()) else {
        return line.add("no message");
    };
    match reply_of(line.alloc(), &message, call, serial.number) {
        Ok(reply) => line.add(if is_sent(&reply, out) {
            "as sent"
        } else {
            "otherwise"
        }),
        Err(fault) => line.add(fault_word(fault)),
    }
}

// Lends a value, and drops it here, where its type isn't known. Returns whether there is one.
fn over<T: Drop, L: FnOnce(&T)>(value: Option<T>, act: L) -> bool
    requires { L.IsAlwaysCallable act }
{
    match value {
        Some(value) => {
            act(&value);
            true
        }
        None => false,
    }
}

fn write_answer(line: &mut Line, out: &Out, call: &Call, serial: &str) {
    match serial_in(serial) {
        Some(serial) => write_read(line, out, call, serial),
        None => line.add("no serial"),
    }
}

fn write_answers(line: &mut Line, out: &Out, cells: &str) {
    let call = call_named(line.alloc(), cell(cells, 2));
    let there = over(call, |call| write_answer(line, out, call, cell(cells, 3)));
    if !there {
        line.add("no call");
    }
}

/// Writes what an output is read as: its words, the serial that it answers, the method of the call, and that call's serial.
pub fn write_reply(line: &mut Line, cells: &str) {
    let out = output_in(line.alloc(), cells);
    let there = over(out, |out| write_answers(line, out, cells));
    if !there {
        line.add("no output");
    }
}

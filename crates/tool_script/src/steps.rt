// The step of each command after the replies so far.
ghost use Rattle.std.specs.Prelude.{◌≡◌, ◌∷◌, [], length, codes, IfOk, None, Some};
ghost use Rattle.secret_calls.specs.declared.call.Call.TheVariants as call;
ghost use Rattle.tool_script.specs.declared.command.Command.TheVariants as command;
ghost use Rattle.tool_script.specs.declared.steps.ToolStep.TheVariants as step;
ghost use Rattle.tool_script.specs.Replies.{found_in, value_in, made_in, locked_in, item_at};
ghost use Rattle.tool_script.specs.Script.{silent, done, stopped, create, then_calls, get, get_first, delete, deletes, then_ends, with_item, first_printed, cleared, counted, step_of, step_after};

use crate::OutOfMemory;
use crate::calls::{collections, create, open_session, search};
use crate::command::Command;
use crate::printed::{counted, matches_printed};
use crate::replies::{
    collections_in, deleted_in, found_in, item_at, locked_in, made_in, session_in, value_in,
};
use client_core::Reply;
use kr_base::{Attributes, Bytes, SessionId, Text};
use kr_items::Items;
use kr_names::ObjectName;
use secret_calls::Call;
use std::alloc::Global;

/// How a command ended.
#[derive(Drop)]
pub enum ScriptStatus {
    /// All was done, and all is printed.
    Done,
    /// `lookup` found nothing.
    NotFound,
    /// `lookup` found only items of locked collections.
    Locked,
    /// A call was answered by the error of this name.
    Refused(Text),
    /// A call returned other values than it returns from a service that needs no prompt.
    BadReply,
}

/// The end of a command.
#[derive(Drop)]
pub struct ScriptEnd {
    /// How it ended.
    pub status: ScriptStatus,
    /// What is printed.
    pub text: Bytes,
}

/// What a command does next.
#[derive(Drop)]
pub enum ToolStep {
    /// It makes this call, and waits for its reply.
    Send(Call),
    /// It ends.
    End(ScriptEnd),
}

// An end with nothing printed.
fn silent(alloc: Global, status: ScriptStatus) -> Result<ToolStep, OutOfMemory>
    ensures { IfOk result (λ it. it ≡ step.End (silent status)) }
{
    let text = Bytes::from_slice(alloc, b"".as_slice())?;
    Ok(ToolStep::End(ScriptEnd { status, text }))
}

// An end with all printed.
fn done(text: Bytes) -> ToolStep
    ensures { result ≡ step.End (done text) }
{
    ToolStep::End(ScriptEnd {
        status: ScriptStatus::Done,
        text,
    })
}

// The end at a reply without the values that its call returns.
fn stopped(alloc: Global, reply: &Reply) -> Result<ToolStep, OutOfMemory>
    ensures { IfOk result (λ it. it ≡ step.End (stopped reply.now)) }
{
    match reply {
        Reply::Error(name) => silent(alloc, ScriptStatus::Refused(name.copy()?)),
        Reply::Return(_) => silent(alloc, ScriptStatus::BadReply),
    }
}

// The step of `store` once there is a session.
fn create_step(
    alloc: Global,
    label: &Text,
    attributes: &Attributes,
    secret: &Bytes,
    session: SessionId,
    replies: &[Reply],
) -> Result<ToolStep, OutOfMemory>
    ensures { IfOk result (λ it. step_of (create label.now attributes.now secret.now session ∷ [])
        (then_ends made_in (λ path last. Some (done [])) replies.now)
        (length replies.now) ≡ Some it) }
{
    match replies {
        [] => Ok(ToolStep::Send(create(alloc, label, attributes, secret, session)?)),
        [reply, ..] => match made_in(reply) {
            Some(_) => Ok(done(Bytes::from_slice(alloc, b"".as_slice())?)),
            None => stopped(alloc, reply),
        },
    }
}

// The step of `store`.
fn store_step(
    alloc: Global,
    label: &Text,
    attributes: &Attributes,
    secret: &Bytes,
    replies: &[Reply],
) -> Result<ToolStep, OutOfMemory>
    ensures { IfOk result (λ it. step_after
        (command.Store label.now attributes.now secret.now) replies.now ≡ Some it) }
{
    match replies {
        [] => Ok(ToolStep::Send(open_session(alloc)?)),
        [reply, more @ ..] => match session_in(reply) {
            Some(session) => create_step(alloc, label, attributes, secret, session, more),
            None => stopped(alloc, reply),
        },
    }
}

// The step of `lookup` once there is a match in an unlocked collection.
fn get_step(
    alloc: Global,
    session: SessionId,
    path: &Text,
    replies: &[Reply],
) -> Result<ToolStep, OutOfMemory>
    ensures { IfOk result (λ it. step_of (get session (item_at path.now))
        (with_item (item_at path.now)
        (then_ends value_in (λ value more. Some (done value)) replies.now))
        (length replies.now) ≡ Some it) }
{
    let Some((stem, item)) = item_at(alloc, path)? else {
        return silent(alloc, ScriptStatus::BadReply);
    };
    match replies {
        [] => Ok(ToolStep::Send(Call::GetSecret {
            stem,
            item,
            session: Some(session),
        })),
        [reply, ..] => match value_in(reply) {
            Some(value) => Ok(done(value.copy()?)),
            None => stopped(alloc, reply),
        },
    }
}

// The step of `lookup` once the matches are known.
fn first_step(
    alloc: Global,
    session: SessionId,
    unlocked: &[Text],
    locked: &[Text],
    replies: &[Reply],
) -> Result<ToolStep, OutOfMemory>
    ensures { IfOk result (λ it. step_of (get_first session unlocked.now)
        (first_printed unlocked.now locked.now replies.now) (length replies.now) ≡ Some it) }
{
    match unlocked {
        [path, ..] => get_step(alloc, session, path, replies),
        [] => {
            if locked.is_empty() {
                silent(alloc, ScriptStatus::NotFound)
            } else {
                silent(alloc, ScriptStatus::Locked)
            }
        }
    }
}

// The step of `lookup` once there is a session.
fn match_step(
    alloc: Global,
    wanted: &Attributes,
    session: SessionId,
    replies: &[Reply],
) -> Result<ToolStep, OutOfMemory>
    ensures { IfOk result (λ it. step_of (call.SearchItems wanted.now
        ∷ then_calls found_in (λ found last. get_first session found.0) replies.now)
        (then_ends found_in (λ found last. first_printed found.0 found.1 last) replies.now)
        (length replies.now) ≡ Some it) }
{
    match replies {
        [] => Ok(ToolStep::Send(search(wanted)?)),
        [reply, more @ ..] => match found_in(reply) {
            Some((unlocked, locked)) => first_step(alloc, session, unlocked, locked, more),
            None => stopped(alloc, reply),
        },
    }
}

// The step of `lookup`.
fn lookup_step(
    alloc: Global,
    wanted: &Attributes,
    replies: &[Reply],
) -> Result<ToolStep, OutOfMemory>
    ensures { IfOk result (λ it. step_after (command.Lookup wanted.now) replies.now ≡ Some it) }
{
    match replies {
        [] => Ok(ToolStep::Send(open_session(alloc)?)),
        [reply, more @ ..] => match session_in(reply) {
            Some(session) => match_step(alloc, wanted, session, more),
            None => stopped(alloc, reply),
        },
    }
}

// The step of `search`.
fn search_step(
    alloc: Global,
    wanted: &Attributes,
    replies: &[Reply],
) -> Result<ToolStep, OutOfMemory>
    ensures { IfOk result (λ it. step_after (command.Search wanted.now) replies.now ≡ Some it) }
{
    match replies {
        [] => Ok(ToolStep::Send(search(wanted)?)),
        [reply, ..] => match found_in(reply) {
            Some((unlocked, locked)) => Ok(done(matches_printed(alloc, unlocked, locked)?)),
            None => stopped(alloc, reply),
        },
    }
}

// The step of `clear` at an item that isn't deleted yet: its call, or the end if its path isn't an item's.
fn delete_step(alloc: Global, path: &Text) -> Result<ToolStep, OutOfMemory>
    ensures { IfOk result (λ it. step_of (delete (item_at path.now) [])
        (with_item (item_at path.now) None) 0 ≡ Some it) }
{
    match item_at(alloc, path)? {
        Some((stem, item)) => Ok(ToolStep::Send(Call::DeleteItem { stem, item })),
        None => silent(alloc, ScriptStatus::BadReply),
    }
}

// The step of `clear` once the matches are known.
fn deletes_step(
    alloc: Global,
    unlocked: &[Text],
    replies: &[Reply],
) -> Result<ToolStep, OutOfMemory>
    ensures { IfOk result (λ it. step_of (deletes unlocked.now replies.now)
        (cleared (length unlocked.now) unlocked.now replies.now) (length replies.now) ≡ Some it) }
{
    let mut paths = unlocked;
    let mut answers = replies;
    while let [path, later @ ..] = paths {
        if item_at(alloc, path)?.is_none() {
            return silent(alloc, ScriptStatus::BadReply);
        }
        let [reply, more @ ..] = answers else {
            return delete_step(alloc, path);
        };
        if deleted_in(reply).is_none() {
            return stopped(alloc, reply);
        }
        paths = later;
        answers = more;
    }
    Ok(done(counted(alloc, b"cleared".as_slice(), unlocked.len())?))
}

// The step of `clear`.
fn clear_step(
    alloc: Global,
    wanted: &Attributes,
    replies: &[Reply],
) -> Result<ToolStep, OutOfMemory>
    ensures { IfOk result (λ it. step_after (command.Clear wanted.now) replies.now ≡ Some it) }
{
    match replies {
        [] => Ok(ToolStep::Send(search(wanted)?)),
        [reply, more @ ..] => match found_in(reply) {
            Some((unlocked, _)) => deletes_step(alloc, unlocked, more),
            None => stopped(alloc, reply),
        },
    }
}

// The step of `lock` once the collections are known.
fn locked_step(
    alloc: Global,
    objects: Items<ObjectName>,
    replies: &[Reply],
) -> Result<ToolStep, OutOfMemory>
    ensures { IfOk result (λ it. step_of (call.Lock objects ∷ [])
        (then_ends locked_in (λ locked last. Some (done (counted (codes "locked") (length locked)))) replies.now)
        (length replies.now) ≡ Some it) }
{
    match replies {
        [] => Ok(ToolStep::Send(Call::Lock { objects })),
        [reply, ..] => match locked_in(reply) {
            Some(locked) => Ok(done(counted(alloc, b"locked".as_slice(), locked.len())?)),
            None => stopped(alloc, reply),
        },
    }
}

// The step of `lock`.
fn lock_step(alloc: Global, replies: &[Reply]) -> Result<ToolStep, OutOfMemory>
    ensures { IfOk result (λ it. step_after command.Lock replies.now ≡ Some it) }
{
    match replies {
        [] => Ok(ToolStep::Send(collections())),
        [reply, more @ ..] => match collections_in(alloc, reply)? {
            Some(objects) => locked_step(alloc, objects, more),
            None => stopped(alloc, reply),
        },
    }
}

/// The step of a command after these replies: the next call, or the end.
pub fn step_after(
    alloc: Global,
    command: &Command,
    replies: &[Reply],
) -> Result<ToolStep, OutOfMemory>
    ensures { IfOk result (λ it. step_after command.now replies.now ≡ Some it) }
{
    match command {
        Command::Store {
            label,
            attributes,
            secret,
        } => store_step(alloc, label, attributes, secret, replies),
        Command::Lookup { wanted } => lookup_step(alloc, wanted, replies),
        Command::Search { wanted } => search_step(alloc, wanted, replies),
        Command::Clear { wanted } => clear_step(alloc, wanted, replies),
        Command::Lock => lock_step(alloc, replies),
    }
}

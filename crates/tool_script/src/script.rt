// A command under way.
ghost use Rattle.std.specs.Prelude.{◌≡◌, IfOk, OnOk, Some, option_map};
ghost use Rattle.tool_script.specs.Words.{command_of};
ghost use Rattle.tool_script.specs.Script.{begun, with_reply, heard, step_after, CanBeSent};

use crate::OutOfMemory;
use crate::command::{Command, command_of};
use crate::steps::{ToolStep, step_after};
use client_core::Reply;
use kr_base::{Bytes, Text};
use kr_names::a_path_is_that_of_its_name;
use std::alloc::Global;
use std::marker::Model;

/// A command under way. A contract sees the command and the replies so far.
#[derive(Drop)]
pub struct Script {
    alloc: Global,
    command: Command,
    replies: Vec<Reply>,
}

impl Model for Script {
    ghost use Rattle.tool_script.specs.Script.{Course};
    ghost use Rattle.tool_script.specs.Words.{HasTexts};

    ghost Value = { Course };

    ghost view = { λ s. record { command = s.command; replies = s.replies.items } };

    ghost invariant = { λ s. HasTexts s.command };
}

// Appends the reply, if there is one.
fn add_reply(replies: &mut Vec<Reply>, reply: Option<Reply>) -> Result<(), OutOfMemory>
    ensures { OnOk result (replies.new.items ≡ with_reply reply replies.old.items) }
{
    match reply {
        Some(reply) => replies.push(reply)?,
        None => {}
    }
    Ok(())
}

impl Script {
    /// The script of the command that the words are: those after the tool's UID. The secret counts for `store` alone.
    ///
    /// None exactly if the words aren't a command.
    pub fn new(words: &[Text], secret: Bytes) -> Result<Option<Script>, OutOfMemory>
        ensures { IfOk result (λ answer. answer ≡ option_map begun (command_of words.now secret)) }
    {
        let secret = secret.into_vec()?;
        let alloc = *secret.allocator();
        match command_of(alloc, words, Bytes::new(secret))? {
            Some(command) => Ok(Some(Script {
                alloc,
                command,
                replies: Vec::new(alloc),
            })),
            None => Ok(None),
        }
    }

    /// The next step, after one more reply if there is one: the next call of the script, or its end. Without a reply
    /// it is the step that came last.
    pub fn next(&mut self, reply: Option<Reply>) -> Result<ToolStep, OutOfMemory>
        ensures heard { OnOk result (self.new ≡ heard self.old reply) }
        ensures next { IfOk result
            (λ step. step_after self.new.command self.new.replies ≡ Some step) }
        ensures can_be_sent { IfOk result CanBeSent }
    {
        a_path_is_that_of_its_name();
        add_reply(&mut self.replies, reply)?;
        step_after(self.alloc, &self.command, self.replies.as_slice())
    }
}

//! secret_tool, the client tool: it stores, looks up, lists and deletes the secrets of a keyringd that serves a Unix socket,
//! and locks its collections (docs/secret_tool.1).
//!
//! All that it does is `tool` of client_tool, a function of its arguments, its streams and a dialer. Here are only the
//! real streams, the real socket, and the exit code of the process: the number of the run's status. On standard error
//! it prints the usage text if the arguments are no command line, and the name of the error that a call was answered by.
#![tactic(auto)]

ghost use Rattle.std.specs.Prelude.{◌≡◌, ◌⊎◌, IfOk, IfErr, drop, map, string_bytes};
ghost use Rattle.std.specs.Process.{exit_status};
ghost use Rattle.std.specs.Vec.Iter.{into_iter_items};
ghost use Rattle.client_tool.specs.Status.{number_of};

use client_tool::{ToolStatus, tool};
use dialers::UnixDialer;
use kr_base::Text;
use real_edges::{ReaderSource, WriterSink};
use std::alloc::{AllocGlobal, Global};
use std::env::{self, Args, Env};
use std::io::ErrorKind;
use std::process::ExitCode;

/// What is printed if the arguments are no command line.
const USAGE: &str = "usage: secret_tool SOCKET UID store LABEL ATTRIBUTE VALUE [ATTRIBUTE VALUE]...
       secret_tool SOCKET UID lookup ATTRIBUTE VALUE [ATTRIBUTE VALUE]...
       secret_tool SOCKET UID search ATTRIBUTE VALUE [ATTRIBUTE VALUE]...
       secret_tool SOCKET UID clear ATTRIBUTE VALUE [ATTRIBUTE VALUE]...
       secret_tool SOCKET UID lock

store reads the secret from standard input. See secret_tool(1).";

/// The exit code of a process that ended with this status. Prints the usage text, or the name of an error, on standard
/// error, and nothing for any other status.
fn ended(rt: &HostRuntime, status: ToolStatus) -> ExitCode
    ensures number { exit_status result ≡ number_of status }
{
    // If standard error fails too, there is nobody left to report that to.
    match &status {
        ToolStatus::Usage => {
            let _ = eprintln!(rt; "{USAGE}");
        }
        ToolStatus::Refused(name) => {
            let text = name.as_str();
            let _ = eprintln!(rt; "{text}");
        }
        _ => {}
    }
    ExitCode::from(status.number())
}

/// The arguments after the first one, in order, each as it is; an empty one is an empty word.
///
/// Refused with `Usage` if one of them contains a zero byte, and with `Memory` if no memory was left.
fn after_the_first(alloc: Global, mut all: Args) -> Result<Vec<Text>, ToolStatus>
    ensures words { IfOk result (λ words. words.items
        ≡ map string_bytes (drop 1 (into_iter_items all))) }
    ensures refused { IfErr result (λ status.
        (status ≡ ToolStatus.Usage) ⊎ (status ≡ ToolStatus.Memory)) }
{
    let mut words = Vec::new(alloc);
    let _name = all.next();
    while let Some(word) = all.next() {
        let Some(text) = Text::new(word) else {
            return Err(ToolStatus::Usage);
        };
        if words.push(text).is_err() {
            return Err(ToolStatus::Memory);
        }
    }
    Ok(words)
}

/// The arguments after the program's name, in order, each as it is (`after_the_first`), as the system gives them:
/// std has no clause that says what they are.
///
/// Refused with `Usage` if one of them isn't UTF-8 or contains a zero byte, and with `Memory` if no memory was left.
fn words_of<R: AllocGlobal + Env>(rt: &R) -> Result<Vec<Text>, ToolStatus>
    ensures refused { IfErr result (λ status.
        (status ≡ ToolStatus.Usage) ⊎ (status ≡ ToolStatus.Memory)) }
{
    match env::args(rt) {
        Ok(all) => after_the_first(rt.alloc(), all),
        Err(error) => Err(if error.kind() == ErrorKind::OutOfMemory {
            ToolStatus::Memory
        } else {
            ToolStatus::Usage
        }),
    }
}

/// The exit status is the number of the run's status (`ended`).
fn main(rt: HostRuntime) -> ExitCode {
    let words = match words_of(&rt) {
        Ok(words) => words,
        Err(status) => return ended(&rt, status),
    };
    let mut input = ReaderSource::new(rt.stdin());
    let mut output = WriterSink::new(rt.stdout());
    let mut dialer = UnixDialer::new(rt);
    let status = tool(&rt, words.as_slice(), &mut input, &mut output, &mut dialer);
    ended(&rt, status)
}

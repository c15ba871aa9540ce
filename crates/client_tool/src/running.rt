// A whole run of the tool.
ghost use Rattle.std.specs.Prelude.{◌≡◌, ◌⊎◌, ℕ, List, None, [], IfOk, IsFalse, IsTrue, length};
ghost use Rattle.std.specs.Option.{is_some};
ghost use Rattle.kr_dialer.specs.Carrying.{link_of};
ghost use Rattle.tool_script.specs.Words.{command_of};
ghost use Rattle.client_tool.specs.Lines.{IsLine, IsNoLine};
ghost use Rattle.client_tool.specs.Streams.{input_of, output_of, most_read};
ghost use Rattle.client_tool.specs.Running.{Converses, RunsScript, ToolRuns, Gets};

use crate::greeting::greet;
use crate::printing::print;
use crate::receiving::MOST_READ;
use crate::secret::read_secret;
use crate::status::{Stop, ToolStatus, stopped_with};
use crate::talking::talk;
use crate::words::{Line, line_of, stores};
use kr_base::{Bytes, OutOfMemory, Text};
use kr_dialer::Dialer;
use kr_outside::{OutsideRefused, Sink, Source};
use std::alloc::{AllocGlobal, Global};
use std::sync::Wait;
use tool_script::{Script, ScriptEnd};

// The same as `converse`, with a buffer for a piece.
fn converse_by<R: AllocGlobal + Wait, D: Dialer>(
    rt: &R,
    uid: u32,
    script: &mut Script,
    dialer: &mut D,
    piece: &mut [u8],
) -> Result<ScriptEnd, Stop>
    requires begun { script.old.replies ≡ [] }
    requires room { length piece.old ≡ most_read }
    requires has_dialled { IsTrue (is_some (D.dialled dialer.old)) }
    ensures { Converses uid script.old.command
        (link_of D.dialled D.left D.written D.faults D.is_steady dialer.old)
        (link_of D.dialled D.left D.written D.faults D.is_steady dialer.new) result }
{
    match greet(rt, uid, dialer) {
        Ok(framer) => {
            let mut framer = framer;
            talk(rt, script, &mut framer, dialer, piece)
        }
        Err(stop) => Err(stop),
    }
}

// The handshake, and the calls of the script.
fn converse<R: AllocGlobal + Wait, D: Dialer>(
    rt: &R,
    uid: u32,
    script: &mut Script,
    dialer: &mut D,
) -> Result<ScriptEnd, Stop>
    requires begun { script.old.replies ≡ [] }
    requires has_dialled { IsTrue (is_some (D.dialled dialer.old)) }
    ensures { Converses uid script.old.command
        (link_of D.dialled D.left D.written D.faults D.is_steady dialer.old)
        (link_of D.dialled D.left D.written D.faults D.is_steady dialer.new) result }
{
    let Ok(mut piece) = vec![in rt.alloc(); 0; MOST_READ] else {
        return Err(Stop::Memory);
    };
    converse_by(rt, uid, script, dialer, &mut piece)
}

// Dials the path, converses, and prints.
fn run_script<R: AllocGlobal + Wait, O: Sink, D: Dialer>(
    rt: &R,
    path: &Text,
    uid: u32,
    script: &mut Script,
    output: &mut O,
    dialer: &mut D,
) -> ToolStatus
    requires begun { script.old.replies ≡ [] }
    requires not_dialled { D.dialled dialer.old ≡ None }
    requires output_open { IsFalse (O.is_closed output.old) }
    ensures { RunsScript path.now uid script.old.command
        (output_of O.written O.faults O.is_steady output.old)
        (output_of O.written O.faults O.is_steady output.new)
        (link_of D.dialled D.left D.written D.faults D.is_steady dialer.old)
        (link_of D.dialled D.left D.written D.faults D.is_steady dialer.new) result }
{
    match dialer.dial(path.as_str()) {
        Ok(()) => {}
        Err(OutsideRefused::Failed) => return ToolStatus::LinkFault,
        Err(OutsideRefused::OutOfMemory) => return ToolStatus::Memory,
    }
    match converse(rt, uid, script, dialer) {
        Ok(end) => print(output, end),
        Err(stop) => stopped_with(stop),
    }
}

// The secret that a command is given: all of the input for `store`, and nothing for any other.
fn secret_for<R: AllocGlobal + Wait, I: Source>(
    rt: &R,
    command: &[Text],
    input: &mut I,
) -> Result<Bytes, Stop>
    requires input_open { IsFalse (I.is_closed input.old) }
    ensures { Gets command.now
        (input_of I.left I.faults I.is_steady I.is_closed input.old)
        (input_of I.left I.faults I.is_steady I.is_closed input.new) result }
{
    if stores(command) {
        read_secret(rt, input)
    } else {
        Ok(Bytes::new(Vec::new(rt.alloc())))
    }
}

// Whether the words are a command.
fn is_command(alloc: Global, command: &[Text]) -> Result<bool, OutOfMemory>
    ensures { IfOk result (λ found. found ≡ is_some (command_of command.now [])) }
{
    match Script::new(command, Bytes::new(Vec::new(alloc))) {
        Ok(Some(_)) => Ok(true),
        Ok(None) => Ok(false),
        Err(error) => Err(error),
    }
}

// Runs the command: reads the secret that it is given, and then does what its script says.
fn run_line<R: AllocGlobal + Wait, I: Source, O: Sink, D: Dialer>(
    rt: &R,
    path: &Text,
    uid: u32,
    command: &[Text],
    input: &mut I,
    output: &mut O,
    dialer: &mut D,
) -> ToolStatus
    requires is_command { IsTrue (is_some (command_of command.now [])) }
    requires input_open { IsFalse (I.is_closed input.old) }
    requires output_open { IsFalse (O.is_closed output.old) }
    requires not_dialled { D.dialled dialer.old ≡ None }
    ensures not_usage { result ≡ ToolStatus.Usage → ⊥ }
    ensures runs { (words : List (List ℕ)) → IsLine words path.now uid command.now → ToolRuns words
        (input_of I.left I.faults I.is_steady I.is_closed input.old)
        (input_of I.left I.faults I.is_steady I.is_closed input.new)
        (output_of O.written O.faults O.is_steady output.old)
        (output_of O.written O.faults O.is_steady output.new)
        (link_of D.dialled D.left D.written D.faults D.is_steady dialer.old)
        (link_of D.dialled D.left D.written D.faults D.is_steady dialer.new) result }
{
    let secret = match secret_for(rt, command, input) {
        Ok(secret) => secret,
        Err(stop) => return stopped_with(stop),
    };
    match Script::new(command, secret) {
        Ok(Some(script)) => {
            let mut script = script;
            run_script(rt, path, uid, &mut script, output, dialer)
        }
        Ok(None) => unreachable!(),
        Err(_) => ToolStatus::Memory,
    }
}

/// A run of the tool: the words are looked at first; then `store` reads its secret, all of the input; then the tool
/// dials the socket, does the handshake as the user that the words name, makes the calls of its command, and prints.
///
/// Ends with `Usage` if the words are no command line, and nothing has happened then; with `LinkFault`, `OutputFault` and
/// `InputFault` only if the count of the dialer, of the output, of the input rose; with `BadReply` if what the service
/// sent is no reply to the call; with `TooLarge` if the secret or a call is too large; with `Memory` if no memory was
/// left; and otherwise with what `print` says of the replies.
pub fn tool<R: AllocGlobal + Wait, I: Source, O: Sink, D: Dialer>(
    rt: &R,
    words: &[Text],
    input: &mut I,
    output: &mut O,
    dialer: &mut D,
) -> ToolStatus
    requires input_open { IsFalse (I.is_closed input.old) }
    requires output_open { IsFalse (O.is_closed output.old) }
    requires not_dialled { D.dialled dialer.old ≡ None }
    ensures usage { result ≡ ToolStatus.Usage → IsNoLine words.now }
    ensures untouched { result ≡ ToolStatus.Usage
        → (input.new ≡ input.old) × (output.new ≡ output.old) × (dialer.new ≡ dialer.old) }
    ensures no_line { IsNoLine words.now
        → (result ≡ ToolStatus.Usage) ⊎ (result ≡ ToolStatus.Memory) }
    ensures runs { ToolRuns words.now
        (input_of I.left I.faults I.is_steady I.is_closed input.old)
        (input_of I.left I.faults I.is_steady I.is_closed input.new)
        (output_of O.written O.faults O.is_steady output.old)
        (output_of O.written O.faults O.is_steady output.new)
        (link_of D.dialled D.left D.written D.faults D.is_steady dialer.old)
        (link_of D.dialled D.left D.written D.faults D.is_steady dialer.new) result }
{
    let Some(line) = line_of(words) else {
        return ToolStatus::Usage;
    };
    let Line { path, uid, command } = line;
    let found = match is_command(rt.alloc(), command) {
        Ok(found) => found,
        Err(_) => return ToolStatus::Memory,
    };
    if !found {
        return ToolStatus::Usage;
    }
    run_line(rt, path, uid, command, input, output, dialer)
}

// Printing what a command says.
ghost use Rattle.std.specs.Prelude.{IsFalse};
ghost use Rattle.client_tool.specs.Streams.{output_of};
ghost use Rattle.client_tool.specs.Running.{Prints};

use crate::status::{ToolStatus, status_of};
use kr_outside::{Failed, Sink, write_all};
use tool_script::ScriptEnd;

/// Prints the text of the end, and returns its status; or `OutputFault` if the sink failed.
pub fn print<O: Sink>(output: &mut O, end: ScriptEnd) -> ToolStatus
    requires output_open { IsFalse (O.is_closed output.old) }
    ensures { Prints end (output_of O.written O.faults O.is_steady output.old)
        (output_of O.written O.faults O.is_steady output.new) result }
{
    let ScriptEnd { status, text } = end;
    match write_all(output, text.as_slice()) {
        Ok(()) => status_of(status),
        Err(Failed) => ToolStatus::OutputFault,
    }
}

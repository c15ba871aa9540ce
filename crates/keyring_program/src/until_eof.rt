// The end of the daemon with its input.
ghost use Rattle.std.specs.Prelude.{◌≡◌, ◌⊎◌, ◌↔◌, IsTrue, IsFalse, IfOk, OnErr};
ghost use Rattle.command_words.specs.CommandLines.{HasCommandLine};
ghost use Rattle.kr_outside.specs.Faults.{Rose};
ghost use Rattle.keyring_program.specs.Commands.{IsUntilEof, is_until_eof};
ghost use Rattle.keyring_program.specs.InputEnd.{HasEnded};

use command_words::{CommandLine, read_words};
use kr_base::{OutOfMemory, Text};
use kr_outside::Source;
use std::sync::Wait;

fn has_until_eof(line: &CommandLine) -> bool
    ensures { result ≡ is_until_eof line.now }
{
    matches!(line, CommandLine::ServeUntilEof { .. })
}

/// Whether the words are a command line of `serve` with `--until-eof`. Whoever runs it ends the host's door, so
/// that no further link comes, when the input has ended.
///
/// Refused if no memory was left, which comes only if the words are a command line.
pub fn ends_with_input(words: &[Text]) -> Result<bool, OutOfMemory>
    ensures ends { IfOk result (λ ends. IsTrue ends ↔ IsUntilEof words.now) }
    ensures memory { OnErr result (HasCommandLine words.now) }
{
    match read_words(words) {
        Ok(Some(line)) => Ok(has_until_eof(&line)),
        Ok(None) => Ok(false),
        Err(error) => Err(error),
    }
}

/// Reads the input to its end, or until it fails. What is read is dropped.
pub fn await_end<R: Wait, I: Source>(rt: &R, input: &mut I)
    requires is_open { IsFalse (I.is_closed input.old) }
    ensures { HasEnded (I.left input.new) ⊎ Rose (I.faults input.old) (I.faults input.new) }
{
    let mut piece = [0; 256];
    for _ in rt.forever() {
        match input.read(&mut piece) {
            Ok(0) => return,
            Ok(_) => {}
            Err(_) => return,
        }
    }
    unreachable!()
}

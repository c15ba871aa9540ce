// The first line of an input.
ghost use Rattle.std.specs.Prelude.{◌≡◌, ◌≤◌, IfOk, IsErrOf, IsTrue, IsFalse};
ghost use Rattle.kr_outside.specs.Faults.{HasCause, KeepsSteady, Rose};
ghost use Rattle.keyring_program.specs.FirstLine.{TakesByte, TakesLine, TakesPassword, TakesTooMuch};

use kr_base::Bytes;
use kr_outside::{Failed, Source};
use std::alloc::Global;

/// The number of bytes without a line feed that are too many.
const TOO_MANY: usize = 4_096;

/// Why no line was read.
#[derive(Clone, Copy, Debug, PartialEq, Eq)]
pub enum LineRefused {
    /// The input failed.
    Failed,
    /// The first 4,096 bytes have no line feed.
    TooLong,
    /// No memory was left.
    OutOfMemory,
}

/// Reads the next byte. None at the end of the input.
fn next_byte<I: Source>(input: &mut I) -> Result<Option<u8>, Failed>
    requires is_open { IsFalse (I.is_closed input.old) }
    ensures byte { IfOk result (TakesByte (I.left input.old) (I.left input.new)) }
    ensures cause { HasCause (I.faults input.old) (I.faults input.new) result }
    ensures steady { KeepsSteady (I.is_steady input.old) (I.is_steady input.new)
        (I.faults input.old) (I.faults input.new) }
    ensures is_open { IsFalse (I.is_closed input.new) }
{
    let mut buffer = [0; 1];
    match input.read(&mut buffer) {
        Ok(0) => Ok(None),
        Ok(_) => {
            let [byte] = buffer;
            Ok(Some(byte))
        }
        Err(failed) => Err(failed),
    }
}

/// Reads the first line of an input, and returns it without its line feed. The end of the input ends a line as well.
/// Nothing after the line feed is read.
///
/// Refused with `Failed` only if the input's count of faults rose, with `TooLong` if the first 4,096 bytes have no line
/// feed, and with `OutOfMemory` if no memory was left.
fn first_line<I: Source>(alloc: Global, input: &mut I) -> Result<Bytes, LineRefused>
    requires is_open { IsFalse (I.is_closed input.old) }
    ensures line { IfOk result (TakesLine (I.left input.old) (I.left input.new)) }
    ensures too_long { IsErrOf result LineRefused.TooLong
        → TakesTooMuch (I.left input.old) (I.left input.new) }
    ensures cause { IsErrOf result LineRefused.Failed
        → Rose (I.faults input.old) (I.faults input.new) }
    ensures later { I.faults input.old ≤ I.faults input.new }
    ensures steady { KeepsSteady (I.is_steady input.old) (I.is_steady input.new)
        (I.faults input.old) (I.faults input.new) }
    ensures is_open { IsFalse (I.is_closed input.new) }
{
    let mut line = Vec::new(alloc);
    while line.len() < TOO_MANY {
        match next_byte(input) {
            Ok(None) => return Ok(Bytes::new(line)),
            Ok(Some(byte)) => {
                if byte == b'\n' {
                    return Ok(Bytes::new(line));
                }
                if line.push(byte).is_err() {
                    return Err(LineRefused::OutOfMemory);
                }
            }
            Err(Failed) => return Err(LineRefused::Failed),
        }
    }
    Err(LineRefused::TooLong)
}

/// The password of a check, if one is asked for: the first line of the input, without its line feed. Otherwise the
/// input isn't touched.
///
/// Refused as `first_line` is, and only if a password is asked for.
pub fn password_of<I: Source>(
    alloc: Global,
    is_asked: bool,
    input: &mut I,
) -> Result<Option<Bytes>, LineRefused>
    requires is_open { IsFalse (I.is_closed input.old) }
    ensures password { IfOk result (TakesPassword I.left is_asked input.old input.new) }
    ensures too_long { IsErrOf result LineRefused.TooLong
        → IsTrue is_asked × TakesTooMuch (I.left input.old) (I.left input.new) }
    ensures cause { IsErrOf result LineRefused.Failed
        → IsTrue is_asked × Rose (I.faults input.old) (I.faults input.new) }
    ensures unasked { IsFalse is_asked → input.new ≡ input.old }
    ensures later { I.faults input.old ≤ I.faults input.new }
    ensures steady { KeepsSteady (I.is_steady input.old) (I.is_steady input.new)
        (I.faults input.old) (I.faults input.new) }
    ensures is_open { IsFalse (I.is_closed input.new) }
{
    if is_asked {
        match first_line(alloc, input) {
            Ok(line) => Ok(Some(line)),
            Err(refused) => Err(refused),
        }
    } else {
        Ok(None)
    }
}

use crate::head::Head;
use crate::violation::Violation;

/// What is known of the bytes that no message has consumed.
#[derive(Clone, Copy)]
pub enum Progress {
    /// Nothing: there are fewer than 16 bytes, or they weren't looked at.
    Nothing,
    /// A message begins there, and isn't complete yet.
    Begun(Head),
    /// They break a rule.
    Broken(Violation),
}

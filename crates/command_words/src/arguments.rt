// All arguments of a command.
ghost use Rattle.std.specs.Prelude.{◌<◌, ◌+◌, length, MatchOption};
ghost use Rattle.command_words.specs.Arguments.{operand, option, flag, two_words};
ghost use Rattle.command_words.specs.Found.{listed, HasMore, HasAll, IsFull, Finds, FindsNone};

use crate::beginning::{Beginning, FlagName, OptionName, beginning_of};
use kr_base::Text;

/// The operands that were found so far, in order. A command has two at most.
#[derive(Clone, Copy)]
pub enum Operands<'a> {
    /// No operand.
    Nothing,
    /// One operand.
    One(&'a Text),
    /// Two operands.
    Two(&'a Text, &'a Text),
}

/// What was found among the arguments so far.
#[derive(Clone, Copy)]
pub struct Found<'a> {
    /// The operands.
    pub operands: Operands<'a>,
    /// The value of `--uid`.
    pub uid: Option<&'a str>,
    /// The value of `--connections`.
    pub connections: Option<&'a str>,
    /// The flag. A command has one at most.
    pub flag: Option<FlagName>,
}

/// The same with one more operand. None if there are two.
fn with_operand<'a>(found: Found<'a>, word: &'a Text) -> Option<Found<'a>>
    ensures { MatchOption result (IsFull found.entry (operand word.now))
        (λ more. HasMore found.entry (operand word.now) more) }
{
    let operands = match found.operands {
        Operands::Nothing => Operands::One(word),
        Operands::One(first) => Operands::Two(first, word),
        Operands::Two(_, _) => return None,
    };
    Some(Found { operands, ..found })
}

/// The same with the value of one more option. None if there is a value of that option.
fn with_option<'a>(found: Found<'a>, name: OptionName, value: &'a str) -> Option<Found<'a>>
    ensures { MatchOption result (IsFull found.entry (option two_words name value.now))
        (λ more. HasMore found.entry (option two_words name value.now) more) }
{
    match name {
        OptionName::Uid if found.uid.is_none() => Some(Found {
            uid: Some(value),
            ..found
        }),
        OptionName::Connections if found.connections.is_none() => Some(Found {
            connections: Some(value),
            ..found
        }),
        _ => None,
    }
}

/// The same with one more flag. None if there is one.
fn with_flag<'a>(found: Found<'a>, name: FlagName) -> Option<Found<'a>>
    ensures { MatchOption result (IsFull found.entry (flag name))
        (λ more. HasMore found.entry (flag name) more) }
{
    if found.flag.is_some() {
        return None;
    }
    Some(Found {
        flag: Some(name),
        ..found
    })
}

/// The same with all words as operands. None if there are more than two operands then.
fn with_operands<'a>(found: Found<'a>, words: &'a [Text]) -> Option<Found<'a>>
    ensures { MatchOption result (2 < length (listed found.entry.operands) + length words.now)
        (λ all. HasAll found.entry words.now all) }
{
    let mut all = found;
    for word in words {
        let Some(more) = with_operand(all, word) else {
            return None;
        };
        all = more;
    }
    Some(all)
}

/// The arguments that the words after a command's name are.
///
/// None if they are no arguments, or if there are more than two operands, an option twice or more
/// than one flag.
pub fn arguments_of(words: &[Text]) -> Option<Found<'_>>
    ensures { MatchOption result (FindsNone words.now) (λ found. Finds found words.now) }
{
    let mut found = Found {
        operands: Operands::Nothing,
        uid: None,
        connections: None,
        flag: None,
    };
    let mut rest = words;
    loop {
        match beginning_of(rest) {
            Beginning::Nothing => return Some(found),
            Beginning::Operand(word, more) => {
                let Some(longer) = with_operand(found, word) else {
                    return None;
                };
                found = longer;
                rest = more;
            }
            Beginning::Option(name, value, more) => {
                let Some(longer) = with_option(found, name, value) else {
                    return None;
                };
                found = longer;
                rest = more;
            }
            Beginning::Flag(name, more) => {
                let Some(longer) = with_flag(found, name) else {
                    return None;
                };
                found = longer;
                rest = more;
            }
            Beginning::End(more) => return with_operands(found, more),
            Beginning::Fault => return None,
        }
    }
}

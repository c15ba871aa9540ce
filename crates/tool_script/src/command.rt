// Commands, and the words that they are.
ghost use Rattle.std.specs.Prelude.{◌≡◌, [], ◌∷◌, MatchOption, IfOk, IfSome, None, Some};
ghost use Rattle.client_core.specs.Askable.{AreTexts};
ghost use Rattle.tool_script.specs.Words.{verb_of, pairs_of, attributes_of, store_of, lock_of, command_with, command_of, HasTexts};

use crate::OutOfMemory;
use kr_base::{Attributes, Bytes, Text};
use std::alloc::Global;

/// A command of the tool.
#[derive(Drop)]
pub enum Command {
    /// `store LABEL (A V)+`: stores a secret in the default collection.
    Store {
        /// The label of the item.
        label: Text,
        /// The attributes of the item.
        attributes: Attributes,
        /// The value of the secret.
        secret: Bytes,
    },
    /// `lookup (A V)+`: prints the secret of the first match.
    Lookup {
        /// The attributes to search for.
        wanted: Attributes,
    },
    /// `search (A V)+`: prints the paths of the matches.
    Search {
        /// The attributes to search for.
        wanted: Attributes,
    },
    /// `clear (A V)+`: deletes the unlocked matches.
    Clear {
        /// The attributes to search for.
        wanted: Attributes,
    },
    /// `lock`: locks all collections.
    Lock,
}

/// The first word of a command.
#[derive(Clone, Copy, Debug, PartialEq, Eq)]
pub enum Verb {
    /// `store`.
    Store,
    /// `lookup`.
    Lookup,
    /// `search`.
    Search,
    /// `clear`.
    Clear,
    /// `lock`.
    Lock,
}

// The first word of a command. None if it is another word.
fn verb_of(word: &Text) -> Option<Verb>
    ensures { result ≡ verb_of word.now }
{
    let word = word.as_str();
    if word == "store" {
        Some(Verb::Store)
    } else if word == "lookup" {
        Some(Verb::Lookup)
    } else if word == "search" {
        Some(Verb::Search)
    } else if word == "clear" {
        Some(Verb::Clear)
    } else if word == "lock" {
        Some(Verb::Lock)
    } else {
        None
    }
}

// The first word, and the words after it.
fn first_word(words: &[Text]) -> Option<(&Text, &[Text])>
    ensures { MatchOption result (words.now ≡ []) (λ two. words.now ≡ two.0.now ∷ two.1.now) }
{
    match words {
        [] => None,
        [first, rest @ ..] => Some((first, rest)),
    }
}

// The words as pairs of a name and a value. None if their number is odd.
fn pairs_of(alloc: Global, words: &[Text]) -> Result<Option<Vec<(Text, Text)>>, OutOfMemory>
    ensures { IfOk result (λ answer. MatchOption answer (pairs_of words.now ≡ None)
        (λ pairs. pairs_of words.now ≡ Some pairs.items)) }
{
    let mut pairs = Vec::with_capacity(alloc, words.len() / 2)?;
    let mut rest = words;
    while let Some((name, more)) = first_word(rest) {
        let Some((value, later)) = first_word(more) else {
            return Ok(None);
        };
        pairs.push((name.copy()?, value.copy()?))?;
        rest = later;
    }
    Ok(Some(pairs))
}

// The attributes that the words are. None if the words aren't one pair or more.
fn attributes_of(alloc: Global, words: &[Text]) -> Result<Option<Attributes>, OutOfMemory>
    ensures are { IfOk result (λ answer. answer ≡ attributes_of words.now) }
    ensures texts { IfOk result (λ answer. IfSome answer AreTexts) }
{
    if words.is_empty() {
        return Ok(None);
    }
    match pairs_of(alloc, words)? {
        Some(pairs) => Ok(Some(Attributes::from_pairs(alloc, pairs)?)),
        None => Ok(None),
    }
}

// The command that `store` and the words after it are.
fn store_of(alloc: Global, words: &[Text], secret: Bytes) -> Result<Option<Command>, OutOfMemory>
    ensures is { IfOk result (λ answer. answer ≡ store_of words.now secret) }
    ensures texts { IfOk result (λ answer. IfSome answer HasTexts) }
{
    match words {
        [] => Ok(None),
        [label, more @ ..] => match attributes_of(alloc, more)? {
            Some(attributes) => Ok(Some(Command::Store {
                label: label.copy()?,
                attributes,
                secret,
            })),
            None => Ok(None),
        },
    }
}

// The command that its first word and the words after it are.
fn command_with(
    alloc: Global,
    verb: Verb,
    words: &[Text],
    secret: Bytes,
) -> Result<Option<Command>, OutOfMemory>
    ensures is { IfOk result (λ answer. answer ≡ command_with verb words.now secret) }
    ensures texts { IfOk result (λ answer. IfSome answer HasTexts) }
{
    match verb {
        Verb::Store => store_of(alloc, words, secret),
        Verb::Lookup => match attributes_of(alloc, words)? {
            Some(wanted) => Ok(Some(Command::Lookup { wanted })),
            None => Ok(None),
        },
        Verb::Search => match attributes_of(alloc, words)? {
            Some(wanted) => Ok(Some(Command::Search { wanted })),
            None => Ok(None),
        },
        Verb::Clear => match attributes_of(alloc, words)? {
            Some(wanted) => Ok(Some(Command::Clear { wanted })),
            None => Ok(None),
        },
        Verb::Lock => {
            if words.is_empty() {
                Ok(Some(Command::Lock))
            } else {
                Ok(None)
            }
        }
    }
}

/// The command that the words are, with the secret that `store` stores; the other commands have no use for it.
///
/// None exactly if the words aren't a command.
pub fn command_of(
    alloc: Global,
    words: &[Text],
    secret: Bytes,
) -> Result<Option<Command>, OutOfMemory>
    ensures is { IfOk result (λ answer. answer ≡ command_of words.now secret) }
    ensures texts { IfOk result (λ answer. IfSome answer HasTexts) }
{
    match words {
        [] => Ok(None),
        [word, more @ ..] => match verb_of(word) {
            Some(verb) => command_with(alloc, verb, more, secret),
            None => Ok(None),
        },
    }
}

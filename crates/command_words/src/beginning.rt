// The first argument among words, and the words after it.
ghost use Rattle.std.specs.Prelude.{◌≡◌, ◌∷◌, ◌++◌, ℕ, List, MatchOption};
ghost use Rattle.command_words.specs.Arguments.{is_plain, option_word, flag_word, flag};
ghost use Rattle.command_words.specs.Beginning.{Begins, IsFirst, IsOption, IsOther};

use kr_base::Text;

/// An option, by its name.
#[derive(Clone, Copy)]
pub enum OptionName {
    /// `--uid`.
    Uid,
    /// `--connections`.
    Connections,
}

/// A flag, an option without a value, by its name.
#[derive(Clone, Copy, PartialEq, Eq)]
pub enum FlagName {
    /// `--until-eof`.
    UntilEof,
    /// `--password`.
    Password,
}

/// What words begin with.
#[derive(Clone, Copy)]
pub enum Beginning<'a> {
    /// Nothing: there are no words.
    Nothing,
    /// An operand, and the words after it.
    Operand(&'a Text, &'a [Text]),
    /// An option with its value, and the words after them.
    Option(OptionName, &'a str, &'a [Text]),
    /// A flag, and the words after it.
    Flag(FlagName, &'a [Text]),
    /// `--`, and the words after it, which are all operands.
    End(&'a [Text]),
    /// A word that can't be there: it begins with `-`, and isn't `-`, `--`, an option with a value or
    /// a flag.
    Fault,
}

/// Whether the word doesn't begin with `-`, or is `-` alone.
fn is_plain(word: &[u8]) -> bool
    ensures { result ≡ is_plain word.now }
{
    !matches!(word, [b'-', _, ..])
}

/// The word that names the option.
fn word_of(name: OptionName) -> &'static str
    ensures { result.now ≡ option_word name }
{
    match name {
        OptionName::Uid => "--uid",
        OptionName::Connections => "--connections",
    }
}

/// What follows a prefix of the word.
fn after<'a>(word: &'a str, front: &str) -> Option<&'a str>
    ensures { MatchOption result ((rest : List ℕ) → word.now ≡ front.now ++ rest → ⊥)
        (λ rest. word.now ≡ front.now ++ rest.now) }
{
    word.strip_prefix(front)
}

/// The value of the option, if the words begin with that option, and the words after it.
fn option_at<'a>(
    name: OptionName,
    word: &'a Text,
    more: &'a [Text],
) -> Option<(&'a str, &'a [Text])>
    ensures { MatchOption result (IsOther name (word.now ∷ more.now))
        (λ found. IsOption name found.0.now found.1.now (word.now ∷ more.now)) }
{
    let Some(rest) = after(word.as_str(), word_of(name)) else {
        return None;
    };
    if rest.is_empty() {
        return match more.split_first() {
            Some((value, others)) => Some((value.as_str(), others)),
            None => None,
        };
    }
    match after(rest, "=") {
        Some(value) => Some((value, more)),
        None => None,
    }
}

/// The flag that the word is, if it is one.
fn flag_at(word: &str) -> Option<FlagName>
    ensures { MatchOption result ((name : FlagName) → word.now ≡ flag_word name → ⊥)
        (λ name. word.now ≡ flag_word name) }
{
    if word == "--until-eof" {
        return Some(FlagName::UntilEof);
    }
    if word == "--password" {
        return Some(FlagName::Password);
    }
    None
}

/// What the words begin with.
pub fn beginning_of(words: &[Text]) -> Beginning<'_>
    ensures { Begins result words.now }
{
    let Some((word, more)) = words.split_first() else {
        return Beginning::Nothing;
    };
    if is_plain(word.as_bytes()) {
        return Beginning::Operand(word, more);
    }
    if word.as_str() == "--" {
        return Beginning::End(more);
    }
    if let Some((value, rest)) = option_at(OptionName::Uid, word, more) {
        return Beginning::Option(OptionName::Uid, value, rest);
    }
    if let Some((value, rest)) = option_at(OptionName::Connections, word, more) {
        return Beginning::Option(OptionName::Connections, value, rest);
    }
    match flag_at(word.as_str()) {
        Some(name) => Beginning::Flag(name, more),
        None => Beginning::Fault,
    }
}

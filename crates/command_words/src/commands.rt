// The table of commands.
ghost use Rattle.std.specs.Prelude.{◌≡◌, ◌∷◌, ◌↔◌, ℕ, [], length, IsTrue, Option, MatchOption, IfOk, OnErr, codes};
ghost use Rattle.command_words.specs.CommandLines.{Answers, HasCommand, HasFlag, IsNoFlag, IsCount, IsNoCount, IsCommandLine, HasCommandLine, IsNoCommandLine};
ghost use Rattle.command_words.specs.Found.{listed, value_of, flag_of};

use crate::arguments::{Found, Operands, arguments_of};
use crate::beginning::FlagName;
use crate::command_line::CommandLine;
use crate::numbers::{long_number, short_number};
use kr_base::{OutOfMemory, Text};

/// The most items of `load`.
const MOST_ITEMS: u32 = 1_000;

/// The command line `stdio` of these operands. None if the second isn't a user's number.
fn stdio_line(folder: &Text, user: &str) -> Result<Option<CommandLine>, OutOfMemory>
    ensures answer { IfOk result (λ answer. Answers answer (codes "stdio")
        (folder.now ∷ user.now ∷ []) [] [] []) }
    ensures memory { OnErr result (HasCommand (codes "stdio")
        (folder.now ∷ user.now ∷ []) [] [] []) }
{
    let Some(uid) = short_number(user) else {
        return Ok(None);
    };
    let folder = folder.copy()?;
    Ok(Some(CommandLine::Stdio { folder, uid }))
}

/// The value of `--connections`, which is None if the option is left out. None if there is a
/// value, and it isn't a number that is at least 1.
fn count_of(connections: Option<&str>) -> Option<Option<u64>>
    ensures { MatchOption result (IsNoCount (value_of connections.entry))
        (λ count. IsCount count (value_of connections.entry)) }
{
    let Some(text) = connections else {
        return Some(None);
    };
    let Some(number) = long_number(text) else {
        return None;
    };
    if number == 0 {
        return None;
    }
    Some(Some(number))
}

/// Whether this flag is given. None if another one is.
fn has_flag(name: FlagName, flag: Option<FlagName>) -> Option<bool>
    ensures { MatchOption result (IsNoFlag name (flag_of flag))
        (λ given. HasFlag name given (flag_of flag)) }
{
    let Some(found) = flag else {
        return Some(false);
    };
    if found == name { Some(true) } else { None }
}

/// The command line `serve` of these operands, of the values of these options and of this flag. None
/// if the user's number is missing, if a value isn't a number as its option wants it, or if the flag
/// is another command's.
fn serve_line(
    folder: &Text,
    socket: &Text,
    user: Option<&str>,
    connections: Option<&str>,
    flag: Option<FlagName>,
) -> Result<Option<CommandLine>, OutOfMemory>
    ensures answer { IfOk result (λ answer. Answers answer (codes "serve") (folder.now ∷ socket.now ∷ [])
        (value_of user.entry) (value_of connections.entry) (flag_of flag)) }
    ensures memory { OnErr result (HasCommand (codes "serve") (folder.now ∷ socket.now ∷ [])
        (value_of user.entry) (value_of connections.entry) (flag_of flag)) }
{
    let Some(user) = user else {
        return Ok(None);
    };
    let Some(uid) = short_number(user) else {
        return Ok(None);
    };
    let Some(connections) = count_of(connections) else {
        return Ok(None);
    };
    let Some(until_eof) = has_flag(FlagName::UntilEof, flag) else {
        return Ok(None);
    };
    let folder = folder.copy()?;
    let socket = socket.copy()?;
    if until_eof {
        return Ok(Some(CommandLine::ServeUntilEof {
            folder,
            socket,
            uid,
            connections,
        }));
    }
    Ok(Some(CommandLine::Serve {
        folder,
        socket,
        uid,
        connections,
    }))
}

/// The command line `load` of these operands. None if one of them isn't a number as it should be.
fn load_line(amount: &str, start: &str) -> Option<CommandLine>
    ensures { Answers result (codes "load") (amount.now ∷ start.now ∷ []) [] [] [] }
{
    let Some(items) = short_number(amount) else {
        return None;
    };
    if items == 0 || items > MOST_ITEMS {
        return None;
    }
    let Some(seed) = long_number(start) else {
        return None;
    };
    Some(CommandLine::Load { items, seed })
}

/// The two operands, if there are two.
fn both(operands: Operands<'_>) -> Option<(&Text, &Text)>
    ensures { MatchOption result (length (listed operands.entry) ≡ 2 → ⊥)
        (λ two. listed operands.entry ≡ two.0.now ∷ two.1.now ∷ []) }
{
    match operands {
        Operands::Two(first, second) => Some((first, second)),
        _ => None,
    }
}

/// Whether there is no option with a value.
fn has_no_value(found: Found<'_>) -> bool
    ensures { IsTrue result ↔ (value_of found.entry.uid ≡ [])
        × (value_of found.entry.connections ≡ []) }
{
    found.uid.is_none() && found.connections.is_none()
}

/// Whether there is neither an option nor a flag.
fn is_bare(found: Found<'_>) -> bool
    ensures { IsTrue result ↔ (value_of found.entry.uid ≡ [])
        × (value_of found.entry.connections ≡ []) × (flag_of found.entry.flag ≡ []) }
{
    has_no_value(found) && found.flag.is_none()
}

/// The one operand, if there is one alone.
fn single(operands: Operands<'_>) -> Option<&Text>
    ensures { MatchOption result (length (listed operands.entry) ≡ 1 → ⊥)
        (λ one. listed operands.entry ≡ one.now ∷ []) }
{
    match operands {
        Operands::One(first) => Some(first),
        _ => None,
    }
}

/// The command line `check` of these arguments. None if there isn't one operand, if there is an
/// option, or if the flag is another command's.
fn check_line(found: Found<'_>) -> Result<Option<CommandLine>, OutOfMemory>
    ensures answer { IfOk result (λ answer. Answers answer (codes "check")
        (listed found.entry.operands) (value_of found.entry.uid)
        (value_of found.entry.connections) (flag_of found.entry.flag)) }
    ensures memory { OnErr result (HasCommand (codes "check")
        (listed found.entry.operands) (value_of found.entry.uid)
        (value_of found.entry.connections) (flag_of found.entry.flag)) }
{
    let Some(folder) = single(found.operands) else {
        return Ok(None);
    };
    if !has_no_value(found) {
        return Ok(None);
    }
    let Some(password) = has_flag(FlagName::Password, found.flag) else {
        return Ok(None);
    };
    let folder = folder.copy()?;
    Ok(Some(CommandLine::Check { folder, password }))
}

/// The command line of this name and these arguments. None if they are no row of the table.
fn command_of(name: &str, found: Found<'_>) -> Result<Option<CommandLine>, OutOfMemory>
    ensures answer { IfOk result (λ answer. Answers answer name.now (listed found.entry.operands)
        (value_of found.entry.uid) (value_of found.entry.connections) (flag_of found.entry.flag)) }
    ensures memory { OnErr result (HasCommand name.now (listed found.entry.operands)
        (value_of found.entry.uid) (value_of found.entry.connections) (flag_of found.entry.flag)) }
{
    if name == "check" {
        return check_line(found);
    }
    let Some((first, second)) = both(found.operands) else {
        return Ok(None);
    };
    if name == "serve" {
        return serve_line(first, second, found.uid, found.connections, found.flag);
    }
    if !is_bare(found) {
        return Ok(None);
    }
    if name == "stdio" {
        return stdio_line(first, second.as_str());
    }
    if name == "load" {
        return Ok(load_line(first.as_str(), second.as_str()));
    }
    Ok(None)
}

/// The command line that the words are; they follow the program's name.
///
/// None exactly if they aren't a command line (docs/SERVICE.md, "Command line"). Memory is needed for
/// copies of DIR and SOCKET alone, so `OutOfMemory` comes only if they are one.
pub fn read_words(words: &[Text]) -> Result<Option<CommandLine>, OutOfMemory>
    ensures read { IfOk result (λ answer. MatchOption answer (IsNoCommandLine words.now)
        (λ line. IsCommandLine line words.now)) }
    ensures memory { OnErr result (HasCommandLine words.now) }
{
    let Some((name, rest)) = words.split_first() else {
        return Ok(None);
    };
    let Some(found) = arguments_of(rest) else {
        return Ok(None);
    };
    command_of(name.as_str(), found)
}

// Laws of the definitions of command lines. Each law is the contract of a function that does nothing.
ghost use Rattle.std.specs.Prelude.{◌≡◌, ℕ, List};
ghost use Rattle.command_words.specs.CommandLines.{IsCommandLine};

use crate::CommandLine;

/// Words are one command line at most.
pub fn words_are_one_command_line()
    ensures { (one other : CommandLine) (words : List (List ℕ))
        → IsCommandLine one words → IsCommandLine other words → one ≡ other }
{}

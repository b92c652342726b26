//! The words of the command line.

ghost use Rattle.std.specs.Prelude.{◌≡◌, map, string_bytes};
ghost use Rattle.lis_commands.specs.Words.{alone, command_of, named};

use crate::commands::Command;

/// The command that the program's words name, the first being its own; none where they name none.
pub fn command(words: &[String]) -> Option<Command>
    ensures { result ≡ command_of (map string_bytes words.now) }
{
    match words {
        [_, word] => plain(word.as_str(), false),
        [_, word, flag] if flag.as_str() == "--long" => plain(word.as_str(), true),
        _ => None,
    }
}

/// The command of one word that takes no `--long`.
fn alone(word: &str) -> Option<Command>
    ensures { result ≡ alone word.now }
{
    if word == "check" {
        return Some(Command::Check);
    }
    if word == "results" {
        return Some(Command::Results);
    }
    if word == "upgrade" {
        return Some(Command::Upgrade);
    }
    None
}

/// The command of one word, with `--long` after it or without.
fn plain(word: &str, long: bool) -> Option<Command>
    ensures { result ≡ named word.now long }
{
    if word == "show" {
        return Some(Command::Show { long });
    }
    if word == "replay" {
        return Some(Command::Replay { long });
    }
    if word == "texts" {
        return Some(Command::Texts { long });
    }
    if long { None } else { alone(word) }
}

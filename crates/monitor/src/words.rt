//! Lines, as they are typed: words with one space between.

ghost use Rattle.std.specs.Prelude.{◌≡◌, ◌∷◌};
ghost use Rattle.monitor.specs.Parse.{command_of, command_from, with_none, with_one, with_two};
ghost use Rattle.monitor.specs.Lines.{rest_words, words};

use crate::commands::{Command, MonError};
use crate::numbers::{address, aligned, count, number, register};

/// The first word of a line, and the line after it where there is more.
fn split(line: &str) -> (&str, Option<&str>)
    ensures { words line.now ≡ result.0.now ∷ rest_words result.1 }
{
    match line.split_once(' ') {
        Some((word, rest)) => (word, Some(rest)),
        None => (line, None),
    }
}

/// What a line asks for.
///
/// # Errors
/// `Unknown` where the first word is no command's, or another number of words than the command
/// takes follows it; else `BadNumber` where a word is no number, or none that the command takes.
pub fn parse(line: &str) -> Result<Command, MonError>
    ensures { result ≡ command_of line.now }
{
    let (name, rest) = split(line);
    let Some(rest) = rest else {
        return alone(name);
    };
    let (first, rest) = split(rest);
    let Some(rest) = rest else {
        return with_word(name, first);
    };
    match split(rest) {
        (second, None) => with_words(name, first, second),
        (_, Some(rest)) => {
            let _fourth = split(rest);
            Err(MonError::Unknown)
        }
    }
}

/// A command of one word.
fn alone(name: &str) -> Result<Command, MonError>
    ensures { result ≡ with_none name.now }
{
    match name {
        "c" => Ok(Command::Continue),
        "x" => Ok(Command::Registers),
        "csr" => Ok(Command::Csrs),
        "q" => Ok(Command::Quit),
        _ => Err(MonError::Unknown),
    }
}

/// A command and a number.
fn with_word(name: &str, word: &str) -> Result<Command, MonError>
    ensures { result ≡ with_one name.now word.now }
{
    match name {
        "b" => Ok(Command::Break(aligned(word).ok_or(MonError::BadNumber)?)),
        "d" => Ok(Command::Delete(address(word).ok_or(MonError::BadNumber)?)),
        "s" => Ok(Command::Step(number(word).ok_or(MonError::BadNumber)?)),
        "v" => Ok(Command::Vector(register(word).ok_or(MonError::BadNumber)?)),
        _ => Err(MonError::Unknown),
    }
}

/// A command, an address and a count.
fn with_words(name: &str, first: &str, second: &str) -> Result<Command, MonError>
    ensures { result ≡ with_two name.now first.now second.now }
{
    match name {
        "m" => {
            let address = address(first).ok_or(MonError::BadNumber)?;
            let count = count(second).ok_or(MonError::BadNumber)?;
            Ok(Command::Memory { address, count })
        }
        "l" => {
            let address = address(first).ok_or(MonError::BadNumber)?;
            let count = count(second).ok_or(MonError::BadNumber)?;
            Ok(Command::List { address, count })
        }
        _ => Err(MonError::Unknown),
    }
}

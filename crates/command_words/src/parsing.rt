ghost use Rattle.std.specs.Prelude.{◌≡◌, map, IfOk, IfErr};
ghost use Rattle.std.specs.List.{list_all};
ghost use Rattle.std.specs.String.{string_bytes};
ghost use Rattle.clap.specs.Words.{app_of};
ghost use Rattle.command_words.specs.Parsing as spec;
ghost use Rattle.command_words.specs.Positionals.{are_plain, is_plain};
ghost use Rattle.command_words.specs.Positionals as words_spec;

use clap::error::ErrorKind;
use clap::{Arg, ArgMatches, Command, Error};
use std::alloc::{AllocError, Global};

/// What clap finds in the words of a command that has positionals of these ids. `None` if clap refuses the words or a word after
/// the name begins with a hyphen; clap itself would take `-` as a word, skip `--`, and answer `--help`. The only error is out of
/// memory.
pub fn parse<'a>(
    alloc: Global,
    words: &'a [String],
    ids: &[&'a str],
) -> Result<Option<ArgMatches<'a>>, Error>
    ensures found { IfOk result (spec.Finds (spec.command_with (spec.name_in (map string_bytes words.entry.now)) (map (λ id. id.now) ids.now))
        (map string_bytes words.entry.now)) }
    ensures memory { IfErr result spec.IsWantOfMemory }
{
    let Some(name) = words.first() else {
        return Ok(None);
    };
    if !are_plain(words) {
        return Ok(None);
    }
    let command = command_with(alloc, name.as_str(), ids)?;
    match command.try_get_matches_from(words) {
        Ok(matches) => Ok(Some(matches)),
        Err(error) => match error.kind() {
            ErrorKind::OutOfMemory => Err(error),
            _ => Ok(None),
        },
    }
}

/// The command with a name, and with required positionals of these ids.
fn command_with<'a>(
    alloc: Global,
    name: &'a str,
    ids: &[&'a str],
) -> Result<Command<'a>, AllocError>
    ensures value { IfOk result (λ command. app_of command ≡ spec.command_with name.entry.now (map (λ id. id.now) ids.now)) }
{
    let mut command = Command::new(alloc, name);
    for id in ids {
        command = command.arg(Arg::new(alloc, id).required(true))?;
    }
    Ok(command)
}

/// Whether there is a name, and no word after it begins with a hyphen.
fn are_plain(words: &[String]) -> bool
    ensures value { result ≡ are_plain (map string_bytes words.now) }
{
    match words {
        [] => false,
        [_, further @ ..] => have_no_option(further),
    }
}

/// Whether no word begins with a hyphen.
fn have_no_option(words: &[String]) -> bool
    ensures value { result ≡ list_all (λ word. is_plain (string_bytes word)) words.now }
{
    words.iter().all(|word| !is_option(word))
}

/// Whether a word begins with a hyphen.
fn is_option(word: &str) -> bool
    ensures value { result ≡ words_spec.is_option word.now }
{
    match word.as_bytes().first() {
        Some(byte) => *byte == b'-',
        None => false,
    }
}

ghost use Rattle.std.specs.Prelude.{◌≡◌, [], ◌∷◌, map, option_map, is_some, IfOk, IfErr};
ghost use Rattle.std.specs.String.{string_bytes};
ghost use Rattle.clap.specs.Words.{found_of};
ghost use Rattle.command_words.specs.Parsing.{IsWantOfMemory, values_in, ids_of_one, ids_of_two, ids_of_three, ids_of_four};
ghost use Rattle.command_words.specs.Positionals as spec;

use crate::parsing::parse;
use clap::{ArgMatches, Error};
use std::alloc::Global;

/// Whether no word follows the name of a command. The only error is out of memory.
pub fn no_positionals(alloc: Global, words: &[String]) -> Result<bool, Error>
    ensures value { IfOk result (λ found. found ≡ is_some (spec.positionals_of 0 (map string_bytes words.now))) }
    ensures memory { IfErr result IsWantOfMemory }
{
    Ok(parse(alloc, words, &[])?.is_some())
}

/// The word after the name of a command, if there is exactly one and it does not begin with a hyphen. The only error is out of
/// memory.
pub fn one_positional<'a>(alloc: Global, words: &'a [String]) -> Result<Option<&'a str>, Error>
    ensures value { IfOk result (λ found. option_map (λ p. p.now ∷ []) found ≡ spec.positionals_of 1 (map string_bytes words.entry.now)) }
    ensures memory { IfErr result IsWantOfMemory }
{
    match parse(alloc, words, &["first"])? {
        Some(matches) => Ok(one_in(&matches)),
        None => Ok(None),
    }
}

/// The two words after the name of a command, if there are exactly two and none begins with a hyphen. The only error is out of
/// memory.
pub fn two_positionals<'a>(
    alloc: Global,
    words: &'a [String],
) -> Result<Option<(&'a str, &'a str)>, Error>
    ensures value { IfOk result (λ found. option_map (λ p. p.0.now ∷ p.1.now ∷ []) found
        ≡ spec.positionals_of 2 (map string_bytes words.entry.now)) }
    ensures memory { IfErr result IsWantOfMemory }
{
    match parse(alloc, words, &["first", "second"])? {
        Some(matches) => Ok(two_in(&matches)),
        None => Ok(None),
    }
}

/// The three words after the name of a command, if there are exactly three and none begins with a hyphen. The only error is out
/// of memory.
pub fn three_positionals<'a>(
    alloc: Global,
    words: &'a [String],
) -> Result<Option<(&'a str, &'a str, &'a str)>, Error>
    ensures value { IfOk result (λ found. option_map (λ p. p.0.now ∷ p.1.now ∷ p.2.now ∷ []) found
        ≡ spec.positionals_of 3 (map string_bytes words.entry.now)) }
    ensures memory { IfErr result IsWantOfMemory }
{
    match parse(alloc, words, &["first", "second", "third"])? {
        Some(matches) => Ok(three_in(&matches)),
        None => Ok(None),
    }
}

/// The four words after the name of a command, if there are exactly four and none begins with a hyphen. The only error is out of
/// memory.
pub fn four_positionals<'a>(
    alloc: Global,
    words: &'a [String],
) -> Result<Option<(&'a str, &'a str, &'a str, &'a str)>, Error>
    ensures value { IfOk result (λ found. option_map (λ p. p.0.now ∷ p.1.now ∷ p.2.now ∷ p.3.now ∷ []) found
        ≡ spec.positionals_of 4 (map string_bytes words.entry.now)) }
    ensures memory { IfErr result IsWantOfMemory }
{
    match parse(alloc, words, &["first", "second", "third", "fourth"])? {
        Some(matches) => Ok(four_in(&matches)),
        None => Ok(None),
    }
}

fn one_in<'a>(matches: &ArgMatches<'a>) -> Option<&'a str>
    ensures value { option_map (λ p. p.now ∷ []) result ≡ values_in (found_of matches.now) ids_of_one }
{
    matches.get_str("first")
}

fn two_in<'a>(matches: &ArgMatches<'a>) -> Option<(&'a str, &'a str)>
    ensures value { option_map (λ p. p.0.now ∷ p.1.now ∷ []) result ≡ values_in (found_of matches.now) ids_of_two }
{
    Some((matches.get_str("first")?, matches.get_str("second")?))
}

fn three_in<'a>(matches: &ArgMatches<'a>) -> Option<(&'a str, &'a str, &'a str)>
    ensures value { option_map (λ p. p.0.now ∷ p.1.now ∷ p.2.now ∷ []) result ≡ values_in (found_of matches.now) ids_of_three }
{
    Some((
        matches.get_str("first")?,
        matches.get_str("second")?,
        matches.get_str("third")?,
    ))
}

fn four_in<'a>(matches: &ArgMatches<'a>) -> Option<(&'a str, &'a str, &'a str, &'a str)>
    ensures value { option_map (λ p. p.0.now ∷ p.1.now ∷ p.2.now ∷ p.3.now ∷ []) result ≡ values_in (found_of matches.now) ids_of_four }
{
    Some((
        matches.get_str("first")?,
        matches.get_str("second")?,
        matches.get_str("third")?,
        matches.get_str("fourth")?,
    ))
}

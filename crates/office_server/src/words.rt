ghost use Rattle.std.specs.Prelude.{◌≡◌, map, IfOk, IfErr, IfSome};
ghost use Rattle.std.specs.String.{string_bytes};
ghost use Rattle.command_words.specs.Parsing.{IsWantOfMemory};
ghost use Rattle.command_words.specs.Positionals.{positionals_of};
ghost use Rattle.office_server.specs.Words as spec;

use command_words::{Error, two_positionals};
use decimal_words::number_in;
use std::alloc::Global;

/// Greatest number of a port.
pub const LAST_PORT: u16 = 65_535;

/// Maximum number of workers.
pub const MOST_WORKERS: u16 = 64;

/// What the words `serve PORT WORKERS` ask for.
#[derive(Clone, Copy, Debug, PartialEq, Eq)]
pub struct Service {
    /// The port on which connections come, from 1.
    pub port: u16,
    /// How many connections are answered side by side, 1 to 64.
    pub workers: u16,
}

/// The service that the words ask for, if they are `serve PORT WORKERS`. clap reads those after the first.
pub fn service_in(alloc: Global, words: &[String]) -> Result<Option<Service>, Error>
    ensures value { IfOk result (λ service. service ≡ spec.service_in (map string_bytes words.now)) }
    ensures range { IfOk result (λ service. IfSome service spec.IsInRange) }
    ensures memory { IfErr result IsWantOfMemory }
{
    match words {
        [word, ..] => of_words(alloc, word.as_str(), words),
        _ => Ok(None),
    }
}

/// The same of a first word and all words.
fn of_words(alloc: Global, word: &str, words: &[String]) -> Result<Option<Service>, Error>
    ensures value { IfOk result (λ service. service ≡ spec.service_with word.now (positionals_of 2 (map string_bytes words.now))) }
    ensures range { IfOk result (λ service. IfSome service spec.IsInRange) }
    ensures memory { IfErr result IsWantOfMemory }
{
    match two_positionals(alloc, words) {
        Ok(Some((port, workers))) => Ok(serving(word, port, workers)),
        Ok(None) => Ok(None),
        Err(error) => Err(error),
    }
}

/// The service on PORT with WORKERS, if this is its word.
fn serving(word: &str, port: &str, workers: &str) -> Option<Service>
    ensures value { result ≡ spec.serving word.now port.now workers.now }
    ensures range { IfSome result spec.IsInRange }
{
    if word != "serve" {
        return None;
    }
    service_of(port, workers)
}

/// The service on PORT with WORKERS.
#[tactic(auto, unfolding(crate::specs::Words::service_of))]
fn service_of(port: &str, workers: &str) -> Option<Service>
    ensures value { result ≡ spec.service_of port.now workers.now }
    ensures range { IfSome result spec.IsInRange }
{
    let port = positive_in(LAST_PORT, port)?;
    let workers = positive_in(MOST_WORKERS, workers)?;
    Some(Service { port, workers })
}

/// A number from 1 up to this one.
#[tactic(auto, unfolding(crate::specs::Words::positive_in))]
fn positive_in(greatest: u16, text: &str) -> Option<u16>
    ensures value { result ≡ spec.positive_in greatest text.now }
    ensures range { IfSome result (spec.IsFromOne greatest) }
{
    match number_in(greatest, text)? {
        0 => None,
        number => Some(number),
    }
}

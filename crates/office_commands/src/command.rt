ghost use Rattle.std.specs.Prelude.{◌≡◌, ◌≤◌, map, IfSome, IfOk, IfErr};
ghost use Rattle.std.specs.String.{string_bytes};
ghost use Rattle.command_words.specs.Parsing.{IsWantOfMemory};
ghost use Rattle.command_words.specs.Positionals.{positionals_of};
ghost use Rattle.office_views.specs.Answers.{IsView};
ghost use Rattle.office_commands.specs.Command as spec;
ghost use Rattle.office_commands.specs.Run.{question_row, IsInRange};

use command_words::{
    Error, four_positionals, no_positionals, one_positional, three_positionals, two_positionals,
};
use decimal_words::{long_number_in, number_in};
use drill_history::{GREATEST_SEED, LARGEST_DRILL};
use fact_kinds::MOST_FACTS;
use ldar_days::Day;
use ldar_law::Request;
use register_import::LAST_NUMBER;
use std::alloc::Global;

/// What a file of the register lists.
#[derive(Clone, Copy, Debug, PartialEq, Eq)]
pub enum Sort {
    Units,
    Components,
}

/// A command.
#[derive(Drop)]
pub enum Command {
    /// Make an empty journal.
    Init,
    /// Print what differs between two revisions on file.
    Amended(RevisionPair),
    /// Make a journal, and run the drill of this seed and size in an office over it.
    Drill { seed: u16, size: u16 },
    /// Open the office over the journal, and take the answers of another office as its mirror.
    Mirror,
    /// Open the office over the journal, and do a task in it.
    Office(Task),
}

/// Two revisions of the report on a unit's half.
#[derive(Clone, Copy, Debug, PartialEq, Eq)]
pub struct RevisionPair {
    pub unit: u8,
    pub half: u16,
    pub from: u32,
    pub to: u32,
}

/// What is done in an opened office.
#[derive(Drop)]
pub enum Task {
    /// Keep batches.
    Dock,
    /// Answer HTTP requests.
    Drain,
    /// Keep a file of the register, as batches that are numbered from `number`.
    Import { number: u32, sort: Sort },
    /// Show the pumps with dual mechanical seals that a seal file names. The office stays as it was.
    Seals { unit: u16, day: Day },
    /// Answer a question. The office stays as it was.
    Ask(Question),
}

/// What is asked of an opened office.
#[derive(Drop)]
pub enum Question {
    /// Show a view.
    Show(Request),
    /// Put the report of a half year on file, as known on a day.
    File { unit: u16, half: u16, day: Day },
    /// Print how many batches and facts the journal has.
    Check,
    /// Offer the batches after the first `from` to a mirror.
    Offer { from: u32 },
}

/// The command that is a question.
fn asking(question: Question) -> Command
    requires { (question_row question).in_range }
    ensures value { result ≡ spec.asking question }
    ensures range { IsInRange result }
{
    Command::Office(Task::Ask(question))
}

/// The command that the words are, if they are one. clap reads those after the first.
pub fn command_of(alloc: Global, words: &[String]) -> Result<Option<Command>, Error>
    ensures value { IfOk result (λ command. command ≡ spec.command_in (map string_bytes words.now)) }
    ensures range { IfOk result (λ command. IfSome command IsInRange) }
    ensures memory { IfErr result IsWantOfMemory }
{
    match words {
        [word] => of_one_word(alloc, word.as_str(), words),
        [word, _] => of_two_words(alloc, word.as_str(), words),
        [word, _, _] => of_three_words(alloc, word.as_str(), words),
        [word, _, _, _] => of_four_words(alloc, word.as_str(), words),
        [word, _, _, _, _] => of_five_words(alloc, word.as_str(), words),
        _ => Ok(None),
    }
}

/// The command of one word.
fn of_one_word(alloc: Global, word: &str, words: &[String]) -> Result<Option<Command>, Error>
    ensures value { IfOk result (λ command. command ≡ spec.command_with word.now (positionals_of 0 (map string_bytes words.now))) }
    ensures range { IfOk result (λ command. IfSome command IsInRange) }
    ensures memory { IfErr result IsWantOfMemory }
{
    if no_positionals(alloc, words)? {
        return Ok(alone(word));
    }
    Ok(None)
}

/// The command of a word and one positional.
fn of_two_words(alloc: Global, word: &str, words: &[String]) -> Result<Option<Command>, Error>
    ensures value { IfOk result (λ command. command ≡ spec.command_with word.now (positionals_of 1 (map string_bytes words.now))) }
    ensures range { IfOk result (λ command. IfSome command IsInRange) }
    ensures memory { IfErr result IsWantOfMemory }
{
    match one_positional(alloc, words) {
        Ok(Some(from)) => Ok(offering(word, from)),
        Ok(None) => Ok(None),
        Err(error) => Err(error),
    }
}

/// The command of a word and two positionals.
fn of_three_words(alloc: Global, word: &str, words: &[String]) -> Result<Option<Command>, Error>
    ensures value { IfOk result (λ command. command ≡ spec.command_with word.now (positionals_of 2 (map string_bytes words.now))) }
    ensures range { IfOk result (λ command. IfSome command IsInRange) }
    ensures memory { IfErr result IsWantOfMemory }
{
    match two_positionals(alloc, words) {
        Ok(Some((first, second))) => Ok(of_two_further(word, first, second)),
        Ok(None) => Ok(None),
        Err(error) => Err(error),
    }
}

/// The command of a word and three positionals.
fn of_four_words(alloc: Global, word: &str, words: &[String]) -> Result<Option<Command>, Error>
    ensures value { IfOk result (λ command. command ≡ spec.command_with word.now (positionals_of 3 (map string_bytes words.now))) }
    ensures range { IfOk result (λ command. IfSome command IsInRange) }
    ensures memory { IfErr result IsWantOfMemory }
{
    match three_positionals(alloc, words) {
        Ok(Some((first, second, third))) => Ok(of_three_further(word, first, second, third)),
        Ok(None) => Ok(None),
        Err(error) => Err(error),
    }
}

/// The command of a word and four positionals.
fn of_five_words(alloc: Global, word: &str, words: &[String]) -> Result<Option<Command>, Error>
    ensures value { IfOk result (λ command. command ≡ spec.command_with word.now (positionals_of 4 (map string_bytes words.now))) }
    ensures range { IfOk result (λ command. IfSome command IsInRange) }
    ensures memory { IfErr result IsWantOfMemory }
{
    match four_positionals(alloc, words) {
        Ok(Some((first, second, third, fourth))) => {
            Ok(of_four_further(word, first, second, third, fourth))
        }
        Ok(None) => Ok(None),
        Err(error) => Err(error),
    }
}

/// The command of a single word.
fn alone(word: &str) -> Option<Command>
    ensures value { result ≡ spec.alone word.now }
    ensures range { IfSome result IsInRange }
{
    match word {
        "init" => Some(Command::Init),
        "dock" => Some(Command::Office(Task::Dock)),
        "drain" => Some(Command::Office(Task::Drain)),
        "check" => Some(asking(Question::Check)),
        "mirror" => Some(Command::Mirror),
        _ => None,
    }
}

/// The command that a word and two further words are.
fn of_two_further(word: &str, first: &str, second: &str) -> Option<Command>
    ensures value { result ≡ spec.of_two_further word.now first.now second.now }
    ensures range { IfSome result IsInRange }
{
    if word == "drill" {
        return drill_of(first, second);
    }
    if word == "seals" {
        return seals_of(first, second);
    }
    importing(word, first, second)
}

/// The command that shows the pumps of UNIT that a seal file names, as known on DAY.
#[tactic(auto, unfolding(crate::specs::Command::seals_of))]
fn seals_of(unit: &str, day: &str) -> Option<Command>
    ensures value { result ≡ spec.seals_of unit.now day.now }
    ensures range { IfSome result IsInRange }
{
    let unit = number_in(255, unit)?;
    let day = Day::read(day.as_bytes())?;
    Some(Command::Office(Task::Seals { unit, day }))
}

/// The command that runs the drill N of SIZE.
#[tactic(auto, unfolding(crate::specs::Command::drill_of))]
fn drill_of(seed: &str, size: &str) -> Option<Command>
    ensures value { result ≡ spec.drill_of seed.now size.now }
    ensures range { IfSome result IsInRange }
{
    let seed = counting_in(GREATEST_SEED, seed)?;
    let size = counting_in(LARGEST_DRILL, size)?;
    Some(Command::Drill { seed, size })
}

/// The number from 1 to the greatest that a text is.
#[tactic(auto, unfolding(crate::specs::Command::counting_in))]
fn counting_in(greatest: u16, text: &str) -> Option<u16>
    ensures value { result ≡ spec.counting_in greatest text.now }
    ensures range { IfSome result (λ number. number ≤ greatest) }
{
    match long_number_in(u32::from(greatest), text)? {
        0 => None,
        number => Some(number as u16),
    }
}

/// The command that offers batches to a mirror, if this is its word.
fn offering(word: &str, from: &str) -> Option<Command>
    ensures value { result ≡ spec.offering word.now from.now }
    ensures range { IfSome result IsInRange }
{
    if word != "offer" {
        return None;
    }
    offer_of(from)
}

/// The command that offers the batches after the first FROM.
#[tactic(auto, unfolding(crate::specs::Command::offer_of))]
fn offer_of(from: &str) -> Option<Command>
    ensures value { result ≡ spec.offer_of from.now }
    ensures range { IfSome result IsInRange }
{
    let from = long_number_in(MOST_FACTS as u32, from)?;
    Some(asking(Question::Offer { from }))
}

/// The command that takes a file of the register, if this is its word.
fn importing(word: &str, number: &str, sort: &str) -> Option<Command>
    ensures value { result ≡ spec.importing word.now number.now sort.now }
    ensures range { IfSome result IsInRange }
{
    if word != "import" {
        return None;
    }
    import_of(number, sort)
}

/// The command that takes a file of this sort, as batches from NUMBER on.
#[tactic(auto, unfolding(crate::specs::Command::import_of))]
fn import_of(number: &str, sort: &str) -> Option<Command>
    ensures value { result ≡ spec.import_of number.now sort.now }
    ensures range { IfSome result IsInRange }
{
    let number = long_number_in(LAST_NUMBER, number)?;
    let sort = sort_named(sort)?;
    Some(Command::Office(Task::Import { number, sort }))
}

fn sort_named(word: &str) -> Option<Sort>
    ensures value { result ≡ spec.sort_named word.now }
{
    match word {
        "units" => Some(Sort::Units),
        "components" => Some(Sort::Components),
        _ => None,
    }
}

/// The command that a word and three further words are.
fn of_three_further(word: &str, first: &str, second: &str, third: &str) -> Option<Command>
    ensures value { result ≡ spec.of_three_further word.now first.now second.now third.now }
    ensures range { IfSome result IsInRange }
{
    if word == "file" {
        return filing_of(first, second, third);
    }
    showing(word, view_on(first, second, third))
}

/// The command that a word and four further words are.
fn of_four_further(
    word: &str,
    first: &str,
    second: &str,
    third: &str,
    fourth: &str,
) -> Option<Command>
    ensures value { result ≡ spec.of_four_further word.now first.now second.now third.now fourth.now }
    ensures range { IfSome result IsInRange }
{
    if word == "amended" {
        return amended_of(first, second, third, fourth);
    }
    showing(word, view_of_four(first, second, third, fourth))
}

/// The command that compares the revisions FROM and TO of the report on UNIT's HALF.
#[tactic(auto, unfolding(crate::specs::Command::amended_of))]
fn amended_of(unit: &str, half: &str, from: &str, to: &str) -> Option<Command>
    ensures value { result ≡ spec.amended_of unit.now half.now from.now to.now }
    ensures range { IfSome result IsInRange }
{
    let unit = long_number_in(255, unit)? as u8;
    let half = number_in(65_535, half)?;
    let from = revision_in(from)?;
    let to = revision_in(to)?;
    Some(Command::Amended(RevisionPair {
        unit,
        half,
        from,
        to,
    }))
}

/// The number of a revision.
#[tactic(auto, unfolding(crate::specs::Command::revision_in))]
fn revision_in(text: &str) -> Option<u32>
    ensures value { result ≡ spec.revision_in text.now }
{
    match long_number_in(u32::MAX, text)? {
        0 => None,
        number => Some(number),
    }
}

/// The command that files the report that UNIT, HALF and DAY are.
#[tactic(auto, unfolding(crate::specs::Command::filing_of))]
fn filing_of(unit: &str, half: &str, day: &str) -> Option<Command>
    ensures value { result ≡ spec.filing_of unit.now half.now day.now }
    ensures range { IfSome result IsInRange }
{
    let unit = number_in(255, unit)?;
    let half = number_in(65_535, half)?;
    let day = Day::read(day.as_bytes())?;
    Some(asking(Question::File { unit, half, day }))
}

/// The command that shows a view, if this is its word.
fn showing(word: &str, view: Option<Request>) -> Option<Command>
    requires { IfSome view IsView }
    ensures value { result ≡ spec.showing word.now view }
    ensures range { IfSome result IsInRange }
{
    if word != "show" {
        return None;
    }
    match view {
        Some(request) => Some(asking(Question::Show(request))),
        None => None,
    }
}

/// The view that a name, UNIT and DAY are.
#[tactic(auto, unfolding(crate::specs::Command::view_on))]
fn view_on(name: &str, unit: &str, day: &str) -> Option<Request>
    ensures value { result ≡ spec.view_on name.now unit.now day.now }
    ensures view { IfSome result IsView }
{
    let unit = number_in(255, unit)?;
    let day = Day::read(day.as_bytes())?;
    view_named(name, unit, day)
}

fn view_named(name: &str, unit: u16, day: Day) -> Option<Request>
    ensures value { result ≡ spec.view_named name.now unit day }
    ensures view { IfSome result IsView }
{
    match name {
        "due" => Some(Request::Due { unit, day }),
        "tags" => Some(Request::Tags { unit, day }),
        "delays" => Some(Request::Delays { unit, day }),
        _ => None,
    }
}

/// The view of four words after `show`.
fn view_of_four(name: &str, unit: &str, second: &str, third: &str) -> Option<Request>
    ensures value { result ≡ spec.view_of_four name.now unit.now second.now third.now }
    ensures view { IfSome result IsView }
{
    if name == "route" {
        return route_on(unit, second, third);
    }
    view_of_number(name, unit, second, third)
}

/// The route that UNIT, DAY and STOPS are.
#[tactic(auto, unfolding(crate::specs::Command::route_on))]
fn route_on(unit: &str, day: &str, stops: &str) -> Option<Request>
    ensures value { result ≡ spec.route_on unit.now day.now stops.now }
    ensures view { IfSome result IsView }
{
    let unit = number_in(255, unit)?;
    let day = Day::read(day.as_bytes())?;
    let stops = number_in(65_535, stops)?;
    Some(Request::Route { unit, day, stops })
}

/// The view that a name, UNIT, QUARTER or HALF, and DAY are.
#[tactic(auto, unfolding(crate::specs::Command::view_of_number))]
fn view_of_number(name: &str, unit: &str, number: &str, day: &str) -> Option<Request>
    ensures value { result ≡ spec.view_of_number name.now unit.now number.now day.now }
    ensures view { IfSome result IsView }
{
    let unit = number_in(255, unit)?;
    let number = number_in(65_535, number)?;
    let day = Day::read(day.as_bytes())?;
    numbered_view(name, unit, number, day)
}

fn numbered_view(name: &str, unit: u16, number: u16, day: Day) -> Option<Request>
    ensures value { result ≡ spec.numbered_view name.now unit number day }
    ensures view { IfSome result IsView }
{
    match name {
        "percent" => Some(Request::Percent {
            unit,
            quarter: number,
            day,
        }),
        "report" => Some(Request::Report {
            unit,
            half: number,
            day,
        }),
        _ => None,
    }
}

ghost use Rattle.std.specs.Prelude.{◌≡◌, ◌&&◌, ◌||◌, ◌≤◌, true, find, length, option_map};
ghost use Rattle.std.specs.List.{list_any, AllWithin};
ghost use Rattle.list_words.specs.Order.{Ascends};
ghost use Rattle.fact_kinds.specs.Facts.{is_earlier, goes_first};
ghost use Rattle.ldar_law.specs.Fitness as law;
ghost use Rattle.method21_reading.specs.Readings as readings;

use fact_kinds::{Fact, FactBody, Key, precedes};

/// Whether a fact is a calibration of the instrument.
pub fn is_calibration(instrument: u16, body: &FactBody) -> bool
    ensures value { result ≡ law.is_calibration instrument body.now }
{
    match *body {
        FactBody::Calibration { instrument: of, .. } => of == instrument,
        _ => false,
    }
}

/// Whether a fact is a calibration of the instrument with a gas of at most `most` parts per million.
fn is_calibration_within(instrument: u16, most: u64, body: &FactBody) -> bool
    ensures value { result ≡ law.is_calibration_within instrument most body.now }
{
    match *body {
        FactBody::Calibration {
            instrument: of,
            gas,
        } => of == instrument && u64::from(gas) <= most,
        _ => false,
    }
}

/// Whether some calibration of the day is earlier than the reading with this key (40 CFR 60.485a(b)(1)).
pub fn is_calibrated(facts: &[(Key, Fact)], key: &Key, instrument: u16) -> bool
    ensures value { result ≡ law.is_calibrated facts.now key.now instrument }
{
    facts.iter().any(|e| {
        is_calibration(instrument, &e.1.body) && e.0.day == key.day && precedes(&e.0, key)
    })
}

/// Whether such a calibration used a gas of at most `most` parts per million.
pub fn is_calibrated_within(facts: &[(Key, Fact)], key: &Key, instrument: u16, most: u64) -> bool
    ensures value { result ≡ law.is_calibrated_within facts.now key.now instrument most }
{
    facts.iter().any(|e| {
        is_calibration_within(instrument, most, &e.1.body)
            && e.0.day == key.day
            && precedes(&e.0, key)
    })
}

/// The key of the next calibration of the instrument after a reading, if there is one.
pub fn next_calibration(facts: &[(Key, Fact)], key: &Key, instrument: u16) -> Option<Key>
    ensures value { (later : Key) → law.is_calibrated_before facts.now key.now instrument later ≡ readings.is_before result later }
{
    let mut next = None;
    for e in facts {
        next = nearer(key, instrument, next, e);
    }
    next
}

/// The key of the next calibration after a reading, from facts in key order. The first `count` facts are earlier than the reading.
pub fn calibration_after(
    facts: &[(Key, Fact)],
    count: usize,
    key: &Key,
    instrument: u16,
) -> Option<Key>
    requires ordered { Ascends goes_first facts.now }
    requires within { count ≤ length facts.now }
    requires earlier { AllWithin (λ e. is_earlier e.0 key.now ≡ true) facts.now 0 count }
    ensures value { (later : Key) → law.is_calibrated_before facts.now key.now instrument later ≡ readings.is_before result later }
{
    first_later(&facts[count..], key, instrument)
}

/// The key of the first calibration of the instrument that is later than a reading.
fn first_later(facts: &[(Key, Fact)], key: &Key, instrument: u16) -> Option<Key>
    ensures value { result ≡ option_map (λ e. e.0) (find (λ e. law.is_calibration instrument e.1.body && is_earlier key.now e.0) facts.now) }
{
    facts
        .iter()
        .find(|e| is_calibration(instrument, &e.1.body) && precedes(key, &e.0))
        .map(|e| e.0)
}

/// The next calibration after a reading, with one more fact.
fn nearer(key: &Key, instrument: u16, next: Option<Key>, e: &(Key, Fact)) -> Option<Key>
    ensures value { result ≡ readings.nearer key.now instrument next e.now }
{
    if is_calibration(instrument, &e.1.body) && precedes(key, &e.0) {
        earlier_of(next, &e.0)
    } else {
        next
    }
}

/// The earlier of an optional key and another key.
fn earlier_of(nearest: Option<Key>, key: &Key) -> Option<Key>
    ensures value { result ≡ readings.earlier_of nearest key.now }
{
    match nearest {
        Some(other) => {
            if precedes(key, &other) {
                Some(*key)
            } else {
                Some(other)
            }
        }
        None => Some(*key),
    }
}

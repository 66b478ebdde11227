ghost use Rattle.std.specs.Prelude.{◌≡◌, ◌<◌, ◌≤◌, ◌*◌, ◌++◌, ℕ, Option, List, length, Err, IfErr, OnOk};
ghost use Rattle.disk_model.specs.Faults.{Rose};
ghost use Rattle.ldar_ports.specs.Source.{HasEnded, Takes};
ghost use Rattle.ldar_ports.specs.Window.{after_taking};
ghost use Rattle.office_mirror.specs.Reading.{EndsReading, IsUnfinished, Reads};

use crate::answer::Answer;
use crate::reader::{AnswerPiece, AnswerReader};
use ldar_ports::{Source, Window};
use ldar_session::{Ended, MOST_ANSWERS};
use std::alloc::Global;

/// The length of the longest answer, plus at least 4,096 bytes of room after the beginning of one.
pub(crate) const ANSWER_WINDOW: usize = 196_608;

/// The next answer and its length in bytes, once it was read. It is read batch by batch, and what was read is not read again.
/// `before` bytes of the input came before those in hand.
pub(crate) fn next_answer<S: Source>(
    alloc: Global,
    source: &mut S,
    window: &mut Window,
    before: usize,
) -> Result<(Answer, usize), Ended>
    requires room { length window.old.bytes ≤ window.old.size }
    requires size { window.old.size ≡ ANSWER_WINDOW }
    requires counted { before ≤ MOST_ANSWERS * ANSWER_WINDOW }
    ensures taken { (taken : List ℕ) × Takes (S.left source.old) taken (S.left source.new)
        × Reads result before (window.old.bytes ++ taken) window.new.bytes (S.left source.new) }
    ensures size { window.new.size ≡ window.old.size }
    ensures in_range { length window.new.bytes ≤ window.new.size }
    ensures count { S.faults source.old ≤ S.faults source.new }
    ensures cause { result ≡ Err Ended.ReadFault → Rose (S.faults source.old) (S.faults source.new) }
{
    let mut reader = AnswerReader::new(alloc);
    let mut got = 0;
    'coming: loop {
        match reader.read_piece(alloc, window.bytes()) {
            Ok(AnswerPiece::Part { used }) => {
                window.drop_front(used);
                reader.begins();
                got += used;
            }
            Ok(AnswerPiece::Last { answer, used }) => {
                window.drop_front(used);
                return Ok((answer, got + used));
            }
            Ok(AnswerPiece::Short) => match take_more(source, window, got) {
                Ok(()) => {}
                Err(ended) => return Err(ended),
            },
            Ok(AnswerPiece::Bad { at }) => {
                return Err(Ended::Refused {
                    at: (before + got + at) as u64,
                });
            }
            Err(_) => return Err(Ended::Memory),
        }
    }
}

/// Reads once, when the bytes in hand end within an answer. `got` bytes of that answer came before them.
fn take_more<S: Source>(source: &mut S, window: &mut Window, got: usize) -> Result<(), Ended>
    requires room { length window.old.bytes < window.old.size }
    requires size { window.old.size ≡ ANSWER_WINDOW }
    requires few { got ≤ ANSWER_WINDOW }
    ensures taken { (taken : List ℕ) × Takes (S.left source.old) taken (S.left source.new)
        × (window.new ≡ after_taking window.old taken) }
    ensures some { OnOk result (length window.old.bytes < length window.new.bytes) }
    ensures ended { IfErr result (λ ended. (front : List ℕ) (before : ℕ) → length front ≡ got
        → IsUnfinished (front ++ window.old.bytes) → EndsReading ended before (front ++ window.new.bytes) (S.left source.new)) }
    ensures in_range { length window.new.bytes ≤ window.new.size }
    ensures count { S.faults source.old ≤ S.faults source.new }
    ensures cause { result ≡ Err Ended.ReadFault → Rose (S.faults source.old) (S.faults source.new) }
{
    match window.take_from(source) {
        Ok(0) => Err(ended_after(got + window.bytes().len())),
        Ok(_) => Ok(()),
        Err(_) => Err(Ended::ReadFault),
    }
}

/// How an input ended of whose last answer this many bytes came.
fn ended_after(got: usize) -> Ended
    ensures value { (rest : List ℕ) (before : ℕ) (left : Option (List ℕ)) → length rest ≡ got → IsUnfinished rest → HasEnded left
        → EndsReading result before rest left }
    ensures no_fault { ¬ (result ≡ Ended.ReadFault) }
{
    if got == 0 {
        return Ended::Done;
    }
    Ended::CutShort { got: got as u64 }
}

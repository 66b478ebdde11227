ghost use Rattle.std.specs.Prelude.{◌≡◌, ◌+◌, ◌<◌, ◌≤◌, ◌-◌, ◌++◌, length, replicate, vec_len, vec_capacity, Err, OnOk, IfOk, IfErr};
ghost use Rattle.ldar_facts.specs.Form.{Takes};
ghost use Rattle.ldar_facts.specs.FactForms as forms;
ghost use Rattle.ldar_facts.specs.Places.{TakesFact, stop_before};
ghost use Rattle.fact_kinds.specs.declared.limits.TheConstants.{BATCH_FACTS};

use crate::add_fact::add_fact;
use crate::body_at::LONGEST_FACT;
use crate::cursor::Cursor;
use crate::read_end::ReadEnd;
use fact_kinds::{Fact, FactList};

/// The fields before the facts of a batch.
#[derive(Clone, Copy)]
pub(crate) struct Head {
    pub(crate) handheld: u16,
    pub(crate) number: u32,
    /// The number of facts that follow, 1 to 512.
    pub(crate) count: u16,
}

impl Cursor<'_> {
    /// Takes the fields before the facts of a batch.
    #[tactic(auto, unfolding(crate::specs::FactForms::head))]
    pub(crate) fn head(&mut self) -> Result<Head, ReadEnd>
        ensures { Takes forms.head.read result self.old self.new }
    {
        self.byte(&[(66, 66)])?;
        Ok(Head {
            handheld: self.two_bytes(&[(0, 65_535)])?,
            number: self.four_bytes(&[(0, u32::MAX)])?,
            count: self.two_bytes(&[(1, 512)])?,
        })
    }

    /// Takes `count` facts, for which `room` has capacity.
    pub(crate) fn facts(&mut self, count: u16, room: Vec<Fact>) -> Result<FactList, ReadEnd>
        requires some { (1 ≤ count) × (count ≤ BATCH_FACTS) }
        requires empty { vec_len room ≡ 0 }
        requires fits { count ≤ vec_capacity room }
        ensures { Takes (forms.facts count).read result self.old self.new }
    {
        let mut facts = room;
        for _ in 0..count {
            self.next_fact(&mut facts)?;
        }
        Ok(FactList::new(facts).unwrap())
    }

    /// Takes a fact and pushes it to a list that has capacity for it.
    fn next_fact(&mut self, facts: &mut Vec<Fact>) -> Result<(), ReadEnd>
        requires { vec_len facts.old < vec_capacity facts.old }
        ensures taken { OnOk result (TakesFact self.old facts.old.items facts.new.items self.new) }
        ensures stopped { IfErr result (λ stop. forms.fact.read self.old ≡ Err stop) }
        ensures len { OnOk result (vec_len facts.new ≡ vec_len facts.old + 1) }
        ensures capacity { vec_capacity facts.old ≤ vec_capacity facts.new }
    {
        let rest = if self.left() < LONGEST_FACT {
            add_last_fact(self.left_bytes(), facts)?
        } else {
            add_fact(self.left_bytes(), facts)?
        };
        *self = Cursor::new(rest);
        Ok(())
    }
}

/// Pushes the fact at the start of bytes that are fewer than the longest fact has. Returns the bytes after it.
/// The fact is read as if zero bytes followed.
#[cold]
fn add_last_fact<'a>(bytes: &'a [u8], facts: &mut Vec<Fact>) -> Result<&'a [u8], ReadEnd>
    requires few { length bytes.now < LONGEST_FACT }
    requires room { vec_len facts.old < vec_capacity facts.old }
    ensures taken { IfOk result (λ rest. TakesFact bytes.now facts.old.items facts.new.items rest.now) }
    ensures stopped { IfErr result (λ stop. forms.fact.read bytes.now ≡ Err stop) }
    ensures len { OnOk result (vec_len facts.new ≡ vec_len facts.old + 1) }
    ensures capacity { vec_capacity facts.old ≤ vec_capacity facts.new }
{
    let zeros = LONGEST_FACT - bytes.len();
    let longer = padded(bytes);
    match add_fact(&longer, facts) {
        Ok(rest) => {
            if rest.len() < zeros {
                return Err(ReadEnd::Short);
            }
            Ok(&bytes[LONGEST_FACT - rest.len()..])
        }
        Err(stop) => Err(before(stop, zeros)),
    }
}

/// The bytes, followed by zero bytes up to the length of the longest fact.
fn padded(bytes: &[u8]) -> [u8; LONGEST_FACT]
    requires { length bytes.now < LONGEST_FACT }
    ensures { result ≡ bytes.now ++ replicate (LONGEST_FACT - length bytes.now) 0 }
{
    let mut longer = [0u8; LONGEST_FACT];
    longer[..bytes.len()].copy_from_slice(bytes);
    longer
}

/// The end of a reading with the bytes that were appended taken away.
fn before(stop: ReadEnd, added: usize) -> ReadEnd
    ensures { result ≡ stop_before stop added }
{
    match stop {
        ReadEnd::Short => ReadEnd::Short,
        ReadEnd::Wrong { left } => {
            if added < left {
                ReadEnd::Wrong { left: left - added }
            } else {
                ReadEnd::Short
            }
        }
    }
}

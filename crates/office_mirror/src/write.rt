ghost use Rattle.std.specs.Prelude.{◌≡◌, ◌++◌, OnOk, OnErr, IfOk};
ghost use Rattle.ldar_facts.specs.Grammar.{spelled};
ghost use Rattle.office_mirror.specs.AnswerGrammar.{SpellsAnswer, answer_fields};

use crate::answer::Answer;
use crate::head::LETTER;
use ldar_facts::write_batch;
use std::alloc::{AllocError, Global};

/// Appends the one spelling of an answer. When out of memory, `out` is unchanged.
pub fn write_answer(alloc: Global, answer: &Answer, out: &mut Vec<u8>) -> Result<(), AllocError>
    ensures value { OnOk result (out.new.items ≡ out.old.items ++ spelled (answer_fields answer.now)) }
    ensures spells { OnOk result (SpellsAnswer (spelled (answer_fields answer.now)) answer.now) }
    ensures unchanged { OnErr result (out.new.items ≡ out.old.items) }
{
    // The spelling is made first, so that out of memory leaves `out` unchanged.
    let spelling = spelling_of(alloc, answer)?;
    out.extend_from_slice(&spelling)
}

/// The one spelling of an answer.
fn spelling_of(alloc: Global, answer: &Answer) -> Result<Vec<u8>, AllocError>
    ensures value { IfOk result (λ spelling. SpellsAnswer spelling.items answer.now) }
{
    let batches = answer.batches.as_slice();
    let mut out = Vec::new(alloc);
    out.push(LETTER)?;
    out.extend_from_slice(&answer.start.to_be_bytes())?;
    out.push(batches.len() as u8)?;
    for batch in batches {
        write_batch(alloc, batch, &mut out)?;
    }
    Ok(out)
}

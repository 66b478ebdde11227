ghost use Rattle.std.specs.Prelude.{◌≡◌, ◌<◌, IfOk, IfSome, option_map};
ghost use Rattle.serde_json.specs.View.{view, items_view};
ghost use Rattle.handheld_http.specs.Members as members;
ghost use Rattle.handheld_http.specs.FactJson.{kind_words};
ghost use Rattle.handheld_http.specs.BatchJson as spec;
ghost use Rattle.handheld_http.specs.BatchJson.{Says};

use crate::fact_json::body;
use crate::members::{day, has_only, number, word};
use fact_kinds::{Batch, Fact, Memory};
use serde_json::Value;
use std::alloc::Global;

/// The kind of a fact, as its place in the table.
fn kind_place(value: Option<&Value>) -> Option<usize>
    ensures value { result ≡ members.word kind_words (option_map (λ v. view v.now) value.entry) }
    ensures in_range { IfSome result (λ n. n < 15) }
{
    word(
        value,
        &[
            "unit",
            "component",
            "class",
            "retire",
            "election",
            "shutdown",
            "calibration",
            "precision",
            "drift",
            "reading",
            "visual",
            "attempt",
            "delay",
            "release",
            "indication",
        ],
    )
}

/// The fact in an object.
#[tactic(auto, unfolding(crate::specs::BatchJson::fact_of))]
fn fact_of(object: &Value) -> Option<Fact>
    ensures { result ≡ spec.fact_of (view object.now) }
{
    let kind = kind_place(object.get("kind"))?;
    let day = day(object.get("day"))?;
    let minute = number(object.get("minute"), 0, 1_439)? as u16;
    let body = body(kind, object)?;
    Some(Fact { day, minute, body })
}

/// The facts in an array, if each one is a fact.
fn facts_of(alloc: Global, items: &Vec<Value>) -> Result<Option<Vec<Fact>>, Memory>
    ensures { IfOk result (λ facts. option_map (λ v. v.items) facts ≡ spec.facts_of (items_view items.now.items)) }
{
    let mut facts = Vec::new(alloc);
    for item in items {
        let Some(fact) = fact_of(item) else {
            return Ok(None);
        };
        facts.push(fact)?;
    }
    Ok(Some(facts))
}

/// A batch of 1 to 512 facts.
#[tactic(auto, unfolding(crate::specs::BatchJson::batch))]
fn batch(handheld: u16, number: u32, facts: Vec<Fact>) -> Option<Batch>
    ensures { result ≡ spec.batch handheld number facts.items }
{
    Batch::new(handheld, number, facts)
}

/// The batch in an object.
#[tactic(auto, unfolding(crate::specs::BatchJson::batch_of))]
fn batch_of(alloc: Global, object: &Value) -> Result<Option<Batch>, Memory>
    ensures { IfOk result (λ batch. batch ≡ spec.batch_of (view object.now)) }
{
    if !has_only(object, &["handheld", "number", "facts"]) {
        return Ok(None);
    }
    let Some(handheld) = number(object.get("handheld"), 0, 65_535) else {
        return Ok(None);
    };
    let Some(count) = number(object.get("number"), 0, 4_294_967_295) else {
        return Ok(None);
    };
    let Some(items) = object.get("facts").and_then(Value::as_array) else {
        return Ok(None);
    };
    let Some(facts) = facts_of(alloc, items)? else {
        return Ok(None);
    };
    Ok(batch(handheld as u16, count as u32, facts))
}

/// The batch in the body of a request, if there is one: a JSON object with `handheld`, `number` and `facts`.
pub(crate) fn batch_in(alloc: Global, body: &[u8]) -> Result<Option<Batch>, Memory>
    ensures value { IfOk result (Says body.now) }
{
    match Value::from_slice(alloc, body) {
        Ok(value) => batch_of(alloc, &value),
        Err(error) if error.is_memory() => Err(Memory),
        Err(_) => Ok(None),
    }
}

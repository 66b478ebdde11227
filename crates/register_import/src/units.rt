ghost use Rattle.std.specs.Prelude.{◌≡◌, ◌≤◌, IfOk, IfErr, Ok, is_some, length, vec_len, option_map};
ghost use Rattle.std.specs.List.{list_all};
ghost use Rattle.toml.specs.Data.{as_table};
ghost use Rattle.toml.specs.View.{items_view, table_view, view};
ghost use Rattle.register_import.specs.Rows.{TellsRow};
ghost use Rattle.register_import.specs.Units as files;
ghost use Rattle.register_import.specs.declared.limits.TheConstants.{LAST_NUMBER, LONGEST_TEXT};

use crate::batches::batches_of;
use crate::error::ImportError;
use crate::members::has_only;
use crate::unit_row::unit_of;
use fact_kinds::{Batch, Fact};
use std::alloc::Global;
use toml::{Table, Value};

/// The batches of a file of process units: TOML, with an array of tables `unit`. The batches are of handheld 0, numbered
/// from `number` on, with at most 512 facts each, in the order of the file. The errors are the first bad row, by the number of
/// its element from 1 or as 0 if the text is not such an array, and out of memory.
pub fn units_of(alloc: Global, text: &[u8], number: u32) -> Result<Vec<Batch>, ImportError>
    requires in_range { number ≤ LAST_NUMBER }
    requires fits { length text.now ≤ LONGEST_TEXT }
    ensures value { IfOk result (λ batches. files.units_import number text.now ≡ Ok batches.items) }
    ensures bad { IfErr result (TellsRow (files.units_import number text.now)) }
{
    let facts = unit_facts(alloc, text)?;
    Ok(batches_of(alloc, number, &facts)?)
}

// The facts of a file of process units.
fn unit_facts(alloc: Global, text: &[u8]) -> Result<Vec<Fact>, ImportError>
    requires { length text.now ≤ LONGEST_TEXT }
    ensures value { IfOk result (λ facts. files.unit_rows text.now ≡ Ok facts.items) }
    ensures bad { IfErr result (TellsRow (files.unit_rows text.now)) }
    ensures in_range { IfOk result (λ facts. vec_len facts ≤ length text.now) }
{
    let document = match toml::table_from_slice(alloc, text) {
        Ok(document) => document,
        Err(error) if error.is_memory() => return Err(ImportError::Memory),
        Err(_) => return Err(ImportError::Row { at: 0 }),
    };
    let Some(elements) = elements_of(&document) else {
        return Err(ImportError::Row { at: 0 });
    };
    // This cannot happen, since each element takes more than one byte.
    if elements.len() > text.len() {
        return Err(ImportError::Memory);
    }
    rows_of(alloc, elements)
}

// The elements of a document that is exactly one array of tables `unit`.
#[tactic(auto, unfolding(crate::specs::Units::elements_of))]
fn elements_of(document: &Table) -> Option<&Vec<Value>>
    ensures value { option_map (λ v. items_view v.now.items) result ≡ files.elements_of (table_view document.now) }
{
    if !has_only(document, &["unit"]) {
        return None;
    }
    let elements = array_at(document, "unit")?;
    if !are_some_tables(elements) {
        return None;
    }
    Some(elements)
}

// Whether there is at least one element, and each is a table.
fn are_some_tables(elements: &Vec<Value>) -> bool
    ensures { result ≡ files.are_some_tables (items_view elements.now.items) }
{
    !elements.is_empty() && all_tables(elements)
}

// Whether each element is a table.
fn all_tables(elements: &Vec<Value>) -> bool
    ensures { result ≡ list_all (λ v. is_some (as_table (view v))) elements.now.items }
{
    elements.iter().all(|element| element.is_table())
}

// The array at a key, if there is one.
fn array_at<'a>(table: &'a Table, key: &str) -> Option<&'a Vec<Value>>
    ensures { option_map (λ v. items_view v.now.items) result ≡ files.array_at key.now (table_view table.now) }
{
    match table.get(key) {
        Some(value) => value.as_array(),
        None => None,
    }
}

// The facts of elements, if no element is bad.
fn rows_of(alloc: Global, elements: &Vec<Value>) -> Result<Vec<Fact>, ImportError>
    requires { vec_len elements.now ≤ LONGEST_TEXT }
    ensures value { IfOk result (λ facts. files.rows_from 1 (items_view elements.now.items) ≡ Ok facts.items) }
    ensures bad { IfErr result (TellsRow (files.rows_from 1 (items_view elements.now.items))) }
    ensures in_range { IfOk result (λ facts. vec_len facts ≤ vec_len elements.now) }
{
    let mut facts = Vec::new(alloc);
    let mut at = 1;
    for element in elements {
        let Some(fact) = unit_of(element) else {
            return Err(ImportError::Row { at });
        };
        if facts.push(fact).is_err() {
            return Err(ImportError::Memory);
        }
        at += 1;
    }
    Ok(facts)
}

//! The components of a process unit.

use crate::component::{Component, made_component};
use crate::history::History;
use crate::life::{Call, add_answer};
use crate::view::View;
use fact_kinds::Memory;
use std::alloc::Global;

/// `components` components with `facts` facts each, up to the first whose facts are out of order.
fn components_of(
    alloc: Global,
    history: History,
    components: u32,
    places: u32,
) -> Result<Vec<Component>, Memory> {
    let mut unit = Vec::with_capacity(alloc, components as usize)?;
    for number in 0..components {
        let Some(item) = made_component(alloc, history, number, places)? else {
            break;
        };
        unit.push(item)?;
    }
    Ok(unit)
}

/// A sum over the results for each component, computed `passes` times. Of the marks, each pass adds only those of one quarter:
/// for components that are not counted, adding all marks takes longer than making them.
pub fn sum_over_unit(
    alloc: Global,
    call: Call,
    history: History,
    components: u32,
    places: u32,
    passes: u32,
) -> Result<u64, Memory> {
    let unit = components_of(alloc, history, components, places)?;
    let view = View::of(alloc, history)?;
    let mut sum = 0;
    let mut quarter = 0;
    for _ in 0..passes {
        for item in &unit {
            sum = add_answer(alloc, call, item, &view, quarter, sum)?;
        }
        quarter = view.quarter_behind(quarter);
    }
    Ok(sum)
}

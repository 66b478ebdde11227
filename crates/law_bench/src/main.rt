//! The program that `bench/law.py` measures.
//!
//! - `CALL HISTORY COMPONENTS FACTS PASSES` makes COMPONENTS components with FACTS facts each, and computes the `events`, the
//! `spans`, the `marks` or the `duties` of each of them PASSES times. HISTORY is `valve`, `year` (a valve in its first year),
//! `pump`, `unrepaired` (a valve that leaks and is never repaired), `batch` (leaks on one day), or `drips` (of a pump).
//! - `CALL SIZE PASSES` computes one of these PASSES times: an `instrument` of SIZE calibrations; the `fit` of SIZE readings; the
//! same with all of them on one `day`; `routes` by SIZE duties; or the `repair` of a leak with SIZE delays.
//! - Without passes it only makes the data. Without words it does a little of each.
#![tactic(auto)]

mod component;
mod day_at;
mod equipment;
mod history;
mod instrument;
mod life;
mod repair;
mod said;
mod unit;
mod view;
mod walk;

use history::History;
use life::Call;
use std::env;
use unit::sum_over_unit;

fn main(rt: HostRuntime) -> Result<(), anyhow::Error> {
    let words: Vec<String> = env::args(&rt)?.skip(1).collect(rt.alloc())?;
    let words: Vec<&str> = words.iter().map(|word| word.as_str()).collect(rt.alloc())?;
    match words.as_slice() {
        [call, history, components, facts, passes] => lives(
            &rt,
            call,
            history,
            components.parse().unwrap_or(0),
            facts.parse().unwrap_or(0),
            passes.parse().unwrap_or(0),
        ),
        [call, size, passes] => others(
            &rt,
            call,
            size.parse().unwrap_or(0),
            passes.parse().unwrap_or(0),
        ),
        _ => a_little(&rt),
    }
}

/// Computes results from the histories of components.
fn lives(
    rt: &HostRuntime,
    call: &str,
    history: &str,
    components: u32,
    facts: u32,
    passes: u32,
) -> Result<(), anyhow::Error> {
    let asked = Call::of(call);
    let sum = sum_over_unit(
        rt.alloc(),
        asked,
        History::of(history),
        components,
        facts,
        passes,
    )?;
    println!(rt; "{call} {history}: {components} of {facts} facts, {passes} passes, {sum}")?;
    Ok(())
}

/// Computes the other results.
fn others(rt: &HostRuntime, call: &str, size: u32, passes: u32) -> Result<(), anyhow::Error> {
    let alloc = rt.alloc();
    let sum = match call {
        "instrument" => instrument::sum_over_makings(alloc, size, passes)?,
        "fit" => instrument::sum_over_readings(alloc, size, passes)?,
        "day" => instrument::sum_over_readings_of_a_day(alloc, size, passes)?,
        "routes" => walk::sum_over_routes(alloc, size, passes)?,
        _ => repair::sum_over_repairs(alloc, size, passes)?,
    };
    println!(rt; "{call}: {size}, {passes} passes, {sum}")?;
    Ok(())
}

fn a_little(rt: &HostRuntime) -> Result<(), anyhow::Error> {
    // The marks have as many passes as sixteen years have quarters.
    for (call, passes) in [("events", 1), ("spans", 1), ("marks", 66), ("duties", 1)] {
        for history in ["valve", "year", "pump", "unrepaired", "batch", "drips"] {
            lives(rt, call, history, 2, 200, passes)?;
        }
    }
    for call in ["instrument", "fit", "day", "routes", "repair"] {
        others(rt, call, 400, 3)?;
    }
    Ok(())
}

//! Compares `read_batch` and `write_batch` with the table of bytes that `bench/batch_table.py` made. The table has each kind
//! of fact with each field at its ends and past them, and names, plans, counts and cuts.
#![tactic(auto)]

mod agreement;
mod case;

use agreement::Agreement;
use case::case_of;
use std::fs;

fn main(rt: HostRuntime) -> Result<(), anyhow::Error> {
    let text = fs::read_to_string(&rt, "batches.txt")?;
    let mut agreement = Agreement::new();
    for line in text.lines() {
        let Some(case) = case_of(rt.alloc(), line) else {
            println!(rt; "no case: {line}")?;
            continue;
        };
        if !agreement.compare(rt.alloc(), &case)? {
            println!(rt; "not so: {line}")?;
        }
    }
    println!(rt; "compared {} cases; as in the table:", agreement.compared)?;
    println!(rt;
        "whole {}, written back {}",
        agreement.whole, agreement.written
    )?;
    println!(rt; "short {}", agreement.short)?;
    println!(rt; "bad at the first wrong place {}", agreement.bad)?;
    Ok(())
}

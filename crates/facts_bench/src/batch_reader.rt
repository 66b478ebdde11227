use crate::total::Total;
use ldar_facts::{Read, read_batch};
use std::alloc::{AllocError, Global};

/// Reads batch after batch from the start of some bytes, up to the first place without one, `passes` times over. Each pass
/// reads them twice: for the facts and for their number. So the reader has two callers.
pub fn read_all(alloc: Global, bytes: &[u8], passes: u32) -> Result<Total, AllocError> {
    let mut total = Total::new();
    for _ in 0..passes {
        read_once(alloc, bytes, &mut total)?;
        count_once(alloc, bytes, &mut total)?;
    }
    Ok(total)
}

fn read_once(alloc: Global, bytes: &[u8], total: &mut Total) -> Result<(), AllocError> {
    let mut rest = bytes;
    for _ in 0..bytes.len() {
        let Read::Whole { batch, used } = read_batch(alloc, rest)? else {
            break;
        };
        for fact in batch.facts.as_slice() {
            total.add(fact);
        }
        rest = rest.get(used..).unwrap_or(&[]);
    }
    Ok(())
}

fn count_once(alloc: Global, bytes: &[u8], total: &mut Total) -> Result<(), AllocError> {
    let mut rest = bytes;
    for _ in 0..bytes.len() {
        let Read::Whole { batch, used } = read_batch(alloc, rest)? else {
            break;
        };
        total.count(batch.facts.as_slice().len());
        rest = rest.get(used..).unwrap_or(&[]);
    }
    Ok(())
}

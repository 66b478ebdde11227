use crate::case::{Case, Expected};
use fact_kinds::Batch;
use ldar_facts::{Read, read_batch, write_batch};
use std::alloc::{AllocError, Global};

/// The number of cases compared so far, and for each kind of case the number of those that agree with the table.
#[derive(Drop)]
pub struct Agreement {
    pub compared: u32,
    pub whole: u32,
    pub written: u32,
    pub short: u32,
    pub bad: u32,
}

impl Agreement {
    pub fn new() -> Agreement {
        Agreement {
            compared: 0,
            whole: 0,
            written: 0,
            short: 0,
            bad: 0,
        }
    }

    /// Compares a case of the table. Returns whether the bytes are read as expected and written back.
    pub fn compare(&mut self, alloc: Global, case: &Case) -> Result<bool, AllocError> {
        count(&mut self.compared, true);
        match read_batch(alloc, &case.bytes)? {
            Read::Whole { batch, used } => {
                let agrees = case.want == Expected::Whole { used };
                let written = is_written_back(alloc, &batch, &case.bytes, used)?;
                count(&mut self.whole, agrees);
                count(&mut self.written, written);
                Ok(agrees && written)
            }
            Read::Short => {
                let agrees = case.want == Expected::Short;
                count(&mut self.short, agrees);
                Ok(agrees)
            }
            Read::Bad { at } => {
                let agrees = case.want == Expected::Bad { at };
                count(&mut self.bad, agrees);
                Ok(agrees)
            }
        }
    }
}

fn count(counted: &mut u32, holds: bool) {
    *counted = counted.saturating_add(u32::from(holds));
}

/// Whether the batch is written in exactly the bytes from which it was read.
fn is_written_back(
    alloc: Global,
    batch: &Batch,
    bytes: &[u8],
    used: usize,
) -> Result<bool, AllocError> {
    let mut out = Vec::new(alloc);
    write_batch(alloc, batch, &mut out)?;
    Ok(bytes.get(..used) == Some(out.as_slice()))
}

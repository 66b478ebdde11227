//! A disk as the office sees it: its reads, writes and syncs, what a crash may leave, its clock, and its count of
//! errors.
//!
//! Tests: `office_tests::disks`.
#![tactic(auto)]

mod calls;
mod disk;
mod memory_disk;
mod no_disk;
mod noted;
mod past;
mod places;
mod replay;
mod sure_disk;

pub use calls::Calls;
pub use disk::{Disk, DiskFault};
pub use memory_disk::MemoryDisk;
pub use no_disk::NoDisk;
/// Out of memory.
pub use std::alloc::AllocError as Memory;
pub use sure_disk::SureDisk;

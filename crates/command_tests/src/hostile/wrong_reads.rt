ghost use Rattle.std.specs.Prelude.{◌^◌, ◌-◌, None};

use crate::requests::SYNC;
use crate::runs::{BATCH, CALM, EMPTY, ONE, ran, streams_of};
use disk_model::{Disk, DiskFault};
use std::alloc::Global;
use std::test::Fail;
use test_kit::is;

// A disk that accepts no writes and returns wrong bytes: each read XORs them with the mask, which then grows by the step.
#[derive(Drop)]
struct WrongDisk {
    bytes: Vec<u8>,
    mask: u8,
    step: u8,
}

impl Disk for WrongDisk {
    ghost content = { λ d. None };

    ghost faults = { λ d. 2 ^ 64 - 1 };

    ghost clock = { λ d. 0 };

    ghost name = { λ d. 0 };

    ghost images = { λ d c. Unit {0} };

    ghost left = { λ d t c. Unit {0} };

    ghost room = { λ d. None };

    ghost counts_now = { λ d t c le image. tt };

    ghost only_now = { λ d c left. tt };

    ghost since_earlier = { λ d s t c le left. tt };

    fn read_at(&mut self, at: u64, into: &mut [u8]) -> Result<usize, DiskFault> {
        let start = (at as usize).min(self.bytes.len());
        let rest = &self.bytes[start..];
        let count = into.len().min(rest.len());
        for (byte, held) in into.iter_mut().zip(rest) {
            *byte = *held ^ self.mask;
        }
        self.mask = self.mask.wrapping_add(self.step);
        Ok(count)
    }

    fn write_at(&mut self, _at: u64, _bytes: &[u8]) -> Result<(), DiskFault> {
        Err(DiskFault)
    }

    fn sync(&mut self) -> Result<(), DiskFault> {
        Ok(())
    }

    fn now(&self) -> u64 {
        0
    }
}

// Each command.
const COMMANDS: [&str; 12] = [
    "init",
    "check",
    "dock",
    "drain",
    "import 1 units",
    "import 1 components",
    "show due 1 2024-02-28",
    "show tags 1 2024-02-28",
    "show delays 1 2024-02-28",
    "show percent 1 16 2024-02-28",
    "show route 1 2024-02-28 16",
    "file 1 8 2024-03-31",
];

// The mask and the step: each bit wrong at each read, only the first read right, only the second read right, and others.
const MANNERS: [(u8, u8); 6] = [(0xff, 0), (0, 1), (1, 0xff), (0x80, 0x80), (3, 7), (0, 0)];

// Checks that a command over a disk with these bytes ends with a status that is possible if no stream fails.
fn ends_somehow(
    alloc: Global,
    bytes: &[u8],
    manner: (u8, u8),
    line: &str,
    input: &[u8],
) -> Result<(), Fail> {
    let mut disk = WrongDisk {
        bytes: Vec::from_slice(alloc, bytes)?,
        mask: manner.0,
        step: manner.1,
    };
    let mut streams = streams_of(alloc, input, CALM)?;
    let got = ran(alloc, &mut disk, &mut streams, line)?;
    is(matches!(got, 0 | 5 | 7 | 8 | 9 | 11), line)
}

#[test]
fn wrong_bytes_end_no_command_badly(rt: HostRuntime) -> Result<(), Fail> {
    for line in COMMANDS {
        for manner in MANNERS {
            ends_somehow(rt.alloc(), EMPTY, manner, line, BATCH)?;
            ends_somehow(rt.alloc(), ONE, manner, line, BATCH)?;
            ends_somehow(rt.alloc(), ONE, manner, line, SYNC.as_bytes())?;
        }
    }
    Ok(())
}

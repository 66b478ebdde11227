use crate::runs::says;
use crate::views::docked;
use std::alloc::Global;
use std::test::Fail;

// Batch 2 of handheld 0: process unit 2 from 2020-01-15, and this many valves in gas service, numbered from 1,000.
fn valves(alloc: Global, count: u8) -> Result<Vec<u8>, Fail> {
    let mut bytes = Vec::from_slice(alloc, b"B\0\0\0\0\0\x02")?;
    bytes.extend_from_slice(&(1 + u16::from(count)).to_be_bytes())?;
    bytes.extend_from_slice(b"\x01Gd\0\0\x02\0COKER\0\0\0\0\0\0\0")?;
    for n in 0..count {
        bytes.extend_from_slice(b"\x02Gd\0\0")?;
        bytes.extend_from_slice(&(1_000 + u16::from(n)).to_be_bytes())?;
        bytes.extend_from_slice(b"\x02\x01\0\0\x01\0\0\x01")?;
    }
    Ok(bytes)
}

// Batch 1 of handheld 2: a calibration on 2024-02-20, and a reading of each of these valves, 600 ppm for the first `leaking` of them
// and 20 ppm for the others.
fn readings(alloc: Global, count: u8, leaking: u8) -> Result<Vec<u8>, Fail> {
    let mut bytes = Vec::from_slice(alloc, b"B\0\x02\0\0\0\x01")?;
    bytes.extend_from_slice(&(1 + u16::from(count)).to_be_bytes())?;
    bytes.extend_from_slice(b"\x07M=\x01,\0\x01\0\0\x01\xf4")?;
    for n in 0..count {
        let ppm: u16 = if n < leaking { 600 } else { 20 };
        bytes.extend_from_slice(b"\x0aM=\x02X")?;
        bytes.extend_from_slice(&(1_000 + u16::from(n)).to_be_bytes())?;
        bytes.extend_from_slice(b"\0\x01\0\x01\x01\0\0")?;
        bytes.extend_from_slice(&ppm.to_be_bytes())?;
        bytes.extend_from_slice(&[0, 0, 0, 0])?;
    }
    Ok(bytes)
}

// Batches 3 to 5 of handheld 0. Each makes one valve of unit 2 difficult to monitor.
const DIFFICULT: &[u8] = b"B\0\0\0\0\0\x03\0\x01\x03M=\0\0\x03\xe8\x01\x03\0\x01\
    B\0\0\0\0\0\x04\0\x01\x03M=\0\0\x03\xe9\x01\x03\0\x01\
    B\0\0\0\0\0\x05\0\x01\x03M=\0\0\x03\xea\x01\x03\0\x01";

// Checks the view of a quarter, by the number of monitored and of leaking valves.
fn counts(alloc: Global, monitored: u8, leaking: u8, shown: &str) -> Result<(), Fail> {
    let mut input = valves(alloc, monitored)?;
    input.extend_from_slice(&readings(alloc, monitored, leaking)?)?;
    let mut disk = docked(alloc, &input, "receipt 0 2 3\nreceipt 2 1 4\n")?;
    says(alloc, &mut disk, "show percent 2 16 2024-03-31", &[], shown)
}

// The number of monitored valves and of leaking ones, and the text of the view.
const QUARTERS: [(u8, u8, &str); 3] = [
    (
        150,
        3,
        "percent 2 16 leaking 3 monitored 150 good not skipped\n",
    ),
    (
        200,
        4,
        "percent 2 16 leaking 4 monitored 200 good not skipped\n",
    ),
    (
        199,
        4,
        "percent 2 16 leaking 4 monitored 199 not good not skipped\n",
    ),
];

#[test]
fn a_quarter_is_good_where_few_valves_leak(rt: HostRuntime) -> Result<(), Fail> {
    for (monitored, leaking, shown) in QUARTERS {
        counts(rt.alloc(), monitored, leaking, shown)?;
    }
    Ok(())
}

// The replies to the valves of unit 2, and to three of them that are made difficult to monitor.
const DENIED: &str =
    "receipt 0 2 3\nreceipt 0 3 4\nreceipt 0 4 5\ndenied 1 15 60.482-7a(h)(2)(ii)\n";

#[test]
fn three_in_a_hundred_valves_are_not_difficult(rt: HostRuntime) -> Result<(), Fail> {
    let mut input = valves(rt.alloc(), 100)?;
    input.extend_from_slice(DIFFICULT)?;
    docked(rt.alloc(), &input, DENIED)?;
    Ok(())
}

use crate::runs::{CALM, EMPTY, Row, ends};
use disk_model::MemoryDisk;
use std::alloc::Global;
use std::test::Fail;

const UNIT: &[u8] = b"[[unit]]
number = 1
name = \"CRUDE\"
startup = \"2024-01-15\"
older = false
";

// The input and the due list of the next day: the register's valves, and one duty for each of them.
#[derive(Drop)]
struct Lists {
    valves: String,
    due: String,
}

fn lists_of(alloc: Global) -> Result<Lists, Fail> {
    let mut valves = String::from_str(
        alloc,
        "component,unit,kind,service,designation,plan,month,monomer,replaces,begin\n",
    )?;
    let mut due = String::from_str(alloc, "due 1 2024-02-21\n")?;
    for valve in 1..=1_200u16 {
        let row = format!(in alloc; "{valve},1,valve,gas,none,0,1,0,0,2024-01-15\n")?;
        valves.push_str(&row)?;
        let line = format!(in alloc; "{valve} monthly 2024-02-29 done 2024-02-20\n")?;
        due.push_str(&line)?;
    }
    due.push_str("end 1200\n")?;
    Ok(Lists { valves, due })
}

// Appends batch 1 of a handheld: readings of 400 valves from this one on, on 2024-02-20 at 10:00, one of 700 ppm and the others of 20.
fn put_readings(bytes: &mut Vec<u8>, handheld: u8, first: u16) -> Result<(), Fail> {
    bytes.extend_from_slice(&[b'B', 0, handheld, 0, 0, 0, 1, 1, 0x90])?;
    for n in 0..400u16 {
        let [high, low] = first.saturating_add(n).to_be_bytes();
        let ppm: [u8; 2] = if n == 6 { [2, 0xbc] } else { [0, 20] };
        bytes.extend_from_slice(b"\x0aM=\x02X")?;
        bytes.extend_from_slice(&[high, low, 0, handheld, 0, handheld, 1, 0, 0])?;
        bytes.extend_from_slice(&ppm)?;
        bytes.extend_from_slice(&[0, 0, 0, 0])?;
    }
    Ok(())
}

// Appends batch 2 of a handheld: a precision test of its instrument on 2024-02-01, and on 2024-02-20 a calibration and a drift
// assessment without drift, all at 500 ppm.
fn put_instrument(bytes: &mut Vec<u8>, handheld: u8) -> Result<(), Fail> {
    bytes.extend_from_slice(&[b'B', 0, handheld, 0, 0, 0, 2, 0, 3])?;
    bytes.extend_from_slice(&[8, 0x4d, 0x2a, 0, 60, 0, handheld])?;
    bytes.extend_from_slice(b"\0\0\x01\xf4\0\0\x01\xf4\0\0\x01\xf4\0\0\x01\xf4")?;
    bytes.extend_from_slice(&[7, 0x4d, 0x3d, 1, 0x2c, 0, handheld, 0, 0, 1, 0xf4])?;
    bytes.extend_from_slice(&[9, 0x4d, 0x3d, 3, 0x84, 0, handheld])?;
    bytes.extend_from_slice(b"\0\0\x01\xf4\0\0\x01\xf4\0\0\x01\xf4\0\0\x01\xf4")?;
    Ok(())
}

// The readings of three handhelds, those of the third one twice, and the tests of their instruments.
fn readings(alloc: Global) -> Result<Vec<u8>, Fail> {
    let mut bytes = Vec::new(alloc);
    for (handheld, first) in [(1, 1), (2, 401), (3, 801), (3, 801)] {
        put_readings(&mut bytes, handheld, first)?;
    }
    for handheld in 1..=3 {
        put_instrument(&mut bytes, handheld)?;
    }
    Ok(bytes)
}

const IMPORTED: &str = "receipt 0 2 2\nreceipt 0 3 3\nreceipt 0 4 4\n";

const DOCKED: &str = "receipt 1 1 5\nreceipt 2 1 6\nreceipt 3 1 7\nreceipt 3 1 7\n\
    receipt 1 2 8\nreceipt 2 2 9\nreceipt 3 2 10\n";

const TAGS: &str =
    "tags 1 2024-02-21\n7 detected 2024-02-20 attempt 2024-02-25 - repair 2024-03-06 - tagged\n\
    407 detected 2024-02-20 attempt 2024-02-25 - repair 2024-03-06 - tagged\n\
    807 detected 2024-02-20 attempt 2024-02-25 - repair 2024-03-06 - tagged\nend 3\n";

#[test]
fn a_working_day_of_1200_valves(rt: HostRuntime) -> Result<(), Fail> {
    let lists = lists_of(rt.alloc())?;
    let docked = readings(rt.alloc())?;
    let valves = lists.valves.as_bytes();
    let rows: [Row; 6] = [
        ("import 1 units", UNIT, 0, "receipt 0 1 1\n", ""),
        ("import 2 components", valves, 0, IMPORTED, ""),
        ("dock", &docked, 0, DOCKED, ""),
        ("check", b"", 0, "journal 10 batches 2410 facts\n", ""),
        ("show due 1 2024-02-21", b"", 0, lists.due.as_str(), ""),
        ("show tags 1 2024-02-21", b"", 0, TAGS, ""),
    ];
    let mut disk = MemoryDisk::new(rt.alloc(), EMPTY, &[])?;
    for row in &rows {
        ends(rt.alloc(), &mut disk, CALM, row)?;
    }
    Ok(())
}

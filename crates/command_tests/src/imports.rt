use crate::runs::{
    CALM, EMPTY, NEVER, Row, ends, ends_on, failing, has_told, ran, says, streams_of,
};
use disk_model::{Disk, MemoryDisk};
use std::alloc::Global;
use std::test::Fail;
use test_kit::is;

const UNIT: &[u8] = b"[[unit]]
number = 1
name = \"CRUDE\"
startup = \"2020-01-15\"
older = false
";

const OTHER_UNIT: &[u8] = b"[[unit]]
number = 2
name = \"COKER\"
startup = \"2020-01-15\"
older = false
";

const UNIT_WITH_SITE: &[u8] = b"[[unit]]
number = 1
name = \"CRUDE\"
startup = \"2020-01-15\"
older = false
site = 1
";

const VALVES: &[u8] = b"component,unit,kind,service,designation,plan,month,monomer,replaces,begin
1,1,valve,gas,none,0,1,0,0,2020-01-15
2,1,valve,light,none,0,1,0,0,2020-01-15
";

const TANK: &[u8] = b"component,unit,kind,service,designation,plan,month,monomer,replaces,begin
3,1,valve,gas,none,0,1,0,0,2020-01-15
4,1,tank,light,none,0,1,0,0,2020-01-15
";

const LEADING_ZERO: &[u8] =
    b"component,unit,kind,service,designation,plan,month,monomer,replaces,begin
01,1,valve,gas,none,0,1,0,0,2020-01-15
";

const OF_NO_UNIT: &[u8] =
    b"component,unit,kind,service,designation,plan,month,monomer,replaces,begin
3,9,valve,gas,none,0,1,0,0,2020-01-15
";

// The results of importing register files one after the other.
const REGISTER: [Row; 11] = [
    ("import 1 units", UNIT, 0, "receipt 0 1 1\n", ""),
    ("import 1 units", UNIT, 0, "receipt 0 1 1\n", ""),
    ("import 2 components", VALVES, 0, "receipt 0 2 2\n", ""),
    ("import 2 components", VALVES, 0, "receipt 0 2 2\n", ""),
    ("import 3 components", TANK, 11, "", "bad row 3\n"),
    ("import 3 components", LEADING_ZERO, 11, "", "bad row 2\n"),
    ("import 3 units", UNIT_WITH_SITE, 11, "", "bad row 1\n"),
    ("import 3 units", VALVES, 11, "", "bad row 0\n"),
    ("import 3 components", UNIT, 11, "", "bad row 1\n"),
    (
        "import 1 units",
        OTHER_UNIT,
        11,
        "conflict 1\n",
        "conflict 1\n",
    ),
    ("check", b"", 0, "journal 2 batches 3 facts\n", ""),
];

// Checks the results of runs over one disk.
fn end_each(alloc: Global, disk: &mut MemoryDisk, rows: &[Row]) -> Result<(), Fail> {
    for row in rows {
        ends(alloc, disk, CALM, row)?;
    }
    Ok(())
}

#[test]
fn a_register_is_imported(rt: HostRuntime) -> Result<(), Fail> {
    let mut disk = MemoryDisk::new(rt.alloc(), EMPTY, &[])?;
    end_each(rt.alloc(), &mut disk, &REGISTER)
}

#[test]
fn a_component_of_no_unit_is_denied(rt: HostRuntime) -> Result<(), Fail> {
    let row: Row = (
        "import 1 components",
        OF_NO_UNIT,
        11,
        "denied 1 17 P2\n",
        "denied 1 17 P2\n",
    );
    ends_on(rt.alloc(), EMPTY, &row, 17)
}

// A file of this many valves of process unit 1, the last of them of another unit.
fn valves(alloc: Global, count: u16, unit_of_last: u8) -> Result<String, Fail> {
    let mut text = String::from_str(
        alloc,
        "component,unit,kind,service,designation,plan,month,monomer,replaces,begin\n",
    )?;
    for component in 1..=count {
        let unit = if component == count { unit_of_last } else { 1 };
        let row = format!(in alloc; "{component},{unit},valve,gas,none,0,1,0,0,2020-01-15\n")?;
        text.push_str(&row)?;
    }
    Ok(text)
}

// A disk with a journal that has process unit 1.
fn with_unit(alloc: Global) -> Result<MemoryDisk, Fail> {
    let mut disk = MemoryDisk::new(alloc, EMPTY, &[])?;
    says(alloc, &mut disk, "import 1 units", UNIT, "receipt 0 1 1\n")?;
    Ok(MemoryDisk::new(alloc, disk.bytes(), &[])?)
}

// The failing call of the input, the output and the notes; the status, the output and the notes.
type Stop<'a> = (u64, u64, u64, u8, &'a str, &'a str);

// A file of 513 facts is two batches. An error in the middle ends the import there.
const STOPS: [Stop; 5] = [
    (NEVER, NEVER, NEVER, 0, BOTH, ""),
    (0, NEVER, NEVER, 3, "", "read fault\n"),
    (1, NEVER, NEVER, 3, "", "read fault\n"),
    (NEVER, 0, NEVER, 4, "", "write fault\n"),
    (NEVER, 1, NEVER, 4, "receipt 0 2 2\n", "write fault\n"),
];

const BOTH: &str = "receipt 0 2 2\nreceipt 0 3 3\n";

// The same file, with its last fact denied.
const DENIALS: [Stop; 3] = [
    (NEVER, NEVER, NEVER, 11, UP_TO_IT, "denied 1 17 P2\n"),
    (NEVER, 1, NEVER, 11, "receipt 0 2 2\n", "denied 1 17 P2\n"),
    (NEVER, NEVER, 0, 4, UP_TO_IT, ""),
];

const UP_TO_IT: &str = "receipt 0 2 2\ndenied 1 17 P2\n";

// Checks the result of importing this file.
fn is_stopped(alloc: Global, file: &str, stop: &Stop) -> Result<(), Fail> {
    let (take, put, note, status, output, noted) = *stop;
    let mut disk = with_unit(alloc)?;
    let row: Row = (
        "import 2 components",
        file.as_bytes(),
        status,
        output,
        noted,
    );
    ends(alloc, &mut disk, failing(take, put, note), &row)?;
    Ok(())
}

// Checks the results of importing 513 valves, the last of them of this unit.
fn are_stopped(alloc: Global, unit_of_last: u8, stops: &[Stop]) -> Result<(), Fail> {
    let file = valves(alloc, 513, unit_of_last)?;
    for stop in stops {
        is_stopped(alloc, file.as_str(), stop)?;
    }
    Ok(())
}

#[test]
fn an_import_ends_where_it_is_stopped(rt: HostRuntime) -> Result<(), Fail> {
    are_stopped(rt.alloc(), 1, &STOPS)?;
    are_stopped(rt.alloc(), 9, &DENIALS)
}

// Checks that importing this file gives a disk with these bytes.
fn completes(alloc: Global, disk: &mut MemoryDisk, file: &str, bytes: &[u8]) -> Result<(), Fail> {
    says(alloc, disk, "import 2 components", file.as_bytes(), BOTH)?;
    is(disk.bytes() == bytes, "the whole journal")
}

// Checks that an import that was stopped inside a call of the disk is completed by the same command.
fn completes_behind(
    alloc: Global,
    whole: &MemoryDisk,
    file: &str,
    call: u64,
    left: &[u8],
) -> Result<(), Fail> {
    if call >= whole.calls() {
        return Err(Fail::from("a call"));
    }
    let mut disk = whole.stopped(alloc, call, left)?;
    completes(alloc, &mut disk, file, whole.bytes())
}

// The same for each call of the disk. Of a write, none of its bytes is on the disk, or one, which opens a gate.
fn completes_behind_each(alloc: Global, whole: &MemoryDisk, file: &str) -> Result<(), Fail> {
    for call in 0..whole.calls() {
        completes_behind(alloc, whole, file, call, b"")?;
        completes_behind(alloc, whole, file, call, b"\x01")?;
    }
    Ok(())
}

#[test]
fn an_import_that_was_cut_off_is_completed(rt: HostRuntime) -> Result<(), Fail> {
    let file = valves(rt.alloc(), 513, 1)?;
    let mut whole = with_unit(rt.alloc())?;
    says(
        rt.alloc(),
        &mut whole,
        "import 2 components",
        file.as_bytes(),
        BOTH,
    )?;
    completes_behind_each(rt.alloc(), &whole, file.as_str())
}

// Checks that importing a unit reports a disk error, if there was one, or gets a receipt.
fn ends_by_fault(alloc: Global, disk: &mut MemoryDisk) -> Result<(), Fail> {
    let mut streams = streams_of(alloc, UNIT, CALM)?;
    let got = ran(alloc, disk, &mut streams, "import 1 units")?;
    let fault = "disk fault\n";
    let so = if disk.faults() == 0 {
        has_told(&streams, (got, 0), "receipt 0 1 1\n", "")
    } else {
        has_told(&streams, (got, 5), "", fault) || has_told(&streams, (got, 5), fault, fault)
    };
    is(so, "import 1 units")
}

// Checks that an import can be repeated after an error of this call of the disk, if it makes that call.
fn passes_over(alloc: Global, call: u64) -> Result<(), Fail> {
    let mut disk = MemoryDisk::new(alloc, EMPTY, &[call])?;
    ends_by_fault(alloc, &mut disk)?;
    if disk.faults() > 0 {
        says(alloc, &mut disk, "import 1 units", UNIT, "receipt 0 1 1\n")?;
    }
    Ok(())
}

#[test]
fn a_fault_of_the_disk_ends_an_import(rt: HostRuntime) -> Result<(), Fail> {
    // The calls of an import on an empty journal: it syncs and reads to open the journal; later errors are replies.
    for call in 0..10 {
        passes_over(rt.alloc(), call)?;
    }
    Ok(())
}

// Checks the result of importing a file that is a comment of this length.
fn is_no_document(alloc: Global, length: usize, status: u8, noted: &str) -> Result<(), Fail> {
    let input = vec![in alloc; b'#'; length]?;
    ends_on(
        alloc,
        EMPTY,
        &("import 1 units", &input, status, "", noted),
        17,
    )
}

#[test]
fn an_input_that_is_too_large_is_not_imported(rt: HostRuntime) -> Result<(), Fail> {
    // It is a document without an array; with one more byte it is too large.
    is_no_document(rt.alloc(), 8_388_608, 11, "bad row 0\n")?;
    is_no_document(rt.alloc(), 8_388_609, 8, "input too large\n")
}

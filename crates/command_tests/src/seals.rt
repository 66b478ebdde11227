use crate::runs::{CALM, EMPTY, NEVER, Row, ends, failing, has_told, ran, says, streams_of};
use disk_model::MemoryDisk;
use std::alloc::Global;
use std::test::Fail;
use test_kit::is;

const UNITS: &[u8] = b"[[unit]]
number = 1
name = \"CRUDE\"
startup = \"2020-01-15\"
older = false

[[unit]]
number = 2
name = \"COKER\"
startup = \"2020-01-15\"
older = false
";

// Valve 1 and pumps 5 to 7 of unit 1, of which pump 7 begins later, and pump 9 of unit 2.
const COMPONENTS: &[u8] =
    b"component,unit,kind,service,designation,plan,month,monomer,replaces,begin
1,1,valve,gas,none,0,1,0,0,2020-01-15
5,1,pump,light,none,0,1,0,0,2020-01-15
6,1,pump,light,nde,0,1,0,0,2020-01-15
7,1,pump,light,none,0,1,0,0,2024-02-22
9,2,pump,light,none,0,1,0,0,2020-01-15
";

// A precision test of instrument 1.
const PRECISION: &[u8] =
    b"B\0\x01\0\0\0\x01\0\x01\x08M\x0c\0<\0\x01\0\0\x01\xf4\0\0\x01\xf4\0\0\x01\xf4\0\0\x01\xf4";

// On 2024-02-20 a calibration, and at 10:00 a reading of pump 5: 1,999 or 2,000 ppm.
const BELOW: &[u8] =
    b"B\0\x02\0\0\0\x01\0\x02\x07M=\x01,\0\x01\0\0\x01\xf4\x0aM=\x02X\0\x05\0\x01\0\x01\x01\0\
    \0\x07\xcf\0\0\0\0";

const AT: &[u8] =
    b"B\0\x02\0\0\0\x01\0\x02\x07M=\x01,\0\x01\0\0\x01\xf4\x0aM=\x02X\0\x05\0\x01\0\x01\x01\0\
    \0\x07\xd0\0\0\0\0";

// The same with an attempt at 10:00 or 10:01, and a reading of 20 ppm on 2024-02-21.
const TRIED_AT_ONCE: &[u8] =
    b"B\0\x02\0\0\0\x01\0\x05\x07M=\x01,\0\x01\0\0\x01\xf4\x0aM=\x02X\0\x05\0\x01\0\x01\x01\0\
    \0\x07\xd0\0\0\0\0\x0cM=\x02X\0\x05\0\x07M>\x01,\0\x01\0\0\x01\xf4\x0aM>\x02X\0\x05\0\x01\
    \0\x01\x01\0\0\0\x14\0\0\0\0";

const TRIED: &[u8] =
    b"B\0\x02\0\0\0\x01\0\x05\x07M=\x01,\0\x01\0\0\x01\xf4\x0aM=\x02X\0\x05\0\x01\0\x01\x01\0\
    \0\x07\xd0\0\0\0\0\x0cM=\x02Y\0\x05\0\x07M>\x01,\0\x01\0\0\x01\xf4\x0aM>\x02X\0\x05\0\x01\
    \0\x01\x01\0\0\0\x14\0\0\0\0";

// Drips at pumps 5 and 6 on 2024-02-20 at 10:00: some, or designated as a leak.
const DRIPS: &[u8] = b"B\0\x02\0\0\0\x01\0\x02\x0bM=\x02X\0\x05\x01\x0bM=\x02X\0\x06\x01";

const DRIP_LEAKS: &[u8] = b"B\0\x02\0\0\0\x01\0\x02\x0bM=\x02X\0\x05\x02\x0bM=\x02X\0\x06\x02";

// A seal file and what it shows: input, status, output and note.
type Shown<'a> = (&'a [u8], u8, &'a str, &'a str);

// A disk with a journal of the register, of the precision test, and of these facts.
fn with_facts(alloc: Global, facts: &[u8]) -> Result<MemoryDisk, Fail> {
    let mut disk = MemoryDisk::new(alloc, EMPTY, &[])?;
    says(alloc, &mut disk, "import 1 units", UNITS, "receipt 0 1 1\n")?;
    says(
        alloc,
        &mut disk,
        "import 2 components",
        COMPONENTS,
        "receipt 0 2 2\n",
    )?;
    says(alloc, &mut disk, "dock", PRECISION, "receipt 1 1 3\n")?;
    if !facts.is_empty() {
        says(alloc, &mut disk, "dock", facts, "receipt 2 1 4\n")?;
    }
    Ok(MemoryDisk::new(alloc, disk.bytes(), &[])?)
}

// Checks what a command shows by seal files, over a journal with these facts, which stays as it was.
fn show_each(alloc: Global, facts: &[u8], line: &str, rows: &[Shown]) -> Result<(), Fail> {
    let mut disk = with_facts(alloc, facts)?;
    let before = MemoryDisk::new(alloc, disk.bytes(), &[])?;
    for shown in rows {
        let (input, status, output, noted) = *shown;
        ends(
            alloc,
            &mut disk,
            CALM,
            &(line, input, status, output, noted),
        )?;
        is(disk.bytes() == before.bytes(), line)?;
    }
    Ok(())
}

const FAILURE: &str = "seals 1 2024-02-21
5 sealweek 2024-02-04 missed
5 sealweek 2024-02-11 missed
5 sealweek 2024-02-18 missed
5 sealweek 2024-02-25 open
5 seal sensor detected 2024-02-20 attempt 2024-02-25 - repair 2024-03-06 -
end 5
";

const ENDED: &str = "seals 1 2024-02-21
5 sealweek 2024-02-04 missed
5 sealweek 2024-02-11 missed
5 sealweek 2024-02-18 missed
5 sealweek 2024-02-25 open
5 seal sensor detected 2024-02-20 attempt 2024-02-25 - repair 2024-03-06 2024-02-20
end 5
";

// A sensor's failure, and its end in each place of the file.
const FAILURES: [Shown; 8] = [
    (
        b"what,component,day,minute,value
seal,5,2024-02-01,0,on
sensor,5,2024-02-20,600,present
",
        0,
        FAILURE,
        "",
    ),
    (
        b"what,component,day,minute,value
sensor,5,2024-02-20,600,present
seal,5,2024-02-01,0,on
",
        0,
        FAILURE,
        "",
    ),
    (
        b"what,component,day,minute,value
seal,5,2024-02-01,0,on
sensor,5,2024-02-20,600,present
sensor,5,2024-02-20,900,gone
",
        0,
        ENDED,
        "",
    ),
    (
        b"what,component,day,minute,value
seal,5,2024-02-01,0,on
sensor,5,2024-02-20,900,gone
sensor,5,2024-02-20,600,present
",
        0,
        ENDED,
        "",
    ),
    (
        b"what,component,day,minute,value
sensor,5,2024-02-20,600,present
seal,5,2024-02-01,0,on
sensor,5,2024-02-20,900,gone
",
        0,
        ENDED,
        "",
    ),
    (
        b"what,component,day,minute,value
sensor,5,2024-02-20,600,present
sensor,5,2024-02-20,900,gone
seal,5,2024-02-01,0,on
",
        0,
        ENDED,
        "",
    ),
    (
        b"what,component,day,minute,value
sensor,5,2024-02-20,900,gone
seal,5,2024-02-01,0,on
sensor,5,2024-02-20,600,present
",
        0,
        ENDED,
        "",
    ),
    (
        b"what,component,day,minute,value
sensor,5,2024-02-20,900,gone
sensor,5,2024-02-20,600,present
seal,5,2024-02-01,0,on
",
        0,
        ENDED,
        "",
    ),
];

#[test]
fn a_failure_of_a_sensor_is_shown(rt: HostRuntime) -> Result<(), Fail> {
    show_each(rt.alloc(), b"", "seals 1 2024-02-21", &FAILURES)
}

const NOTHING: &str = "seals 1 2024-02-21\nend 0\n";

const SEALED: &str = "seals 1 2024-02-21\n5 sealweek 2024-02-25 open\nend 1\n";

// Files of several forms, and those that have no view.
const FILES: [Shown; 14] = [
    (b"what,component,day,minute,value\n", 0, NOTHING, ""),
    (b"what,component,day,minute,value", 0, NOTHING, ""),
    (
        b"what,component,day,minute,value\r\nseal,5,2024-02-19,0,on\r\n",
        0,
        SEALED,
        "",
    ),
    (
        b"\xef\xbb\xbf\"what\",component,day,minute,value\n\n\"seal\",5,2024-02-19,\"0\",on",
        0,
        SEALED,
        "",
    ),
    // Rows of later days have no effect, but a component must be a pump of the unit.
    (
        b"what,component,day,minute,value\nseal,5,2024-02-22,0,on\n",
        0,
        NOTHING,
        "",
    ),
    (
        b"what,component,day,minute,value\nseal,7,2024-02-23,0,on\n",
        11,
        "",
        "bad row 2\n",
    ),
    (
        b"what,component,day,minute,value\nseal,1,2024-02-01,0,on\n",
        11,
        "",
        "bad row 2\n",
    ),
    (
        b"what,component,day,minute,value\nseal,5,2024-02-01,0,on\nseal,9,2024-02-01,0,on\n",
        11,
        "",
        "bad row 3\n",
    ),
    (
        b"what,component,day,minute,value\nseal,11,2024-02-01,0,on\nseal,1,2024-02-01,0,on\n",
        11,
        "",
        "bad row 2\n",
    ),
    (
        b"what,component,day,minute,value\nseal,5,2024-02-01,0,on\nseal,5,2024-02-01,0,on\n",
        11,
        "",
        "bad row 3\n",
    ),
    // A bad record comes before one whose component is no pump of the unit.
    (
        b"what,component,day,minute,value\nseal,1,2024-02-01,0,on\nseal,5,2024-02-01,0,yes\n",
        11,
        "",
        "bad row 3\n",
    ),
    (b"", 11, "", "bad row 1\n"),
    (b"seal,5,2024-02-01,0,on\n", 11, "", "bad row 1\n"),
    (
        b"what;component;day;minute;value\nseal;5;2024-02-01;0;on\n",
        11,
        "",
        "bad row 1\n",
    ),
];

#[test]
fn files_have_rows_or_a_bad_one(rt: HostRuntime) -> Result<(), Fail> {
    show_each(rt.alloc(), b"", "seals 1 2024-02-21", &FILES)
}

// The process unit is looked for before the rows.
const NO_UNIT: [Shown; 2] = [
    (
        b"what,component,day,minute,value\n",
        11,
        "",
        "no such unit\n",
    ),
    (b"what\n", 11, "", "no such unit\n"),
];

#[test]
fn there_is_no_such_unit(rt: HostRuntime) -> Result<(), Fail> {
    show_each(rt.alloc(), b"", "seals 3 2024-02-21", &NO_UNIT)?;
    show_each(rt.alloc(), b"", "seals 255 2024-02-21", &NO_UNIT)?;
    show_each(rt.alloc(), b"", "seals 1 2020-01-14", &NO_UNIT)
}

// Other words are no command, and nothing is read.
const NO_COMMAND: [Shown; 1] = [(b"", 2, "", "usage: ldar JOURNAL COMMAND\n")];

#[test]
fn other_words_are_no_command(rt: HostRuntime) -> Result<(), Fail> {
    show_each(rt.alloc(), b"", "seals 256 2024-02-21", &NO_COMMAND)?;
    show_each(rt.alloc(), b"", "seals 1 2024-02-30", &NO_COMMAND)?;
    show_each(rt.alloc(), b"", "seals 1", &NO_COMMAND)?;
    show_each(rt.alloc(), b"", "seals 1 2024-02-21 5", &NO_COMMAND)
}

const SEAL: &[u8] = b"what,component,day,minute,value
seal,5,2024-02-19,0,on
seal,6,2024-02-19,0,on
";

// The pump is unsealed in the last minute of the day of the leak.
const UNSEALED: &[u8] = b"what,component,day,minute,value
seal,5,2024-02-19,0,on
seal,5,2024-02-20,1439,off
";

const READING: &str = "seals 1 2024-02-22
5 sealweek 2024-02-25 open
5 seal reading detected 2024-02-20 attempt 2024-02-25 - repair 2024-03-06 -
6 sealweek 2024-02-25 open
end 3
";

const REPAIRED: &str = "seals 1 2024-02-22
5 sealweek 2024-02-25 open
5 seal reading detected 2024-02-20 attempt 2024-02-25 2024-02-20 repair 2024-03-06 2024-02-21
6 sealweek 2024-02-25 open
end 3
";

const NO_LEAK: &str = "seals 1 2024-02-22
5 sealweek 2024-02-25 open
6 sealweek 2024-02-25 open
end 2
";

const FOLLOWED: &str = "seals 1 2024-02-22
5 sealweek 2024-02-25 done 2024-02-20
5 sealdrip 2024-02-25 open
6 sealweek 2024-02-25 done 2024-02-20
6 sealdrip 2024-02-25 open
end 4
";

// Drips at a pump with the designation of no detectable emissions are no leak.
const DRIPPING: &str = "seals 1 2024-02-22
5 sealweek 2024-02-25 done 2024-02-20
5 seal drip detected 2024-02-20 attempt 2024-02-25 - repair 2024-03-06 -
6 sealweek 2024-02-25 done 2024-02-20
6 sealdrip 2024-02-25 open
end 4
";

// Facts of the pumps, a seal file, and what it shows.
const EVENTS: [(&[u8], &[u8], &str); 8] = [
    (b"", SEAL, NO_LEAK),
    (BELOW, SEAL, NO_LEAK),
    (AT, SEAL, READING),
    (AT, UNSEALED, "seals 1 2024-02-22\nend 0\n"),
    (TRIED_AT_ONCE, SEAL, READING),
    (TRIED, SEAL, REPAIRED),
    (DRIPS, SEAL, FOLLOWED),
    (DRIP_LEAKS, SEAL, DRIPPING),
];

#[test]
fn readings_and_inspections_are_judged(rt: HostRuntime) -> Result<(), Fail> {
    for (facts, file, text) in EVENTS {
        show_each(
            rt.alloc(),
            facts,
            "seals 1 2024-02-22",
            &[(file, 0, text, "")],
        )?;
    }
    Ok(())
}

// The failing call of the input, the output and the notes, and how the command ends.
const STOPS: [(u64, u64, u64, u8, &str, &str); 5] = [
    (NEVER, NEVER, NEVER, 0, SEALED, ""),
    (0, NEVER, NEVER, 3, "", "read fault\n"),
    (1, NEVER, NEVER, 3, "", "read fault\n"),
    (NEVER, 0, NEVER, 4, "", "write fault\n"),
    (NEVER, NEVER, 0, 0, SEALED, ""),
];

#[test]
fn a_view_ends_where_it_is_stopped(rt: HostRuntime) -> Result<(), Fail> {
    let file = b"what,component,day,minute,value\nseal,5,2024-02-19,0,on\n";
    for (take, put, note, status, output, noted) in STOPS {
        let mut disk = with_facts(rt.alloc(), b"")?;
        let row: Row = ("seals 1 2024-02-21", file, status, output, noted);
        ends(rt.alloc(), &mut disk, failing(take, put, note), &row)?;
    }
    Ok(())
}

#[test]
fn an_input_that_is_too_large_is_not_shown(rt: HostRuntime) -> Result<(), Fail> {
    let most = vec![in rt.alloc(); b'#'; 8_388_608]?;
    let more = vec![in rt.alloc(); b'#'; 8_388_609]?;
    let rows: [Shown; 2] = [
        (&most, 11, "", "bad row 1\n"),
        (&more, 8, "", "input too large\n"),
    ];
    show_each(rt.alloc(), b"", "seals 1 2024-02-21", &rows)
}

// A file of 218,880 rows of pump 5, and one that seals it.
fn long_file(alloc: Global) -> Result<String, Fail> {
    let mut text = String::from_str(alloc, "what,component,day,minute,value\n")?;
    for month in 1..9 {
        for day in 10..29 {
            for minute in 0..1_440 {
                let row = format!(in alloc; "sensor,5,2023-0{month}-{day},{minute},present\n")?;
                text.push_str(&row)?;
            }
        }
    }
    text.push_str("seal,5,2024-02-19,0,on\n")?;
    Ok(text)
}

#[test]
fn a_long_file_is_shown(rt: HostRuntime) -> Result<(), Fail> {
    let file = long_file(rt.alloc())?;
    show_each(
        rt.alloc(),
        b"",
        "seals 1 2024-02-21",
        &[(file.as_bytes(), 0, SEALED, "")],
    )
}

// The pumps 11 to 1,500 of unit 1; a file that seals each; and what it shows.
fn many_pumps(alloc: Global) -> Result<(String, String, String), Fail> {
    let mut pumps = String::from_str(
        alloc,
        "component,unit,kind,service,designation,plan,month,monomer,replaces,begin\n",
    )?;
    let mut file = String::from_str(alloc, "what,component,day,minute,value\n")?;
    let mut text = String::from_str(alloc, "seals 1 2024-02-21\n")?;
    for pump in 11..1_501 {
        let entry = format!(in alloc; "{pump},1,pump,light,none,0,1,0,0,2020-01-15\n")?;
        pumps.push_str(&entry)?;
        let row = format!(in alloc; "seal,{pump},2024-02-19,0,on\n")?;
        file.push_str(&row)?;
        let line = format!(in alloc; "{pump} sealweek 2024-02-25 open\n")?;
        text.push_str(&line)?;
    }
    text.push_str("end 1490\n")?;
    Ok((pumps, file, text))
}

#[test]
fn many_pumps_are_shown(rt: HostRuntime) -> Result<(), Fail> {
    let (pumps, file, text) = many_pumps(rt.alloc())?;
    let mut disk = with_facts(rt.alloc(), b"")?;
    let mut streams = streams_of(rt.alloc(), pumps.as_bytes(), CALM)?;
    let got = ran(rt.alloc(), &mut disk, &mut streams, "import 3 components")?;
    let receipts = "receipt 0 3 4\nreceipt 0 4 5\nreceipt 0 5 6\n";
    is(has_told(&streams, (got, 0), receipts, ""), "the pumps")?;
    let row: Row = ("seals 1 2024-02-21", file.as_bytes(), 0, text.as_str(), "");
    ends(rt.alloc(), &mut disk, CALM, &row)?;
    Ok(())
}

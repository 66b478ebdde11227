ghost use Rattle.std.specs.Prelude.{◌≡◌, ◌≢◌, ◌≤◌};

use fact_kinds::{Batch, Class, Day, Designation, Fact, FactBody, Kind, Name, Service};
use register_import::{ImportError, LONGEST_TEXT, components_of, units_of};
use std::alloc::Global;
use std::test::Fail;

/// The result of an import: the facts of its batches in order, or the bad row.
fn said(
    alloc: Global,
    import: Result<Vec<Batch>, ImportError>,
) -> Result<Result<Vec<Fact>, u32>, Fail> {
    match import {
        Ok(batches) => {
            let mut facts = Vec::new(alloc);
            for batch in &batches {
                facts.extend_from_slice(batch.facts.as_slice())?;
            }
            Ok(Ok(facts))
        }
        Err(ImportError::Row { at }) => Ok(Err(at)),
        Err(ImportError::Memory) => Err("memory".into()),
    }
}

/// The result of importing a file of process units.
fn units_in(alloc: Global, text: &[u8]) -> Result<Result<Vec<Fact>, u32>, Fail> {
    if text.len() > LONGEST_TEXT {
        return Err("too long".into());
    }
    said(alloc, units_of(alloc, text, 1))
}

/// The result of importing a file of components.
fn components_in(alloc: Global, text: &[u8]) -> Result<Result<Vec<Fact>, u32>, Fail> {
    if text.len() > LONGEST_TEXT {
        return Err("too long".into());
    }
    said(alloc, components_of(alloc, text, 1))
}

/// A valve of process unit 1 in gas service from 2020-01-15 on, without a plan.
fn valve(component: u16, designation: Designation) -> Result<Fact, Fail>
    requires number { (1 ≤ component) × (component ≤ 60_000) }
    requires no_plan { designation ≢ Designation.Unsafe }
{
    let day = Day::read(b"2020-01-15").ok_or("a day")?;
    let class = Class {
        service: Service::Gas,
        designation,
        plan: 0,
        month: 1,
    };
    Ok(Fact {
        day,
        minute: 0,
        body: FactBody::Component {
            component,
            unit: 1,
            kind: Kind::Valve,
            monomer: false,
            replaces: false,
            class,
        },
    })
}

const HEADER: &str = "component,unit,kind,service,designation,plan,month,monomer,replaces,begin";

const CRUDE: &str =
    "[[unit]]\nnumber = 1\nname = \"CRUDE\"\nstartup = \"2020-01-15\"\nolder = false\n";

#[test]
fn a_unit_is_a_fact(rt: HostRuntime) -> Result<(), Fail> {
    let alloc = rt.alloc();
    let day = Day::read(b"2020-01-15").ok_or("a day")?;
    let name = Name::new(b"CRUDE").ok_or("a name")?;
    let want = Fact {
        day,
        minute: 0,
        body: FactBody::Unit {
            unit: 1,
            older: false,
            name,
        },
    };
    let texts = [
        format!(in alloc; "{CRUDE}")?,
        format!(in alloc;
            "\u{feff}# Process units\r\n[[unit]]\r\nolder = false\r\nstartup = '2020-01-15'\r\nnumber = 0x1\r\nname = \"CRUDE\""
        )?,
        format!(in alloc;
            "unit = [{{ name = \"CRUDE\", number = +1, startup = \"2020-01-15\", older = false }}]"
        )?,
    ];
    for text in &texts {
        let Ok(facts) = units_in(alloc, text.as_bytes())? else {
            return Err("a bad row".into());
        };
        assert!(rt; facts.as_slice() == [want].as_slice(), "{text}");
    }
    Ok(())
}

#[test]
fn what_is_no_array_of_units_is_row_0(rt: HostRuntime) -> Result<(), Fail> {
    let alloc = rt.alloc();
    let texts = [
        "",
        "unit = ",
        "unit = []",
        "unit = [1]",
        "unit = [{}, 1]",
        "units = [{}]",
        "[unit]\nnumber = 1\n",
        "site = 1\n[[unit]]\n",
        "[[unit]]\n[[site]]\n",
        "[[unit]]\nnumber = 1\nnumber = 1\n",
    ];
    for text in texts {
        assert_eq!(rt; units_in(alloc, text.as_bytes())?.err(), Some(0), "{text}");
    }
    assert_eq!(rt; units_in(alloc, b"# \xff")?.err(), Some(0));
    Ok(())
}

#[test]
fn the_first_bad_unit_is_told(rt: HostRuntime) -> Result<(), Fail> {
    let alloc = rt.alloc();
    let rows = [
        "",
        "number = 2, name = \"A\", startup = \"2008-01-01\"",
        "number = 2, name = \"A\", startup = \"2008-01-01\", older = true, site = 1",
        "number = 0, name = \"A\", startup = \"2008-01-01\", older = true",
        "number = 65, name = \"A\", startup = \"2008-01-01\", older = true",
        "number = -1, name = \"A\", startup = \"2008-01-01\", older = true",
        "number = 2.0, name = \"A\", startup = \"2008-01-01\", older = true",
        "number = \"2\", name = \"A\", startup = \"2008-01-01\", older = true",
        "number = 2, name = \"a\", startup = \"2008-01-01\", older = true",
        "number = 2, name = \"\", startup = \"2008-01-01\", older = true",
        "number = 2, name = \"ABCDEFGHIJKLM\", startup = \"2008-01-01\", older = true",
        "number = 2, name = \"A\", startup = 2008-01-01, older = true",
        "number = 2, name = \"A\", startup = \"2007-12-31\", older = true",
        "number = 2, name = \"A\", startup = \"2008-1-1\", older = true",
        "number = 2, name = \"A\", startup = \"2008-01-01\", older = 1",
    ];
    let good = "{ number = 1, name = \"A-1\", startup = \"2008-01-01\", older = true }";
    for row in rows {
        let text = format!(in alloc; "unit = [{good}, {{ {row} }}, {{}}]\n")?;
        assert_eq!(rt; units_in(alloc, text.as_bytes())?.err(), Some(2), "{row}");
    }
    Ok(())
}

#[test]
fn difficult_components_come_last(rt: HostRuntime) -> Result<(), Fail> {
    let alloc = rt.alloc();
    let text = format!(in alloc;
        "{HEADER}\n1,1,valve,gas,difficult,0,1,0,0,2020-01-15\n60000,1,valve,gas,none,0,1,0,0,2020-01-15\n3,1,valve,gas,difficult,0,1,0,0,2020-01-15\n4,1,valve,gas,nde,0,1,0,0,2020-01-15\n"
    )?;
    let Ok(facts) = components_in(alloc, text.as_bytes())? else {
        return Err("a bad row".into());
    };
    let want = [
        valve(60_000, Designation::Plain)?,
        valve(4, Designation::Nde)?,
        valve(1, Designation::Difficult)?,
        valve(3, Designation::Difficult)?,
    ];
    assert!(rt; facts.as_slice() == want.as_slice());
    Ok(())
}

/// The formats in which spreadsheets write a file with one valve.
#[test]
fn spreadsheets_write_it_in_their_ways(rt: HostRuntime) -> Result<(), Fail> {
    let alloc = rt.alloc();
    let want = valve(1, Designation::Plain)?;
    let texts = [
        // A byte order mark and lines that end with CRLF.
        format!(in alloc; "\u{feff}{HEADER}\r\n1,1,valve,gas,none,0,1,0,0,2020-01-15\r\n")?,
        // Lines that end with CR, except the last one.
        format!(in alloc; "{HEADER}\r1,1,valve,gas,none,0,1,0,0,2020-01-15")?,
        // Each text in quotes.
        format!(in alloc;
            "\"component\",\"unit\",\"kind\",\"service\",\"designation\",\"plan\",\"month\",\"monomer\",\"replaces\",\"begin\"\n1,1,\"valve\",\"gas\",\"none\",0,1,0,0,\"2020-01-15\"\n"
        )?,
        // A byte order mark, each field in quotes, and empty lines.
        format!(in alloc;
            "\u{feff}\"component\",unit,kind,service,designation,plan,month,monomer,replaces,begin\r\n\r\n\"1\",\"1\",\"valve\",\"gas\",\"none\",\"0\",\"1\",\"0\",\"0\",\"2020-01-15\"\r\n\r\n\r\n"
        )?,
    ];
    for text in &texts {
        let Ok(facts) = components_in(alloc, text.as_bytes())? else {
            return Err("a bad row".into());
        };
        assert!(rt; facts.as_slice() == [want].as_slice(), "{text}");
    }
    Ok(())
}

/// Text before the first row or in its place, and the bad row that is reported.
const HEADS: [(&str, u32); 10] = [
    ("", 1),
    ("\n\n", 1),
    (
        "component;unit;kind;service;designation;plan;month;monomer;replaces;begin\n",
        1,
    ),
    (
        "sep=,\ncomponent,unit,kind,service,designation,plan,month,monomer,replaces,begin\n",
        1,
    ),
    (
        "unit,component,kind,service,designation,plan,month,monomer,replaces,begin\n",
        1,
    ),
    (
        "component,unit,kind,service,designation,plan,month,monomer,replaces\n",
        1,
    ),
    (
        "component,unit,kind,service,designation,plan,month,monomer,replaces,begin,\n",
        1,
    ),
    (
        "component,unit,kind,service,designation,plan,month,monomer,replaces,Begin\n",
        1,
    ),
    (
        "component,unit,kind,service,designation,plan,month,monomer,replaces,begin",
        2,
    ),
    (
        "component,unit,kind,service,designation,plan,month,monomer,replaces,begin\n\n",
        2,
    ),
];

#[test]
fn a_file_without_its_header_or_rows_is_told(rt: HostRuntime) -> Result<(), Fail> {
    let alloc = rt.alloc();
    for (text, row) in HEADS {
        assert_eq!(rt;
            components_in(alloc, text.as_bytes())?.err(),
            Some(row),
            "{text}"
        );
    }
    // A file in UTF-16.
    assert_eq!(rt;
        components_in(alloc, b"\xff\xfec\x00o\x00m\x00")?.err(),
        Some(1)
    );
    Ok(())
}

/// Rows that are all bad.
const BAD_ROWS: [&str; 31] = [
    "01,1,valve,gas,none,0,1,0,0,2020-01-15",
    "0,1,valve,gas,none,0,1,0,0,2020-01-15",
    "60001,1,valve,gas,none,0,1,0,0,2020-01-15",
    "+1,1,valve,gas,none,0,1,0,0,2020-01-15",
    " 1,1,valve,gas,none,0,1,0,0,2020-01-15",
    ",1,valve,gas,none,0,1,0,0,2020-01-15",
    "18446744073709551617,1,valve,gas,none,0,1,0,0,2020-01-15",
    "1,0,valve,gas,none,0,1,0,0,2020-01-15",
    "1,65,valve,gas,none,0,1,0,0,2020-01-15",
    "1,1,tank,gas,none,0,1,0,0,2020-01-15",
    "1,1,Valve,gas,none,0,1,0,0,2020-01-15",
    "1,1,valve,steam,none,0,1,0,0,2020-01-15",
    "1,1,valve,gas,,0,1,0,0,2020-01-15",
    "1,1,valve,gas,none,1,1,0,0,2020-01-15",
    "1,1,valve,gas,unsafe,0,1,0,0,2020-01-15",
    "1,1,valve,gas,unsafe,61,1,0,0,2020-01-15",
    "1,1,valve,gas,none,0,0,0,0,2020-01-15",
    "1,1,valve,gas,none,0,4,0,0,2020-01-15",
    "1,1,valve,gas,none,0,1,2,0,2020-01-15",
    "1,1,valve,gas,none,0,1,0,TRUE,2020-01-15",
    "1,1,valve,gas,none,0,1,0,0,15.01.2020",
    "1,1,valve,gas,none,0,1,0,0,1/15/2020",
    "1,1,valve,gas,none,0,1,0,0,2020-1-15",
    "1,1,valve,gas,none,0,1,0,0,2007-12-31",
    "1,1,valve,gas,none,0,1,0,0,2020-01-15,",
    "1,1,valve,gas,none,0,1,0,0",
    "1;1;valve;gas;none;0;1;0;0;2020-01-15",
    "1,1,\"valve \",gas,none,0,1,0,0,2020-01-15",
    "1,1,\"val\nve\",gas,none,0,1,0,0,2020-01-15",
    "1,1,\"valve,gas,none,0,1,0,0,2020-01-15",
    ",,,,,,,,,",
];

#[test]
fn the_first_bad_component_is_told(rt: HostRuntime) -> Result<(), Fail> {
    let alloc = rt.alloc();
    for row in BAD_ROWS {
        let text = format!(in alloc;
            "{HEADER}\n2,1,valve,gas,none,0,1,0,0,2020-01-15\n{row}\n{row}\n"
        )?;
        assert_eq!(rt;
            components_in(alloc, text.as_bytes())?.err(),
            Some(3),
            "{row}"
        );
    }
    Ok(())
}

/// The text of `docs/units.toml`.
const UNITS: &str = "# The process units of an office. Each has these four keys and no others:
#   number    1 to 64
#   name      1 to 12 capital letters, digits and hyphens
#   startup   the day of its initial startup in quotes, from 2008-01-01 to 2099-12-31
#   older     true where the share of its valves that are difficult to monitor has no bound (40 CFR 60.482-7a(h)(2))

[[unit]]
number = 1
name = \"CRUDE\"
startup = \"2020-01-15\"
older = false

[[unit]]
number = 2
name = \"COKER-2\"
startup = \"2016-06-01\"
older = true
";

/// The text of `docs/components.csv`.
const COMPONENTS: &str = "component,unit,kind,service,designation,plan,month,monomer,replaces,begin
1,1,valve,gas,none,0,1,0,0,2020-01-15
2,1,valve,light,none,0,2,0,0,2020-01-15
3,1,valve,gas,unsafe,12,3,0,0,2020-01-15
4,1,pump,light,none,0,1,0,0,2020-01-15
5,1,pump,light,none,0,1,1,0,2020-01-15
6,1,pump,heavy,none,0,1,0,0,2020-01-15
7,1,compressor,gas,nde,0,1,0,0,2020-01-15
8,1,relief,gas,none,0,1,0,0,2020-01-15
9,2,valve,gas,difficult,0,1,0,0,2016-06-01
10,2,valve,vacuum,none,0,1,0,0,2016-06-01
11,2,valve,under300,none,0,1,0,0,2016-06-01
12,2,valve,gas,nde,0,2,0,1,2024-02-20
";

#[test]
fn the_templates_are_read_as_they_are(rt: HostRuntime) -> Result<(), Fail> {
    let alloc = rt.alloc();
    let Ok(units) = units_in(alloc, UNITS.as_bytes())? else {
        return Err("a bad row".into());
    };
    let Ok(components) = components_in(alloc, COMPONENTS.as_bytes())? else {
        return Err("a bad row".into());
    };
    assert_eq!(rt; (units.len(), components.len()), (2, 12));
    Ok(())
}

#[test]
fn batches_have_512_facts(rt: HostRuntime) -> Result<(), Fail> {
    let alloc = rt.alloc();
    // The number of rows and of batches, and the last batch's number of facts and its number.
    let cases = [
        (1, 1, 1, 4_000_000_000),
        (512, 1, 512, 4_000_000_000),
        (513, 2, 1, 4_000_000_001),
        (1025, 3, 1, 4_000_000_002),
    ];
    for (rows, count, last, number) in cases {
        let mut text = format!(in alloc; "{HEADER}\n")?;
        for row in 1..=rows {
            let line = format!(in alloc; "{row},1,valve,gas,none,0,1,0,0,2020-01-15\n")?;
            text.push_str(line.as_str())?;
        }
        if text.as_bytes().len() > LONGEST_TEXT {
            return Err("too long".into());
        }
        let Ok(batches) = components_of(alloc, text.as_bytes(), 4_000_000_000) else {
            return Err("no batches".into());
        };
        assert_eq!(rt; batches.len(), count, "{rows} rows");
        let batch = batches.last().ok_or("a batch")?;
        assert_eq!(rt; batch.facts.as_slice().len(), last, "{rows} rows");
        assert_eq!(rt; (batch.handheld, batch.number), (0, number), "{rows} rows");
    }
    Ok(())
}

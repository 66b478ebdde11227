ghost use Rattle.std.specs.Prelude.{None};

use disk_model::{Memory, MemoryDisk};
use fact_kinds::Day;
use ldar_law::{Amended, Cells, Filed, Items, MonthCells};
use ldar_ports::{ListSource, StampedSink};
use office_commands::run;
use report_filing::{Filing, FilingFault, MapFiling, amended_cells};
use report_table::{InMemory, TableFiling};
use std::alloc::Global;
use std::test::Fail;
use test_kit::words_of;

// Process unit 1 with valve 1, a precision test, and a leak of 2024-02-20 that is repaired on 2024-03-07, one day late.
const OVERDUE: [u8; 154] =
    *b"B\0\0\0\0\0\x01\0\x02\x01Gd\0\0\x01\0CRUDE\0\0\0\0\0\0\0\x02Gd\0\0\0\x01\x01\x01\0\0\x01\0\0\x01\
    B\0\x01\0\0\0\x01\0\x01\x08M\x0c\0<\0\x01\0\0\x01\xf4\0\0\x01\xf4\0\0\x01\xf4\0\0\x01\xf4\
    B\0\x02\0\0\0\x01\0\x05\x07M=\x01,\0\x01\0\0\x01\xf4\x0aM=\x02g\0\x01\0\x01\0\x01\x01\0\0\x02l\0\0\0\0\
    \x0cM?\x02X\0\x01\x01\x07MM\x01,\0\x01\0\0\x01\xf4\x0aMM\x02X\0\x01\0\x01\0\x01\x01\0\0\0\x14\0\0\0\0";

// The late batch: a calibration, and a reading of 20 on 2024-03-06, by which the repair was in time.
const IN_TIME: [u8; 40] =
    *b"B\0\x02\0\0\0\x02\0\x02\x07ML\x01,\0\x01\0\0\x01\xf4\x0aML\x02X\0\x01\0\x01\0\x01\x01\0\0\0\x14\0\0\0\0";

const FILE: &str = "file 1 8 2024-03-31";

// The number of a call that is never made.
const NEVER: u64 = u64::MAX;

// A filing that exposes no reports. Its last revision cannot be read, or has the greatest number, or a new one cannot be added.
#[derive(Drop)]
struct Stub {
    fails: bool,
    last: Option<Day>,
    faults: u64,
}

impl Filing for Stub {
    ghost on_file = { λ f. None };

    ghost faults = { λ f. f.faults };

    fn latest(&mut self, alloc: Global, unit: u8, half: u16) -> Result<Option<Filed>, FilingFault> {
        if self.fails {
            self.faults = self.faults.saturating_add(1);
            return Err(FilingFault::Failed);
        }
        let Some(day) = self.last else {
            return Ok(None);
        };
        Ok(Some(Filed {
            unit,
            half,
            revision: u32::MAX,
            day,
            cells: Cells {
                months: MonthCells::new([0; 36]),
                delays: Items::new(Vec::new(alloc)),
                stops: Items::new(Vec::new(alloc)),
            },
        }))
    }

    fn revision(
        &mut self,
        alloc: Global,
        unit: u8,
        half: u16,
        revision: u32,
    ) -> Result<Option<Filed>, FilingFault> {
        let last = self.latest(alloc, unit, half)?;
        Ok(last.filter(|filed| filed.revision == revision))
    }

    fn put(&mut self, _alloc: Global, _filed: &Filed) -> Result<(), FilingFault> {
        self.faults = self.faults.saturating_add(1);
        Err(FilingFault::Failed)
    }
}

// The output and the notes of a run.
#[derive(Drop)]
struct Sinks {
    output: StampedSink,
    notes: StampedSink,
}

impl Sinks {
    // Sinks whose output fails at this call.
    fn new(alloc: Global, failing: u64) -> Result<Sinks, Memory> {
        Ok(Sinks {
            output: StampedSink::new(alloc, &[failing])?,
            notes: StampedSink::new(alloc, &[])?,
        })
    }

    // Whether these two texts were written.
    fn say(&self, alloc: Global, output: &str, note: &str) -> Result<bool, Memory> {
        let put = self.output.bytes(alloc)?;
        let noted = self.notes.bytes(alloc)?;
        Ok(put.as_slice() == output.as_bytes() && noted.as_slice() == note.as_bytes())
    }
}

// A source with this input in one piece.
fn source_of(alloc: Global, input: &[u8]) -> Result<ListSource, Memory> {
    let mut pieces = Vec::new(alloc);
    pieces.push(Vec::from_slice(alloc, input)?)?;
    ListSource::new(alloc, &pieces, &[])
}

// The status of a run with these words. All runs in this file use it.
fn ran<F: Filing>(
    alloc: Global,
    disk: &mut MemoryDisk,
    filing: &mut F,
    sinks: &mut Sinks,
    line: &str,
    input: &[u8],
) -> Result<u8, Memory> {
    let words = words_of(alloc, line)?;
    let mut source = source_of(alloc, input)?;
    Ok(run(
        alloc,
        &words,
        &mut source,
        &mut sinks.output,
        &mut sinks.notes,
        disk,
        filing,
    ))
}

// Whether a run without input has this result.
fn tells<F: Filing>(
    alloc: Global,
    disk: &mut MemoryDisk,
    filing: &mut F,
    line: &str,
    want: (u8, &str, &str),
) -> Result<bool, Memory> {
    let mut sinks = Sinks::new(alloc, NEVER)?;
    let status = ran(alloc, disk, filing, &mut sinks, line, &[])?;
    let said = sinks.say(alloc, want.1, want.2)?;
    Ok(said && status == want.0)
}

// Whether these batches are kept.
fn keeps<F: Filing>(
    alloc: Global,
    disk: &mut MemoryDisk,
    filing: &mut F,
    input: &[u8],
    lines: &str,
) -> Result<bool, Memory> {
    let mut sinks = Sinks::new(alloc, NEVER)?;
    let status = ran(alloc, disk, filing, &mut sinks, "dock", input)?;
    let said = sinks.say(alloc, lines, "")?;
    Ok(said && status == 0)
}

// Whether a journal is created and keeps the overdue repair.
fn is_overdue<F: Filing>(
    alloc: Global,
    disk: &mut MemoryDisk,
    filing: &mut F,
) -> Result<bool, Memory> {
    let lines = "receipt 0 1 1\nreceipt 1 1 2\nreceipt 2 1 3\n";
    let made = tells(alloc, disk, filing, "init", (0, "", ""))?;
    Ok(made && keeps(alloc, disk, filing, &OVERDUE, lines)?)
}

// Whether the report is filed once, not again with the same cells, and again after the late batch is kept.
fn is_filed_twice<F: Filing>(
    alloc: Global,
    disk: &mut MemoryDisk,
    filing: &mut F,
) -> Result<bool, Memory> {
    let same = "same as revision 1\n";
    let first = is_overdue(alloc, disk, filing)?
        && tells(alloc, disk, filing, FILE, (0, "filed 1 8 1\n", ""))?
        && tells(alloc, disk, filing, FILE, (11, "", same))?;
    Ok(
        first
            && keeps(alloc, disk, filing, &IN_TIME, "receipt 2 2 4\n")?
            && tells(alloc, disk, filing, FILE, (0, "filed 1 8 2\n", ""))?,
    )
}

// Whether the second revision amends exactly this number of the first.
fn amends<F: Filing>(alloc: Global, filing: &mut F, want: Amended) -> Result<bool, Memory> {
    let Ok(Some(first)) = filing.revision(alloc, 1, 8, 1) else {
        return Ok(false);
    };
    let Ok(Some(second)) = filing.revision(alloc, 1, 8, 2) else {
        return Ok(false);
    };
    let amended = amended_cells(alloc, &first.cells, &second.cells)?;
    Ok(amended.as_slice() == [want].as_slice())
}

// Whether the report is filed twice with this filing, with one cell amended.
fn is_amended<F: Filing>(alloc: Global, filing: &mut F) -> Result<bool, Memory> {
    let mut disk = MemoryDisk::new(alloc, &[], &[])?;
    // Month 6 is March, and column 2 is the valves with a late repair.
    let want = Amended {
        month: 6,
        column: 2,
        old: 1,
        new: 0,
    };
    Ok(is_filed_twice(alloc, &mut disk, filing)? && amends(alloc, filing, want)?)
}

// Whether comparing the two revisions of the report, and revisions that are not on file, has these results.
fn is_compared<F: Filing>(
    alloc: Global,
    disk: &mut MemoryDisk,
    filing: &mut F,
) -> Result<bool, Memory> {
    let usage = "usage: ldar JOURNAL COMMAND\n";
    let changed = "amended 1 8 1 2\nmonth 6 column 2 from 1 to 0\nend 1\n";
    let changed_back = "amended 1 8 2 1\nmonth 6 column 2 from 0 to 1\nend 1\n";
    let rows = [
        ("amended 1 8 1 2", (0, changed, "")),
        ("amended 1 8 2 1", (0, changed_back, "")),
        ("amended 1 8 2 2", (0, "amended 1 8 2 2\nend 0\n", "")),
        ("amended 1 8 1 3", (11, "", "no such revision 3\n")),
        ("amended 1 8 4 3", (11, "", "no such revision 4\n")),
        ("amended 1 7 1 2", (11, "", "no such revision 1\n")),
        ("amended 2 8 1 2", (11, "", "no such revision 1\n")),
        (
            "amended 255 65535 4294967295 1",
            (11, "", "no such revision 4294967295\n"),
        ),
        ("amended 1 8 0 1", (2, "", usage)),
        ("amended 1 8 1 0", (2, "", usage)),
        ("amended 1 8 1 4294967296", (2, "", usage)),
        ("amended 256 8 1 2", (2, "", usage)),
        ("amended 1 65536 1 2", (2, "", usage)),
        ("amended 1 8 01 2", (2, "", usage)),
        ("amended 1 8 1 -2", (2, "", usage)),
        ("amended 1 8 1", (2, "", usage)),
        ("amended 1 8 1 2 3", (2, "", usage)),
        ("amend 1 8 1 2", (2, "", usage)),
    ];
    let mut all = true;
    for (line, want) in rows {
        all = all && tells(alloc, disk, filing, line, want)?;
    }
    Ok(all)
}

#[test]
fn two_revisions_are_compared(rt: HostRuntime) -> Result<(), Fail> {
    let alloc = rt.alloc();
    let mut disk = MemoryDisk::new(alloc, &[], &[])?;
    let mut in_map = MapFiling::new(alloc);
    assert!(rt; is_filed_twice(alloc, &mut disk, &mut in_map)?);
    // The disk has no journal; `amended` does not read it.
    assert!(rt; is_compared(alloc, &mut MemoryDisk::new(alloc, &[], &[])?, &mut in_map)?);
    let mut disk = MemoryDisk::new(alloc, &[], &[])?;
    let mut in_table = TableFiling::new(InMemory::new());
    assert!(rt; is_filed_twice(alloc, &mut disk, &mut in_table)?);
    assert!(rt; is_compared(alloc, &mut disk, &mut in_table)?);
    Ok(())
}

// The table fails if its steps are limited, and the output at its first call.
#[test]
fn a_comparison_that_fails_leaves_the_reports(rt: HostRuntime) -> Result<(), Fail> {
    let alloc = rt.alloc();
    let mut disk = MemoryDisk::new(alloc, &[], &[])?;
    let mut filing = TableFiling::new(InMemory::new());
    assert!(rt; is_filed_twice(alloc, &mut disk, &mut filing)?);
    filing.set_step_limit(Some(0));
    let fault = (10, "", "filing fault\n");
    assert!(rt; tells(alloc, &mut disk, &mut filing, "amended 1 8 1 2", fault)?);
    assert!(rt; tells(alloc, &mut disk, &mut filing, FILE, fault)?);
    filing.set_step_limit(None);
    assert!(rt; is_compared(alloc, &mut disk, &mut filing)?);
    let mut sinks = Sinks::new(alloc, 0)?;
    assert_eq!(rt;
        ran(
            alloc,
            &mut disk,
            &mut filing,
            &mut sinks,
            "amended 1 8 1 2",
            &[]
        )?,
        4
    );
    assert!(rt; sinks.say(alloc, "", "write fault\n")?);
    let same = (11, "", "same as revision 2\n");
    assert!(rt; tells(alloc, &mut disk, &mut filing, FILE, same)?);
    Ok(())
}

#[test]
fn a_report_is_filed_again_when_late_facts_amend_it(rt: HostRuntime) -> Result<(), Fail> {
    let in_map = is_amended(rt.alloc(), &mut MapFiling::new(rt.alloc()))?;
    let in_table = is_amended(rt.alloc(), &mut TableFiling::new(InMemory::new()))?;
    assert!(rt; in_map && in_table);
    Ok(())
}

// Whether each of these lines is refused in this way, with a filing that stays empty.
fn are_refused(
    alloc: Global,
    disk: &mut MemoryDisk,
    filing: &mut MapFiling,
) -> Result<bool, Memory> {
    let usage = "usage: ldar JOURNAL COMMAND\n";
    let rows = [
        ("file 9 8 2024-03-31", 11, "no such unit\n"),
        ("file 1 0 2024-03-31", 11, "no such half\n"),
        ("file 1 9 2024-03-31", 11, "no such half\n"),
        ("file 256 8 2024-03-31", 2, usage),
        ("file 1 65536 2024-03-31", 2, usage),
        ("file 1 8 2024-02-30", 2, usage),
        ("file 1 8 -2", 2, usage),
        ("file 1 8", 2, usage),
        ("filed 1 8 2024-03-31", 2, usage),
    ];
    let mut all = true;
    for (line, status, note) in rows {
        all = all && tells(alloc, disk, filing, line, (status, "", note))?;
    }
    Ok(all && filing.as_slice().is_empty())
}

#[test]
fn what_there_is_none_of_is_not_filed(rt: HostRuntime) -> Result<(), Fail> {
    let mut disk = MemoryDisk::new(rt.alloc(), &[], &[])?;
    let mut filing = MapFiling::new(rt.alloc());
    let shut = (7, "", "not a journal\n");
    let refused = tells(rt.alloc(), &mut disk, &mut filing, FILE, shut)?
        && is_overdue(rt.alloc(), &mut disk, &mut filing)?
        && are_refused(rt.alloc(), &mut disk, &mut filing)?;
    assert!(rt; refused);
    Ok(())
}

// Whether `file` with this filing has this result and this count of errors.
fn ends_by(
    alloc: Global,
    disk: &mut MemoryDisk,
    filing: &mut Stub,
    want: (u8, &str, &str),
    faults: u64,
) -> Result<bool, Memory> {
    let told = is_overdue(alloc, disk, filing)? && tells(alloc, disk, filing, FILE, want)?;
    Ok(told && filing.faults == faults)
}

#[test]
fn a_filing_that_fails_or_is_full_is_told(rt: HostRuntime) -> Result<(), Fail> {
    let day = Day::read(b"2024-03-31").ok_or("day")?;
    // Whether the first call fails, the day of the last revision, and the number of errors.
    let cases = [
        (true, None, (10, "", "filing fault\n"), 1),
        (false, None, (10, "", "filing fault\n"), 1),
        (false, Some(day), (11, "", "no revision left\n"), 0),
    ];
    for (fails, last, want, faults) in cases {
        let mut disk = MemoryDisk::new(rt.alloc(), &[], &[])?;
        let mut filing = Stub {
            fails,
            last,
            faults: 0,
        };
        let told = ends_by(rt.alloc(), &mut disk, &mut filing, want, faults)?;
        assert!(rt; told);
    }
    Ok(())
}

// Whether the report is on file although its line could not be written.
fn is_filed_untold(
    alloc: Global,
    disk: &mut MemoryDisk,
    filing: &mut MapFiling,
) -> Result<bool, Memory> {
    let overdue = is_overdue(alloc, disk, filing)?;
    let mut sinks = Sinks::new(alloc, 0)?;
    let status = ran(alloc, disk, filing, &mut sinks, FILE, &[])?;
    let said = sinks.say(alloc, "", "write fault\n")?;
    Ok(overdue && said && status == 4 && filing.as_slice().len() == 1)
}

#[test]
fn a_report_is_on_file_before_it_is_told(rt: HostRuntime) -> Result<(), Fail> {
    let mut disk = MemoryDisk::new(rt.alloc(), &[], &[])?;
    let mut filing = MapFiling::new(rt.alloc());
    let same = (11, "", "same as revision 1\n");
    let untold = is_filed_untold(rt.alloc(), &mut disk, &mut filing)?
        && tells(rt.alloc(), &mut disk, &mut filing, FILE, same)?;
    assert!(rt; untold);
    Ok(())
}

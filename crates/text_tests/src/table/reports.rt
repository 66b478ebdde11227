ghost use Rattle.std.specs.Prelude.{None};

use crate::shared::path_of;
use fact_kinds::{Key, Name};
use ldar_days::Day;
use ldar_law::{Amended, Cells, DelayEntry, DelayLine, Items, MonthCells, Report, Stop, Until};
use report_filing::{FileError, Filing, amended_cells, file_report};
use report_table::{AtPath, Error, ErrorCode, FiledRow, InMemory, Table, TableFiling};
use std::alloc::Global;
use std::fs;
use std::test::Fail;
use test_kit::day;

/// The line of a repair that is delayed until this due day.
fn line(until: Until, expected: Option<Day>) -> Result<DelayLine, Fail> {
    let key = Key {
        day: day("2024-02-21")?,
        minute: 1_439,
        handheld: 65_535,
        number: 4_294_967_295,
        index: 258,
    };
    let delay = DelayEntry {
        key,
        ground: 5,
        signer: 513,
        expected,
    };
    Ok(DelayLine {
        component: 1_027,
        detected: day("2024-02-20")?,
        delay,
        until,
        closed: expected,
    })
}

/// A report on unit 1 and this half as of 2024-03-31, with this number in March.
fn report(alloc: Global, half: u16, late_in_march: u32) -> Result<Report, Fail> {
    let last = day("2024-03-20")?;
    let mut months = [0; 36];
    months[24] = 4_294_967_294;
    months[31] = late_in_march;
    let delays = vec![in alloc;
        line(Until::Date(last), Some(last))?,
        line(Until::Shutdown, None)?,
        line(Until::WhileIsolated, None)?,
        line(Until::NoDate, None)?,
    ]?;
    let stops = vec![in alloc;
        Stop {
            first: day("2024-03-01")?,
            last
        },
    ]?;
    Ok(Report {
        unit: 1,
        name: Name::new(b"CRUDE").ok_or("name")?,
        half,
        day: day("2024-03-31")?,
        cells: Cells {
            months: MonthCells::new(months),
            delays: Items::new(delays),
            stops: Items::new(stops),
        },
    })
}

/// A table with one row for half 8, which has too few bytes for its numbers.
#[derive(Drop)]
struct Spoiled;

impl Table for Spoiled {
    ghost rows = { λ t. None };

    fn set_step_limit(&mut self, _steps: Option<u64>) {}

    fn insert(&mut self, _alloc: Global, _row: &FiledRow) -> Result<(), Error> {
        Ok(())
    }

    fn latest(&mut self, alloc: Global, unit: u8, half: u16) -> Result<Option<FiledRow>, Error> {
        if half != 8 {
            return Ok(None);
        }
        Ok(Some(FiledRow {
            unit,
            half,
            revision: 1,
            day: 19_813,
            months: vec![in alloc; 0]?,
            delays: Vec::new(alloc),
            stops: Vec::new(alloc),
        }))
    }

    fn revision(
        &mut self,
        alloc: Global,
        unit: u8,
        half: u16,
        _revision: u32,
    ) -> Result<Option<FiledRow>, Error> {
        self.latest(alloc, unit, half)
    }
}

/// A table whose store cannot be opened.
#[derive(Drop)]
struct Nowhere;

impl Table for Nowhere {
    ghost rows = { λ t. None };

    fn set_step_limit(&mut self, _steps: Option<u64>) {}

    fn insert(&mut self, _alloc: Global, _row: &FiledRow) -> Result<(), Error> {
        Err(Error::SqliteFailure(ErrorCode::CannotOpen))
    }

    fn latest(&mut self, _alloc: Global, _unit: u8, _half: u16) -> Result<Option<FiledRow>, Error> {
        Err(Error::SqliteFailure(ErrorCode::CannotOpen))
    }

    fn revision(
        &mut self,
        _alloc: Global,
        _unit: u8,
        _half: u16,
        _revision: u32,
    ) -> Result<Option<FiledRow>, Error> {
        Err(Error::SqliteFailure(ErrorCode::CannotOpen))
    }
}

#[test]
fn a_report_with_other_cells_is_the_next_revision(rt: HostRuntime) -> Result<(), Fail> {
    let alloc = rt.alloc();
    let mut filing = TableFiling::new(InMemory::new());
    // The half, the number in March, the limit on steps, and the result.
    let cases = [
        (8, 1, None, Ok(1)),
        (8, 1, None, Err(FileError::Same { revision: 1 })),
        (8, 0, Some(0), Err(FileError::Fault)),
        (8, 0, None, Ok(2)),
        (9, 0, None, Ok(1)),
        (8, 1, None, Ok(3)),
        (8, 1, None, Err(FileError::Same { revision: 3 })),
    ];
    for (half, late, steps, want) in cases {
        filing.set_step_limit(steps);
        let report = report(alloc, half, late)?;
        assert_eq!(rt; file_report(alloc, &mut filing, &report), want);
    }
    Ok(())
}

#[test]
fn nothing_is_filed_where_the_store_fails(rt: HostRuntime) -> Result<(), Fail> {
    let alloc = rt.alloc();
    let spoiled = report(alloc, 8, 1)?;
    let other = report(alloc, 9, 1)?;
    let mut filing = TableFiling::new(Spoiled);
    assert_eq!(rt;
        file_report(alloc, &mut filing, &spoiled),
        Err(FileError::Fault)
    );
    assert_eq!(rt; file_report(alloc, &mut filing, &other), Ok(1));
    let mut filing = TableFiling::new(Nowhere);
    assert_eq!(rt;
        file_report(alloc, &mut filing, &other),
        Err(FileError::Fault)
    );
    Ok(())
}

/// The numbers that the later of two revisions amends, or `None` if one of them is not on file.
fn amended<F: Filing>(
    alloc: Global,
    filing: &mut F,
    from: u32,
    to: u32,
) -> Result<Option<Vec<Amended>>, Fail> {
    let Some(old) = filing.revision(alloc, 1, 8, from).ok().ok_or("failed")? else {
        return Ok(None);
    };
    let Some(new) = filing.revision(alloc, 1, 8, to).ok().ok_or("failed")? else {
        return Ok(None);
    };
    Ok(Some(amended_cells(alloc, &old.cells, &new.cells)?))
}

/// Whether the second revision amends the first in month 6, column 2, from 1 to 0.
fn is_late_repair(amended: &[Amended]) -> bool {
    let want = Amended {
        month: 6,
        column: 2,
        old: 1,
        new: 0,
    };
    amended == [want].as_slice()
}

#[test]
fn revisions_in_memory_amend_each_other(rt: HostRuntime) -> Result<(), Fail> {
    let alloc = rt.alloc();
    let mut filing = TableFiling::new(InMemory::new());
    assert_eq!(rt;
        file_report(alloc, &mut filing, &report(alloc, 8, 1)?),
        Ok(1)
    );
    assert_eq!(rt;
        file_report(alloc, &mut filing, &report(alloc, 8, 0)?),
        Ok(2)
    );
    let late = amended(alloc, &mut filing, 1, 2)?.ok_or("none")?;
    assert!(rt; is_late_repair(&late));
    assert!(rt; amended(alloc, &mut filing, 2, 2)?.ok_or("none")?.is_empty());
    assert!(rt; amended(alloc, &mut filing, 1, 3)?.is_none());
    assert!(rt; amended(alloc, &mut filing, 0, 1)?.is_none());
    Ok(())
}

/// The filing at a path, as another run of the program would open it.
fn at_path(rt: &HostRuntime, path: &str) -> Result<TableFiling<AtPath>, Fail> {
    let path = String::from_str(rt.alloc(), path)?;
    Ok(TableFiling::new(AtPath::new(*rt, path)))
}

/// Files this report as another run of the program would.
fn filed_at(rt: &HostRuntime, path: &str, report: &Report) -> Result<Result<u32, FileError>, Fail> {
    Ok(file_report(rt.alloc(), &mut at_path(rt, path)?, report))
}

#[test]
fn reports_stay_on_file_at_a_path(rt: HostRuntime) -> Result<(), Fail> {
    let alloc = rt.alloc();
    let path = path_of(&rt, "filed")?;
    let path = path.as_str();
    // Reading creates no file.
    assert!(rt; amended(alloc, &mut at_path(&rt, path)?, 1, 2)?.is_none());
    let last = at_path(&rt, path)?.latest(alloc, 1, 8);
    assert!(rt; last.ok().ok_or("failed")?.is_none());
    assert!(rt; !fs::exists(&rt, path)?);
    let first = report(alloc, 8, 1)?;
    assert_eq!(rt; filed_at(&rt, path, &first)?, Ok(1));
    assert_eq!(rt;
        filed_at(&rt, path, &first)?,
        Err(FileError::Same { revision: 1 })
    );
    assert_eq!(rt; filed_at(&rt, path, &report(alloc, 8, 0)?)?, Ok(2));
    let late = amended(alloc, &mut at_path(&rt, path)?, 1, 2)?.ok_or("none")?;
    assert!(rt; is_late_repair(&late));
    assert!(rt; amended(alloc, &mut at_path(&rt, path)?, 1, 3)?.is_none());
    Ok(fs::remove_file(&rt, path)?)
}

ghost use Rattle.std.specs.Prelude.{Some, None};

use fact_kinds::{Day, Name};
use ldar_law::{Amended, Cells, Filed, Items, MonthCells, Report};
use report_filing::{FileError, Filing, FilingFault, MapFiling, amended_cells, file_report};
use std::alloc::Global;
use std::test::Fail;

/// The numbers of a report with this number in month 6, column 2.
fn numbers(late_in_march: u32) -> MonthCells {
    let mut months = [0; 36];
    months[24] = 1;
    months[31] = late_in_march;
    MonthCells::new(months)
}

/// A report on unit 1 and this half as of 2024-03-31.
fn report(alloc: Global, half: u16, late_in_march: u32) -> Result<Report, Fail> {
    Ok(Report {
        unit: 1,
        name: Name::new(b"CRUDE").ok_or("name")?,
        half,
        day: Day::read(b"2024-03-31").ok_or("day")?,
        cells: Cells {
            months: numbers(late_in_march),
            delays: Items::new(Vec::new(alloc)),
            stops: Items::new(Vec::new(alloc)),
        },
    })
}

/// A filing in memory in which one call fails. Calls are numbered from 0.
#[derive(Drop)]
struct FailingFiling {
    kept: MapFiling,
    failing: u64,
    calls: u64,
    faults: u64,
}

impl FailingFiling {
    fn new(alloc: Global, failing: u64) -> FailingFiling {
        FailingFiling {
            kept: MapFiling::new(alloc),
            failing,
            calls: 0,
            faults: 0,
        }
    }
}

impl Filing for FailingFiling {
    ghost on_file = { λ f. Some f.kept };

    ghost faults = { λ f. f.faults };

    fn latest(&mut self, alloc: Global, unit: u8, half: u16) -> Result<Option<Filed>, FilingFault> {
        let _kept = self.kept.as_slice();
        let call = self.calls;
        self.calls = call.saturating_add(1);
        if call == self.failing {
            self.faults = self.faults.saturating_add(1);
            return Err(FilingFault::Failed);
        }
        self.kept.latest(alloc, unit, half)
    }

    fn revision(
        &mut self,
        alloc: Global,
        unit: u8,
        half: u16,
        revision: u32,
    ) -> Result<Option<Filed>, FilingFault> {
        let _kept = self.kept.as_slice();
        let call = self.calls;
        self.calls = call.saturating_add(1);
        if call == self.failing {
            self.faults = self.faults.saturating_add(1);
            return Err(FilingFault::Failed);
        }
        self.kept.revision(alloc, unit, half, revision)
    }

    fn put(&mut self, alloc: Global, filed: &Filed) -> Result<(), FilingFault> {
        let call = self.calls;
        self.calls = call.saturating_add(1);
        if call == self.failing {
            self.faults = self.faults.saturating_add(1);
            return Err(FilingFault::Failed);
        }
        self.kept.put(alloc, filed)
    }
}

/// A filing that exposes no reports. Its last revision has the greatest number.
#[derive(Drop)]
struct FullFiling {
    day: Day,
    months: MonthCells,
}

impl Filing for FullFiling {
    ghost on_file = { λ f. None };

    ghost faults = { λ f. 0 };

    fn latest(&mut self, alloc: Global, unit: u8, half: u16) -> Result<Option<Filed>, FilingFault> {
        Ok(Some(Filed {
            unit,
            half,
            revision: u32::MAX,
            day: self.day,
            cells: Cells {
                months: self.months,
                delays: Items::new(Vec::new(alloc)),
                stops: Items::new(Vec::new(alloc)),
            },
        }))
    }

    fn revision(
        &mut self,
        alloc: Global,
        unit: u8,
        half: u16,
        revision: u32,
    ) -> Result<Option<Filed>, FilingFault> {
        let last = self.latest(alloc, unit, half)?;
        Ok(last.filter(|filed| filed.revision == revision))
    }

    fn put(&mut self, _alloc: Global, _filed: &Filed) -> Result<(), FilingFault> {
        Err(FilingFault::Memory)
    }
}

#[test]
fn a_filing_that_fails_keeps_what_it_had(rt: HostRuntime) -> Result<(), Fail> {
    let first = report(rt.alloc(), 8, 1)?;
    let second = report(rt.alloc(), 8, 0)?;
    // The call that fails, and the results of filing the first report, the second one, and the second one again.
    let cases = [
        (
            0,
            Err(FileError::Fault),
            Ok(1),
            Err(FileError::Same { revision: 1 }),
        ),
        (
            1,
            Err(FileError::Fault),
            Ok(1),
            Err(FileError::Same { revision: 1 }),
        ),
        (2, Ok(1), Err(FileError::Fault), Ok(2)),
        (3, Ok(1), Err(FileError::Fault), Ok(2)),
        (9, Ok(1), Ok(2), Err(FileError::Same { revision: 2 })),
    ];
    for (failing, one, two, again) in cases {
        let mut filing = FailingFiling::new(rt.alloc(), failing);
        assert_eq!(rt; file_report(rt.alloc(), &mut filing, &first), one);
        assert_eq!(rt; file_report(rt.alloc(), &mut filing, &second), two);
        assert_eq!(rt; file_report(rt.alloc(), &mut filing, &second), again);
        assert_eq!(rt; filing.faults, if failing == 9 { 0 } else { 1 });
    }
    Ok(())
}

#[test]
fn no_revision_follows_the_greatest_number(rt: HostRuntime) -> Result<(), Fail> {
    let same = report(rt.alloc(), 8, 1)?;
    let other = report(rt.alloc(), 8, 0)?;
    let mut filing = FullFiling {
        day: Day::read(b"2024-03-31").ok_or("day")?,
        months: numbers(1),
    };
    let revision = u32::MAX;
    assert_eq!(rt;
        file_report(rt.alloc(), &mut filing, &same),
        Err(FileError::Same { revision })
    );
    assert_eq!(rt;
        file_report(rt.alloc(), &mut filing, &other),
        Err(FileError::Full)
    );
    Ok(())
}

#[test]
fn a_report_with_other_cells_is_the_next_revision(rt: HostRuntime) -> Result<(), Fail> {
    let mut filing = MapFiling::new(rt.alloc());
    // The half, the number in March, and the result.
    let cases = [
        (8, 1, Ok(1)),
        (8, 1, Err(FileError::Same { revision: 1 })),
        (8, 0, Ok(2)),
        (9, 0, Ok(1)),
        (8, 1, Ok(3)),
        (8, 1, Err(FileError::Same { revision: 3 })),
    ];
    for (half, late, want) in cases {
        let report = report(rt.alloc(), half, late)?;
        assert_eq!(rt; file_report(rt.alloc(), &mut filing, &report), want);
    }
    let first = filing.latest(rt.alloc(), 1, 9).ok().ok_or("fault")?;
    assert_eq!(rt; first.map(|filed| filed.revision), Some(1));
    assert!(rt;
        filing
            .latest(rt.alloc(), 2, 8)
            .ok()
            .ok_or("fault")?
            .is_none()
    );
    Ok(())
}

#[test]
fn the_cells_that_differ_are_amended(rt: HostRuntime) -> Result<(), Fail> {
    let old = report(rt.alloc(), 8, 1)?.cells;
    let new = report(rt.alloc(), 8, 0)?.cells;
    let want = [Amended {
        month: 6,
        column: 2,
        old: 1,
        new: 0,
    }];
    assert_eq!(rt;
        amended_cells(rt.alloc(), &old, &new)?.as_slice(),
        want.as_slice()
    );
    assert!(rt; amended_cells(rt.alloc(), &old, &old)?.is_empty());
    Ok(())
}

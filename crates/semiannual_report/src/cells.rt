ghost use Rattle.std.specs.Prelude.{◌≡◌, ◌≤◌, ◌<◌, ◌+◌, ◌^◌, ◌++◌, ◌&&◌, nat_eq, length, take, drop, ◌∷◌, []};
ghost use Rattle.std.specs.List.{list_any, flat_map};
ghost use Rattle.list_words.specs.Ranges.{until};
ghost use Rattle.ldar_law.specs.Reports as law;
ghost use Rattle.ldar_law.specs.Tags.{is_late};
ghost use Rattle.semiannual_report.specs.Columns.{is_counted_as};

use fact_kinds::Kind;
use ldar_days::Day;
use ldar_law::{MonthCells, Sheet, is_compressor, is_pump, is_valve};

/// Whether a component of this type is counted in the columns of that type.
fn is_counted_as(columns: Kind, kind: Kind) -> bool
    ensures value { result ≡ is_counted_as columns kind }
{
    match columns {
        Kind::Valve => is_valve(kind),
        Kind::Pump => is_pump(kind),
        Kind::Compressor => is_compressor(kind),
        Kind::Relief => false,
    }
}

/// Whether a component had a leak in the month.
fn has_leak_in(sheet: &Sheet, month: u32) -> bool
    ensures value { result ≡ list_any (λ leak. nat_eq leak month) sheet.now.leaks }
{
    sheet
        .leaks
        .as_slice()
        .iter()
        .any(|leak| leak.number() == month)
}

/// Whether a component has a tag that was due in the month and is late on the day.
fn has_late_tag_in(sheet: &Sheet, day: Day, month: u32) -> bool
    ensures value { result ≡ list_any (λ tag. is_late day tag && law.is_date_in month tag.repair_due) sheet.now.tags }
{
    sheet
        .tags
        .as_slice()
        .iter()
        .any(|tag| tag.is_late(day) && tag.repair_due.is_date_in(month))
}

/// The number of components in a type's columns with a leak in a month, and of those with a late tag due in it.
#[derive(Drop)]
struct Columns {
    leaking: u32,
    late: u32,
}

impl Columns {
    /// Counts of 0.
    fn new() -> Columns
        ensures leaking { result.leaking ≡ 0 }
        ensures late { result.late ≡ 0 }
    {
        Columns {
            leaking: 0,
            late: 0,
        }
    }

    /// Counts a component, if it is in the columns of that type.
    fn add(&mut self, columns: Kind, sheet: &Sheet, day: Day, month: u32)
        ensures leaking { self.old.leaking + law.leaking_in (is_counted_as columns) (sheet.now ∷ []) month < 2 ^ 32
            → self.new.leaking ≡ self.old.leaking + law.leaking_in (is_counted_as columns) (sheet.now ∷ []) month }
        ensures late { self.old.late + law.late_in (is_counted_as columns) day (sheet.now ∷ []) month < 2 ^ 32
            → self.new.late ≡ self.old.late + law.late_in (is_counted_as columns) day (sheet.now ∷ []) month }
    {
        if is_counted_as(columns, sheet.kind) {
            let leaking = has_leak_in(sheet, month);
            let late = has_late_tag_in(sheet, day, month);
            self.leaking = self.leaking.saturating_add(u32::from(leaking));
            self.late = self.late.saturating_add(u32::from(late));
        }
    }
}

/// The six numbers of a month.
#[tactic(auto, unfolding(ldar_law::specs::Reports::month_cells))]
fn month_cells(day: Day, sheets: &[Sheet], month: u32) -> [u32; 6]
    ensures value { length sheets.now < 2 ^ 32 → result ≡ law.month_cells day sheets.now month }
{
    let mut valves = Columns::new();
    let mut pumps = Columns::new();
    let mut compressors = Columns::new();
    for sheet in sheets {
        valves.add(Kind::Valve, sheet, day, month);
        pumps.add(Kind::Pump, sheet, day, month);
        compressors.add(Kind::Compressor, sheet, day, month);
    }
    [
        valves.leaking,
        valves.late,
        pumps.leaking,
        pumps.late,
        compressors.leaking,
        compressors.late,
    ]
}

/// The numbers of six months, from the month `first` on.
pub fn half_cells(day: Day, sheets: &[Sheet], first: u32) -> MonthCells
    requires in_range { first ≤ 25_199 }
    ensures value { length sheets.now < 2 ^ 32 → result ≡ flat_map (law.month_cells day sheets.now) (until first (first + 6)) }
{
    let mut cells = [0; 36];
    for month in 0..6 {
        let six = month_cells(day, sheets, first + month as u32);
        put_six(&mut cells, 6 * month, &six);
    }
    MonthCells::new(cells)
}

/// Writes six numbers, from a place on.
fn put_six(cells: &mut [u32], at: usize, six: &[u32; 6])
    requires within { at + 6 ≤ length cells.old }
    ensures value { cells.new ≡ take at cells.old ++ six.now ++ drop (at + 6) cells.old }
{
    cells[at..at + 6].copy_from_slice(six);
}

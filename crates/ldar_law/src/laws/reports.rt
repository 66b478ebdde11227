//! Laws about the numbers of reports.

ghost use Rattle.ldar_law.specs.ReportLaws.{CellsAreBounded, MonthsPastAreZero, AmendedWhereDifferent, NothingAmended};

/// A report has 36 numbers, each at most the number of components.
pub fn cells_are_bounded()
    ensures law { CellsAreBounded }
{}

/// The numbers of a month after December 2099 are zero.
pub fn months_past_are_zero()
    ensures law { MonthsPastAreZero }
{}

/// The amended numbers are those that differ; there are none exactly if all are equal.
pub fn amended_where_different()
    ensures change { AmendedWhereDifferent }
    ensures none { NothingAmended }
{}

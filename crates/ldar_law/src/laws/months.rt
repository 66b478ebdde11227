//! Laws about months: the definitions test only the months of a component's events, and agree with testing all months.

ghost use Rattle.ldar_law.specs.MonthLaws.{CleanTwiceFromDecides, QuarterlyDecides};

/// `is_clean_twice_from` is true exactly if two months in a row are clean, the first of them at or after the given one.
pub fn clean_twice_from_decides()
    ensures law { CleanTwiceFromDecides }
{}

/// `is_quarterly` is true exactly if the month is in a quarter and some month makes it quarterly.
pub fn quarterly_decides()
    ensures law { QuarterlyDecides }
{}

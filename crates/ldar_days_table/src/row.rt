/// A month of the table: its first day, its number of days, and the checksums of its days.
#[derive(Clone, Copy)]
pub struct Row {
    pub first: u32,
    pub days: u32,
    pub sums: Checksums,
}

/// A checksum for each part of the calendar, over the days of a month in order.
#[derive(Clone, Copy, PartialEq, Eq)]
pub struct Checksums {
    pub months: u64,
    pub texts: u64,
    pub weeks: u64,
    pub later_days: u64,
    pub later_months: u64,
    pub quarters: u64,
}

/// The month of a line, or `None` if the line is not one of the table.
pub fn row_of(line: &str) -> Option<Row> {
    let mut words = line.split(' ');
    Some(Row {
        first: words.next()?.parse().ok()?,
        days: words.next()?.parse().ok()?,
        sums: Checksums {
            months: words.next()?.parse().ok()?,
            texts: words.next()?.parse().ok()?,
            weeks: words.next()?.parse().ok()?,
            later_days: words.next()?.parse().ok()?,
            later_months: words.next()?.parse().ok()?,
            quarters: words.next()?.parse().ok()?,
        },
    })
}

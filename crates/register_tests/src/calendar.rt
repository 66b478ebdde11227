use ldar_days::{Day, Month, MonthText, first_quarter, quarter_first, quarter_last, quarter_of};
use std::test::Fail;

#[test]
fn quarter_1_ends_with_the_last_month_within_180_days(rt: HostRuntime) -> Result<(), Fail> {
    let cases = [
        ("2020-01-15", "2020-04"),
        ("2020-02-10", "2020-05"),
        ("2020-01-01", "2020-03"),
        ("2008-01-01", "2008-03"),
        ("2097-12-31", "2098-03"),
    ];
    for (startup, month) in cases {
        let day = Day::read(startup.as_bytes()).ok_or("no day")?;
        assert!(rt; day.number() <= 46_751);
        let first = first_quarter(day);
        let text = format!(in rt.alloc(); "{first}")?;
        assert_eq!(rt; text.as_str(), month, "after {startup}");
    }
    Ok(())
}

#[test]
fn quarters_follow_each_other(rt: HostRuntime) -> Result<(), Fail> {
    let startup = Day::read(b"2020-01-15").ok_or("no day")?;
    assert!(rt; startup.number() <= 46_751);
    for (month, quarter) in [
        (24_242, None),
        (24_243, Some(1)),
        (24_246, Some(2)),
        (24_288, Some(16)),
    ] {
        assert_eq!(rt;
            quarter_of(startup, Month::at(month)),
            quarter,
            "in month {month}"
        );
    }
    let cases = [
        (1, "2020-04-01 2020-06-30"),
        (16, "2024-01-01 2024-03-31"),
        (319, "2099-10-01 2099-12-31"),
        (320, "2099-12-31 2099-12-31"),
    ];
    for (quarter, days) in cases {
        let (first, last) = (
            quarter_first(startup, quarter),
            quarter_last(startup, quarter),
        );
        let text = format!(in rt.alloc(); "{first} {last}")?;
        assert_eq!(rt; text.as_str(), days, "quarter {quarter}");
    }
    Ok(())
}

#[test]
fn only_ten_bytes_of_a_day_are_read(rt: HostRuntime) {
    let none = [
        "2023-02-29",
        "2100-01-01",
        "2007-12-31",
        "2024-2-01",
        "2024-02-30",
        "2024-00-10",
        "2024-13-10",
        "2024-01-00",
        "20240229",
        "2024-02-29 ",
        "2024/02/29",
        "+024-02-29",
        "",
    ];
    for text in none {
        assert_eq!(rt; Day::read(text.as_bytes()), None, "{text}");
    }
    for (text, number) in [
        ("2024-02-29", 19_782),
        ("2008-01-01", 13_879),
        ("2099-12-31", 47_481),
    ] {
        let day = Day::read(text.as_bytes());
        assert_eq!(rt; day, Day::of_number(number), "{text}");
    }
}

#[test]
fn sums_stay_in_their_month_and_in_the_calendar(rt: HostRuntime) -> Result<(), Fail> {
    let months = [
        ("2023-08-31", 6, "2024-02-29"),
        ("2099-12-01", 2, "2099-12-31"),
        ("2024-02-29", 12, "2025-02-28"),
        ("2024-01-31", 0, "2024-01-31"),
        ("2008-01-01", u32::MAX, "2099-12-31"),
    ];
    for (from, months, to) in months {
        let day = Day::read(from.as_bytes())
            .ok_or("no day")?
            .plus_months(months);
        assert_eq!(rt;
            Some(day),
            Day::read(to.as_bytes()),
            "{from} and {months} months"
        );
    }
    let days = [
        ("2099-12-31", 1, "2099-12-31"),
        ("2024-02-28", 2, "2024-03-01"),
        ("2020-01-01", 180, "2020-06-29"),
        ("2008-01-01", u32::MAX, "2099-12-31"),
    ];
    for (from, days, to) in days {
        let day = Day::read(from.as_bytes()).ok_or("no day")?.plus_days(days);
        assert_eq!(rt;
            Some(day),
            Day::read(to.as_bytes()),
            "{from} and {days} days"
        );
    }
    Ok(())
}

#[test]
fn a_week_runs_from_monday_to_sunday(rt: HostRuntime) -> Result<(), Fail> {
    let cases = [
        ("2024-02-25", 2_825),
        ("2024-02-26", 2_826),
        ("2024-03-03", 2_826),
        ("2024-03-04", 2_827),
    ];
    for (text, week) in cases {
        assert_eq!(rt;
            Day::read(text.as_bytes()).ok_or("no day")?.week(),
            week,
            "{text}"
        );
    }
    Ok(())
}

#[test]
fn a_month_after_the_calendar_has_its_own_year(rt: HostRuntime) -> Result<(), Fail> {
    let month = MonthText { number: 25_203 };
    let text = format!(in rt.alloc(); "{month}")?;
    assert_eq!(rt; text.as_str(), "2100-04");
    Ok(())
}

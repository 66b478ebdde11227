//! Routes to the components at which something must be done.

use fact_kinds::Key;
use ldar_law::{Duty, Route};
use route_planner::{RouteError, routes};
use std::alloc::Global;
use std::test::Fail;
use test_kit::day;

/// A monthly duty that is not done.
fn open(component: u16, due: &str) -> Result<Duty, Fail> {
    Ok(Duty {
        component,
        cause: 2,
        due: day(due)?,
        met: None,
    })
}

/// A monthly duty that was done on its due day.
fn done(component: u16, due: &str) -> Result<Duty, Fail> {
    let key = Key {
        day: day(due)?,
        minute: 615,
        handheld: 7,
        number: 13,
        index: 0,
    };
    Ok(Duty {
        component,
        cause: 2,
        due: day(due)?,
        met: Some(key),
    })
}

/// The stops of each route, each route followed by a slash.
fn text_of(alloc: Global, routes: &[Route]) -> Result<String, Fail> {
    let mut text = String::new(alloc);
    for route in routes {
        for stop in route.stops.as_slice() {
            text = format!(in alloc; "{text}{stop} ")?;
        }
        text = format!(in alloc; "{text}/ ")?;
    }
    Ok(text)
}

#[test]
fn routes_are_cut_by_stops(rt: HostRuntime) -> Result<(), Fail> {
    let alloc = rt.alloc();
    let duties = [
        open(3, "2024-02-29")?,
        open(1, "2024-02-25")?,
        open(2, "2024-02-29")?,
    ];
    let cases = [
        (1, "1 / 2 / 3 / "),
        (2, "1 2 / 3 / "),
        (3, "1 2 3 / "),
        (4, "1 2 3 / "),
        (u16::MAX, "1 2 3 / "),
    ];
    for (stops, text) in cases {
        let walks = routes(alloc, &duties, stops).map_err(|_| "routes")?;
        assert_eq!(rt; text_of(alloc, &walks)?.as_str(), text, "{stops} stops");
    }
    Ok(())
}

#[test]
fn twelve_components_are_visited_in_routes_of_five(rt: HostRuntime) -> Result<(), Fail> {
    let alloc = rt.alloc();
    let duties = [
        open(12, "2024-02-29")?,
        open(5, "2024-02-29")?,
        open(11, "2024-02-28")?,
        open(2, "2024-02-29")?,
        open(9, "2024-02-29")?,
        open(4, "2024-02-29")?,
        open(7, "2024-02-29")?,
        open(10, "2024-02-29")?,
        open(1, "2024-02-29")?,
        open(8, "2024-02-29")?,
        open(3, "2024-02-29")?,
        open(6, "2024-02-29")?,
    ];
    let walks = routes(alloc, &duties, 5).map_err(|_| "routes")?;
    assert_eq!(rt;
        text_of(alloc, &walks)?.as_str(),
        "11 1 2 3 4 / 5 6 7 8 9 / 10 12 / "
    );
    Ok(())
}

#[test]
fn a_component_is_a_stop_once(rt: HostRuntime) -> Result<(), Fail> {
    let alloc = rt.alloc();
    let cases = [
        // The earliest due day of the duties that are not done.
        (
            open(9, "2024-03-31")?,
            open(4, "2024-03-15")?,
            open(9, "2024-03-10")?,
            "9 4 / ",
        ),
        (
            open(9, "2024-03-31")?,
            open(4, "2024-03-15")?,
            done(9, "2024-03-10")?,
            "4 9 / ",
        ),
        // Two duties of one day.
        (
            open(9, "2024-03-10")?,
            open(9, "2024-03-10")?,
            open(4, "2024-03-10")?,
            "4 9 / ",
        ),
        // The day matters before the number.
        (
            open(60_000, "2024-03-09")?,
            open(1, "2024-03-10")?,
            done(2, "2024-03-08")?,
            "60000 1 / ",
        ),
        // The first number and the last.
        (
            open(u16::MAX, "2024-03-10")?,
            open(0, "2024-03-10")?,
            open(u16::MAX, "2024-03-09")?,
            "65535 0 / ",
        ),
        (
            done(1, "2024-03-10")?,
            done(2, "2024-03-10")?,
            done(3, "2024-03-10")?,
            "",
        ),
    ];
    for (first, second, third, text) in cases {
        let duties = [first, second, third];
        let walks = routes(alloc, &duties, 20).map_err(|_| "routes")?;
        assert_eq!(rt; text_of(alloc, &walks)?.as_str(), text);
    }
    Ok(())
}

#[test]
fn a_route_has_stops(rt: HostRuntime) -> Result<(), Fail> {
    let alloc = rt.alloc();
    let duties = [open(3, "2024-02-29")?];
    let none: [Duty; 0] = [];
    assert!(rt; matches!(routes(alloc, &duties, 0), Err(RouteError::NoStops)));
    assert!(rt; matches!(routes(alloc, &none, 0), Err(RouteError::NoStops)));
    let walks = routes(alloc, &none, 1).map_err(|_| "routes")?;
    assert!(rt; walks.is_empty());
    Ok(())
}

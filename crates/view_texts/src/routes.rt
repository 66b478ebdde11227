ghost use Rattle.std.specs.Prelude.{◌≡◌, ◌++◌, IfOk, OnOk, OnErr, codes, string_bytes};
ghost use Rattle.std.specs.Fmt.{decimal};
ghost use Rattle.std.specs.List.{flat_map};
ghost use Rattle.ldar_days.specs.Texts.{day_text};
ghost use Rattle.ldar_law.specs.Texts as law;

use crate::lines::{put_end, shown};
use fact_kinds::Memory;
use ldar_days::Day;
use ldar_law::{Route, Text};
use std::alloc::Global;

/// A text with the first line of the route view.
fn begun(alloc: Global, unit: u16, day: Day, stops: u16) -> Result<String, Memory>
    ensures value { IfOk result (λ text. string_bytes text
        ≡ codes "route " ++ decimal unit ++ codes " " ++ day_text day ++ codes " " ++ decimal stops ++ law.end_of_line) }
{
    format!(in alloc; "route {unit} {day} {stops}\n")
}

/// Appends the components of a route.
fn put_stops(text: &mut String, stops: &[u16]) -> Result<(), Memory>
    ensures value { OnOk result (string_bytes text.new ≡ string_bytes text.old ++ flat_map (λ c. codes " " ++ decimal c) stops.now) }
{
    for stop in stops {
        write!(text, " {stop}")?;
    }
    Ok(())
}

/// Appends the line of a route.
fn put_route(text: &mut String, number: usize, route: &Route) -> Result<(), Memory>
    ensures value { OnOk result (string_bytes text.new ≡ string_bytes text.old ++ law.route_line number route.now) }
{
    write!(text, "route {number}:")?;
    put_stops(text, route.stops.as_slice())?;
    text.push_str("\n")
}

/// Appends a line for each route, with its number from 1.
fn put_each(text: &mut String, routes: &[Route]) -> Result<(), Memory>
    ensures value { OnOk result (string_bytes text.new ≡ string_bytes text.old ++ law.route_lines 1 routes.now) }
{
    for (place, route) in routes.iter().enumerate() {
        put_route(text, place + 1, route)?;
    }
    Ok(())
}

/// The text of the route view: routes of at most `stops` stops through a process unit, as known on a day.
pub fn routes_text(
    alloc: Global,
    unit: u16,
    day: Day,
    stops: u16,
    routes: &[Route],
) -> Result<Text, Memory>
    ensures value { IfOk result (λ text. text ≡ law.route_text unit day stops routes.now) }
{
    let mut text = begun(alloc, unit, day, stops)?;
    put_each(&mut text, routes)?;
    put_end(&mut text, routes.len())?;
    Ok(shown(text))
}

/// Appends the text of the route view. When out of memory, `text` is unchanged.
pub fn put_routes(
    alloc: Global,
    unit: u16,
    day: Day,
    stops: u16,
    routes: &[Route],
    out: &mut Vec<u8>,
) -> Result<(), Memory>
    ensures value { OnOk result (out.new.items ≡ out.old.items ++ law.route_text unit day stops routes.now) }
    ensures unchanged { OnErr result (out.new.items ≡ out.old.items) }
{
    let text = routes_text(alloc, unit, day, stops, routes)?;
    out.extend_from_slice(text.as_bytes())
}

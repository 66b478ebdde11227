//! The views that are requested, and summaries of their texts.

ghost use Rattle.office_views.specs.Answers.{IsView};

use crate::made::startup;
use ldar_days::{Day, quarter_of};
use ldar_law::Request;
use memory_office::Office;
use office_views::Shown;
use std::alloc::Global;

/// The view that a word names, on a day; for percent and report, of the quarter or half that contains the day.
fn request(view: &str, day: Day) -> Request
    ensures view { IsView result }
{
    let quarter = quarter_of(startup(), day.month()).unwrap_or(0);
    match view {
        "due" => Request::Due { unit: 1, day },
        "other" => Request::Due { unit: 2, day },
        "tags" => Request::Tags { unit: 1, day },
        "delays" => Request::Delays { unit: 1, day },
        "percent" => Request::Percent {
            unit: 1,
            quarter,
            day,
        },
        "report" => Request::Report {
            unit: 1,
            half: quarter.div_ceil(2),
            day,
        },
        _ => Request::Route {
            unit: 1,
            day,
            stops: 50,
        },
    }
}

/// A summary of what a view shows: the length of its text and a sum over its bytes.
pub fn said(
    alloc: Global,
    office: &mut Office,
    view: &str,
    day: Day,
) -> Result<String, anyhow::Error> {
    match office.ask(&request(view, day))? {
        Shown::Text(text) => {
            let bytes = text.as_bytes();
            let length = bytes.len();
            let sum = sum_of(bytes);
            Ok(format!(in alloc; "{view}: {length} bytes, {sum}")?)
        }
        Shown::NoSuch(what) => {
            let word = what.word();
            Ok(format!(in alloc; "{view}: no such {word}")?)
        }
    }
}

fn sum_of(bytes: &[u8]) -> u64 {
    let mut sum = 0u64;
    for byte in bytes {
        sum = sum.wrapping_mul(31).wrapping_add(u64::from(*byte));
    }
    sum
}

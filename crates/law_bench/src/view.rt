//! The arguments of a view at the end of a history.

use crate::day_at::day_after;
use crate::history::History;
use ldar_days::Day;
use std::alloc::{AllocError, Global};

#[derive(Drop)]
pub struct View {
    pub day: Day,
    /// The last quarter that the view needs.
    pub quarters: u16,
    /// Which quarters of the process unit are skipped.
    pub skipped: Vec<bool>,
    /// In which quarters an open leak's repair is delayed.
    pub delayed: Vec<bool>,
}

impl View {
    pub fn of(alloc: Global, history: History) -> Result<View, AllocError> {
        let quarters = history.quarters();
        let mut skipped = Vec::new(alloc);
        let mut delayed = Vec::new(alloc);
        for quarter in 0..quarters {
            skipped.push(quarter % 4 == 3)?;
            delayed.push(quarter % 16 == 5)?;
        }
        Ok(View {
            day: day_after(history.days()),
            quarters,
            skipped,
            delayed,
        })
    }

    /// The place, from 0, of the quarter after this one; the first quarter follows the last.
    pub fn quarter_behind(&self, place: u16) -> u16 {
        if place < self.quarters.saturating_sub(1) {
            place + 1
        } else {
            0
        }
    }
}

use fact_kinds::{Day, Fact, FactBody, Purpose};

/// The kind of the facts.
#[derive(Clone, Copy)]
pub enum FactKind {
    /// Attempts, which are only in the list of their component.
    Attempts,
    /// Readings, which are in the list of their instrument too.
    Readings,
}

impl FactKind {
    /// The kind with this name, or `attempts` for any other word.
    pub fn of(word: &str) -> FactKind {
        match word {
            "readings" => FactKind::Readings,
            _ => FactKind::Attempts,
        }
    }
}

/// The number of components of the facts.
pub const COMPONENTS: u16 = 20_000;

/// The fact at a place in key order: one each minute.
pub fn fact_at(place: u32, sort: FactKind) -> Fact {
    let day = Day::at(13_879 + place / 1_440 % 30_000);
    let minute = (place % 1_440) as u16;
    let component = (place % 20_000 + 1) as u16;
    let body = match sort {
        FactKind::Attempts => FactBody::Attempt {
            component,
            complete: false,
        },
        FactKind::Readings => FactBody::Reading {
            component,
            instrument: (place % 200 + 1) as u16,
            operator: 1,
            purpose: Purpose::Routine,
            ppm: place % 1_000,
            background: 2,
        },
    };
    Fact { day, minute, body }
}

//! One function for each statement on the table, with one call of the database each.

ghost use Rattle.std.specs.Prelude.{◌≡◌, [], IfOk, IfErr};
ghost use Rattle.sqlite.specs.Held.{state};
ghost use Rattle.sqlite.specs.State.{HasCleanDisk, Executes, Shown, FailsToQuery};
ghost use Rattle.report_table.specs.Statements.{make_text, insert_text, latest_text, revision_text, values_of, key_of, place_of};
ghost use Rattle.report_table.specs.Given.{kept_as};

use crate::FiledRow;
use sqlite::{Alter, Connection, Error, Row, params};

const MAKE: &str =
    "CREATE TABLE IF NOT EXISTS filed (unit INTEGER NOT NULL, half INTEGER NOT NULL, revision INTEGER NOT NULL, day INTEGER NOT NULL, months BLOB NOT NULL, delays BLOB NOT NULL, stops BLOB NOT NULL, PRIMARY KEY (unit, half, revision)) STRICT";

const INSERT: &str =
    "INSERT INTO filed (unit, half, revision, day, months, delays, stops) SELECT ?1, ?2, ?3, ?4, ?5, ?6, ?7";

const LATEST: &str =
    "SELECT revision, day, months, delays, stops FROM filed WHERE unit = ?1 AND half = ?2 ORDER BY revision DESC LIMIT 1";

const REVISION: &str =
    "SELECT revision, day, months, delays, stops FROM filed WHERE unit = ?1 AND half = ?2 AND revision = ?3";

/// Creates the table, if it does not exist.
pub(crate) fn make<S: Alter>(conn: &mut Connection<S>) -> Result<usize, Error>
    ensures runs { HasCleanDisk (state S.Store conn.new) → Executes make_text [] (state S.Store conn.old) (state S.Store conn.new) result }
{
    conn.execute(MAKE, &[])
}

/// Adds the row of a report.
pub(crate) fn insert<S: Alter>(conn: &mut Connection<S>, row: &FiledRow) -> Result<usize, Error>
    ensures runs { HasCleanDisk (state S.Store conn.new) → Executes insert_text (values_of (kept_as row.now)) (state S.Store conn.old) (state S.Store conn.new) result }
{
    conn.execute(
        INSERT,
        params![
            u32::from(row.unit),
            u32::from(row.half),
            row.revision,
            row.day,
            &row.months,
            &row.delays,
            &row.stops
        ],
    )
}

/// The row of a unit's half with the greatest revision, if there is one.
pub(crate) fn latest<S: Alter>(
    conn: &mut Connection<S>,
    unit: u8,
    half: u16,
) -> Result<Vec<Row>, Error>
    ensures rows { HasCleanDisk (state S.Store conn.new)
        → IfOk result (λ rows. Shown latest_text (key_of unit half) (state S.Store conn.old) (state S.Store conn.new) rows.items) }
    ensures refused { HasCleanDisk (state S.Store conn.new)
        → IfErr result (FailsToQuery latest_text (key_of unit half) (state S.Store conn.old) (state S.Store conn.new)) }
{
    conn.query_all(LATEST, params![u32::from(unit), u32::from(half)])
}

/// The row of a revision of a unit's half, if there is one.
pub(crate) fn revision<S: Alter>(
    conn: &mut Connection<S>,
    unit: u8,
    half: u16,
    revision: u32,
) -> Result<Vec<Row>, Error>
    ensures rows { HasCleanDisk (state S.Store conn.new)
        → IfOk result (λ rows. Shown revision_text (place_of unit half revision) (state S.Store conn.old) (state S.Store conn.new) rows.items) }
    ensures refused { HasCleanDisk (state S.Store conn.new)
        → IfErr result (FailsToQuery revision_text (place_of unit half revision) (state S.Store conn.old) (state S.Store conn.new)) }
{
    conn.query_all(
        REVISION,
        params![u32::from(unit), u32::from(half), revision],
    )
}

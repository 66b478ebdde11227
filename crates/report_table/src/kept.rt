//! The rows in the table after each statement.

ghost use Rattle.std.specs.Prelude.{◌≡◌, [], ◌∷◌, ◌++◌, List, IsTrue, IfOk, OnOk, OnErr, filter};
ghost use Rattle.sqlite.specs.Held.{state};
ghost use Rattle.sqlite.specs.State.{HasCleanDisk};
ghost use Rattle.report_table.specs.Kept.{KeptRow};
ghost use Rattle.report_table.specs.Given.{kept_as};
ghost use Rattle.report_table.specs.Rows.{HasRows, IsBare};
ghost use Rattle.report_table.specs.Statements.{is_for, is_at, ShowsLast, ShowsOne};

use crate::{FiledRow, statements};
use sqlite::{Alter, Connection, Error, Row};

/// Creates the table, without rows.
pub(crate) fn make<S: Alter>(conn: &mut Connection<S>) -> Result<usize, Error>
    ensures made { HasCleanDisk (state S.Store conn.new) → IsBare (state S.Store conn.old) → OnOk result (HasRows [] (state S.Store conn.new)) }
{
    statements::make(conn)
}

/// Adds the row of a report at the end.
pub(crate) fn insert<S: Alter>(conn: &mut Connection<S>, row: &FiledRow) -> Result<usize, Error>
    ensures put { HasCleanDisk (state S.Store conn.new) → (rows : List KeptRow) → HasRows rows (state S.Store conn.old)
        → OnOk result (HasRows (rows ++ kept_as row.now ∷ []) (state S.Store conn.new)) }
    ensures kept { HasCleanDisk (state S.Store conn.new) → (rows : List KeptRow) → HasRows rows (state S.Store conn.old)
        → OnErr result (IsTrue (state S.Store conn.new).is_open → HasRows rows (state S.Store conn.new)) }
{
    statements::insert(conn, row)
}

/// The row of a unit's half with the greatest revision, if there is one.
pub(crate) fn latest<S: Alter>(
    conn: &mut Connection<S>,
    unit: u8,
    half: u16,
) -> Result<Vec<Row>, Error>
    ensures shows { HasCleanDisk (state S.Store conn.new) → (rows : List KeptRow) → HasRows rows (state S.Store conn.old)
        → IfOk result (λ shown. ShowsLast (filter (is_for unit half) rows) shown.items) }
    ensures kept { HasCleanDisk (state S.Store conn.new) → (rows : List KeptRow) → HasRows rows (state S.Store conn.old)
        → IsTrue (state S.Store conn.new).is_open → HasRows rows (state S.Store conn.new) }
{
    statements::latest(conn, unit, half)
}

/// The row of a revision of a unit's half, if there is one.
pub(crate) fn revision<S: Alter>(
    conn: &mut Connection<S>,
    unit: u8,
    half: u16,
    revision: u32,
) -> Result<Vec<Row>, Error>
    ensures shows { HasCleanDisk (state S.Store conn.new) → (rows : List KeptRow) → HasRows rows (state S.Store conn.old)
        → IfOk result (λ shown. ShowsOne (filter (is_at unit half revision) rows) shown.items) }
    ensures kept { HasCleanDisk (state S.Store conn.new) → (rows : List KeptRow) → HasRows rows (state S.Store conn.old)
        → IsTrue (state S.Store conn.new).is_open → HasRows rows (state S.Store conn.new) }
{
    statements::revision(conn, unit, half, revision)
}

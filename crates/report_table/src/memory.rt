//! The statements on a store in memory, which is always clean and never closed.

ghost use Rattle.std.specs.Prelude.{◌≡◌, [], ◌∷◌, ◌++◌, Some, IfOk, OnOk, OnErr, filter};
ghost use Rattle.sqlite.specs.Held.{state};
ghost use Rattle.sqlite.specs.Steps.{over_memory};
ghost use Rattle.report_table.specs.Given.{kept_as};
ghost use Rattle.report_table.specs.Rows.{HasRows, rows_of, IsKept};
ghost use Rattle.report_table.specs.Statements.{is_for, is_at, ShowsLast, ShowsOne};

use crate::{FiledRow, kept};
use sqlite::{Connection, Error, MemStore, Row};
use std::alloc::Global;

/// A store with the table, without rows.
pub(crate) fn begun(alloc: Global) -> Result<Connection<MemStore>, Error>
    ensures empty { IfOk result (λ conn. HasRows [] (state over_memory conn)) }
{
    let mut conn = Connection::open_in_memory(alloc)?;
    kept::make(&mut conn)?;
    Ok(conn)
}

/// Adds a row at the end.
pub(crate) fn insert(conn: &mut Connection<MemStore>, row: &FiledRow) -> Result<usize, Error>
    requires kept { IsKept (Some conn.old) }
    ensures kept { IsKept (Some conn.new) }
    ensures put { OnOk result (rows_of (Some conn.new) ≡ rows_of (Some conn.old) ++ kept_as row.now ∷ []) }
    ensures unchanged { OnErr result (rows_of (Some conn.new) ≡ rows_of (Some conn.old)) }
{
    kept::insert(conn, row)
}

/// The row of a unit's half with the greatest revision, if there is one.
pub(crate) fn latest(
    conn: &mut Connection<MemStore>,
    unit: u8,
    half: u16,
) -> Result<Vec<Row>, Error>
    requires kept { IsKept (Some conn.old) }
    ensures kept { IsKept (Some conn.new) }
    ensures unchanged { rows_of (Some conn.new) ≡ rows_of (Some conn.old) }
    ensures shows { IfOk result (λ shown. ShowsLast (filter (is_for unit half) (rows_of (Some conn.old))) shown.items) }
{
    kept::latest(conn, unit, half)
}

/// The row of a revision of a unit's half, if there is one.
pub(crate) fn revision(
    conn: &mut Connection<MemStore>,
    unit: u8,
    half: u16,
    revision: u32,
) -> Result<Vec<Row>, Error>
    requires kept { IsKept (Some conn.old) }
    ensures kept { IsKept (Some conn.new) }
    ensures unchanged { rows_of (Some conn.new) ≡ rows_of (Some conn.old) }
    ensures shows { IfOk result (λ shown. ShowsOne (filter (is_at unit half revision) (rows_of (Some conn.old))) shown.items) }
{
    kept::revision(conn, unit, half, revision)
}

ghost use Rattle.std.specs.Prelude.{◌≡◌, [], Some, IfOk, OnErr};
ghost use Rattle.report_table.specs.Rows.{rows_of, IsKept};

use crate::filed_row::first_of;
use crate::{Error, FiledRow, Table, memory};
use sqlite::{Connection, MemStore};
use std::alloc::Global;
use std::marker::Model;

/// The table in memory, as long as this value lives. In contracts it is its rows, in the order in which they were added.
#[derive(Drop)]
pub struct InMemory {
    conn: Option<Connection<MemStore>>,
    steps: Option<u64>,
}

impl Model for InMemory {
    ghost use Rattle.std.specs.Prelude.{List};
    ghost use Rattle.report_table.specs.Kept.{KeptRow};
    ghost use Rattle.report_table.specs.Rows.{rows_of, IsKept};

    ghost Value = { List KeptRow };

    ghost view = { λ t. rows_of t.conn };

    ghost invariant = { λ t. IsKept t.conn };
}

impl InMemory {
    /// The table without rows. Allocates nothing.
    pub fn new() -> InMemory
        ensures value { result ≡ [] }
    {
        InMemory {
            conn: None,
            steps: None,
        }
    }
}

/// The store, which is created if it does not exist yet.
fn opened(
    alloc: Global,
    conn: Option<Connection<MemStore>>,
    steps: Option<u64>,
) -> Result<Connection<MemStore>, Error>
    requires kept { IsKept conn }
    ensures kept { IfOk result (λ c. IsKept (Some c)) }
    ensures same { IfOk result (λ c. rows_of (Some c) ≡ rows_of conn) }
    ensures none { OnErr result (rows_of conn ≡ []) }
{
    let mut conn = match conn {
        Some(conn) => conn,
        None => memory::begun(alloc)?,
    };
    conn.set_step_limit(steps);
    Ok(conn)
}

impl Table for InMemory {
    ghost rows = { λ t. Some t };

    fn set_step_limit(&mut self, steps: Option<u64>) {
        self.steps = steps;
    }

    fn insert(&mut self, alloc: Global, row: &FiledRow) -> Result<(), Error> {
        let mut conn = opened(alloc, self.conn.take(), self.steps)?;
        let ran = memory::insert(&mut conn, row);
        self.conn = Some(conn);
        let _one = ran?;
        Ok(())
    }

    fn latest(&mut self, alloc: Global, unit: u8, half: u16) -> Result<Option<FiledRow>, Error> {
        let mut conn = opened(alloc, self.conn.take(), self.steps)?;
        let ran = memory::latest(&mut conn, unit, half);
        self.conn = Some(conn);
        first_of(unit, half, &ran?)
    }

    fn revision(
        &mut self,
        alloc: Global,
        unit: u8,
        half: u16,
        revision: u32,
    ) -> Result<Option<FiledRow>, Error> {
        let mut conn = opened(alloc, self.conn.take(), self.steps)?;
        let ran = memory::revision(&mut conn, unit, half, revision);
        self.conn = Some(conn);
        first_of(unit, half, &ran?)
    }
}

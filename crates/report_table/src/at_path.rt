ghost use Rattle.std.specs.Prelude.{None};

use crate::filed_row::first_of;
use crate::{Error, FiledRow, Table, statements};
use sqlite::{Connection, File, FileStore};
use std::alloc::Global;
use std::fs;

/// The table in the file at a path. The first call that needs the file opens it. `insert` creates a missing file; a
/// select creates none, and finds no row. The table does not expose its rows, since opening a file does not show which rows it has.
#[derive(Drop)]
pub struct AtPath {
    rt: HostRuntime,
    path: String,
    conn: Option<Connection<FileStore<File>>>,
    steps: Option<u64>,
}

impl AtPath {
    /// The table in the file at this path. It opens nothing.
    pub fn new(rt: HostRuntime, path: String) -> AtPath {
        AtPath {
            rt,
            path,
            conn: None,
            steps: None,
        }
    }

    /// The connection to the file, which is opened if it is not open yet.
    fn opened(&mut self) -> Result<Connection<FileStore<File>>, Error> {
        let mut conn = match self.conn.take() {
            Some(conn) => conn,
            None => begun(&self.rt, self.path.as_str())?,
        };
        conn.set_step_limit(self.steps);
        Ok(conn)
    }

    /// Whether the file is known to be missing. If it is not known, opening it decides.
    fn is_missing(&self) -> bool {
        self.conn.is_none() && matches!(fs::exists(&self.rt, self.path.as_str()), Ok(false))
    }
}

/// A connection to a file, with the table.
fn begun(rt: &HostRuntime, path: &str) -> Result<Connection<FileStore<File>>, Error> {
    let mut conn = Connection::open(rt, path)?;
    statements::make(&mut conn)?;
    Ok(conn)
}

impl Table for AtPath {
    ghost rows = { λ t. None };

    fn set_step_limit(&mut self, steps: Option<u64>) {
        self.steps = steps;
    }

    fn insert(&mut self, _alloc: Global, row: &FiledRow) -> Result<(), Error> {
        let mut conn = self.opened()?;
        let ran = statements::insert(&mut conn, row);
        self.conn = Some(conn);
        let _one = ran?;
        Ok(())
    }

    fn latest(&mut self, _alloc: Global, unit: u8, half: u16) -> Result<Option<FiledRow>, Error> {
        if self.is_missing() {
            return Ok(None);
        }
        let mut conn = self.opened()?;
        let ran = statements::latest(&mut conn, unit, half);
        self.conn = Some(conn);
        first_of(unit, half, &ran?)
    }

    fn revision(
        &mut self,
        _alloc: Global,
        unit: u8,
        half: u16,
        revision: u32,
    ) -> Result<Option<FiledRow>, Error> {
        if self.is_missing() {
            return Ok(None);
        }
        let mut conn = self.opened()?;
        let ran = statements::revision(&mut conn, unit, half, revision);
        self.conn = Some(conn);
        first_of(unit, half, &ran?)
    }
}

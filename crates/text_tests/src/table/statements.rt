use crate::shared::path_of;
use report_table::{AtPath, Error, ErrorCode, FiledRow, InMemory, Table};
use sqlite::Connection;
use std::alloc::Global;
use std::fs;
use std::test::Fail;

/// A row of unit 1 with this half and revision, and this byte for its shutdowns.
fn row(alloc: Global, half: u16, revision: u32, stops: u8) -> Result<FiledRow, Fail> {
    Ok(FiledRow {
        unit: 1,
        half,
        revision,
        day: 19_813,
        months: vec![in alloc; 0, 255]?,
        delays: Vec::new(alloc),
        stops: vec![in alloc; stops]?,
    })
}

/// The revision and the shutdowns of the row that is found.
fn found<T: Table>(
    alloc: Global,
    table: &mut T,
    half: u16,
) -> Result<Option<(u32, Vec<u8>)>, Error> {
    Ok(
        table
            .latest(alloc, 1, half)?
            .map(|row| (row.revision, row.stops)),
    )
}

#[test]
fn the_greatest_revision_is_found(rt: HostRuntime) -> Result<(), Fail> {
    let alloc = rt.alloc();
    let mut table = InMemory::new();
    assert!(rt; found(alloc, &mut table, 8).ok().ok_or("refused")?.is_none());
    // The half, the revision and the shutdowns of a row that is added, and whether it is accepted.
    let cases = [
        (8, 2, 7, true),
        (8, 10, 8, true),
        (8, 9, 9, true),
        (9, 11, 10, true),
        (8, 10, 11, false),
    ];
    for (half, revision, stops, taken) in cases {
        let put = table.insert(alloc, &row(alloc, half, revision, stops)?);
        assert_eq!(rt; put.is_ok(), taken);
    }
    let last = found(alloc, &mut table, 8)
        .ok()
        .ok_or("refused")?
        .ok_or("none")?;
    assert_eq!(rt; last.0, 10);
    assert_eq!(rt; last.1.as_slice(), [8].as_slice());
    Ok(())
}

#[test]
fn a_statement_past_the_limit_on_steps_is_refused(rt: HostRuntime) -> Result<(), Fail> {
    let alloc = rt.alloc();
    let mut table = InMemory::new();
    assert!(rt; table.insert(alloc, &row(alloc, 8, 1, 7)?).is_ok());
    table.set_step_limit(Some(0));
    let interrupted = Err(Error::SqliteFailure(ErrorCode::OperationInterrupted));
    assert_eq!(rt; table.insert(alloc, &row(alloc, 8, 2, 8)?), interrupted);
    table.set_step_limit(None);
    let last = found(alloc, &mut table, 8)
        .ok()
        .ok_or("refused")?
        .ok_or("none")?;
    assert_eq!(rt; last.0, 1);
    Ok(())
}

/// Creates a table at a path, with a row whose revision is past the greatest number.
fn spoil(rt: &HostRuntime, path: &str) -> Result<(), Error> {
    Connection::open(rt, path)?.execute_batch(
        "CREATE TABLE filed (unit INTEGER NOT NULL, half INTEGER NOT NULL, revision INTEGER NOT NULL, day INTEGER NOT NULL, months BLOB NOT NULL, delays BLOB NOT NULL, stops BLOB NOT NULL, PRIMARY KEY (unit, half, revision)) STRICT; INSERT INTO filed VALUES (1, 8, 5000000000, 19813, x'00', x'', x'')",
    )
}

/// The table at a path.
fn at_path(rt: &HostRuntime, path: &str) -> Result<AtPath, Fail> {
    Ok(AtPath::new(*rt, String::from_str(rt.alloc(), path)?))
}

#[test]
fn no_row_is_found_where_it_does_not_read_back(rt: HostRuntime) -> Result<(), Fail> {
    let alloc = rt.alloc();
    let path = path_of(&rt, "spoiled")?;
    let path = path.as_str();
    assert!(rt; spoil(&rt, path).is_ok());
    assert!(rt; found(alloc, &mut at_path(&rt, path)?, 8).is_err());
    assert!(rt; found(alloc, &mut at_path(&rt, path)?, 9).is_ok());
    Ok(fs::remove_file(&rt, path)?)
}

#[test]
fn no_file_is_made_by_a_question(rt: HostRuntime) -> Result<(), Fail> {
    let alloc = rt.alloc();
    let mut table = at_path(&rt, "/no such folder/filed")?;
    assert!(rt; found(alloc, &mut table, 8).is_ok());
    let row = row(alloc, 8, 1, 0)?;
    assert!(rt; table.insert(alloc, &row).is_err());
    Ok(())
}

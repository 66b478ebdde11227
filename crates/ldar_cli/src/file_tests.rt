use crate::FileDisk;
use disk_model::Disk;
use std::alloc::Global;
use std::test::Fail;
use std::{env, fs, process};

// A path in the folder for temporary files, which only this process uses.
fn path(rt: &HostRuntime, name: &str) -> Result<String, Fail> {
    let folder = env::temp_dir(rt)?;
    let number = process::id(rt.process());
    Ok(format!(in rt.alloc(); "{}/{name}.{number}", folder.as_str())?)
}

// The bytes of the file, as a disk reads them.
fn read(disk: &mut FileDisk<'_, HostRuntime>, alloc: Global) -> Result<Vec<u8>, Fail> {
    let mut bytes = Vec::from_slice(alloc, &[0; 40])?;
    let Ok(count) = disk.read_at(0, &mut bytes) else {
        return Err(Fail::new("a read failed"));
    };
    bytes.truncate(count);
    Ok(bytes)
}

#[test]
fn one_disk_has_a_file_at_a_time(rt: HostRuntime) -> Result<(), Fail> {
    let path = path(&rt, "locked")?;
    let mut first = FileDisk::new(&rt, path.as_str());
    let mut second = FileDisk::new(&rt, path.as_str());
    assert!(rt; first.write_at(0, b"first").is_ok());
    assert!(rt; second.read_at(0, &mut [0; 5]).is_err());
    assert!(rt; second.write_at(0, b"second").is_err());
    assert!(rt; second.sync().is_err());
    drop(first);
    assert_eq!(rt;
        read(&mut second, rt.alloc())?.as_slice(),
        b"first".as_slice()
    );
    Ok(fs::remove_file(&rt, path.as_str())?)
}

// bench/fault_cases.py runs this test with a sync that fails. The test ignores the result of that sync and checks the calls after it.
#[test]
fn a_file_is_synced_again(rt: HostRuntime) -> Result<(), Fail> {
    let path = path(&rt, "synced")?;
    let mut disk = FileDisk::new(&rt, path.as_str());
    assert!(rt; disk.write_at(0, b"0123456789").is_ok());
    let _ = disk.sync();
    assert!(rt; disk.sync().is_ok());
    assert!(rt; disk.write_at(20, b"abc").is_ok());
    assert!(rt; disk.write_at(12, b"xy").is_ok());
    let _ = disk.sync();
    assert!(rt; disk.sync().is_ok());
    assert_eq!(rt;
        read(&mut disk, rt.alloc())?.as_slice(),
        b"0123456789\0\0xy\0\0\0\0\0\0abc".as_slice()
    );
    Ok(fs::remove_file(&rt, path.as_str())?)
}

#[test]
fn a_file_that_may_not_be_written_is_read(rt: HostRuntime) -> Result<(), Fail> {
    let path = path(&rt, "shut")?;
    fs::write(&rt, path.as_str(), "kept")?;
    let mut permissions = fs::metadata(&rt, path.as_str())?.permissions();
    permissions.set_readonly(true);
    fs::set_permissions(&rt, path.as_str(), permissions)?;
    let mut disk = FileDisk::new(&rt, path.as_str());
    assert_eq!(rt; read(&mut disk, rt.alloc())?.as_slice(), b"kept".as_slice());
    assert!(rt; disk.sync().is_ok());
    // (a user who may write every file can write this one too)
    let written = disk.write_at(0, b"lost").is_ok();
    let left = if written { b"lost" } else { b"kept" };
    assert_eq!(rt; read(&mut disk, rt.alloc())?.as_slice(), left.as_slice());
    Ok(fs::remove_file(&rt, path.as_str())?)
}

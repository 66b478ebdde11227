ghost use Rattle.std.specs.Prelude.{◌≤◌, length, IfSome};

use std::fs::{File, OpenOptions};
use std::io;
use std::io::ErrorKind;
use std::os::fd::AsRawFd;
use std::os::unix::fs::FileExt;
use std::path::Path;
use std::rt::Files;

/// The number of bytes that are written again at a time after a failed sync.
const PIECE: usize = 4096;

/// A file that is opened at its first use and locked until it is dropped, so only one process can use it at a time.
#[derive(Drop)]
pub struct JournalFile<'a, R: Files<File = File> + AllocGlobal> {
    rt: &'a R,
    path: &'a str,
    file: Option<File>,
    /// What the last successful sync does not cover. At first it is everything, since an earlier process may have left unsynced bytes.
    unsynced: Range,
    /// The last sync failed, and none has succeeded since.
    failed: bool,
    folder: Folder,
}

/// Places in the file, from `start` to before `end`.
#[derive(Clone, Copy)]
struct Range {
    start: u64,
    end: u64,
}

/// What is known about the folder that contains the file.
#[derive(Clone, Copy, PartialEq, Eq)]
enum Folder {
    Unsynced,
    Synced,
    /// A sync of it failed. A later sync could succeed although the file's name is lost.
    Doubtful,
}

impl<'a, R: Files<File = File> + AllocGlobal> JournalFile<'a, R> {
    pub fn new(rt: &'a R, path: &'a str) -> JournalFile<'a, R> {
        JournalFile {
            rt,
            path,
            file: None,
            unsynced: Range {
                start: 0,
                end: u64::MAX,
            },
            failed: false,
            folder: Folder::Unsynced,
        }
    }

    /// Opens and locks the file. It never uses descriptors 0 to 2, which belong to the standard streams.
    fn open(&mut self) -> io::Result<()> {
        if self.file.is_some() {
            return Ok(());
        }
        let file = opened(self.rt, self.path)?;
        if file.as_raw_fd() <= 2 {
            return Err(io::Error::from(ErrorKind::InvalidInput));
        }
        file.try_lock()?;
        self.file = Some(file);
        Ok(())
    }

    pub fn read(&mut self, at: u64, into: &mut [u8]) -> Option<usize>
        ensures within { IfSome result (λ n. n ≤ length into.old) }
    {
        if self.open().is_err() {
            return None;
        }
        match &self.file {
            Some(file) => read_once(file, at, into),
            None => None,
        }
    }

    pub fn write(&mut self, at: u64, bytes: &[u8]) -> io::Result<()> {
        self.open()?;
        let end = at.saturating_add(bytes.len() as u64);
        self.unsynced = self.unsynced.with(Range { start: at, end });
        match &self.file {
            Some(file) => file.write_all_at(bytes, at),
            None => Ok(()),
        }
    }

    /// Makes the bytes and the length durable. The first sync also makes the file's name in its folder durable, whichever process
    /// created the file.
    pub fn sync(&mut self) -> io::Result<()> {
        self.open()?;
        if let Some(file) = &self.file {
            if self.failed {
                write_again(file, self.unsynced)?;
            }
            self.failed = true;
            file.sync_all()?;
            self.failed = false;
            self.unsynced = Range { start: 0, end: 0 };
        }
        self.sync_folder_once()
    }

    fn sync_folder_once(&mut self) -> io::Result<()> {
        match self.folder {
            Folder::Synced => Ok(()),
            Folder::Doubtful => Err(io::Error::from(ErrorKind::Other)),
            Folder::Unsynced => {
                self.folder = Folder::Doubtful;
                sync_folder(self.rt, self.path)?;
                self.folder = Folder::Synced;
                Ok(())
            }
        }
    }
}

impl Range {
    /// The smallest range that contains both.
    fn with(self, other: Range) -> Range {
        if self.start >= self.end {
            return other;
        }
        Range {
            start: self.start.min(other.start),
            end: self.end.max(other.end),
        }
    }
}

/// Opens the file, or creates it if it does not exist. If it may not be written, it is opened read-only.
fn opened<R: Files<File = File>>(rt: &R, path: &str) -> io::Result<File> {
    match OpenOptions::new().read(true).write(true).open(rt, path) {
        Ok(file) => Ok(file),
        Err(error) => match error.kind() {
            ErrorKind::NotFound => made(rt, path),
            ErrorKind::PermissionDenied | ErrorKind::ReadOnlyFilesystem => File::open(rt, path),
            _ => Err(error),
        },
    }
}

fn made<R: Files<File = File>>(rt: &R, path: &str) -> io::Result<File> {
    OpenOptions::new()
        .read(true)
        .write(true)
        .create(true)
        .open(rt, path)
}

/// Reads once. Tries again if a signal interrupts the read.
fn read_once(file: &File, at: u64, into: &mut [u8]) -> Option<usize>
    ensures within { IfSome result (λ n. n ≤ length into.old) }
{
    for _ in 0..u64::MAX {
        match file.read_at(into, at) {
            Ok(read) => return Some(read),
            Err(error) => {
                if error.kind() != ErrorKind::Interrupted {
                    return None;
                }
            }
        }
    }
    None
}

/// Writes the bytes of a range again, piece by piece. After a failed sync the system may count these bytes as written although
/// they never reached the disk, so another sync would skip them.
fn write_again(file: &File, range: Range) -> io::Result<()> {
    let end = range.end.min(file.metadata()?.len());
    let mut at = range.start;
    let mut piece = [0u8; PIECE];
    for _ in 0..u64::MAX {
        let most = usize::try_from(end.saturating_sub(at)).unwrap_or(PIECE);
        let most = most.min(PIECE);
        match read_once(file, at, &mut piece[..most]) {
            None => return Err(io::Error::from(ErrorKind::Other)),
            Some(0) => return Ok(()),
            Some(read) => {
                file.write_all_at(&piece[..read], at)?;
                at = at.saturating_add(read as u64);
            }
        }
    }
    Err(io::Error::from(ErrorKind::Other))
}

/// Syncs the folder that contains the file. If the path is a symbolic link, it is the folder of the file that the link leads to.
fn sync_folder<R: Files<File = File> + AllocGlobal>(rt: &R, path: &str) -> io::Result<()> {
    if std::fs::symlink_metadata(rt, path)?
        .file_type()
        .is_symlink()
    {
        let resolved = std::fs::canonicalize(rt, path)?;
        return sync_parent(rt, resolved.as_path());
    }
    sync_parent(rt, Path::new(path))
}

fn sync_parent<R: Files<File = File>>(rt: &R, path: Path<'_>) -> io::Result<()> {
    let folder = match path.parent() {
        Some(folder) => folder.to_str().unwrap_or("."),
        None => ".",
    };
    let folder = if folder.is_empty() { "." } else { folder };
    File::open(rt, folder)?.sync_all()
}

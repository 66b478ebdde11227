use office_commands::Status;
use std::fs::File;
use std::io;
use std::os::fd::{AsFd, AsRawFd};
use std::rt::Files;

// EBADF on Linux: the number is not an open descriptor.
const NOT_OPEN: i32 = 9;

/// Makes sure that descriptors 0, 1 and 2 are in use before any other file is opened. Otherwise a file could get the number of a
/// closed stream, and would be read as the input or have the replies written to it. Each read and write of a closed stream's
/// stand-in fails. If there is no stand-in, this returns the read or write error of that stream.
pub fn hold_descriptors(rt: &HostRuntime) -> Result<[Option<File>; 3], Status> {
    let input = stand_in(rt, &rt.stdin(), Status::ReadFault)?;
    let output = stand_in(rt, &rt.stdout(), Status::WriteFault)?;
    let notes = stand_in(rt, &rt.stderr(), Status::WriteFault)?;
    Ok([input, output, notes])
}

/// A file in place of a closed stream: the root folder, which exists in every file system and whose bytes cannot be read or
/// written. The system gives it the lowest free descriptor.
fn stand_in<R: Files<File = File>, S: AsFd + AsRawFd>(
    rt: &R,
    stream: &S,
    fault: Status,
) -> Result<Option<File>, Status> {
    if is_open(stream) {
        return Ok(None);
    }
    match File::open(rt, "/") {
        Ok(file) => {
            if file.as_raw_fd() == stream.as_raw_fd() {
                Ok(Some(file))
            } else {
                Err(fault)
            }
        }
        Err(_) => Err(fault),
    }
}

/// Whether a stream is open. Duplicating an open stream can also fail, if too many files are open.
fn is_open<S: AsFd>(stream: &S) -> bool {
    match stream.as_fd().try_clone_to_owned() {
        Ok(_) => true,
        Err(error) => is_of_open(&error),
    }
}

fn is_of_open(error: &io::Error) -> bool {
    error.raw_os_error() != Some(NOT_OPEN)
}

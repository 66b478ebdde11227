//! The leak detection and repair office of a refinery, as a command: its words, files and streams.
#![tactic(auto)]

mod file_disk;
#[cfg(test)]
mod file_tests;
mod held;
mod journal_file;
mod service;
#[cfg(test)]
mod socket_tests;
mod sockets;
mod streams;

use disk_model::{Disk, MemoryDisk};
pub use file_disk::FileDisk;
use office_commands::{Status, run};
use office_server::serve;
use report_filing::Filing;
use report_table::{AtPath, InMemory, TableFiling};
use service::{asks_service, fronts_of, note};
pub use sockets::{TcpFront, TcpIn, TcpOut};
use std::process::ExitCode;
use std::{env, io};
pub use streams::{StdSink, StdSource};

const HELP: &str = "usage: ldar JOURNAL COMMAND

The leak detection and repair office of a refinery (40 CFR 60 Subpart VVa). It keeps
batches of facts in a journal, and shows what is due, what leaks and what to report.

JOURNAL  the path of a journal, or :memory: for one that is discarded after the run

COMMAND  init                           makes an empty journal
         dock                           keeps the batches it reads, and prints a line for each
         drain                          answers the HTTP requests it reads
         serve PORT WORKERS             answers HTTP requests of WORKERS clients at the same time
         import NUMBER units            keeps the process units it reads (TOML)
         import NUMBER components       keeps the components it reads (CSV)
         show due|tags|delays UNIT DAY  shows what is due, the leak tags, or delays of repair
         show route UNIT DAY STOPS      shows routes of at most STOPS components
         show percent UNIT QUARTER DAY  shows the percent leaking in a quarter
         show report UNIT HALF DAY      shows the semiannual report
         seals UNIT DAY                 shows the sealed pumps it reads (CSV)
         file UNIT HALF DAY             files that report in JOURNAL.filed
         amended UNIT HALF FROM TO      shows what differs between two filed revisions
         check                          prints the number of batches and facts
         drill N SIZE                   a trial with SIZE valves
         offer FROM                     writes the batches after the first FROM
         mirror                         keeps what `offer` writes

PORT is 1 to 65535, on 127.0.0.1; WORKERS is 1 to 64. SIGTERM ends serve at once, and no batch
that was receipted is lost.
UNIT is 0 to 255, DAY is like 2024-02-29. QUARTER and HALF count from 1, the unit's first;
the revisions FROM and TO count from 1 too.
An import numbers its batches from NUMBER. N is 1 to 9999, and SIZE 1 to 20000.
No word of a command may begin with a hyphen.

STATUS   0  done                        7  not a journal, or damaged, or it breaks a rule
         2  not a command               8  input cut short, bad or too large
         3  read error                  9  init, drill: the file is not empty
         4  write error                10  error of the filed reports
         5  disk error                 11  no such thing, bad row, batch not kept,
         6  out of memory                  or a report that is already on file
                                       12  serve: no connection can be accepted

A line on standard error says more. docs/ldar.1 is the manual, docs/FORMATS.md describes
input and output, and docs/HANDHELDS.md is for people who write handheld software.
";

const VERSION: &str = "ldar 0.1.0\n";

fn main(rt: HostRuntime) -> ExitCode {
    match held::hold_descriptors(&rt) {
        Ok(held) => {
            let status = match words_of(&rt) {
                Ok(words) if asks_service(&words) => {
                    // Only `main` can start threads, so the disk is picked here.
                    let status = match (fronts_of(&rt, &words[2..]), words[1].as_str()) {
                        (Err(_), _) => Status::Memory.number(),
                        (Ok(mut fronts), ":memory:") => match MemoryDisk::new(
                            rt.alloc(),
                            &[],
                            &[],
                        ) {
                            Ok(mut disk) => serve(
                                &rt,
                                rt.alloc(),
                                &words[2..],
                                &mut fronts,
                                &mut disk,
                            ),
                            Err(_) => Status::Memory.number(),
                        },
                        (Ok(mut fronts), path) => {
                            let mut disk = FileDisk::new(&rt, path);
                            serve(&rt, rt.alloc(), &words[2..], &mut fronts, &mut disk)
                        }
                    };
                    note(&rt, status);
                    status
                }
                Ok(words) => office(&rt, &words),
                Err(status) => status,
            };
            drop(held);
            ExitCode::from(status)
        }
        Err(status) => ExitCode::from(status.number()),
    }
}

/// The words of the command line, or the status of words that could not be read.
fn words_of(rt: &HostRuntime) -> Result<Vec<String>, u8> {
    let args = match env::args(rt) {
        Ok(args) => args,
        Err(error) => return Err(unread(rt, error.kind())),
    };
    let mut words: Vec<String> = Vec::new(rt.alloc());
    for word in args {
        if words.push(word).is_err() {
            return Err(Status::Memory.number());
        }
    }
    Ok(words)
}

/// Reports words that could not be read: out of memory, or a word that is not text, so not a command.
fn unread(rt: &HostRuntime, kind: io::ErrorKind) -> u8 {
    match kind {
        io::ErrorKind::OutOfMemory => Status::Memory.number(),
        _ => in_memory(rt, &[]),
    }
}

/// Runs the words of the command line. The first is the program's own name.
fn office(rt: &HostRuntime, words: &[String]) -> u8 {
    let Some(journal) = words.get(1) else {
        return in_memory(rt, &[]);
    };
    match journal.as_str() {
        "--help" => shown(rt, HELP),
        "--version" => shown(rt, VERSION),
        ":memory:" => in_memory(rt, &words[2..]),
        path => at_path(rt, &words[2..], path),
    }
}

/// Runs a command over the journal at a path. Filed reports are in a file beside it, at its path with `.filed` added. That file is
/// made when a report is first filed; `amended` asks for reports and makes none.
fn at_path(rt: &HostRuntime, words: &[String], path: &str) -> u8 {
    let Ok(filed) = format!(in rt.alloc(); "{path}.filed") else {
        return Status::Memory.number();
    };
    let mut filing = TableFiling::new(AtPath::new(*rt, filed));
    with_disk(rt, words, &mut FileDisk::new(rt, path), &mut filing)
}

/// Prints a text of the program itself.
fn shown(rt: &HostRuntime, text: &str) -> u8 {
    match rt.print(text) {
        Ok(()) => 0,
        Err(_) => 4,
    }
}

/// Runs a command over a journal and filed reports in memory.
fn in_memory(rt: &HostRuntime, words: &[String]) -> u8 {
    match MemoryDisk::new(rt.alloc(), &[], &[]) {
        Ok(mut disk) => with_disk(rt, words, &mut disk, &mut TableFiling::new(InMemory::new())),
        Err(_) => 6,
    }
}

fn with_disk<D: Disk, F: Filing>(
    rt: &HostRuntime,
    words: &[String],
    disk: &mut D,
    filing: &mut F,
) -> u8 {
    let mut input = StdSource::new(rt.stdin(), rt);
    let mut output = StdSink::new(rt.stdout(), rt);
    let mut notes = StdSink::new(rt.stderr(), rt);
    run(
        rt.alloc(),
        words,
        &mut input,
        &mut output,
        &mut notes,
        disk,
        filing,
    )
}

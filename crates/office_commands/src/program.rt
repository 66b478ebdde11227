ghost use Rattle.std.specs.Prelude.{◌≡◌, ◌≤◌, ◌⊎◌, Some, None, false, map};
ghost use Rattle.std.specs.String.{string_bytes};
ghost use Rattle.disk_model.specs.Faults.{Rose};
ghost use Rattle.disk_model.specs.Keeps.{Keeps};
ghost use Rattle.office_commands.specs.declared.command.Command.TheVariants as commands;
ghost use Rattle.office_commands.specs.declared.status.Status.{Status};
ghost use Rattle.office_commands.specs.Command.{command_in};
ghost use Rattle.office_commands.specs.Run.{Ends, IsInRange, task_row, touched_by};
ghost use Rattle.office_commands.specs.Scene.{seen, streams};
ghost use Rattle.office_commands.specs.Statuses.{HasCause, IsNoted};

use crate::amendments::amended;
use crate::command::{Command, Task, command_of};
use crate::drill::drill;
use crate::init::init;
use crate::mirrors::mirror;
use crate::notes::note;
use crate::status::{Status, refusal};
use crate::tasks::do_task;
use disk_model::Disk;
use ldar_ports::{Sink, Source};
use office_book::open_book;
use report_filing::Filing;
use std::alloc::Global;

/// Runs one command over its own source, sinks, disk and filing, and returns the exit status. One line notes how it ended, unless all
/// went well.
pub fn run<S: Source, D: Disk, K: Sink, E: Sink, F: Filing>(
    alloc: Global,
    words: &[String],
    input: &mut S,
    output: &mut K,
    notes: &mut E,
    disk: &mut D,
    filing: &mut F,
) -> u8
    // What the command reads, writes and leaves, by its status, which is noted; or memory ran out while the words were read. A
    // status that reports a fault is reached only where the count of that object rose. For `dock`, `drain` and `import` see
    // `IsDocked`, `IsDrained` and `IsImported`; for `seals` `AreSealsShown`; for `show`, `file`, `check` and `offer` `Answers`; for
    // `amended` `IsCompared`; for `drill` `IsDrilled`; for `mirror` `IsMirrored`.
    ensures ends { (status : Status)
        × IsNoted status (E.pieces notes.old) (E.pieces notes.new) (E.faults notes.old) (E.faults notes.new) result
        × HasCause status (Rose (S.faults input.old) (S.faults input.new)) (Rose (K.faults output.old) (K.faults output.new))
        (Rose (D.faults disk.old) (D.faults disk.new)) (Rose (F.faults filing.old) (F.faults filing.new))
        × (((status ≡ Status.Memory) × (input.new ≡ input.old) × (output.new ≡ output.old) × (filing.new ≡ filing.old) × (disk.new ≡ disk.old))
        ⊎ (let see = seen D.content D.images D.left D.clock D.faults in let at = streams S.left K.pieces K.faults F.on_file in
        Ends (command_in (map string_bytes words.now)) status (at input.old output.old filing.old) (at input.new output.new filing.new)
        (see disk.old) (see disk.new))) }

    // Words that are no command change nothing but the notes.
    ensures unchanged { command_in (map string_bytes words.now) ≡ None
        → (input.new ≡ input.old) × (output.new ≡ output.old) × (disk.new ≡ disk.old) }

    // Which commands read the input, use the disk, ask for filed reports and file one, see `touched_by`. An inquiry that fails counts
    // an error of the filing, and leaves its reports.
    ensures unread { (touched_by (command_in (map string_bytes words.now))).input ≡ false → input.new ≡ input.old }
    ensures disk_unchanged { (touched_by (command_in (map string_bytes words.now))).disk ≡ false → disk.new ≡ disk.old }
    ensures filing_unchanged { (touched_by (command_in (map string_bytes words.now))).filing ≡ false → filing.new ≡ filing.old }
    ensures reports_unchanged { (touched_by (command_in (map string_bytes words.now))).reports ≡ false
        → F.on_file filing.new ≡ F.on_file filing.old }

    // An error is returned only if its own count rose.
    ensures read_fault { result ≡ 3 → Rose (S.faults input.old) (S.faults input.new) }
    ensures write_fault { result ≡ 4
        → Rose (K.faults output.old) (K.faults output.new) ⊎ Rose (E.faults notes.old) (E.faults notes.new) }
    ensures disk_fault { result ≡ 5 → Rose (D.faults disk.old) (D.faults disk.new) }
    ensures filing_fault { result ≡ 10 → Rose (F.faults filing.old) (F.faults filing.new) }
    ensures read_count { S.faults input.old ≤ S.faults input.new }
    ensures write_count { K.faults output.old ≤ K.faults output.new }
    ensures note_count { E.faults notes.old ≤ E.faults notes.new }
    ensures disk_count { D.faults disk.old ≤ D.faults disk.new }
    ensures filing_count { F.faults filing.old ≤ F.faults filing.new }
    ensures time { D.clock disk.old ≤ D.clock disk.new }
{
    let (status, beside) = run_over(alloc, words, input, output, filing, disk);
    note(notes, &beside, status)
}

/// The same over a disk that is handed back, with nothing noted.
fn run_over<S: Source, D: Disk, K: Sink, F: Filing>(
    alloc: Global,
    words: &[String],
    input: &mut S,
    output: &mut K,
    filing: &mut F,
    disk: D,
) -> (Status, D)
    ensures ends { ((result.0 ≡ Status.Memory) × (input.new ≡ input.old) × (output.new ≡ output.old) × (filing.new ≡ filing.old) × (result.1 ≡ disk))
        ⊎ (let see = seen D.content D.images D.left D.clock D.faults in let at = streams S.left K.pieces K.faults F.on_file in
        Ends (command_in (map string_bytes words.now)) result.0 (at input.old output.old filing.old) (at input.new output.new filing.new) (see disk) (see result.1)) }
    ensures unchanged { command_in (map string_bytes words.now) ≡ None
        → (input.new ≡ input.old) × (output.new ≡ output.old) × (result.1 ≡ disk) }
    ensures unread { (touched_by (command_in (map string_bytes words.now))).input ≡ false → input.new ≡ input.old }
    ensures disk_unchanged { (touched_by (command_in (map string_bytes words.now))).disk ≡ false → result.1 ≡ disk }
    ensures filing_unchanged { (touched_by (command_in (map string_bytes words.now))).filing ≡ false → filing.new ≡ filing.old }
    ensures reports_unchanged { (touched_by (command_in (map string_bytes words.now))).reports ≡ false
        → F.on_file filing.new ≡ F.on_file filing.old }
    ensures cause { HasCause result.0 (Rose (S.faults input.old) (S.faults input.new)) (Rose (K.faults output.old) (K.faults output.new))
        (Rose (D.faults disk) (D.faults result.1)) (Rose (F.faults filing.old) (F.faults filing.new)) }
    ensures read_count { S.faults input.old ≤ S.faults input.new }
    ensures write_count { K.faults output.old ≤ K.faults output.new }
    ensures filing_count { F.faults filing.old ≤ F.faults filing.new }
    ensures keeps { Keeps D.clock D.name D.faults disk result.1 }
{
    match command_of(alloc, words) {
        Ok(Some(command)) => run_command(alloc, command, input, output, filing, disk),
        Ok(None) => (Status::Usage, disk),
        Err(_) => (Status::Memory, disk),
    }
}

/// Runs a command that was read.
fn run_command<S: Source, D: Disk, K: Sink, F: Filing>(
    alloc: Global,
    command: Command,
    input: &mut S,
    output: &mut K,
    filing: &mut F,
    disk: D,
) -> (Status, D)
    requires in_range { IsInRange command }
    ensures ends { let see = seen D.content D.images D.left D.clock D.faults in let at = streams S.left K.pieces K.faults F.on_file in
        Ends (Some command) result.0 (at input.old output.old filing.old) (at input.new output.new filing.new) (see disk) (see result.1) }
    ensures unread { (touched_by (Some command)).input ≡ false → input.new ≡ input.old }
    ensures disk_unchanged { (touched_by (Some command)).disk ≡ false → result.1 ≡ disk }
    ensures filing_unchanged { (touched_by (Some command)).filing ≡ false → filing.new ≡ filing.old }
    ensures reports_unchanged { (touched_by (Some command)).reports ≡ false → F.on_file filing.new ≡ F.on_file filing.old }
    ensures cause { HasCause result.0 (Rose (S.faults input.old) (S.faults input.new)) (Rose (K.faults output.old) (K.faults output.new))
        (Rose (D.faults disk) (D.faults result.1)) (Rose (F.faults filing.old) (F.faults filing.new)) }
    ensures read_count { S.faults input.old ≤ S.faults input.new }
    ensures write_count { K.faults output.old ≤ K.faults output.new }
    ensures filing_count { F.faults filing.old ≤ F.faults filing.new }
    ensures keeps { Keeps D.clock D.name D.faults disk result.1 }
{
    match command {
        Command::Init => {
            let mut disk = disk;
            let status = init(&mut disk);
            (status, disk)
        }
        Command::Amended(pair) => {
            let status = amended(alloc, output, filing, &disk, pair);
            (status, disk)
        }
        Command::Drill { seed, size } => drill(alloc, output, disk, seed, size),
        Command::Mirror => mirror(alloc, input, output, disk),
        Command::Office(task) => in_office(alloc, task, input, output, filing, disk),
    }
}

/// Opens the office over the journal of a disk, and does a task in it.
fn in_office<S: Source, D: Disk, K: Sink, F: Filing>(
    alloc: Global,
    task: Task,
    input: &mut S,
    output: &mut K,
    filing: &mut F,
    disk: D,
) -> (Status, D)
    requires in_range { (task_row task).in_range }
    ensures ends { let see = seen D.content D.images D.left D.clock D.faults in let at = streams S.left K.pieces K.faults F.on_file in
        Ends (Some (commands.Office task)) result.0 (at input.old output.old filing.old) (at input.new output.new filing.new) (see disk) (see result.1) }
    ensures unread { (task_row task).touches.input ≡ false → input.new ≡ input.old }
    ensures filing_unchanged { (task_row task).touches.filing ≡ false → filing.new ≡ filing.old }
    ensures reports_unchanged { (task_row task).touches.reports ≡ false → F.on_file filing.new ≡ F.on_file filing.old }
    ensures cause { HasCause result.0 (Rose (S.faults input.old) (S.faults input.new)) (Rose (K.faults output.old) (K.faults output.new))
        (Rose (D.faults disk) (D.faults result.1)) (Rose (F.faults filing.old) (F.faults filing.new)) }
    ensures read_count { S.faults input.old ≤ S.faults input.new }
    ensures write_count { K.faults output.old ≤ K.faults output.new }
    ensures filing_count { F.faults filing.old ≤ F.faults filing.new }
    ensures keeps { Keeps D.clock D.name D.faults disk result.1 }
{
    match open_book(alloc, disk) {
        Ok(mut book) => {
            let status = do_task(alloc, task, &mut book, input, output, filing);
            (status, book.into_disk())
        }
        Err(error) => (refusal(error.why), error.disk),
    }
}

ghost use Rattle.std.specs.Prelude.{◌≡◌};
ghost use Rattle.office_commands.specs.Statuses as spec;

use crate::batches::{Sent, Unkept};
use ldar_law::What;
use ldar_session::Ended;
use office_book::BookWhy;

/// How a command ended.
#[derive(Clone, Copy, Debug, PartialEq, Eq)]
pub enum Status {
    /// It succeeded, and the output was written.
    Done,
    /// The words are no command.
    Usage,
    ReadFault,
    WriteFault,
    DiskFault,
    Memory,
    /// The bytes on the disk do not begin like a journal.
    NotAJournal,
    /// The first bad frame of the journal begins at this place, or it ends there without a closed gate.
    Damaged { at: u64 },
    /// The batch of the journal at this position, from 1, is the first that is denied after those before it, and this rule
    /// denies it.
    Unruly { position: u32, rule: u8 },
    /// The input ended within a batch, of which this many bytes were read.
    CutShort { got: u64 },
    /// No batch continues with the byte at this place of the input, from 0.
    BadInput { at: u64 },
    /// The input is longer than a file that can be read.
    TooLarge,
    /// A journal was to be created on a disk that is not empty.
    NotEmpty,
    /// The first bad row of the file that was read, from 1; or 0 if the file is not a document of its form.
    BadRow { at: u32 },
    /// A batch was sent whose identity is kept at this position with other content.
    Conflict { position: u32 },
    /// A batch was sent that is denied for this fact and by this rule.
    Denied { fact: u16, rule: u8 },
    /// A batch was sent with which there would be this many facts.
    Full { facts: u64 },
    /// What a view or a report was asked for does not exist.
    NoSuch(What),
    /// A call of the filing failed.
    FilingFault,
    /// The report that was to be filed is equal to the last revision, which has this number.
    SameReport { revision: u32 },
    /// A report was to be filed after the revision with the greatest number.
    NoRevisionLeft,
    /// The revision of this number is not on file.
    NoSuchRevision(u32),
    /// The journal has fewer batches than this.
    NoSuchPosition(u32),
    /// The batch at this place of an answer, from 1, is not in the history that a mirror keeps.
    Stranger(u8),
}

impl Status {
    /// The exit status of the program.
    pub fn number(self) -> u8
        ensures value { result ≡ spec.status_number self }
    {
        match self {
            Status::Done => 0,
            Status::Usage => 2,
            Status::ReadFault => 3,
            Status::WriteFault => 4,
            Status::DiskFault => 5,
            Status::Memory => 6,
            Status::NotAJournal | Status::Damaged { .. } | Status::Unruly { .. } => 7,
            Status::CutShort { .. } | Status::BadInput { .. } | Status::TooLarge => 8,
            Status::NotEmpty => 9,
            Status::FilingFault => 10,
            Status::BadRow { .. }
            | Status::Conflict { .. }
            | Status::Denied { .. }
            | Status::Full { .. }
            | Status::NoSuch(_)
            | Status::SameReport { .. }
            | Status::NoRevisionLeft
            | Status::NoSuchRevision(_)
            | Status::NoSuchPosition(_)
            | Status::Stranger(_) => 11,
        }
    }

    /// The exit status if the note on this one could not be written.
    pub fn number_unnoted(self) -> u8
        ensures value { result ≡ spec.number_unnoted self }
    {
        match self.number() {
            0 => 0,
            6 => 6,
            _ => 4,
        }
    }
}

/// The status of a command whose journal was not opened.
pub fn refusal(why: BookWhy) -> Status
    ensures value { result ≡ spec.refusal_of why }
{
    match why {
        BookWhy::Disk => Status::DiskFault,
        BookWhy::NotAJournal => Status::NotAJournal,
        BookWhy::Damaged { at } => Status::Damaged { at },
        BookWhy::Unruly { position, rule } => Status::Unruly { position, rule },
        BookWhy::Memory => Status::Memory,
    }
}

/// The status of a command, from how its connection ended.
pub fn status_of(ended: Ended) -> Status
    ensures value { result ≡ spec.status_of ended }
{
    match ended {
        Ended::Done | Ended::Stopped => Status::Done,
        Ended::CutShort { got } => Status::CutShort { got },
        Ended::Refused { at } => Status::BadInput { at },
        Ended::ReadFault => Status::ReadFault,
        Ended::WriteFault => Status::WriteFault,
        Ended::Memory => Status::Memory,
    }
}

/// The status of a command that sent batches.
pub fn status_sent(sent: &Sent) -> Status
    ensures value { result ≡ spec.status_sent sent.now }
{
    match sent {
        Sent::Done => Status::Done,
        Sent::Unreceipted(unkept) => status_unkept(*unkept),
        Sent::WriteFault => Status::WriteFault,
        Sent::Memory => Status::Memory,
    }
}

/// The status if the last batch was not kept.
fn status_unkept(unkept: Unkept) -> Status
    ensures value { result ≡ spec.status_unkept unkept }
{
    match unkept {
        Unkept::Conflict { position } => Status::Conflict { position },
        Unkept::Denied { fact, rule } => Status::Denied { fact, rule },
        Unkept::Full { facts } => Status::Full { facts },
        Unkept::Fault => Status::DiskFault,
        Unkept::Memory => Status::Memory,
    }
}

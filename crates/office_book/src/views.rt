ghost use Rattle.std.specs.Prelude.{◌≡◌, ◌≤◌, [], ◌∷◌, IfOk};
ghost use Rattle.disk_model.specs.Faults.{Rose};
ghost use Rattle.fact_kinds.specs.Facts.{facts_to};
ghost use Rattle.ldar_journal.specs.Crash.{AnswersInRoom};
ghost use Rattle.ldar_journal.specs.Image.{batches_of};
ghost use Rattle.ldar_law.specs.Machine.{Call};
ghost use Rattle.ldar_law.specs.Shown as law;
ghost use Rattle.ldar_law.specs.Units.{history_of_component};
ghost use Rattle.office_interface.specs.Asking.{requests_of, replies_of, HasRule};
ghost use Rattle.office_book.specs.Moves.{Moves};
ghost use Rattle.office_book.specs.Room.{IsNoFault};
ghost use Rattle.office_book.specs.Safe.{Leads, state_of};
ghost use Rattle.office_book.specs.Serving.{Serves};
ghost use Rattle.office_book.specs.Viewed.{reply_shown};
ghost use Rattle.office_views.specs.Answers.{report_asked, IsShown, IsView, Tells};
ghost use Rattle.office_views.specs.Totals.{totals_asked};

use crate::Memory;
use crate::book::Book;
use disk_model::Disk;
use ldar_days::Day;
use ldar_law::{History, Reply, Report, Request};
use office_views::{AskError, Shown, Totals};
use std::alloc::Global;

impl<D: Disk> Book<D> {
    /// Shows something as of a day. Batches in doubt are settled first; otherwise the disk is not called.
    pub fn view(&mut self, request: &Request) -> Reply
        requires view { IsView request.now }
        ensures value { (call : Call) × Leads D.content D.left D.clock D.name D.faults self.old (call ∷ []) self.new
            × (requests_of call ≡ request.now ∷ []) × (replies_of call ≡ result ∷ [])
            × (call.end.clock ≤ D.clock self.new.disk) }
        ensures ruled { HasRule result }

        // With nothing in doubt, the office is unchanged.
        ensures unchanged { self.old.doubt ≡ [] → self.new ≡ self.old }

        // On a disk with a known room.
        ensures roomy { AnswersInRoom D.room D.clock 2 self.old.disk self.new.disk (λ _. IsNoFault result) }
    {
        if self.settle_first().is_err() {
            return Reply::Fault;
        }
        self.show(request)
    }

    /// What a view shows as of its day, with nothing in doubt. It does not call the disk, and only a text takes memory.
    pub fn shown(&mut self, request: &Request) -> Result<Shown, Memory>
        requires view { IsView request.now }
        requires settled { self.old.doubt ≡ [] }
        ensures value { IsShown result (law.shown (batches_of self.old.frames) request.now) }
        ensures unchanged { self.new ≡ self.old }
    {
        self.archive.show(request)
    }

    /// The reply to a view, with nothing in doubt.
    fn show(&mut self, request: &Request) -> Reply
        requires view { IsView request.now }
        requires settled { self.old.doubt ≡ [] }
        ensures serves { Serves (Rose (D.faults self.old.disk) (D.faults self.new.disk)) (batches_of self.old.frames) (request.now ∷ []) (result ∷ [])
            (state_of self.new) }
        ensures moves { Moves D.content D.images D.left D.clock D.name D.faults self.old self.new 1 }
        ensures unchanged { self.new ≡ self.old }
        ensures no_fault { IsNoFault result }
        ensures ruled { HasRule result }
    {
        self.stands();
        reply_to(self.shown(request))
    }

    /// The report of a half of a process unit as of a day (40 CFR 60.487a(c)), or what does not exist, for which it needs no
    /// memory. Batches in doubt do not count, and the disk is not called.
    pub fn report(
        &mut self,
        _alloc: Global,
        unit: u16,
        half: u16,
        day: Day,
    ) -> Result<Report, AskError>
        ensures value { Tells result (report_asked unit half day (facts_to day (batches_of self.old.frames))) }
        ensures unchanged { self.new ≡ self.old }
    {
        self.archive.report(unit, half, day)
    }

    /// How many lines the lists of a process unit have as of a day, or `None` if there is no such unit. Batches in doubt do
    /// not count, and the disk is not called.
    pub fn totals(&mut self, unit: u16, day: Day) -> Result<Option<Totals>, Memory>
        ensures value { IfOk result (λ totals. totals ≡ totals_asked unit day (facts_to day (batches_of self.old.frames))) }
        ensures unchanged { self.new ≡ self.old }
    {
        self.archive.totals(unit, day)
    }

    /// A component with its judged events as of a day, or `None` if no fact has entered it by then. Batches in doubt do not count, and the
    /// disk is not called.
    pub fn events(
        &mut self,
        _alloc: Global,
        component: u16,
        day: Day,
    ) -> Result<Option<History>, Memory>
        ensures value { IfOk result (λ history. history ≡ history_of_component component (facts_to day (batches_of self.old.frames))) }
        ensures unchanged { self.new ≡ self.old }
    {
        self.archive.events(component, day)
    }
}

/// The reply with what is shown, or `Memory` if it ran out of memory.
fn reply_to(shown: Result<Shown, Memory>) -> Reply
    ensures value { result ≡ reply_shown shown }
{
    match shown {
        Ok(Shown::Text(text)) => Reply::Shown(text),
        Ok(Shown::NoSuch(what)) => Reply::NoSuch(what),
        Err(_) => Reply::Memory,
    }
}
